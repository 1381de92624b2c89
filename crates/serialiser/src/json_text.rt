//! A text as JSON.

ghost use Rattle.std.specs.Prelude.{◌≡◌, ◌++◌, IfOk};
ghost use Rattle.std.specs.Str.{chars};
ghost use Rattle.serial.specs.Dump.{json_string};

use html_types::NoMemory;
use json::Writer;

/// Adds a text as a JSON string to what was written. The writer zeroes bytes ahead of itself, as
/// many as were written and 16 kB at most, so this is for the end of a line and not for many
/// strings behind one another.
pub fn with_json(written: Vec<u8>, text: &str) -> Result<Vec<u8>, NoMemory>
    ensures { IfOk result (λ bytes. bytes.items ≡ written.items ++ json_string (chars text.now)) }
{
    let mut writer = Writer::new(written);
    writer.string(text)?;
    Ok(writer.into_inner())
}
