//! The files of external scripts: their names, and the text that runs.

ghost use Rattle.std.specs.Prelude.{◌≡◌, IfOk};
ghost use Rattle.std.specs.List.{list_all};
ghost use Rattle.std.specs.Str.{chars};
ghost use Rattle.std.specs.String.{string_bytes};
ghost use Rattle.serial.specs.Scripts.{is_lawful, is_name_character, file_statements};
ghost use Rattle.serial.specs.Statements.{statements};

use html_types::NoMemory;
use std::alloc::Global;
use std::str::from_utf8;
use utf8_pieces::without_mark;

/// The most bytes of a script's file.
pub const SCRIPT_LIMIT: usize = 1_048_576;

// A text that isn't in the language of scripts. It stands for a file that is too long or isn't
// UTF-8.
const OUTSIDE_THE_LANGUAGE: &str = "?";

fn is_name_character(c: char) -> bool
    ensures { result ≡ is_name_character c }
{
    c.is_ascii_alphanumeric() || c == '.' || c == '_' || c == '-'
}

fn are_name_characters(name: &str) -> bool
    ensures { result ≡ list_all is_name_character (chars name.now) }
{
    name.chars().all(is_name_character)
}

/// Whether a script's file may have the name: 1 to 100 letters, digits, `.`, `_` and `-`, with no
/// dot at the front.
pub fn is_lawful(name: &str) -> bool
    ensures { result ≡ is_lawful (chars name.now) }
{
    let first = name.chars().next();
    if first.is_none() || first == Some('.') {
        return false;
    }
    are_name_characters(name) && name.len() <= 100
}

/// The text of a file that runs as a script, without a byte order mark at its front. A file that is
/// too long or isn't UTF-8 counts as a text outside the language.
pub fn text_of(alloc: Global, bytes: &[u8]) -> Result<String, NoMemory>
    ensures { IfOk result
        (λ text. statements (chars (string_bytes text)) ≡ file_statements bytes.now) }
{
    if bytes.len() > SCRIPT_LIMIT {
        return Ok(String::from_str(alloc, OUTSIDE_THE_LANGUAGE)?);
    }
    let text = match from_utf8(bytes) {
        Ok(text) => without_mark(text),
        Err(_) => OUTSIDE_THE_LANGUAGE,
    };
    Ok(String::from_str(alloc, text)?)
}
