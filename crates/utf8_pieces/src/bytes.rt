// The text at the front of some bytes.
ghost use Rattle.std.specs.Prelude.{◌≡◌, ◌≤◌, ◌++◌, IfOk, if◌then◌else◌, length, take, nat_lt};
ghost use Rattle.std.specs.Prelude.{Some, None};
ghost use Rattle.std.specs.Str.{chars};
ghost use Rattle.serial.specs.Page.{front, without_mark, is_text_so_far};
ghost use Rattle.html_types.specs.declared.ending.Ending.TheVariants.{Bad, Long};

use html_types::{Ending, NoMemory};
use simdutf8::compat::from_utf8;
use std::alloc::Global;

pub(crate) fn joined(alloc: Global, first: &[u8], second: &[u8]) -> Result<Vec<u8>, NoMemory>
    ensures { IfOk result (λ all. all.items ≡ first.now ++ second.now) }
{
    let mut all = Vec::with_capacity(alloc, first.len().saturating_add(second.len()))?;
    all.extend_from_slice(first)?;
    all.extend_from_slice(second)?;
    Ok(all)
}

// Whether the bytes behind the longest front that is text may be the beginning of a character.
pub(crate) fn is_text_so_far(bytes: &[u8]) -> bool
    ensures { result ≡ is_text_so_far bytes.now }
{
    match from_utf8(bytes) {
        Ok(_) => true,
        Err(error) => error.error_len().is_none(),
    }
}

// The longest front that is text.
pub(crate) fn longest_text(bytes: &[u8]) -> &str
    ensures { result.now ≡ front bytes.now }
{
    match from_utf8(bytes) {
        Ok(text) => text,
        Err(error) => from_utf8(&bytes[..error.valid_up_to()]).unwrap_or(""),
    }
}

// The longest front that is text, and the ending that all the bytes show. In the usual case, where
// they are text and all of them count, they are looked at once.
pub(crate) fn text_and_ending(seen: &[u8], counted: usize) -> (&str, Option<Ending>)
    requires { counted ≤ length seen.now }
    ensures text { result.0.now ≡ front (take counted seen.now) }
    ensures ending { result.1
        ≡ (if is_text_so_far seen.now then
        (if nat_lt counted (length seen.now) then Some Long else None) else Some Bad) }
{
    if counted < seen.len() {
        let ending = if is_text_so_far(seen) {
            Ending::Long
        } else {
            Ending::Bad
        };
        return (longest_text(&seen[..counted]), Some(ending));
    }
    match from_utf8(seen) {
        Ok(text) => (text, None),
        Err(error) => {
            let text = from_utf8(&seen[..error.valid_up_to()]).unwrap_or("");
            let ending = if error.error_len().is_some() {
                Some(Ending::Bad)
            } else {
                None
            };
            (text, ending)
        }
    }
}

/// A text without the byte order mark that it may begin with.
pub fn without_mark(text: &str) -> &str
    ensures { chars result.now ≡ without_mark (chars text.now) }
{
    let mut chars = text.chars();
    match chars.next() {
        Some('\u{FEFF}') => chars.as_str(),
        _ => text,
    }
}

// A text without a byte order mark at the page's start.
pub(crate) fn shown_text(text: &str, at_start: bool) -> &str
    ensures { chars result.now
        ≡ (if at_start then without_mark (chars text.now) else chars text.now) }
{
    if at_start { without_mark(text) } else { text }
}
