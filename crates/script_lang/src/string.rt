//! The strings of a script, which are JSON strings.

ghost use Rattle.std.specs.Prelude.{◌≡◌, ◌+◌, ◌∷◌, option_map, option_and_then, IfOk, IfSome};
ghost use Rattle.std.specs.Prelude.{false};
ghost use Rattle.std.specs.Str.{chars, IsCharBoundary, IsUtf8};
ghost use Rattle.serde_json.specs.Find.{as_str};
ghost use Rattle.serde_json.specs.Read.{read};
ghost use Rattle.serial.specs.Statements.{string_end, string_value};
ghost use Rattle.script_lang.specs.Parts.{IsPlainTo, cut, is_special, parted};

use html_types::{NoMemory, Text};
use serde_json::Value;
use std::alloc::Global;

/// The place behind the quote that ends a string; `text` begins behind the quote that begins it.
fn string_end(text: &str) -> Option<usize>
    ensures value { option_map (cut text.now) result ≡ string_end false text.now }
    ensures boundary { IfSome result (λ end. IsCharBoundary text.now end) }
{
    let mut escaped = false;
    for (place, byte) in text.as_bytes().iter().enumerate() {
        if escaped {
            escaped = false;
        } else if *byte == b'"' {
            return Some(place + 1);
        } else {
            escaped = *byte == b'\\';
        }
    }
    None
}

/// Whether the byte ends a string, or the part of it that means itself: a quote, a backslash or a
/// control character.
fn is_special(byte: u8) -> bool
    ensures { result ≡ is_special byte }
{
    byte == b'"' || byte == b'\\' || byte < b' '
}

/// The place of the quote that ends a string in which no backslash and no control character stands:
/// all before it is the string's value. `text` begins behind the quote that begins it.
fn plain_end(text: &str) -> Option<usize>
    ensures found { IfSome result (λ end. IsPlainTo text.now end) }
    ensures boundary { IfSome result (λ end. IsCharBoundary text.now end) }
    ensures behind { IfSome result (λ end. IsCharBoundary text.now (end + 1)) }
{
    for (place, byte) in text.as_bytes().iter().enumerate() {
        if is_special(*byte) {
            return if *byte == b'"' { Some(place) } else { None };
        }
    }
    None
}

/// The value of a JSON string, which is given with its quotes; none where it is no JSON string.
fn json_value(alloc: Global, quoted: &str) -> Result<Option<Text>, NoMemory>
    ensures { IfOk result
        (λ value. value ≡ option_map chars (option_and_then as_str (read quoted.now))) }
{
    match Value::from_str(alloc, quoted) {
        Ok(value) => match value.as_str() {
            Some(text) => Ok(Some(Text::from_str(alloc, text)?)),
            None => Ok(None),
        },
        Err(error) if error.is_memory() => Err(NoMemory),
        Err(_) => Ok(None),
    }
}

/// The value of the string with which the text begins, read as JSON; `inside` is the text behind
/// its first quote.
fn escaped_value<'a>(
    alloc: Global,
    text: &'a str,
    inside: &str,
) -> Result<Option<(Text, &'a str)>, NoMemory>
    requires { text.now ≡ 34 ∷ inside.now }
    ensures value { IfOk result
        (λ found. option_map parted found ≡ string_value (chars text.now)) }
    ensures rest_is_text { IfOk result (λ found. IfSome found (λ string. IsUtf8 string.1.now)) }
{
    let Some(end) = string_end(inside) else {
        return Ok(None);
    };
    let (quoted, rest) = text.split_at(end + 1);
    match json_value(alloc, quoted)? {
        Some(value) => Ok(Some((value, rest))),
        None => Ok(None),
    }
}

/// The value of the string with which the text begins, and the text behind that string; none where
/// it begins with none.
pub(crate) fn string_value<'a>(
    alloc: Global,
    text: &'a str,
) -> Result<Option<(Text, &'a str)>, NoMemory>
    ensures value { IfOk result
        (λ found. option_map parted found ≡ string_value (chars text.now)) }
    ensures rest_is_text { IfOk result (λ found. IfSome found (λ string. IsUtf8 string.1.now)) }
{
    let Some(inside) = text.strip_prefix('"') else {
        return Ok(None);
    };
    match plain_end(inside) {
        Some(end) => {
            let value = Text::from_str(alloc, &inside[..end])?;
            Ok(Some((value, &inside[end + 1..])))
        }
        None => escaped_value(alloc, text, inside),
    }
}
