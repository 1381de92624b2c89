//! Parts of tags, comments and doctypes: what they go on over, and where they end.

ghost use Rattle.std.specs.Prelude.{◌≡◌, ◌≤◌, true, false, length};
ghost use Rattle.std.specs.Str.{IsCharBoundary};
ghost use Rattle.std.specs.List.{position_or_len};
ghost use Rattle.tokenizer.specs.Whole.{all_of, has_cr, piece};
ghost use Rattle.tokenizer.specs.Whole as parts;
ghost use Rattle.tokenizer.specs.declared.part.Part.TheVariants as kind;

use crate::place::ascii_at;
use char_class::{class_of, name_char, shown};
use html_types::{Class, Quote};

/// A part of a tag, a comment or a doctype.
#[derive(Clone, Copy)]
pub enum Part {
    TagName,
    /// White space between parts.
    Gap,
    AttributeName,
    /// A value between quotes.
    Quoted(Quote),
    /// A value without quotes.
    Unquoted,
    /// A comment's text, up to what may end it.
    Comment,
    BogusComment,
    DoctypeName,
    /// A doctype's public or system identifier.
    Identifier(Quote),
    BogusDoctype,
}

fn in_name(class: Class) -> bool
    ensures { result ≡ parts.in_name class }
{
    !matches!(
        class,
        Class::Space | Class::Slash | Class::Greater | Class::InputEnd
    )
}

fn in_attribute_name(class: Class) -> bool
    ensures { result ≡ parts.in_attribute_name class }
{
    in_name(class) && !matches!(class, Class::Equals)
}

fn in_quoted(quote: Quote, class: Class) -> bool
    ensures { result ≡ parts.in_quoted quote class }
{
    match (quote, class) {
        (Quote::Double, Class::DoubleQuote) => false,
        (Quote::Single, Class::SingleQuote) => false,
        (_, Class::Ampersand | Class::InputEnd) => false,
        _ => true,
    }
}

fn in_unquoted(class: Class) -> bool
    ensures { result ≡ parts.in_unquoted class }
{
    !matches!(
        class,
        Class::Space
            | Class::DoubleQuote
            | Class::SingleQuote
            | Class::Ampersand
            | Class::Greater
            | Class::InputEnd
    )
}

fn in_comment_text(class: Class) -> bool
    ensures { result ≡ parts.in_comment_text class }
{
    !matches!(class, Class::Hyphen | Class::Less | Class::InputEnd)
}

fn in_bogus(class: Class) -> bool
    ensures { result ≡ parts.in_bogus class }
{
    !matches!(class, Class::Greater | Class::InputEnd)
}

fn in_doctype_name(class: Class) -> bool
    ensures { result ≡ parts.in_doctype_name class }
{
    !matches!(class, Class::Space | Class::Greater | Class::InputEnd)
}

fn in_identifier(quote: Quote, class: Class) -> bool
    ensures { result ≡ parts.in_identifier quote class }
{
    match (quote, class) {
        (Quote::Double, Class::DoubleQuote) => false,
        (Quote::Single, Class::SingleQuote) => false,
        (_, Class::Greater | Class::InputEnd) => false,
        _ => true,
    }
}

/// Whether this part goes on over a character, and gets it as it is.
#[inline(always)]
pub(crate) fn is_of(part: Part, c: char) -> bool
    ensures { result ≡ parts.is_of part c }
{
    match part {
        Part::TagName => in_name(class_of(c)) && name_char(c) == c,
        Part::Gap => matches!(class_of(c), Class::Space),
        Part::AttributeName => in_attribute_name(class_of(c)) && name_char(c) == c,
        Part::Quoted(quote) => in_quoted(quote, class_of(c)) && shown(c) == c,
        Part::Unquoted => in_unquoted(class_of(c)) && shown(c) == c,
        Part::Comment => in_comment_text(class_of(c)) && shown(c) == c,
        Part::BogusComment => in_bogus(class_of(c)) && shown(c) == c,
        Part::DoctypeName => in_doctype_name(class_of(c)) && name_char(c) == c,
        Part::Identifier(quote) => in_identifier(quote, class_of(c)),
        Part::BogusDoctype => in_bogus(class_of(c)),
    }
}

// Whether a run of this part ends before a byte.
#[inline(always)]
fn ends(part: Part, byte: u8) -> bool
    ensures { result ≡ parts.ends part byte }
{
    byte < 128 && (byte == b'\r' || !is_of(part, byte as char))
}

// How many bytes stand before the first that ends a run of this part.
#[inline]
fn run_len(bytes: &[u8], part: Part) -> usize
    ensures first { result ≡ position_or_len (parts.ends part) bytes.now }
    ensures within { result ≤ length bytes.now }
{
    for (i, byte) in bytes.iter().enumerate() {
        if ends(part, *byte) {
            return i;
        }
    }
    bytes.len()
}

// The end of the white space that begins at a place.
fn gap_end(text: &str, from: usize) -> usize
    requires { IsCharBoundary text.now from }
    ensures boundary { IsCharBoundary text.now result }
    ensures onward { from ≤ result }
    ensures all { all_of kind.Gap (piece text.now from result) ≡ true }
{
    let mut at = from;
    while let Some(c) = ascii_at(text, at) {
        if !is_of(Part::Gap, c) {
            return at;
        }
        at += 1;
    }
    at
}

/// The end of what is left of a part. A CR ends it, whatever the part.
#[inline]
pub(crate) fn rest_of(text: &str, from: usize, part: Part) -> usize
    requires { IsCharBoundary text.now from }
    ensures boundary { IsCharBoundary text.now result }
    ensures onward { from ≤ result }
    ensures all { all_of part (piece text.now from result) ≡ true }
    ensures no_cr { has_cr (piece text.now from result) ≡ false }
{
    match part {
        Part::Gap => gap_end(text, from),
        _ => {
            let rest = &text[from..];
            from + run_len(rest.as_bytes(), part)
        }
    }
}
