//! Classes of characters (13.2.5 #tokenization).

ghost use Rattle.std.specs.Prelude.{◌≡◌, ◌<◌, ◌≤◌, false};
ghost use Rattle.std.specs.Char.{is_ascii_alphabetic};
ghost use Rattle.standard.specs.Class as classes;

use html_types::Class;

// The class of a character below `@`.
fn low_class(c: char) -> Class
    ensures { c < 64 → result ≡ classes.class_of c }
{
    match c {
        '\0' => Class::Nul,
        '\t' | '\n' | '\u{c}' | ' ' => Class::Space,
        '!' => Class::Bang,
        '"' => Class::DoubleQuote,
        '#' => Class::Hash,
        '&' => Class::Ampersand,
        '\'' => Class::SingleQuote,
        '-' => Class::Hyphen,
        '/' => Class::Slash,
        '0' | '1' | '2' | '3' | '4' | '5' | '6' | '7' | '8' | '9' => Class::Digit,
        ';' => Class::Semicolon,
        '<' => Class::Less,
        '=' => Class::Equals,
        '>' => Class::Greater,
        '?' => Class::Question,
        _ => Class::Other,
    }
}

// The class of another character that isn't a letter.
fn high_class(c: char) -> Class
    ensures { 64 ≤ c → is_ascii_alphabetic c ≡ false → result ≡ classes.class_of c }
{
    match c {
        '[' => Class::LeftBracket,
        ']' => Class::RightBracket,
        _ => Class::Other,
    }
}

/// The class of a character. Letters come first, and what is below `@` by itself: so LLVM makes a
/// table of it.
#[tactic(auto, using(std::proofs::lemmas::Grind::common_steps, crate::proofs::Classes::letter_class))]
#[inline]
pub fn class_of(c: char) -> Class
    ensures { result ≡ classes.class_of c }
{
    if c.is_ascii_alphabetic() {
        Class::Alpha
    } else if c < '@' {
        low_class(c)
    } else {
        high_class(c)
    }
}

/// The character that a text gets for one of the input: U+FFFD for NUL.
#[inline]
pub fn shown(c: char) -> char
    ensures { result ≡ classes.shown c }
{
    if c == '\0' { '\u{fffd}' } else { c }
}

/// The character that a name gets for one of the input: U+FFFD for NUL, and ASCII letters in lower
/// case.
#[inline]
pub fn name_char(c: char) -> char
    ensures { result ≡ classes.name_char c }
{
    shown(c).to_ascii_lowercase()
}
