//! References by the number of a character.

ghost use Rattle.std.specs.Prelude.{◌≡◌, ◌+◌, ◌*◌, ◌≤◌, [], ◌∷◌, min, true, false, MatchOption};
ghost use Rattle.std.specs.Prelude.{IfOk};
ghost use Rattle.std.specs.Char.{is_digit};
ghost use Rattle.tok_rows.specs.Steps.{Follows};
ghost use Rattle.standard.specs.ReferenceStates as rows;

use crate::literal::{literally, put};
use html_types::{Class, NoMemory, ReferenceState, ReturnState, Text, TokState, Tokens};
use std::alloc::Global;
use tok_rows::next::{Transition, again, to};

// All codes beyond the last character stand as this one.
const BEYOND: u32 = 0x11_0000;

/// 13.2.5.75 #numeric-character-reference-state Numeric character reference state,
/// 13.2.5.77 #decimal-character-reference-start-state Decimal character reference start state
#[tactic(auto, using(crate::proofs::Marks::mark_and_hash))]
pub fn numeric_row(
    back: ReturnState,
    class: Class,
    c: char,
    out: &mut Tokens,
) -> Result<Transition, NoMemory>
    ensures { IfOk result (Follows (rows.numeric_row back class c) out.old out.new) }
{
    match class {
        Class::Alpha if c == 'x' || c == 'X' => to(
            TokState::Reference(ReferenceState::HexadecimalStart(back, c)),
            out,
        ),
        Class::Digit => again(TokState::Reference(ReferenceState::Decimal(back, 0)), out),
        _ => literally(back, "&#", out),
    }
}

/// 13.2.5.76 #hexadecimal-character-reference-start-state Hexadecimal character reference start
/// state
pub fn hexadecimal_start_row(
    alloc: Global,
    back: ReturnState,
    x: char,
    class: Class,
    c: char,
    out: &mut Tokens,
) -> Result<Transition, NoMemory>
    ensures { IfOk result (Follows (rows.hexadecimal_start_row back x class c) out.old out.new) }
{
    match class {
        Class::InputEnd => no_digits(alloc, back, x, out),
        _ => if c.is_digit(16) {
            again(
                TokState::Reference(ReferenceState::Hexadecimal(back, 0)),
                out,
            )
        } else {
            no_digits(alloc, back, x, out)
        },
    }
}

// No digit stands behind `&#x`.
fn no_digits(
    alloc: Global,
    back: ReturnState,
    x: char,
    out: &mut Tokens,
) -> Result<Transition, NoMemory>
    ensures { IfOk result (Follows (rows.literally back (38 ∷ 35 ∷ x ∷ []) true) out.old out.new) }
{
    let mut text = Text::new(alloc);
    text.push('&')?;
    text.push('#')?;
    text.push(x)?;
    literally(back, text.as_str(), out)
}

/// 13.2.5.78 #hexadecimal-character-reference-state Hexadecimal character reference state
pub fn hexadecimal_row(
    alloc: Global,
    back: ReturnState,
    code: u32,
    class: Class,
    c: char,
    out: &mut Tokens,
) -> Result<Transition, NoMemory>
    ensures { IfOk result (Follows (rows.hexadecimal_row back code class c) out.old out.new) }
{
    match class {
        Class::Semicolon => end_of_digits(alloc, back, code, false, out),
        Class::InputEnd => end_of_digits(alloc, back, code, true, out),
        _ => match with_digit(code, 16, c) {
            Some(longer) => {
                to(
                    TokState::Reference(ReferenceState::Hexadecimal(back, longer)),
                    out,
                )
            }
            None => end_of_digits(alloc, back, code, true, out),
        },
    }
}

/// 13.2.5.79 #decimal-character-reference-state Decimal character reference state
pub fn decimal_row(
    alloc: Global,
    back: ReturnState,
    code: u32,
    class: Class,
    c: char,
    out: &mut Tokens,
) -> Result<Transition, NoMemory>
    ensures { IfOk result (Follows (rows.decimal_row back code class c) out.old out.new) }
{
    match class {
        Class::Semicolon => end_of_digits(alloc, back, code, false, out),
        Class::InputEnd => end_of_digits(alloc, back, code, true, out),
        _ => match with_digit(code, 10, c) {
            Some(longer) => {
                to(
                    TokState::Reference(ReferenceState::Decimal(back, longer)),
                    out,
                )
            }
            None => end_of_digits(alloc, back, code, true, out),
        },
    }
}

/// The code with one more digit, where the character is one. 110000 (hexadecimal) stands for all
/// codes beyond the last character.
pub fn with_digit(code: u32, radix: u32, c: char) -> Option<u32>
    requires low { 2 ≤ radix }
    requires high { radix ≤ 36 }
    ensures { MatchOption result
        (is_digit c radix ≡ false)
        (λ longer. (is_digit c radix ≡ true) × (longer ≡ rows.longer_code radix code c)) }
{
    let digit = c.to_digit(radix)?;
    Some(longer_code(code, radix, digit))
}

fn longer_code(code: u32, radix: u32, digit: u32) -> u32
    ensures { result ≡ min (code * radix + digit) 0x11_0000 }
{
    code.saturating_mul(radix).saturating_add(digit).min(BEYOND)
}

// Behind the digits. The character at hand is a `;`, which belongs to the reference, or it is
// reconsumed.
fn end_of_digits(
    alloc: Global,
    back: ReturnState,
    code: u32,
    reconsumes: bool,
    out: &mut Tokens,
) -> Result<Transition, NoMemory>
    ensures { IfOk result (Follows (rows.referred back code reconsumes) out.old out.new) }
{
    let mut text = Text::new(alloc);
    text.push(character_of(code))?;
    put(back, text.as_str(), reconsumes, out)
}

/// 13.2.5.80 #numeric-character-reference-end-state Numeric character reference end state: the
/// character that a number stands for.
pub fn character_of(code: u32) -> char
    ensures { result ≡ rows.character_of code }
{
    match code {
        0 => '\u{fffd}',
        0x80 => '\u{20ac}',
        0x82 => '\u{201a}',
        0x83 => '\u{192}',
        0x84 => '\u{201e}',
        0x85 => '\u{2026}',
        0x86 => '\u{2020}',
        0x87 => '\u{2021}',
        0x88 => '\u{2c6}',
        0x89 => '\u{2030}',
        0x8a => '\u{160}',
        0x8b => '\u{2039}',
        0x8c => '\u{152}',
        0x8e => '\u{17d}',
        0x91 => '\u{2018}',
        0x92 => '\u{2019}',
        0x93 => '\u{201c}',
        0x94 => '\u{201d}',
        0x95 => '\u{2022}',
        0x96 => '\u{2013}',
        0x97 => '\u{2014}',
        0x98 => '\u{2dc}',
        0x99 => '\u{2122}',
        0x9a => '\u{161}',
        0x9b => '\u{203a}',
        0x9c => '\u{153}',
        0x9e => '\u{17e}',
        0x9f => '\u{178}',
        _ => char::from_u32(code).unwrap_or('\u{fffd}'),
    }
}
