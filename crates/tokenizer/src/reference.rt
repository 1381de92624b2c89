//! A character reference that stands whole in a text: a name is looked up once, and a number is
//! read at once.

ghost use Rattle.std.specs.Prelude.{◌≡◌, ◌++◌, ◌<◌, ◌≤◌, ◌==◌, ◌||◌, ℕ, [], ◌∷◌, false, drop};
ghost use Rattle.std.specs.Prelude.{length, Option, IfSome};
ghost use Rattle.std.specs.Char.{is_ascii_alphanumeric};
ghost use Rattle.std.specs.Str.{chars, IsCharBoundary};
ghost use Rattle.html_types.specs.declared.token.Token.TheVariants.{Character};
ghost use Rattle.standard.specs.Entities.{Entity, Entities, begins_some, longest};
ghost use Rattle.standard.specs.ReferenceStates.{longer_code};
ghost use Rattle.entity_table.specs.Held.{Holds};
ghost use Rattle.entity_table.specs.Matches.{Tells};
ghost use Rattle.entity_table.specs.View.{characters_in};
ghost use Rattle.tokenizer.specs.Reference as parts;
ghost use Rattle.tokenizer.specs.Reference.{Refers, Means, IsDigit, OpensNumber, Counts, IsFirst};
ghost use Rattle.tokenizer.specs.Reference.{IsHeld, MeansIn, RefersIn, has_nul, standing_for};
ghost use Rattle.tokenizer.specs.Reference.{open_characters};
ghost use Rattle.tokenizer.specs.Whole.{has_cr, piece, MakesAlone};

use crate::place::{ascii_at, lacks_cr, past};
use char_class::class_of;
use entity_table::{Characters, Cursor, Match, Step, Table};
use html_types::{Class, char_at};
use tok_refs::named::{self, skip};
use tok_refs::numeric::{character_of, with_digit};

/// What a reference stands for, and the place behind it.
#[derive(Clone, Copy)]
pub struct Reference {
    pub characters: Characters,
    pub end: usize,
}

// The place behind the `;` that stands behind the `&` at a place and ASCII letters and digits.
fn name_end(text: &str, from: usize) -> Option<usize>
    requires { IsCharBoundary text.now from }
    ensures boundary { IfSome result (λ end. IsCharBoundary text.now end) }
    ensures onward { IfSome result (λ end. from < end) }
{
    let Some(name) = past(text, from, '&') else {
        return None;
    };
    let mut at = name;
    while let Some(c) = ascii_at(text, at) {
        at += 1;
        if c == ';' {
            return Some(at);
        }
        if !c.is_ascii_alphanumeric() {
            return None;
        }
    }
    None
}

/// The named character reference that begins at a place and ends with a `;`, where another
/// character follows; none where the text has none there, or where it is not read so.
pub fn whole_reference(table: &Table, text: &str, from: usize) -> Option<Reference>
    requires { IsCharBoundary text.now from }
    ensures boundary { IfSome result (λ r. IsCharBoundary text.now r.end) }
    ensures onward { IfSome result (λ r. from < r.end) }
    ensures within { IfSome result (λ r. r.end < length text.now) }
    ensures refers { IfSome result
        (λ r. Refers table.now (piece text.now from r.end) (characters_in r.characters)) }
    ensures means { IfSome result
        (λ r. Means table.now (piece text.now from r.end) (characters_in r.characters)) }
    ensures no_cr { IfSome result (λ r. has_cr (piece text.now from r.end) ≡ false) }
{
    let Some(end) = name_end(text, from) else {
        return None;
    };
    if end >= text.len() {
        return None;
    }
    let Some(found) = table.find(&text[from..end]) else {
        return None;
    };
    table.names_end_at_semicolons();
    if found.ends_in_semicolon {
        Some(Reference {
            characters: found.characters,
            end,
        })
    } else {
        None
    }
}

// A walk along the names of a table, over a `&` and the characters behind it, up to a place.
#[derive(Clone, Copy)]
struct Walk {
    cursor: Cursor,
    at: usize,
}

// The walk over the `&` at a place and the character behind it, where a name begins so.
fn walk_begins(table: &Table, text: &str, from: usize) -> Option<Walk>
    requires { IsCharBoundary text.now from }
    ensures boundary { IfSome result (λ w. IsCharBoundary text.now w.at) }
    ensures onward { IfSome result (λ w. from < w.at) }
    ensures holds { IfSome result (λ w. Holds table.now w.cursor (piece text.now from w.at)) }
    ensures held { IfSome result (λ w. IsHeld table.now (piece text.now from w.at)) }
{
    let Some(name) = past(text, from, '&') else {
        return None;
    };
    let Some(c) = ascii_at(text, name) else {
        return None;
    };
    if !c.is_ascii_alphanumeric() {
        return None;
    }
    let mut cursor = Cursor::new(table);
    let _ = cursor.push(table, '&');
    match cursor.push(table, c) {
        Step::More => Some(Walk {
            cursor,
            at: name + 1,
        }),
        Step::Stop(_) => None,
    }
}

/// A named character reference that ends at a place, before a character with which no name goes on:
/// what the longest name stands for, and the rest of the text; or all of it, where it begins with
/// no name.
#[derive(Clone, Copy)]
pub struct OpenReference<'t> {
    pub characters: Option<Characters>,
    pub rest: &'t str,
    pub end: usize,
}

// What is held up to a place, where this is the longest name in it.
fn resolved<'t>(held: &'t str, best: Option<Match>, end: usize) -> OpenReference<'t>
    ensures ends { result.end ≡ end }
    ensures stands_for { (found : Option Entity) → Tells found best
        → open_characters result ≡ standing_for (chars held.now) found }
    ensures no_nul { has_nul (chars held.now) ≡ false → has_nul (chars result.rest.now) ≡ false }
{
    match best {
        None => OpenReference {
            characters: None,
            rest: held,
            end,
        },
        Some(found) => OpenReference {
            characters: Some(found.characters),
            rest: skip(held, found.length),
            end,
        },
    }
}

// Names go on over such a character.
fn is_in_name(c: char) -> bool
    ensures { result ≡ (is_ascii_alphanumeric c || (c == 59)) }
{
    c.is_ascii_alphanumeric() || c == ';'
}

// A CR is read as a line feed.
fn as_read(c: char) -> char
    ensures { result ≡ parts.as_read c }
{
    if c == '\r' { '\n' } else { c }
}

// What is held of a name up to a place, where a character stands with which no name goes on: the
// longest name in it.
#[derive(Clone, Copy)]
struct HeldName {
    best: Option<Match>,
    end: usize,
    next: char,
}

// The name that begins at a place, where such a character stands behind it in the text; none where
// it is not read so.
fn held_name(table: &Table, text: &str, from: usize) -> Option<HeldName>
    requires { IsCharBoundary text.now from }
    ensures boundary { IfSome result (λ n. IsCharBoundary text.now n.end) }
    ensures onward { IfSome result (λ n. from < n.end) }
    ensures within { IfSome result (λ n. n.end < length text.now) }
    ensures held { IfSome result (λ n. IsHeld table.now (piece text.now from n.end)) }
    ensures stops { IfSome result
        (λ n. begins_some (piece text.now from n.end ++ parts.as_read n.next ∷ []) table.now
        ≡ false) }
    ensures longest { IfSome result
        (λ n. Tells (longest (piece text.now from n.end) table.now) n.best) }
    ensures next { IfSome result
        (λ n. (c : ℕ) → IsFirst c (chars (drop n.end text.now)) → n.next ≡ c) }
{
    let Some(begun) = walk_begins(table, text, from) else {
        return None;
    };
    let mut cursor = begun.cursor;
    let mut at = begun.at;
    while let Some((c, behind)) = char_at(text, at) {
        match cursor.push(table, as_read(c)) {
            Step::Stop(best) => {
                return Some(HeldName {
                    best,
                    end: at,
                    next: c,
                });
            }
            Step::More => if !is_in_name(c) {
                return None;
            },
        }
        at = behind;
    }
    None
}

/// The named character reference that begins at a place, up to the first character with which no
/// name goes on, where that stands in the text; none at the end of the text, where the text has
/// none there, or where it is not read so.
pub fn open_reference<'t>(table: &Table, text: &'t str, from: usize) -> Option<OpenReference<'t>>
    requires { IsCharBoundary text.now from }
    ensures boundary { IfSome result (λ r. IsCharBoundary text.now r.end) }
    ensures onward { IfSome result (λ r. from < r.end) }
    ensures within { IfSome result (λ r. r.end < length text.now) }
    ensures refers { IfSome result
        (λ r. RefersIn table.now text.now from r.end (open_characters r)) }
    ensures no_cr { IfSome result (λ r. has_cr (piece text.now from r.end) ≡ false) }
    ensures no_nul { IfSome result (λ r. has_nul (chars r.rest.now) ≡ false) }
{
    let Some(name) = held_name(table, text, from) else {
        return None;
    };
    Some(resolved(&text[from..name.end], name.best, name.end))
}

// Whether what is held stays as it was written in an attribute's value, before a character of this
// class.
fn is_kept(held: &str, best: Option<Match>, next: Class) -> bool
    ensures { (found : Option Entity) → Tells found best
        → result ≡ parts.is_kept (chars held.now) found next }
{
    match best {
        None => false,
        Some(found) => named::is_kept(found, skip(held, found.length), next),
    }
}

// What is held up to a place, where it stays as it was written.
fn as_written<'t>(held: &'t str, end: usize) -> OpenReference<'t>
    ensures ends { result.end ≡ end }
    ensures stands_for { open_characters result ≡ chars held.now }
{
    OpenReference {
        characters: None,
        rest: held,
        end,
    }
}

// What is held up to a place in an attribute's value, before a character of this class.
fn resolved_in_value<'t>(
    held: &'t str,
    best: Option<Match>,
    end: usize,
    next: Class,
) -> OpenReference<'t>
    ensures ends { result.end ≡ end }
    ensures stands_for { (found : Option Entity) → Tells found best
        → open_characters result ≡ parts.in_value (chars held.now) found next }
{
    if is_kept(held, best, next) {
        as_written(held, end)
    } else {
        resolved(held, best, end)
    }
}

// Before a character of this class a `&` begins no reference.
fn leaves_ampersand(class: Class) -> bool
    ensures { result ≡ parts.leaves_ampersand class }
{
    !matches!(class, Class::Alpha | Class::Digit | Class::Hash)
}

// A `&` at a place that begins no reference, as the character behind it tells.
fn lone_ampersand<'t>(text: &'t str, from: usize) -> Option<OpenReference<'t>>
    requires { IsCharBoundary text.now from }
    ensures boundary { IfSome result (λ r. IsCharBoundary text.now r.end) }
    ensures onward { IfSome result (λ r. from < r.end) }
    ensures means { IfSome result
        (λ r. (es : Entities) → MeansIn es text.now from r.end (open_characters r)) }
{
    let Some(end) = past(text, from, '&') else {
        return None;
    };
    let Some((c, _)) = char_at(text, end) else {
        return None;
    };
    if leaves_ampersand(class_of(c)) {
        Some(as_written(&text[from..end], end))
    } else {
        None
    }
}

/// What a `&` at a place in an attribute's value comes to with the characters behind it, up to the
/// first with which no name goes on, where that stands in the text; none at the end of the text,
/// where the text has no `&` there, or where it is not read so.
pub fn open_reference_in_value<'t>(
    table: &Table,
    text: &'t str,
    from: usize,
) -> Option<OpenReference<'t>>
    requires { IsCharBoundary text.now from }
    ensures boundary { IfSome result (λ r. IsCharBoundary text.now r.end) }
    ensures onward { IfSome result (λ r. from < r.end) }
    ensures means { IfSome result (λ r. MeansIn table.now text.now from r.end (open_characters r)) }
{
    let Some(name) = held_name(table, text, from) else {
        return lone_ampersand(text, from);
    };
    if name.next == '\r' {
        return None;
    }
    Some(resolved_in_value(
        &text[from..name.end],
        name.best,
        name.end,
        class_of(name.next),
    ))
}

// What stands before the digits of a number: whether it is hexadecimal, and where they begin.
#[derive(Drop)]
struct Opened {
    hexadecimal: bool,
    at: usize,
}

// The `&#` or `&#x` at a place.
fn number_opens(text: &str, from: usize) -> Option<Opened>
    requires { IsCharBoundary text.now from }
    ensures boundary { IfSome result (λ n. IsCharBoundary text.now n.at) }
    ensures onward { IfSome result (λ n. from < n.at) }
    ensures opens { IfSome result (λ n. OpensNumber n.hexadecimal (piece text.now from n.at)) }
{
    let Some(hash) = past(text, from, '&') else {
        return None;
    };
    let Some(start) = past(text, hash, '#') else {
        return None;
    };
    match past(text, start, 'x') {
        Some(at) => Some(Opened {
            hexadecimal: true,
            at,
        }),
        None => Some(Opened {
            hexadecimal: false,
            at: start,
        }),
    }
}

fn in_number(hexadecimal: bool, class: Class) -> bool
    ensures { result ≡ parts.in_number hexadecimal class }
{
    match class {
        Class::Digit => true,
        Class::Alpha => hexadecimal,
        _ => false,
    }
}

fn radix(hexadecimal: bool) -> u32
    ensures is { result ≡ parts.radix hexadecimal }
    ensures low { 2 ≤ result }
    ensures high { result ≤ 36 }
{
    if hexadecimal { 16 } else { 10 }
}

// The code with one more digit, where the character is one.
fn longer(hexadecimal: bool, code: u32, c: char) -> Option<u32>
    ensures digit { IfSome result (λ _. IsDigit hexadecimal c) }
    ensures code { IfSome result (λ longer. longer ≡ longer_code (parts.radix hexadecimal) code c) }
{
    if in_number(hexadecimal, class_of(c)) {
        with_digit(code, radix(hexadecimal), c)
    } else {
        None
    }
}

// The digits of a number so far.
#[derive(Drop)]
struct Counted {
    hexadecimal: bool,
    code: u32,
    at: usize,
}

// The number that begins at a place, with its first digit.
fn number_begins(text: &str, from: usize) -> Option<Counted>
    requires { IsCharBoundary text.now from }
    ensures boundary { IfSome result (λ n. IsCharBoundary text.now n.at) }
    ensures onward { IfSome result (λ n. from < n.at) }
    ensures counts { IfSome result (λ n. Counts n.hexadecimal (piece text.now from n.at) n.code) }
{
    let Some(opened) = number_opens(text, from) else {
        return None;
    };
    let Some(c) = ascii_at(text, opened.at) else {
        return None;
    };
    match longer(opened.hexadecimal, 0, c) {
        None => None,
        Some(code) => Some(Counted {
            hexadecimal: opened.hexadecimal,
            code,
            at: opened.at + 1,
        }),
    }
}

// The number whose last digit stands before a `;`, and the place behind that.
fn number_at(text: &str, from: usize, number: Counted, end: usize) -> Option<Number>
    requires boundary { IsCharBoundary text.now from }
    requires at { IsCharBoundary text.now number.at }
    requires behind { IsCharBoundary text.now end }
    requires onward { from < number.at }
    requires ends { number.at < end }
    requires semicolon { piece text.now number.at end ≡ 59 ∷ [] }
    requires counts { Counts number.hexadecimal (piece text.now from number.at) number.code }
    ensures end_is { IfSome result (λ n. n.end ≡ end) }
    ensures alone { IfSome result
        (λ n. (es : Entities) → MakesAlone es (piece text.now from end) (Character n.character)) }
    ensures means { IfSome result
        (λ n. (es : Entities) → Means es (piece text.now from end) (n.character ∷ [])) }
    ensures no_cr { IfSome result (λ n. has_cr (piece text.now from end) ≡ false) }
{
    if lacks_cr(&text[from..end]) {
        Some(Number {
            character: character_of(number.code),
            end,
        })
    } else {
        None
    }
}

/// The character that a number stands for, and the place behind it.
#[derive(Clone, Copy)]
pub struct Number {
    pub character: char,
    pub end: usize,
}

/// The numeric character reference that begins at a place and ends with a `;`; none where the text
/// has none there, or where it is not read so.
pub fn whole_number(text: &str, from: usize) -> Option<Number>
    requires { IsCharBoundary text.now from }
    ensures boundary { IfSome result (λ n. IsCharBoundary text.now n.end) }
    ensures onward { IfSome result (λ n. from < n.end) }
    ensures alone { IfSome result
        (λ n. (es : Entities) → MakesAlone es (piece text.now from n.end) (Character n.character)) }
    ensures means { IfSome result
        (λ n. (es : Entities) → Means es (piece text.now from n.end) (n.character ∷ [])) }
    ensures no_cr { IfSome result (λ n. has_cr (piece text.now from n.end) ≡ false) }
{
    let Some(begun) = number_begins(text, from) else {
        return None;
    };
    let hexadecimal = begun.hexadecimal;
    let mut code = begun.code;
    let mut at = begun.at;
    while let Some(c) = ascii_at(text, at) {
        if let Some(end) = past(text, at, ';') {
            return number_at(
                text,
                from,
                Counted {
                    hexadecimal,
                    code,
                    at,
                },
                end,
            );
        }
        let Some(more) = longer(hexadecimal, code, c) else {
            return None;
        };
        code = more;
        at += 1;
    }
    None
}

/// The reference that begins at a place and ends with a `;`, by a name or a number; none where the
/// text has none there, or where it is not read so.
#[inline]
pub(crate) fn reference_at(table: &Table, text: &str, from: usize) -> Option<Reference>
    requires { IsCharBoundary text.now from }
    ensures boundary { IfSome result (λ r. IsCharBoundary text.now r.end) }
    ensures onward { IfSome result (λ r. from < r.end) }
    ensures means { IfSome result
        (λ r. Means table.now (piece text.now from r.end) (characters_in r.characters)) }
{
    if text.as_bytes().get(from) != Some(&b'&') {
        return None;
    }
    let Some(number) = whole_number(text, from) else {
        return whole_reference(table, text, from);
    };
    let character = number.character;
    Some(Reference {
        characters: Characters {
            first: character,
            second: None,
        },
        end: number.end,
    })
}
