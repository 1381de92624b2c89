//! Named references: the longest name, and what stands in its place.

ghost use Rattle.std.specs.Prelude.{◌≡◌, ◌++◌, ◌&&◌, not, drop, Option, IfOk};
ghost use Rattle.std.specs.Str.{chars};
ghost use Rattle.tok_rows.specs.Steps.{Follows};
ghost use Rattle.standard.specs.Entities.{Entity, ends_in_semicolon};
ghost use Rattle.standard.specs.ReferenceStates as rows;
ghost use Rattle.entity_table.specs.Matches.{IsMatch, Tells};
ghost use Rattle.entity_table.specs.View.{characters_in};

use crate::literal::literally;
use char_class::class_of;
use entity_table::{Characters, Cursor, Match, Step, Table};
use html_types::{Class, NoMemory, ReferenceState, ReturnState, Text, TokState, Tokens};
use std::alloc::Global;
use tok_rows::next::{Transition, to};

/// 13.2.5.73 #named-character-reference-state Named character reference state
pub fn named_row(
    alloc: Global,
    table: &Table,
    back: ReturnState,
    mut held: Text,
    class: Class,
    c: char,
    out: &mut Tokens,
) -> Result<Transition, NoMemory>
    ensures { IfOk result (Follows (rows.named_row table.now back held class c) out.old out.new) }
{
    if !matches!(&class, Class::InputEnd) && table.goes_on(held.as_str(), c) {
        held.push(c)?;
        return to(TokState::Reference(ReferenceState::Named(back, held)), out);
    }
    walked_row(alloc, table, back, held, class, c, out)
}

// The same row, by a walk along the names.
fn walked_row(
    alloc: Global,
    table: &Table,
    back: ReturnState,
    mut held: Text,
    class: Class,
    c: char,
    out: &mut Tokens,
) -> Result<Transition, NoMemory>
    ensures { IfOk result (Follows (rows.named_row table.now back held class c) out.old out.new) }
{
    // The state holds the text alone, so that equal states are equal data.
    let mut cursor = Cursor::over(table, held.as_str());
    match class {
        Class::InputEnd => end_of_name(alloc, back, &held, cursor.best(), class, out),
        _ => match cursor.push(table, c) {
            Step::More => {
                held.push(c)?;
                to(TokState::Reference(ReferenceState::Named(back, held)), out)
            }
            Step::Stop(best) => end_of_name(alloc, back, &held, best, class, out),
        },
    }
}

// No name begins with what is held and the character behind it, which is of this class.
fn end_of_name(
    alloc: Global,
    back: ReturnState,
    held: &Text,
    best: Option<Match>,
    class: Class,
    out: &mut Tokens,
) -> Result<Transition, NoMemory>
    ensures { (found : Option Entity) → Tells found best
        → IfOk result (Follows (rows.named_step back held.now found class) out.old out.new) }
{
    match best {
        None => literally(back, held.as_str(), out),
        Some(found) => end_of_match(alloc, back, held, found, class, out),
    }
}

// This is the longest name that what is held begins with.
fn end_of_match(
    alloc: Global,
    back: ReturnState,
    held: &Text,
    found: Match,
    class: Class,
    out: &mut Tokens,
) -> Result<Transition, NoMemory>
    ensures { (e : Entity) → IsMatch e found
        → IfOk result
        (Follows (rows.named_step back held.now (Option.Some e) class) out.old out.new) }
{
    let rest = skip(held.as_str(), found.length);
    if is_in_attribute(&back) && is_kept(found, rest, class) {
        literally(back, held.as_str(), out)
    } else {
        let text = replace(alloc, found.characters, rest)?;
        literally(back, text.as_str(), out)
    }
}

/// The text without its first characters; empty where it has no more.
pub fn skip(text: &str, count: usize) -> &str
    ensures { chars result.now ≡ drop count (chars text.now) }
{
    let mut rest = text.chars();
    for _skipped in 0..count {
        let Some(_) = rest.next() else {
            return "";
        };
    }
    rest.as_str()
}

// Whether the reference stands in an attribute's value.
fn is_in_attribute(back: &ReturnState) -> bool
    ensures { result ≡ rows.is_in_attribute back.now }
{
    match back {
        ReturnState::Data => false,
        ReturnState::Rcdata(_) => false,
        ReturnState::AttributeValueQuoted(_, _, _) => true,
        ReturnState::AttributeValueUnquoted(_, _) => true,
    }
}

/// Whether a name stays as it was written in an attribute's value: it has no `;`, and what is
/// behind it, in the rest of what was held or else the character of a class, is a `=`, a letter or
/// a digit, for historical reasons.
pub fn is_kept(found: Match, rest: &str, class: Class) -> bool
    ensures { (e : Entity) → IsMatch e found
        → result
        ≡ (not (ends_in_semicolon e.name)
        && rows.goes_on (rows.class_behind (chars rest.now) class)) }
{
    !found.ends_in_semicolon && goes_on(class_behind(rest, class))
}

// The class of the character next behind a name: of the rest of what was held, or else of the one
// at hand.
fn class_behind(rest: &str, class: Class) -> Class
    ensures { result ≡ rows.class_behind (chars rest.now) class }
{
    match rest.chars().next() {
        None => class,
        Some(c) => class_of(c),
    }
}

// Whether this is a `=`, a letter or a digit.
fn goes_on(class: Class) -> bool
    ensures { result ≡ rows.goes_on class }
{
    matches!(&class, Class::Equals | Class::Alpha | Class::Digit)
}

// What a name stands for, and the rest of what was held.
fn replace(alloc: Global, characters: Characters, rest: &str) -> Result<Text, NoMemory>
    ensures { IfOk result (λ t. t ≡ characters_in characters ++ chars rest.now) }
{
    let mut text = Text::new(alloc);
    text.push(characters.first)?;
    if let Some(second) = characters.second {
        text.push(second)?;
    }
    text.push_str(rest)?;
    Ok(text)
}
