//! A comment that stands whole in a text, read at once in the data state.

ghost use Rattle.std.specs.Prelude.{◌≡◌, ◌+◌, ◌<◌, ◌≤◌, [], ◌∷◌, true, false, IfOk, IfSome};
ghost use Rattle.std.specs.Str.{IsCharBoundary};
ghost use Rattle.standard.specs.Entities.{Entities};
ghost use Rattle.tokenizer.specs.Comments as parts;
ghost use Rattle.tokenizer.specs.Comments.{begins_inside, Continues, OpensComment};
ghost use Rattle.tokenizer.specs.Whole.{has_cr, piece, MakesAlone};
ghost use Rattle.html_types.specs.declared.token.Token.TheVariants.{Comment};

use crate::part::{Part, is_of, rest_of};
use crate::place::{ascii_at, lacks_cr, past};
use char_class::class_of;
use html_types::{Class, NoMemory, Text};
use std::alloc::Global;

/// The text of a comment, and the place behind it.
#[derive(Drop)]
pub struct WholeComment {
    pub text: Text,
    pub end: usize,
}

// The place behind two characters.
fn past_both(text: &str, from: usize, first: char, second: char) -> Option<usize>
    requires { IsCharBoundary text.now from }
    ensures boundary { IfSome result (λ to. IsCharBoundary text.now to) }
    ensures onward { IfSome result (λ to. from < to) }
    ensures read { IfSome result (λ to. piece text.now from to ≡ first ∷ second ∷ []) }
{
    let Some(middle) = past(text, from, first) else {
        return None;
    };
    let Some(end) = past(text, middle, second) else {
        return None;
    };
    Some(end)
}

// The place behind the `<!--` at a place.
fn comment_opens(text: &str, from: usize) -> Option<usize>
    requires { IsCharBoundary text.now from }
    ensures boundary { IfSome result (λ to. IsCharBoundary text.now to) }
    ensures onward { IfSome result (λ to. from < to) }
    ensures opens { IfSome result (λ to. OpensComment (piece text.now from to)) }
{
    let Some(dashes) = past_both(text, from, '<', '!') else {
        return None;
    };
    let Some(start) = past_both(text, dashes, '-', '-') else {
        return None;
    };
    Some(start)
}

// The place behind characters that a comment gets as they are, or behind a `-` and one of them.
fn inside_next(text: &str, from: usize) -> Option<usize>
    requires { IsCharBoundary text.now from }
    ensures boundary { IfSome result (λ to. IsCharBoundary text.now to) }
    ensures onward { IfSome result (λ to. from < to) }
    ensures inside { IfSome result (λ to. Continues (piece text.now from to)) }
{
    let end = rest_of(text, from, Part::Comment);
    if end > from {
        return Some(end);
    }
    let Some(dash) = past(text, from, '-') else {
        return None;
    };
    let Some(behind) = ascii_at(text, dash) else {
        return None;
    };
    if is_of(Part::Comment, behind) {
        Some(dash + 1)
    } else {
        None
    }
}

// The end of what a comment gets from a place on.
fn inside_end(text: &str, from: usize) -> usize
    requires { IsCharBoundary text.now from }
    ensures boundary { IsCharBoundary text.now result }
    ensures onward { from ≤ result }
    ensures inside { Continues (piece text.now from result) }
{
    let mut at = from;
    while let Some(next) = inside_next(text, at) {
        at = next;
    }
    at
}

fn begins(class: Class) -> bool
    ensures { result ≡ parts.begins class }
{
    !matches!(
        class,
        Class::Hyphen | Class::Less | Class::Greater | Class::InputEnd
    )
}

// Whether a comment may begin with a character.
fn may_begin(c: char) -> bool
    ensures { result ≡ begins_inside (c ∷ []) }
{
    begins(class_of(c)) && is_of(Part::Comment, c)
}

// The end of the text of a comment that begins at a place; none where it is empty.
fn text_end(text: &str, from: usize) -> Option<usize>
    requires { IsCharBoundary text.now from }
    ensures boundary { IfSome result (λ to. IsCharBoundary text.now to) }
    ensures onward { IfSome result (λ to. from < to) }
    ensures begins { IfSome result (λ to. begins_inside (piece text.now from to) ≡ true) }
    ensures inside { IfSome result (λ to. Continues (piece text.now from to)) }
{
    let Some(c) = ascii_at(text, from) else {
        return None;
    };
    if !may_begin(c) {
        return None;
    }
    let end = inside_end(text, from);
    if end == from { None } else { Some(end) }
}

// The place behind the `-->` at a place.
fn comment_closes(text: &str, from: usize) -> Option<usize>
    requires { IsCharBoundary text.now from }
    ensures boundary { IfSome result (λ to. IsCharBoundary text.now to) }
    ensures onward { IfSome result (λ to. from < to) }
    ensures read { IfSome result (λ to. piece text.now from to ≡ 45 ∷ 45 ∷ 62 ∷ []) }
{
    let Some(last) = past_both(text, from, '-', '-') else {
        return None;
    };
    let Some(end) = past(text, last, '>') else {
        return None;
    };
    Some(end)
}

/// The comment that begins at a place; none where the text has none there, or where it is not read
/// so.
pub fn whole_comment(
    alloc: Global,
    text: &str,
    from: usize,
) -> Result<Option<WholeComment>, NoMemory>
    requires { IsCharBoundary text.now from }
    ensures boundary { IfOk result (λ o. IfSome o (λ w. IsCharBoundary text.now w.end)) }
    ensures onward { IfOk result (λ o. IfSome o (λ w. from < w.end)) }
    ensures alone { IfOk result
        (λ o. IfSome o
        (λ w. (es : Entities) → MakesAlone es (piece text.now from w.end) (Comment w.text))) }
    ensures no_cr { IfOk result (λ o. IfSome o (λ w. has_cr (piece text.now from w.end) ≡ false)) }
{
    let Some(start) = comment_opens(text, from) else {
        return Ok(None);
    };
    let Some(close) = text_end(text, start) else {
        return Ok(None);
    };
    let Some(end) = comment_closes(text, close) else {
        return Ok(None);
    };
    if !lacks_cr(&text[from..end]) {
        return Ok(None);
    }
    let inside = Text::from_str(alloc, &text[start..close])?;
    Ok(Some(WholeComment { text: inside, end }))
}
