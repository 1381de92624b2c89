//! A text that is read up to its end tag: that tag, read at once where it stands whole, and a `<`
//! that begins nothing.

ghost use Rattle.std.specs.Prelude.{◌≡◌, ◌<◌, ◌≤◌, ◌==◌, ◌||◌, false, IfSome};
ghost use Rattle.std.specs.Str.{chars, IsCharBoundary};
ghost use Rattle.standard.specs.Entities.{Entities};
ghost use Rattle.tokenizer.specs.Whole.{has_cr, piece};
ghost use Rattle.standard.specs.Class.{is_mark};
ghost use Rattle.tokenizer.specs.Raw.{Ends, MakesFrom, BeginsNothing};

use crate::place::{ascii_at, past};
use crate::whole::Whole;
use html_types::{Attributes, Name, RawText, Tag, TextState, TokState, Token, Word};
use std::alloc::Global;

// The place behind some characters, where they stand at a place.
fn past_all(text: &str, from: usize, written: &str) -> Option<usize>
    requires { IsCharBoundary text.now from }
    ensures boundary { IfSome result (λ to. IsCharBoundary text.now to) }
    ensures onward { IfSome result (λ to. from ≤ to) }
    ensures read { IfSome result (λ to. piece text.now from to ≡ chars written.now) }
{
    let mut to = from;
    for c in written.chars() {
        to = past(text, to, c)?;
    }
    Some(to)
}

// What ends the text in a state, as it is mostly written, and its name; of the elements that pages
// have most.
fn end_of(state: &TokState) -> Option<(Word, &'static str)>
    ensures { IfSome result (λ e. Ends state.now e.0 (chars e.1.now)) }
{
    let TokState::Text(TextState::Raw(raw, Some(last))) = state else {
        return None;
    };
    match (raw, last) {
        (RawText::ScriptData, Word::Script) => Some((Word::Script, "</script>")),
        (RawText::Rawtext, Word::Style) => Some((Word::Style, "</style>")),
        (RawText::Rcdata, Word::Title) => Some((Word::Title, "</title>")),
        (RawText::Rcdata, Word::Textarea) => Some((Word::Textarea, "</textarea>")),
        _ => None,
    }
}

/// The end tag at a place that ends the text in that state, and the place behind it; none where it
/// stands not there, not whole, or written in another way.
pub fn raw_end(alloc: Global, state: &TokState, text: &str, from: usize) -> Option<Whole>
    requires { IsCharBoundary text.now from }
    ensures boundary { IfSome result (λ w. IsCharBoundary text.now w.end) }
    ensures onward { IfSome result (λ w. from < w.end) }
    ensures makes { IfSome result (λ w. (es : Entities)
        → MakesFrom es state.now (piece text.now from w.end) w.token) }
    ensures no_cr { IfSome result (λ w. has_cr (piece text.now from w.end) ≡ false) }
{
    let (word, written) = end_of(state)?;
    let end = past_all(text, from, written)?;
    let tag = Tag {
        name: Name::Known(word),
        attributes: Attributes::new(alloc),
        self_closing: false,
    };
    Some(Whole {
        token: Token::EndTag(tag),
        end,
    })
}

// Whether something begins with a character behind a `<`, or it isn't read as it is.
fn begins(c: char) -> bool
    ensures { result ≡ (is_mark c || c == 47 || c == 33) }
{
    c == '\0' || c == '\r' || c == '&' || c == '<' || c == '/' || c == '!'
}

/// The place behind a `<` at a place and the character behind it, where nothing begins with them in
/// such a text.
pub fn raw_less(text: &str, from: usize) -> Option<usize>
    requires { IsCharBoundary text.now from }
    ensures boundary { IfSome result (λ to. IsCharBoundary text.now to) }
    ensures onward { IfSome result (λ to. from < to) }
    ensures nothing { IfSome result (λ to. BeginsNothing (piece text.now from to)) }
{
    let less = past(text, from, '<')?;
    let next = ascii_at(text, less)?;
    if begins(next) { None } else { Some(less + 1) }
}
