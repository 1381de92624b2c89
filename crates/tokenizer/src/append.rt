//! The characters that a state only adds to what it holds, or drops, taken at once.

ghost use Rattle.std.specs.Prelude.{◌≡◌, ◌≤◌, ◌++◌, true, false, IfOk};
ghost use Rattle.std.specs.Str.{IsCharBoundary};
ghost use Rattle.standard.specs.CommentStates.{in_comment};
ghost use Rattle.standard.specs.DoctypeStates.{in_doctype};
ghost use Rattle.standard.specs.Step.{in_mark, in_tag};
ghost use Rattle.tokenizer.specs.Runs.{LeadsTo, longer};
ghost use Rattle.tokenizer.specs.Whole.{all_of, has_cr, piece};

use crate::part::{Part, rest_of};
use html_types::{
    Attribute, CommentState, DoctypeState, MarkState, NoMemory, TagState, Text, TokState,
};

// Adds what is left of a part from a place on, and gives its end.
fn add_rest(held: &mut Text, text: &str, from: usize, part: Part) -> Result<usize, NoMemory>
    requires { IsCharBoundary text.now from }
    ensures boundary { IfOk result (λ end. IsCharBoundary text.now end) }
    ensures onward { IfOk result (λ end. from ≤ end) }
    ensures added { IfOk result (λ end. held.new ≡ held.old ++ piece text.now from end) }
    ensures all { IfOk result (λ end. all_of part (piece text.now from end) ≡ true) }
    ensures no_cr { IfOk result (λ end. has_cr (piece text.now from end) ≡ false) }
{
    let end = rest_of(text, from, part);
    held.push_str(&text[from..end])?;
    Ok(end)
}

// The same of a value, which is dropped where its attribute is.
fn add_to_value(
    held: &mut Option<Attribute>,
    text: &str,
    from: usize,
    part: Part,
) -> Result<usize, NoMemory>
    requires { IsCharBoundary text.now from }
    ensures boundary { IfOk result (λ end. IsCharBoundary text.now end) }
    ensures onward { IfOk result (λ end. from ≤ end) }
    ensures added { IfOk result (λ end. held.new ≡ longer held.old (piece text.now from end)) }
    ensures all { IfOk result (λ end. all_of part (piece text.now from end) ≡ true) }
    ensures no_cr { IfOk result (λ end. has_cr (piece text.now from end) ≡ false) }
{
    match held {
        Some(attribute) => add_rest(&mut attribute.value, text, from, part),
        None => Ok(rest_of(text, from, part)),
    }
}

// The characters that a state of tags only adds.
fn append_in_tag(state: &mut TagState, text: &str, from: usize) -> Result<usize, NoMemory>
    requires { IsCharBoundary text.now from }
    ensures boundary { IfOk result (λ end. IsCharBoundary text.now end) }
    ensures onward { IfOk result (λ end. from ≤ end) }
    ensures led { IfOk result
        (λ end. LeadsTo (in_tag state.old) (piece text.now from end) (in_tag state.new)) }
    ensures no_cr { IfOk result (λ end. has_cr (piece text.now from end) ≡ false) }
{
    match state {
        TagState::TagName(tag) => add_rest(&mut tag.name, text, from, Part::TagName),
        TagState::AttributeName(_, name) => add_rest(name, text, from, Part::AttributeName),
        TagState::AttributeValueQuoted(_, held, quote) => {
            add_to_value(held, text, from, Part::Quoted(*quote))
        }
        TagState::AttributeValueUnquoted(_, held) => add_to_value(held, text, from, Part::Unquoted),
        _ => Ok(from),
    }
}

// The same of a state of doctypes. Its identifiers are dropped.
fn append_in_doctype(state: &mut DoctypeState, text: &str, from: usize) -> Result<usize, NoMemory>
    requires { IsCharBoundary text.now from }
    ensures boundary { IfOk result (λ end. IsCharBoundary text.now end) }
    ensures onward { IfOk result (λ end. from ≤ end) }
    ensures led { IfOk result
        (λ end. LeadsTo (in_doctype state.old) (piece text.now from end) (in_doctype state.new)) }
    ensures no_cr { IfOk result (λ end. has_cr (piece text.now from end) ≡ false) }
{
    match state {
        DoctypeState::Name(name) => add_rest(name, text, from, Part::DoctypeName),
        DoctypeState::PublicIdentifier(_, quote) => {
            Ok(rest_of(text, from, Part::Identifier(*quote)))
        }
        DoctypeState::SystemIdentifier(_, quote) => {
            Ok(rest_of(text, from, Part::Identifier(*quote)))
        }
        DoctypeState::Bogus(..) => Ok(rest_of(text, from, Part::BogusDoctype)),
        _ => Ok(from),
    }
}

// The same of a state of comments.
fn append_in_comment(state: &mut CommentState, text: &str, from: usize) -> Result<usize, NoMemory>
    requires { IsCharBoundary text.now from }
    ensures boundary { IfOk result (λ end. IsCharBoundary text.now end) }
    ensures onward { IfOk result (λ end. from ≤ end) }
    ensures led { IfOk result
        (λ end. LeadsTo (in_comment state.old) (piece text.now from end) (in_comment state.new)) }
    ensures no_cr { IfOk result (λ end. has_cr (piece text.now from end) ≡ false) }
{
    match state {
        CommentState::Inside(held) => add_rest(held, text, from, Part::Comment),
        _ => Ok(from),
    }
}

// The same of a state of comments, bogus comments or doctypes.
fn append_in_mark(state: &mut MarkState, text: &str, from: usize) -> Result<usize, NoMemory>
    requires { IsCharBoundary text.now from }
    ensures boundary { IfOk result (λ end. IsCharBoundary text.now end) }
    ensures onward { IfOk result (λ end. from ≤ end) }
    ensures led { IfOk result
        (λ end. LeadsTo (in_mark state.old) (piece text.now from end) (in_mark state.new)) }
    ensures no_cr { IfOk result (λ end. has_cr (piece text.now from end) ≡ false) }
{
    match state {
        MarkState::Comment(comment) => append_in_comment(comment, text, from),
        MarkState::BogusComment(held) => add_rest(held, text, from, Part::BogusComment),
        MarkState::Doctype(doctype) => append_in_doctype(doctype, text, from),
        _ => Ok(from),
    }
}

/// Takes the characters from a place of a text on that the state only adds to what it holds, or
/// drops, and gives the place behind them. It may end before all of them are taken. A CR would be
/// read as a line feed (13.2.3.5 #preprocessing-the-input-stream), so it is left to the rows.
pub fn append(state: &mut TokState, text: &str, from: usize) -> Result<usize, NoMemory>
    requires { IsCharBoundary text.now from }
    ensures boundary { IfOk result (λ end. IsCharBoundary text.now end) }
    ensures onward { IfOk result (λ end. from ≤ end) }
    ensures led { IfOk result (λ end. LeadsTo state.old (piece text.now from end) state.new) }
    ensures no_cr { IfOk result (λ end. has_cr (piece text.now from end) ≡ false) }
{
    match state {
        TokState::Tag(tag_state) => append_in_tag(tag_state, text, from),
        TokState::Mark(mark_state) => append_in_mark(mark_state, text, from),
        _ => Ok(from),
    }
}
