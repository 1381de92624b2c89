//! The rows of these states: what each does with a character of each class, or at the end of the
//! input.

ghost use Rattle.std.specs.Prelude.{◌≡◌, IfOk, MatchOption, true, false};
ghost use Rattle.standard.specs.TextStates as rows;
ghost use Rattle.tok_rows.specs.Steps.{Follows};

use crate::escapes::{
    double_escape_end_row, double_escape_start_row, double_escaped_dash_dash_row,
    double_escaped_dash_row, double_escaped_less_than_row, double_escaped_row,
    escape_start_dash_row, escape_start_row, escaped_dash_dash_row, escaped_dash_row,
};
use char_class::shown;
use html_types::{
    Class, NoMemory, PartialTag, RawText, ReferenceState, ReturnState, TagKind, TagState, Text,
    TextState, TokState, Token, Tokens, Word,
};
use std::alloc::Global;
use tok_rows::next::{Transition, again, emit, emit_again, emit_tag, finish, new_tag, to};

/// One row: the next state, and the tokens that are emitted, added to `out`. After NoMemory `out`
/// holds any tokens.
pub fn step(
    alloc: Global,
    state: TextState,
    class: Class,
    c: char,
    out: &mut Tokens,
) -> Result<Transition, NoMemory>
    ensures { IfOk result (Follows (rows.text_row state class c) out.old out.new) }
{
    match state {
        TextState::Data => data_row(class, c, out),
        TextState::Raw(raw, last) => raw_row(raw, last, class, c, out),
        TextState::Plaintext => plaintext_row(class, c, out),
        TextState::RawLessThan(raw, last) => raw_less_than_row(alloc, raw, last, class, c, out),
        TextState::RawEndTagOpen(raw, last) => {
            raw_end_tag_open_row(alloc, raw, last, class, c, out)
        }
        TextState::RawEndTagName(raw, last, written) => {
            raw_end_tag_name_row(alloc, raw, last, written, class, c, out)
        }
        TextState::EscapeStart(last) => escape_start_row(last, class, c, out),
        TextState::EscapeStartDash(last) => escape_start_dash_row(last, class, c, out),
        TextState::EscapedDash(last) => escaped_dash_row(last, class, c, out),
        TextState::EscapedDashDash(last) => escaped_dash_dash_row(last, class, c, out),
        TextState::DoubleEscapeStart(last, name) => {
            double_escape_start_row(last, name, class, c, out)
        }
        TextState::DoubleEscaped(last) => double_escaped_row(last, class, c, out),
        TextState::DoubleEscapedDash(last) => double_escaped_dash_row(last, class, c, out),
        TextState::DoubleEscapedDashDash(last) => {
            double_escaped_dash_dash_row(last, class, c, out)
        }
        TextState::DoubleEscapedLessThan(last) => {
            double_escaped_less_than_row(alloc, last, class, c, out)
        }
        TextState::DoubleEscapeEnd(last, name) => double_escape_end_row(last, name, class, c, out),
    }
}

/// 13.2.5.1 #data-state Data state
fn data_row(class: Class, c: char, out: &mut Tokens) -> Result<Transition, NoMemory>
    ensures { IfOk result (Follows (rows.data_row class c) out.old out.new) }
{
    match class {
        Class::Ampersand => {
            let back = ReturnState::Data;
            to(TokState::Reference(ReferenceState::Ampersand(back)), out)
        }
        Class::Less => to(TokState::Tag(TagState::TagOpen), out),
        Class::InputEnd => finish(out),
        _ => emit(Token::Character(c), TextState::Data, out),
    }
}

/// 13.2.5.2 #rcdata-state RCDATA state, 13.2.5.3 #rawtext-state RAWTEXT state,
/// 13.2.5.4 #script-data-state Script data state, 13.2.5.20 #script-data-escaped-state Script
/// data escaped state
fn raw_row(
    raw: RawText,
    last: Option<Word>,
    class: Class,
    c: char,
    out: &mut Tokens,
) -> Result<Transition, NoMemory>
    ensures { IfOk result (Follows (rows.raw_row raw last class c) out.old out.new) }
{
    match (raw, class) {
        (RawText::Rcdata, Class::Ampersand) => {
            let back = ReturnState::Rcdata(last);
            to(TokState::Reference(ReferenceState::Ampersand(back)), out)
        }
        (RawText::ScriptDataEscaped, Class::Hyphen) => emit(
            Token::Character(c),
            TextState::EscapedDash(last),
            out,
        ),
        (_, Class::Less) => to(TokState::Text(TextState::RawLessThan(raw, last)), out),
        (_, Class::InputEnd) => finish(out),
        _ => emit(Token::Character(shown(c)), TextState::Raw(raw, last), out),
    }
}

/// 13.2.5.5 #plaintext-state PLAINTEXT state
fn plaintext_row(class: Class, c: char, out: &mut Tokens) -> Result<Transition, NoMemory>
    ensures { IfOk result (Follows (rows.plaintext_row class c) out.old out.new) }
{
    match class {
        Class::InputEnd => finish(out),
        _ => emit(Token::Character(shown(c)), TextState::Plaintext, out),
    }
}

/// 13.2.5.9 #rcdata-less-than-sign-state RCDATA, 13.2.5.12 #rawtext-less-than-sign-state RAWTEXT,
/// 13.2.5.15 #script-data-less-than-sign-state Script data,
/// 13.2.5.23 #script-data-escaped-less-than-sign-state Script data escaped less-than sign state
fn raw_less_than_row(
    alloc: Global,
    raw: RawText,
    last: Option<Word>,
    class: Class,
    c: char,
    out: &mut Tokens,
) -> Result<Transition, NoMemory>
    ensures { IfOk result (Follows (rows.raw_less_than_row raw last class c) out.old out.new) }
{
    match (raw, class) {
        (_, Class::Slash) => to(TokState::Text(TextState::RawEndTagOpen(raw, last)), out),
        (RawText::ScriptData, Class::Bang) => {
            out.push(Token::Character('<'))?;
            emit(Token::Character('!'), TextState::EscapeStart(last), out)
        }
        (RawText::ScriptDataEscaped, Class::Alpha) => {
            let name = Text::new(alloc);
            emit_again(
                Token::Character('<'),
                TextState::DoubleEscapeStart(last, name),
                out,
            )
        }
        _ => emit_again(Token::Character('<'), TextState::Raw(raw, last), out),
    }
}

/// 13.2.5.10 #rcdata-end-tag-open-state RCDATA, 13.2.5.13 #rawtext-end-tag-open-state RAWTEXT,
/// 13.2.5.16 #script-data-end-tag-open-state Script data,
/// 13.2.5.24 #script-data-escaped-end-tag-open-state Script data escaped end tag open state
fn raw_end_tag_open_row(
    alloc: Global,
    raw: RawText,
    last: Option<Word>,
    class: Class,
    c: char,
    out: &mut Tokens,
) -> Result<Transition, NoMemory>
    ensures { IfOk result (Follows (rows.raw_end_tag_open_row raw last class c) out.old out.new) }
{
    match class {
        Class::Alpha => {
            let written = Text::new(alloc);
            again(
                TokState::Text(TextState::RawEndTagName(raw, last, written)),
                out,
            )
        }
        _ => {
            out.push(Token::Character('<'))?;
            emit_again(Token::Character('/'), TextState::Raw(raw, last), out)
        }
    }
}

/// Whether an end tag of this name, in lower case, is appropriate: it has the last start tag's
/// name.
fn is_appropriate(last: Option<Word>, name: &Text) -> bool
    ensures { result ≡ rows.is_appropriate last name.now }
{
    match last {
        None => false,
        Some(word) => name.is(word.text()),
    }
}

/// What was read is no end tag: it is text.
fn no_end_tag(
    raw: RawText,
    last: Option<Word>,
    written: &Text,
    out: &mut Tokens,
) -> Result<Transition, NoMemory>
    ensures { IfOk result (Follows (rows.no_end_tag raw last written.now) out.old out.new) }
{
    out.push(Token::Character('<'))?;
    out.push(Token::Character('/'))?;
    out.push_characters(written)?;
    again(TokState::Text(TextState::Raw(raw, last)), out)
}

/// The end tag that was written so, where it is appropriate.
fn appropriate_tag(
    alloc: Global,
    last: Option<Word>,
    written: &Text,
) -> Result<Option<PartialTag>, NoMemory>
    ensures { IfOk result
        (λ tag. MatchOption tag
        (rows.is_appropriate last (rows.in_lower_case written.now) ≡ false)
        (λ t. (rows.is_appropriate last (rows.in_lower_case written.now) ≡ true)
        × (t ≡ rows.end_tag_named written.now))) }
{
    let name = written.lower(alloc)?;
    if is_appropriate(last, &name) {
        Ok(Some(new_tag(alloc, TagKind::End, name)))
    } else {
        Ok(None)
    }
}

/// 13.2.5.11 #rcdata-end-tag-name-state RCDATA, 13.2.5.14 #rawtext-end-tag-name-state RAWTEXT,
/// 13.2.5.17 #script-data-end-tag-name-state Script data,
/// 13.2.5.25 #script-data-escaped-end-tag-name-state Script data escaped end tag name state
fn raw_end_tag_name_row(
    alloc: Global,
    raw: RawText,
    last: Option<Word>,
    mut written: Text,
    class: Class,
    c: char,
    out: &mut Tokens,
) -> Result<Transition, NoMemory>
    ensures { IfOk result
        (Follows (rows.raw_end_tag_name_row raw last written class c) out.old out.new) }
{
    match class {
        Class::Space => match appropriate_tag(alloc, last, &written)? {
            Some(tag) => to(TokState::Tag(TagState::BeforeAttributeName(tag)), out),
            None => no_end_tag(raw, last, &written, out),
        },
        Class::Slash => match appropriate_tag(alloc, last, &written)? {
            Some(tag) => to(TokState::Tag(TagState::SelfClosingStartTag(tag)), out),
            None => no_end_tag(raw, last, &written, out),
        },
        Class::Greater => match appropriate_tag(alloc, last, &written)? {
            Some(tag) => emit_tag(tag, out),
            None => no_end_tag(raw, last, &written, out),
        },
        Class::Alpha => {
            written.push(c)?;
            to(
                TokState::Text(TextState::RawEndTagName(raw, last, written)),
                out,
            )
        }
        _ => no_end_tag(raw, last, &written, out),
    }
}
