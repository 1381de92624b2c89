//! The rows of these states: what each does with a character of each class, or at the end of the
//! input.

ghost use Rattle.std.specs.Prelude.{IfOk};
ghost use Rattle.standard.specs.TagStates as rows;
ghost use Rattle.tok_rows.specs.Steps.{Follows};

use crate::parts::{bare, fresh, longer_value, with_attribute, with_bare};
use char_class::name_char;
use html_types::{
    Attribute, Class, MarkState, NoMemory, PartialTag, Quote, ReferenceState, ReturnState, TagKind,
    TagState, Text, TextState, TokState, Token, Tokens,
};
use std::alloc::Global;
use tok_rows::next::{
    Transition, again, data_state, emit_again, emit_tag, emit_tag_as, finish, finish_after,
    new_tag, to,
};

/// One row: the next state, and the tokens that are emitted, added to `out`. After NoMemory `out`
/// holds any tokens.
pub fn step(
    alloc: Global,
    state: TagState,
    class: Class,
    c: char,
    out: &mut Tokens,
) -> Result<Transition, NoMemory>
    ensures { IfOk result (Follows (rows.tag_row state class c) out.old out.new) }
{
    match state {
        TagState::TagOpen => tag_open_row(alloc, class, c, out),
        TagState::EndTagOpen => end_tag_open_row(alloc, class, c, out),
        TagState::TagName(tag) => tag_name_row(tag, class, c, out),
        TagState::BeforeAttributeName(tag) => before_attribute_name_row(alloc, tag, class, c, out),
        TagState::AttributeName(tag, name) => attribute_name_row(tag, name, class, c, out),
        TagState::AfterAttributeName(tag, held) => {
            after_attribute_name_row(alloc, tag, held, class, c, out)
        }
        TagState::BeforeAttributeValue(tag, held) => {
            before_attribute_value_row(alloc, tag, held, class, c, out)
        }
        TagState::AttributeValueQuoted(tag, held, quote) => {
            quoted_row(tag, held, quote, class, c, out)
        }
        TagState::AttributeValueUnquoted(tag, held) => unquoted_row(tag, held, class, c, out),
        TagState::AfterAttributeValueQuoted(tag) => after_quoted_row(tag, class, c, out),
        TagState::SelfClosingStartTag(tag) => self_closing_row(tag, class, c, out),
    }
}

/// 13.2.5.6 #tag-open-state Tag open state
fn tag_open_row(
    alloc: Global,
    class: Class,
    c: char,
    out: &mut Tokens,
) -> Result<Transition, NoMemory>
    ensures { IfOk result (Follows (rows.tag_open_row class c) out.old out.new) }
{
    match class {
        Class::Bang => {
            let held = Text::new(alloc);
            to(TokState::Mark(MarkState::MarkupDeclarationOpen(held)), out)
        }
        Class::Slash => to(TokState::Tag(TagState::EndTagOpen), out),
        Class::Alpha => {
            let tag = new_tag(alloc, TagKind::Start, Text::new(alloc));
            again(TokState::Tag(TagState::TagName(tag)), out)
        }
        Class::Question => {
            let text = Text::new(alloc);
            again(TokState::Mark(MarkState::BogusComment(text)), out)
        }
        Class::InputEnd => finish_after(Token::Character('<'), out),
        _ => emit_again(Token::Character('<'), TextState::Data, out),
    }
}

/// 13.2.5.7 #end-tag-open-state End tag open state
fn end_tag_open_row(
    alloc: Global,
    class: Class,
    c: char,
    out: &mut Tokens,
) -> Result<Transition, NoMemory>
    ensures { IfOk result (Follows (rows.end_tag_open_row class c) out.old out.new) }
{
    match class {
        Class::Alpha => {
            let tag = new_tag(alloc, TagKind::End, Text::new(alloc));
            again(TokState::Tag(TagState::TagName(tag)), out)
        }
        Class::Greater => to(data_state(), out),
        Class::InputEnd => {
            out.push(Token::Character('<'))?;
            finish_after(Token::Character('/'), out)
        }
        _ => {
            let text = Text::new(alloc);
            again(TokState::Mark(MarkState::BogusComment(text)), out)
        }
    }
}

/// 13.2.5.8 #tag-name-state Tag name state
fn tag_name_row(
    mut tag: PartialTag,
    class: Class,
    c: char,
    out: &mut Tokens,
) -> Result<Transition, NoMemory>
    ensures { IfOk result (Follows (rows.tag_name_row tag class c) out.old out.new) }
{
    match class {
        Class::Space => to(TokState::Tag(TagState::BeforeAttributeName(tag)), out),
        Class::Slash => to(TokState::Tag(TagState::SelfClosingStartTag(tag)), out),
        Class::Greater => emit_tag(tag, out),
        Class::InputEnd => finish(out),
        _ => {
            tag.name.push(name_char(c))?;
            to(TokState::Tag(TagState::TagName(tag)), out)
        }
    }
}

/// 13.2.5.32 #before-attribute-name-state Before attribute name state
fn before_attribute_name_row(
    alloc: Global,
    tag: PartialTag,
    class: Class,
    c: char,
    out: &mut Tokens,
) -> Result<Transition, NoMemory>
    ensures { IfOk result (Follows (rows.before_attribute_name_row tag class c) out.old out.new) }
{
    match class {
        Class::Space => to(TokState::Tag(TagState::BeforeAttributeName(tag)), out),
        Class::Slash | Class::Greater | Class::InputEnd => {
            again(TokState::Tag(TagState::AfterAttributeName(tag, None)), out)
        }
        Class::Equals => {
            let mut name = Text::new(alloc);
            name.push('=')?;
            to(TokState::Tag(TagState::AttributeName(tag, name)), out)
        }
        _ => {
            let name = Text::new(alloc);
            again(TokState::Tag(TagState::AttributeName(tag, name)), out)
        }
    }
}

/// 13.2.5.33 #attribute-name-state Attribute name state
fn attribute_name_row(
    tag: PartialTag,
    mut name: Text,
    class: Class,
    c: char,
    out: &mut Tokens,
) -> Result<Transition, NoMemory>
    ensures { IfOk result (Follows (rows.attribute_name_row tag name class c) out.old out.new) }
{
    match class {
        Class::Space | Class::Slash | Class::Greater | Class::InputEnd => {
            let held = fresh(&tag, name);
            again(TokState::Tag(TagState::AfterAttributeName(tag, held)), out)
        }
        Class::Equals => {
            let held = fresh(&tag, name);
            to(
                TokState::Tag(TagState::BeforeAttributeValue(tag, held)),
                out,
            )
        }
        _ => {
            name.push(name_char(c))?;
            to(TokState::Tag(TagState::AttributeName(tag, name)), out)
        }
    }
}

/// 13.2.5.34 #after-attribute-name-state After attribute name state
fn after_attribute_name_row(
    alloc: Global,
    tag: PartialTag,
    held: Option<Text>,
    class: Class,
    c: char,
    out: &mut Tokens,
) -> Result<Transition, NoMemory>
    ensures { IfOk result
        (Follows (rows.after_attribute_name_row tag held class c) out.old out.new) }
{
    match class {
        Class::Space => to(TokState::Tag(TagState::AfterAttributeName(tag, held)), out),
        Class::Slash => {
            let tag = with_bare(alloc, tag, held)?;
            to(TokState::Tag(TagState::SelfClosingStartTag(tag)), out)
        }
        Class::Equals => to(
            TokState::Tag(TagState::BeforeAttributeValue(tag, held)),
            out,
        ),
        Class::Greater => emit_tag(with_bare(alloc, tag, held)?, out),
        Class::InputEnd => finish(out),
        _ => {
            let tag = with_bare(alloc, tag, held)?;
            let name = Text::new(alloc);
            again(TokState::Tag(TagState::AttributeName(tag, name)), out)
        }
    }
}

/// 13.2.5.35 #before-attribute-value-state Before attribute value state
fn before_attribute_value_row(
    alloc: Global,
    tag: PartialTag,
    held: Option<Text>,
    class: Class,
    c: char,
    out: &mut Tokens,
) -> Result<Transition, NoMemory>
    ensures { IfOk result
        (Follows (rows.before_attribute_value_row tag held class c) out.old out.new) }
{
    match class {
        Class::Space => to(
            TokState::Tag(TagState::BeforeAttributeValue(tag, held)),
            out,
        ),
        Class::DoubleQuote => {
            let value = bare(alloc, held);
            let state = TagState::AttributeValueQuoted(tag, value, Quote::Double);
            to(TokState::Tag(state), out)
        }
        Class::SingleQuote => {
            let value = bare(alloc, held);
            let state = TagState::AttributeValueQuoted(tag, value, Quote::Single);
            to(TokState::Tag(state), out)
        }
        Class::Greater => emit_tag(with_bare(alloc, tag, held)?, out),
        _ => {
            let value = bare(alloc, held);
            again(
                TokState::Tag(TagState::AttributeValueUnquoted(tag, value)),
                out,
            )
        }
    }
}

/// 13.2.5.36 #attribute-value-(double-quoted)-state Attribute value (double-quoted) state,
/// 13.2.5.37 #attribute-value-(single-quoted)-state Attribute value (single-quoted) state
fn quoted_row(
    tag: PartialTag,
    held: Option<Attribute>,
    quote: Quote,
    class: Class,
    c: char,
    out: &mut Tokens,
) -> Result<Transition, NoMemory>
    ensures { IfOk result (Follows (rows.quoted_row tag held quote class c) out.old out.new) }
{
    match (quote, class) {
        (Quote::Double, Class::DoubleQuote) | (Quote::Single, Class::SingleQuote) => {
            let tag = with_attribute(tag, held)?;
            to(TokState::Tag(TagState::AfterAttributeValueQuoted(tag)), out)
        }
        (_, Class::Ampersand) => {
            let back = ReturnState::AttributeValueQuoted(tag, held, quote);
            to(TokState::Reference(ReferenceState::Ampersand(back)), out)
        }
        (_, Class::InputEnd) => finish(out),
        _ => {
            let longer = longer_value(held, c)?;
            to(
                TokState::Tag(TagState::AttributeValueQuoted(tag, longer, quote)),
                out,
            )
        }
    }
}

/// 13.2.5.38 #attribute-value-(unquoted)-state Attribute value (unquoted) state
fn unquoted_row(
    tag: PartialTag,
    held: Option<Attribute>,
    class: Class,
    c: char,
    out: &mut Tokens,
) -> Result<Transition, NoMemory>
    ensures { IfOk result (Follows (rows.unquoted_row tag held class c) out.old out.new) }
{
    match class {
        Class::Space => {
            let tag = with_attribute(tag, held)?;
            to(TokState::Tag(TagState::BeforeAttributeName(tag)), out)
        }
        Class::Ampersand => {
            let back = ReturnState::AttributeValueUnquoted(tag, held);
            to(TokState::Reference(ReferenceState::Ampersand(back)), out)
        }
        Class::Greater => emit_tag(with_attribute(tag, held)?, out),
        Class::InputEnd => finish(out),
        _ => {
            let longer = longer_value(held, c)?;
            to(
                TokState::Tag(TagState::AttributeValueUnquoted(tag, longer)),
                out,
            )
        }
    }
}

/// 13.2.5.39 #after-attribute-value-(quoted)-state After attribute value (quoted) state
fn after_quoted_row(
    tag: PartialTag,
    class: Class,
    c: char,
    out: &mut Tokens,
) -> Result<Transition, NoMemory>
    ensures { IfOk result (Follows (rows.after_quoted_row tag class c) out.old out.new) }
{
    match class {
        Class::Space => to(TokState::Tag(TagState::BeforeAttributeName(tag)), out),
        Class::Slash => to(TokState::Tag(TagState::SelfClosingStartTag(tag)), out),
        Class::Greater => emit_tag(tag, out),
        Class::InputEnd => finish(out),
        _ => again(TokState::Tag(TagState::BeforeAttributeName(tag)), out),
    }
}

/// 13.2.5.40 #self-closing-start-tag-state Self-closing start tag state
fn self_closing_row(
    tag: PartialTag,
    class: Class,
    c: char,
    out: &mut Tokens,
) -> Result<Transition, NoMemory>
    ensures { IfOk result (Follows (rows.self_closing_row tag class c) out.old out.new) }
{
    match class {
        Class::Greater => emit_tag_as(true, tag, out),
        Class::InputEnd => finish(out),
        _ => again(TokState::Tag(TagState::BeforeAttributeName(tag)), out),
    }
}
