//! How much of a tokenizer's state a copy copies. These are hints: no contract speaks of them.

use html_types::{
    Attribute, CommentState, DoctypeState, MarkState, PartialTag, ReferenceState, ReturnState,
    TagState, Text, TextState, TokState,
};

/// A text of so many bytes is short.
const SHORT_TEXT: usize = 4096;

/// So many attributes are few.
const FEW_ATTRIBUTES: usize = 64;

fn is_short(text: &Text) -> bool {
    text.as_str().len() <= SHORT_TEXT
}

fn is_short_name(name: &Option<Text>) -> bool {
    match name {
        None => true,
        Some(text) => is_short(text),
    }
}

fn is_short_attribute(attribute: &Option<Attribute>) -> bool {
    match attribute {
        None => true,
        Some(held) => is_short(&held.name) && is_short(&held.value),
    }
}

// A copy shares the attributes, but where one of the two goes on they are copied, and a comparison
// reads them.
fn is_light_tag(tag: &PartialTag) -> bool {
    is_short(&tag.name)
        && tag.attributes.as_slice().len() <= FEW_ATTRIBUTES
        && tag.attributes.left_of(SHORT_TEXT).is_some()
}

fn is_light_text_state(state: &TextState) -> bool {
    match state {
        TextState::RawEndTagName(_, _, written) => is_short(written),
        TextState::DoubleEscapeStart(_, name) => is_short(name),
        TextState::DoubleEscapeEnd(_, name) => is_short(name),
        _ => true,
    }
}

fn is_light_tag_state(state: &TagState) -> bool {
    match state {
        TagState::TagName(tag) => is_light_tag(tag),
        TagState::BeforeAttributeName(tag) => is_light_tag(tag),
        TagState::AttributeName(tag, name) => is_light_tag(tag) && is_short(name),
        TagState::AfterAttributeName(tag, name) => is_light_tag(tag) && is_short_name(name),
        TagState::BeforeAttributeValue(tag, name) => is_light_tag(tag) && is_short_name(name),
        TagState::AttributeValueQuoted(tag, held, _) => {
            is_light_tag(tag) && is_short_attribute(held)
        }
        TagState::AttributeValueUnquoted(tag, held) => {
            is_light_tag(tag) && is_short_attribute(held)
        }
        TagState::AfterAttributeValueQuoted(tag) => is_light_tag(tag),
        TagState::SelfClosingStartTag(tag) => is_light_tag(tag),
        _ => true,
    }
}

fn is_light_comment(state: &CommentState) -> bool {
    match state {
        CommentState::Inside(text) => is_short(text),
        CommentState::LessThan(text) => is_short(text),
        CommentState::LessThanBang(text) => is_short(text),
        CommentState::LessThanBangDash(text) => is_short(text),
        CommentState::LessThanBangDashDash(text) => is_short(text),
        CommentState::EndDash(text) => is_short(text),
        CommentState::End(text) => is_short(text),
        CommentState::EndBang(text) => is_short(text),
        _ => true,
    }
}

fn is_light_doctype(state: &DoctypeState) -> bool {
    match state {
        DoctypeState::Name(name) => is_short(name),
        DoctypeState::AfterName(name) => is_short(name),
        DoctypeState::Keyword(name, _) => is_short(name),
        DoctypeState::AfterPublicKeyword(name) => is_short(name),
        DoctypeState::PublicIdentifier(name, _) => is_short(name),
        DoctypeState::AfterPublicIdentifier(name) => is_short(name),
        DoctypeState::AfterSystemKeyword(name) => is_short(name),
        DoctypeState::SystemIdentifier(name, _) => is_short(name),
        DoctypeState::AfterSystemIdentifier(name) => is_short(name),
        DoctypeState::Bogus(name, _) => is_short(name),
        _ => true,
    }
}

fn is_light_mark(state: &MarkState) -> bool {
    match state {
        MarkState::BogusComment(text) => is_short(text),
        MarkState::Comment(comment) => is_light_comment(comment),
        MarkState::Doctype(doctype) => is_light_doctype(doctype),
        _ => true,
    }
}

fn is_light_return(state: &ReturnState) -> bool {
    match state {
        ReturnState::AttributeValueQuoted(tag, held, _) => {
            is_light_tag(tag) && is_short_attribute(held)
        }
        ReturnState::AttributeValueUnquoted(tag, held) => {
            is_light_tag(tag) && is_short_attribute(held)
        }
        _ => true,
    }
}

fn is_light_reference(state: &ReferenceState) -> bool {
    match state {
        ReferenceState::Ampersand(back) => is_light_return(back),
        ReferenceState::Named(back, _) => is_light_return(back),
        ReferenceState::Numeric(back) => is_light_return(back),
        ReferenceState::HexadecimalStart(back, _) => is_light_return(back),
        ReferenceState::Hexadecimal(back, _) => is_light_return(back),
        ReferenceState::Decimal(back, _) => is_light_return(back),
    }
}

/// Whether the token so far is short.
pub(crate) fn is_light_state(state: &TokState) -> bool {
    match state {
        TokState::Text(text) => is_light_text_state(text),
        TokState::Tag(tag) => is_light_tag_state(tag),
        TokState::Mark(mark) => is_light_mark(mark),
        TokState::Reference(reference) => is_light_reference(reference),
    }
}
