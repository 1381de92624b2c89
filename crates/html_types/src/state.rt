//! The tokenizer's states (13.2.5 #tokenization), in groups. A state holds only what its rows, or
//! those of states reached from it, can still read, so equal states are equal data.

ghost use Rattle.std.specs.Prelude.{◌≡◌, ◌↔◌, IsTrue, IfOk};

use crate::attributes::Attribute;
use crate::mark_state::MarkState;
use crate::memory::NoMemory;
use crate::reference_state::ReferenceState;
use crate::text::Text;
use crate::token::{PartialTag, Quote};
use crate::word::Word;
use std::alloc::Global;

/// How the text of an element is read, up to its own end tag.
#[derive(Clone, Copy, PartialEq, Eq)]
pub enum RawText {
    /// Character references are read.
    Rcdata,
    Rawtext,
    ScriptData,
    /// Script data behind `<!--`.
    ScriptDataEscaped,
}

/// The states of text. `Option<Word>` is the name of the last start tag, which an end tag must have
/// to end the text.
#[derive(Drop)]
pub enum TextState {
    /// 13.2.5.1 #data-state Data state
    Data,
    /// 13.2.5.2 #rcdata-state to 13.2.5.4 #script-data-state, 13.2.5.20 #script-data-escaped-state
    /// RCDATA, RAWTEXT, script data and script data escaped state
    Raw(RawText, Option<Word>),
    /// 13.2.5.5 #plaintext-state PLAINTEXT state
    Plaintext,
    /// 13.2.5.9 #rcdata-less-than-sign-state, 13.2.5.12 #rawtext-less-than-sign-state,
    /// 13.2.5.15 #script-data-less-than-sign-state,
    /// 13.2.5.23 #script-data-escaped-less-than-sign-state less-than sign state of each
    RawLessThan(RawText, Option<Word>),
    /// 13.2.5.10 #rcdata-end-tag-open-state, 13.2.5.13 #rawtext-end-tag-open-state,
    /// 13.2.5.16 #script-data-end-tag-open-state, 13.2.5.24 #script-data-escaped-end-tag-open-state
    /// end tag open state of each
    RawEndTagOpen(RawText, Option<Word>),
    /// 13.2.5.11 #rcdata-end-tag-name-state, 13.2.5.14 #rawtext-end-tag-name-state,
    /// 13.2.5.17 #script-data-end-tag-name-state, 13.2.5.25 #script-data-escaped-end-tag-name-state
    /// end tag name state of each: the name as it was written so far
    RawEndTagName(RawText, Option<Word>, Text),
    /// 13.2.5.18 #script-data-escape-start-state Script data escape start state
    EscapeStart(Option<Word>),
    /// 13.2.5.19 #script-data-escape-start-dash-state Script data escape start dash state
    EscapeStartDash(Option<Word>),
    /// 13.2.5.21 #script-data-escaped-dash-state Script data escaped dash state
    EscapedDash(Option<Word>),
    /// 13.2.5.22 #script-data-escaped-dash-dash-state Script data escaped dash dash state
    EscapedDashDash(Option<Word>),
    /// 13.2.5.26 #script-data-double-escape-start-state Script data double escape start state: the
    /// name so far, in lower case
    DoubleEscapeStart(Option<Word>, Text),
    /// 13.2.5.27 #script-data-double-escaped-state Script data double escaped state
    DoubleEscaped(Option<Word>),
    /// 13.2.5.28 #script-data-double-escaped-dash-state Script data double escaped dash state
    DoubleEscapedDash(Option<Word>),
    /// 13.2.5.29 #script-data-double-escaped-dash-dash-state Script data double escaped dash dash
    /// state
    DoubleEscapedDashDash(Option<Word>),
    /// 13.2.5.30 #script-data-double-escaped-less-than-sign-state Script data double escaped
    /// less-than sign state
    DoubleEscapedLessThan(Option<Word>),
    /// 13.2.5.31 #script-data-double-escape-end-state Script data double escape end state: the name
    /// so far, in lower case
    DoubleEscapeEnd(Option<Word>, Text),
}

/// The states of tags and their attributes.
#[derive(Drop)]
pub enum TagState {
    /// 13.2.5.6 #tag-open-state Tag open state
    TagOpen,
    /// 13.2.5.7 #end-tag-open-state End tag open state
    EndTagOpen,
    /// 13.2.5.8 #tag-name-state Tag name state
    TagName(PartialTag),
    /// 13.2.5.32 #before-attribute-name-state Before attribute name state
    BeforeAttributeName(PartialTag),
    /// 13.2.5.33 #attribute-name-state Attribute name state: the name so far
    AttributeName(PartialTag, Text),
    /// 13.2.5.34 #after-attribute-name-state After attribute name state: the name that was read, or
    /// none where the tag has that name
    AfterAttributeName(PartialTag, Option<Text>),
    /// 13.2.5.35 #before-attribute-value-state Before attribute value state
    BeforeAttributeValue(PartialTag, Option<Text>),
    /// 13.2.5.36 #attribute-value-(double-quoted)-state,
    /// 13.2.5.37 #attribute-value-(single-quoted)-state Attribute value (double-quoted),
    /// (single-quoted) state: none where the value is dropped
    AttributeValueQuoted(PartialTag, Option<Attribute>, Quote),
    /// 13.2.5.38 #attribute-value-(unquoted)-state Attribute value (unquoted) state
    AttributeValueUnquoted(PartialTag, Option<Attribute>),
    /// 13.2.5.39 #after-attribute-value-(quoted)-state After attribute value (quoted) state
    AfterAttributeValueQuoted(PartialTag),
    /// 13.2.5.40 #self-closing-start-tag-state Self-closing start tag state
    SelfClosingStartTag(PartialTag),
}

/// The tokenizer's state.
#[derive(Drop)]
pub enum TokState {
    Text(TextState),
    Tag(TagState),
    Mark(MarkState),
    Reference(ReferenceState),
}

pub(crate) fn same_word(a: &Option<Word>, b: &Option<Word>) -> bool
    ensures { IsTrue result ↔ (a.now ≡ b.now) }
{
    match (a, b) {
        (None, None) => true,
        (Some(v), Some(w)) => v.same(*w),
        _ => false,
    }
}

fn same_name(a: &Option<Text>, b: &Option<Text>) -> bool
    ensures { IsTrue result ↔ (a.now ≡ b.now) }
{
    match (a, b) {
        (None, None) => true,
        (Some(x), Some(y)) => x.same(y),
        _ => false,
    }
}

pub(crate) fn same_attribute(a: &Option<Attribute>, b: &Option<Attribute>) -> bool
    ensures { IsTrue result ↔ (a.now ≡ b.now) }
{
    match (a, b) {
        (None, None) => true,
        (Some(x), Some(y)) => x.same(y),
        _ => false,
    }
}

fn copy_name(held: &Option<Text>, alloc: Global) -> Result<Option<Text>, NoMemory>
    ensures { IfOk result (λ h. h ≡ held.now) }
{
    match held {
        None => Ok(None),
        Some(name) => Ok(Some(name.copy(alloc)?)),
    }
}

pub(crate) fn copy_attribute(
    held: &Option<Attribute>,
    alloc: Global,
) -> Result<Option<Attribute>, NoMemory>
    ensures { IfOk result (λ h. h ≡ held.now) }
{
    match held {
        None => Ok(None),
        Some(attribute) => Ok(Some(attribute.copy(alloc)?)),
    }
}

impl TextState {
    /// A copy.
    pub fn copy(&self, alloc: Global) -> Result<TextState, NoMemory>
        ensures { IfOk result (λ s. s ≡ self.now) }
    {
        match self {
            TextState::Data => Ok(TextState::Data),
            TextState::Raw(raw, last) => Ok(TextState::Raw(*raw, *last)),
            TextState::Plaintext => Ok(TextState::Plaintext),
            TextState::RawLessThan(raw, last) => Ok(TextState::RawLessThan(*raw, *last)),
            TextState::RawEndTagOpen(raw, last) => Ok(TextState::RawEndTagOpen(*raw, *last)),
            TextState::RawEndTagName(raw, last, written) => {
                Ok(TextState::RawEndTagName(*raw, *last, written.copy(alloc)?))
            }
            TextState::EscapeStart(last) => Ok(TextState::EscapeStart(*last)),
            TextState::EscapeStartDash(last) => Ok(TextState::EscapeStartDash(*last)),
            TextState::EscapedDash(last) => Ok(TextState::EscapedDash(*last)),
            TextState::EscapedDashDash(last) => Ok(TextState::EscapedDashDash(*last)),
            TextState::DoubleEscapeStart(last, name) => {
                Ok(TextState::DoubleEscapeStart(*last, name.copy(alloc)?))
            }
            TextState::DoubleEscaped(last) => Ok(TextState::DoubleEscaped(*last)),
            TextState::DoubleEscapedDash(last) => Ok(TextState::DoubleEscapedDash(*last)),
            TextState::DoubleEscapedDashDash(last) => Ok(TextState::DoubleEscapedDashDash(*last)),
            TextState::DoubleEscapedLessThan(last) => Ok(TextState::DoubleEscapedLessThan(*last)),
            TextState::DoubleEscapeEnd(last, name) => {
                Ok(TextState::DoubleEscapeEnd(*last, name.copy(alloc)?))
            }
        }
    }

    /// Whether two states are the same.
    pub fn same(&self, other: &TextState) -> bool
        ensures { IsTrue result ↔ (self.now ≡ other.now) }
    {
        match (self, other) {
            (TextState::Data, TextState::Data) => true,
            (TextState::Raw(r, m), TextState::Raw(s, n)) => *r == *s && same_word(m, n),
            (TextState::Plaintext, TextState::Plaintext) => true,
            (TextState::RawLessThan(r, m), TextState::RawLessThan(s, n)) => *r == *s
                && same_word(m, n),
            (TextState::RawEndTagOpen(r, m), TextState::RawEndTagOpen(s, n)) => {
                *r == *s && same_word(m, n)
            }
            (TextState::RawEndTagName(r, m, v), TextState::RawEndTagName(s, n, w)) => {
                *r == *s && same_word(m, n) && v.same(w)
            }
            (TextState::EscapeStart(m), TextState::EscapeStart(n)) => same_word(m, n),
            (TextState::EscapeStartDash(m), TextState::EscapeStartDash(n)) => same_word(m, n),
            (TextState::EscapedDash(m), TextState::EscapedDash(n)) => same_word(m, n),
            (TextState::EscapedDashDash(m), TextState::EscapedDashDash(n)) => same_word(m, n),
            (TextState::DoubleEscapeStart(m, v), TextState::DoubleEscapeStart(n, w)) => {
                same_word(m, n) && v.same(w)
            }
            (TextState::DoubleEscaped(m), TextState::DoubleEscaped(n)) => same_word(m, n),
            (TextState::DoubleEscapedDash(m), TextState::DoubleEscapedDash(n)) => same_word(m, n),
            (TextState::DoubleEscapedDashDash(m), TextState::DoubleEscapedDashDash(n)) => {
                same_word(m, n)
            }
            (TextState::DoubleEscapedLessThan(m), TextState::DoubleEscapedLessThan(n)) => {
                same_word(m, n)
            }
            (TextState::DoubleEscapeEnd(m, v), TextState::DoubleEscapeEnd(n, w)) => {
                same_word(m, n) && v.same(w)
            }
            _ => false,
        }
    }
}

impl TagState {
    /// A copy.
    pub fn copy(&self, alloc: Global) -> Result<TagState, NoMemory>
        ensures { IfOk result (λ s. s ≡ self.now) }
    {
        match self {
            TagState::TagOpen => Ok(TagState::TagOpen),
            TagState::EndTagOpen => Ok(TagState::EndTagOpen),
            TagState::TagName(tag) => Ok(TagState::TagName(tag.copy(alloc)?)),
            TagState::BeforeAttributeName(tag) => {
                Ok(TagState::BeforeAttributeName(tag.copy(alloc)?))
            }
            TagState::AttributeName(tag, name) => {
                Ok(TagState::AttributeName(tag.copy(alloc)?, name.copy(alloc)?))
            }
            TagState::AfterAttributeName(tag, held) => Ok(TagState::AfterAttributeName(
                tag.copy(alloc)?,
                copy_name(held, alloc)?,
            )),
            TagState::BeforeAttributeValue(tag, held) => Ok(TagState::BeforeAttributeValue(
                tag.copy(alloc)?,
                copy_name(held, alloc)?,
            )),
            TagState::AttributeValueQuoted(tag, held, quote) => Ok(TagState::AttributeValueQuoted(
                tag.copy(alloc)?,
                copy_attribute(held, alloc)?,
                *quote,
            )),
            TagState::AttributeValueUnquoted(tag, held) => Ok(TagState::AttributeValueUnquoted(
                tag.copy(alloc)?,
                copy_attribute(held, alloc)?,
            )),
            TagState::AfterAttributeValueQuoted(tag) => {
                Ok(TagState::AfterAttributeValueQuoted(tag.copy(alloc)?))
            }
            TagState::SelfClosingStartTag(tag) => {
                Ok(TagState::SelfClosingStartTag(tag.copy(alloc)?))
            }
        }
    }

    /// Whether two states are the same.
    pub fn same(&self, other: &TagState) -> bool
        ensures { IsTrue result ↔ (self.now ≡ other.now) }
    {
        match (self, other) {
            (TagState::TagOpen, TagState::TagOpen) => true,
            (TagState::EndTagOpen, TagState::EndTagOpen) => true,
            (TagState::TagName(s), TagState::TagName(t)) => s.same(t),
            (TagState::BeforeAttributeName(s), TagState::BeforeAttributeName(t)) => s.same(t),
            (TagState::AttributeName(s, m), TagState::AttributeName(t, n)) => {
                s.same(t) && m.same(n)
            }
            (TagState::AfterAttributeName(s, m), TagState::AfterAttributeName(t, n)) => {
                s.same(t) && same_name(m, n)
            }
            (TagState::BeforeAttributeValue(s, m), TagState::BeforeAttributeValue(t, n)) => {
                s.same(t) && same_name(m, n)
            }
            (TagState::AttributeValueQuoted(s, m, p), TagState::AttributeValueQuoted(t, n, q)) =>
                s.same(t) && same_attribute(m, n) && *p == *q,
            (TagState::AttributeValueUnquoted(s, m), TagState::AttributeValueUnquoted(t, n)) => {
                s.same(t) && same_attribute(m, n)
            }
            (TagState::AfterAttributeValueQuoted(s), TagState::AfterAttributeValueQuoted(t)) => {
                s.same(t)
            }
            (TagState::SelfClosingStartTag(s), TagState::SelfClosingStartTag(t)) => s.same(t),
            _ => false,
        }
    }
}

impl TokState {
    /// A copy.
    pub fn copy(&self, alloc: Global) -> Result<TokState, NoMemory>
        ensures { IfOk result (λ s. s ≡ self.now) }
    {
        match self {
            TokState::Text(state) => Ok(TokState::Text(state.copy(alloc)?)),
            TokState::Tag(state) => Ok(TokState::Tag(state.copy(alloc)?)),
            TokState::Mark(state) => Ok(TokState::Mark(state.copy(alloc)?)),
            TokState::Reference(state) => Ok(TokState::Reference(state.copy(alloc)?)),
        }
    }
}

/// Whether two states are the same.
pub fn eq_state(a: &TokState, b: &TokState) -> bool
    ensures { IsTrue result ↔ (a.now ≡ b.now) }
{
    match (a, b) {
        (TokState::Text(s), TokState::Text(t)) => s.same(t),
        (TokState::Tag(s), TokState::Tag(t)) => s.same(t),
        (TokState::Mark(s), TokState::Mark(t)) => s.same(t),
        (TokState::Reference(s), TokState::Reference(t)) => s.same(t),
        _ => false,
    }
}
