//! The tokenizer's states of character references (13.2.5.72 #character-reference-state to
//! 13.2.5.80 #numeric-character-reference-end-state).

ghost use Rattle.std.specs.Prelude.{◌≡◌, ◌↔◌, IsTrue, IfOk};

use crate::attributes::Attribute;
use crate::memory::NoMemory;
use crate::state::{copy_attribute, same_attribute, same_word};
use crate::text::Text;
use crate::token::{PartialTag, Quote};
use crate::word::Word;
use std::alloc::Global;

/// The state to which a character reference returns: text, or an attribute's value, with what that
/// state holds.
#[derive(Drop)]
pub enum ReturnState {
    Data,
    Rcdata(Option<Word>),
    /// None where the value is dropped.
    AttributeValueQuoted(PartialTag, Option<Attribute>, Quote),
    AttributeValueUnquoted(PartialTag, Option<Attribute>),
}

/// The states of character references.
#[derive(Drop)]
pub enum ReferenceState {
    /// 13.2.5.72 #character-reference-state Character reference state: behind `&`
    Ampersand(ReturnState),
    /// 13.2.5.73 #named-character-reference-state Named character reference state: what was read,
    /// which begins with `&` and begins some name
    Named(ReturnState, Text),
    /// 13.2.5.75 #numeric-character-reference-state Numeric character reference state,
    /// 13.2.5.77 #decimal-character-reference-start-state Decimal character reference start state:
    /// behind `&#`
    Numeric(ReturnState),
    /// 13.2.5.76 #hexadecimal-character-reference-start-state Hexadecimal character reference start
    /// state: behind `&#x`, the `x` as it was written
    HexadecimalStart(ReturnState, char),
    /// 13.2.5.78 #hexadecimal-character-reference-state Hexadecimal character reference state: the
    /// code so far, U+110000 standing for all codes beyond
    Hexadecimal(ReturnState, u32),
    /// 13.2.5.79 #decimal-character-reference-state Decimal character reference state: the same
    Decimal(ReturnState, u32),
}

impl ReturnState {
    /// A copy.
    pub fn copy(&self, alloc: Global) -> Result<ReturnState, NoMemory>
        ensures { IfOk result (λ s. s ≡ self.now) }
    {
        match self {
            ReturnState::Data => Ok(ReturnState::Data),
            ReturnState::Rcdata(last) => Ok(ReturnState::Rcdata(*last)),
            ReturnState::AttributeValueQuoted(tag, held, quote) => {
                Ok(ReturnState::AttributeValueQuoted(
                    tag.copy(alloc)?,
                    copy_attribute(held, alloc)?,
                    *quote,
                ))
            }
            ReturnState::AttributeValueUnquoted(tag, held) => {
                Ok(ReturnState::AttributeValueUnquoted(
                    tag.copy(alloc)?,
                    copy_attribute(held, alloc)?,
                ))
            }
        }
    }

    /// Whether two are the same.
    pub fn same(&self, other: &ReturnState) -> bool
        ensures { IsTrue result ↔ (self.now ≡ other.now) }
    {
        match (self, other) {
            (ReturnState::Data, ReturnState::Data) => true,
            (ReturnState::Rcdata(m), ReturnState::Rcdata(n)) => same_word(m, n),
            (
                ReturnState::AttributeValueQuoted(s, m, p),
                ReturnState::AttributeValueQuoted(t, n, q),
            ) => s.same(t) && same_attribute(m, n) && *p == *q,
            (
                ReturnState::AttributeValueUnquoted(s, m),
                ReturnState::AttributeValueUnquoted(t, n),
            ) => s.same(t) && same_attribute(m, n),
            _ => false,
        }
    }
}

impl ReferenceState {
    /// A copy.
    pub fn copy(&self, alloc: Global) -> Result<ReferenceState, NoMemory>
        ensures { IfOk result (λ s. s ≡ self.now) }
    {
        match self {
            ReferenceState::Ampersand(back) => Ok(ReferenceState::Ampersand(back.copy(alloc)?)),
            ReferenceState::Named(back, held) => {
                Ok(ReferenceState::Named(back.copy(alloc)?, held.copy(alloc)?))
            }
            ReferenceState::Numeric(back) => Ok(ReferenceState::Numeric(back.copy(alloc)?)),
            ReferenceState::HexadecimalStart(back, x) => {
                Ok(ReferenceState::HexadecimalStart(back.copy(alloc)?, *x))
            }
            ReferenceState::Hexadecimal(back, code) => {
                Ok(ReferenceState::Hexadecimal(back.copy(alloc)?, *code))
            }
            ReferenceState::Decimal(back, code) => {
                Ok(ReferenceState::Decimal(back.copy(alloc)?, *code))
            }
        }
    }

    /// Whether two states are the same.
    pub fn same(&self, other: &ReferenceState) -> bool
        ensures { IsTrue result ↔ (self.now ≡ other.now) }
    {
        match (self, other) {
            (ReferenceState::Ampersand(b), ReferenceState::Ampersand(d)) => b.same(d),
            (ReferenceState::Named(b, v), ReferenceState::Named(d, w)) => b.same(d) && v.same(w),
            (ReferenceState::Numeric(b), ReferenceState::Numeric(d)) => b.same(d),
            (ReferenceState::HexadecimalStart(b, x), ReferenceState::HexadecimalStart(d, y)) => {
                b.same(d) && *x == *y
            }
            (ReferenceState::Hexadecimal(b, m), ReferenceState::Hexadecimal(d, n)) => {
                b.same(d) && *m == *n
            }
            (ReferenceState::Decimal(b, m), ReferenceState::Decimal(d, n)) => {
                b.same(d) && *m == *n
            }
            _ => false,
        }
    }
}
