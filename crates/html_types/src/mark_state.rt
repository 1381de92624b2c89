//! The tokenizer's states of comments, markup declarations, doctypes and CDATA sections
//! (13.2.5.41 #bogus-comment-state to 13.2.5.71 #cdata-section-end-state).

ghost use Rattle.std.specs.Prelude.{◌≡◌, ◌↔◌, IsTrue, IfOk};

use crate::memory::NoMemory;
use crate::text::Text;
use crate::token::Quote;
use std::alloc::Global;

/// The states of comments: the comment's text so far, where it isn't empty for sure.
#[derive(Drop)]
pub enum CommentState {
    /// 13.2.5.43 #comment-start-state Comment start state
    Start,
    /// 13.2.5.44 #comment-start-dash-state Comment start dash state
    StartDash,
    /// 13.2.5.45 #comment-state Comment state
    Inside(Text),
    /// 13.2.5.46 #comment-less-than-sign-state Comment less-than sign state
    LessThan(Text),
    /// 13.2.5.47 #comment-less-than-sign-bang-state Comment less-than sign bang state
    LessThanBang(Text),
    /// 13.2.5.48 #comment-less-than-sign-bang-dash-state Comment less-than sign bang dash state
    LessThanBangDash(Text),
    /// 13.2.5.49 #comment-less-than-sign-bang-dash-dash-state Comment less-than sign bang dash dash
    /// state
    LessThanBangDashDash(Text),
    /// 13.2.5.50 #comment-end-dash-state Comment end dash state
    EndDash(Text),
    /// 13.2.5.51 #comment-end-state Comment end state
    End(Text),
    /// 13.2.5.52 #comment-end-bang-state Comment end bang state
    EndBang(Text),
}

/// The states of doctypes: the name so far. Identifiers are read and dropped.
#[derive(Drop)]
pub enum DoctypeState {
    /// 13.2.5.53 #doctype-state DOCTYPE state
    Doctype,
    /// 13.2.5.54 #before-doctype-name-state Before DOCTYPE name state
    BeforeName,
    /// 13.2.5.55 #doctype-name-state DOCTYPE name state
    Name(Text),
    /// 13.2.5.56 #after-doctype-name-state After DOCTYPE name state
    AfterName(Text),
    /// 13.2.5.56 #after-doctype-name-state After DOCTYPE name state: the letters of `public` or
    /// `system` that were read, in lower case; at least one
    Keyword(Text, Text),
    /// 13.2.5.57 #after-doctype-public-keyword-state After DOCTYPE public keyword state,
    /// 13.2.5.58 #before-doctype-public-identifier-state Before DOCTYPE public identifier state
    AfterPublicKeyword(Text),
    /// 13.2.5.59 #doctype-public-identifier-(double-quoted)-state,
    /// 13.2.5.60 #doctype-public-identifier-(single-quoted)-state DOCTYPE public identifier
    /// (double-quoted), (single-quoted) state
    PublicIdentifier(Text, Quote),
    /// 13.2.5.61 #after-doctype-public-identifier-state After DOCTYPE public identifier state,
    /// 13.2.5.62 #between-doctype-public-and-system-identifiers-state Between DOCTYPE public and
    /// system identifiers state
    AfterPublicIdentifier(Text),
    /// 13.2.5.63 #after-doctype-system-keyword-state After DOCTYPE system keyword state,
    /// 13.2.5.64 #before-doctype-system-identifier-state Before DOCTYPE system identifier state
    AfterSystemKeyword(Text),
    /// 13.2.5.65 #doctype-system-identifier-(double-quoted)-state,
    /// 13.2.5.66 #doctype-system-identifier-(single-quoted)-state DOCTYPE system identifier
    /// (double-quoted), (single-quoted) state
    SystemIdentifier(Text, Quote),
    /// 13.2.5.67 #after-doctype-system-identifier-state After DOCTYPE system identifier state
    AfterSystemIdentifier(Text),
    /// 13.2.5.68 #bogus-doctype-state Bogus DOCTYPE state: the name, and whether the force-quirks
    /// flag is set
    Bogus(Text, bool),
}

/// The states of CDATA sections.
#[derive(Clone, Copy, PartialEq, Eq)]
pub enum CdataState {
    /// 13.2.5.69 #cdata-section-state CDATA section state
    Section,
    /// 13.2.5.70 #cdata-section-bracket-state CDATA section bracket state
    Bracket,
    /// 13.2.5.71 #cdata-section-end-state CDATA section end state
    End,
}

/// The states of what begins with `<!`, and of bogus comments.
#[derive(Drop)]
pub enum MarkState {
    /// 13.2.5.42 #markup-declaration-open-state Markup declaration open state: what was read of
    /// `--`, `DOCTYPE` or `[CDATA[`, as it was written
    MarkupDeclarationOpen(Text),
    /// 13.2.5.41 #bogus-comment-state Bogus comment state: the comment's text so far
    BogusComment(Text),
    Comment(CommentState),
    Doctype(DoctypeState),
    Cdata(CdataState),
}

impl CommentState {
    /// A copy.
    pub fn copy(&self, alloc: Global) -> Result<CommentState, NoMemory>
        ensures { IfOk result (λ s. s ≡ self.now) }
    {
        match self {
            CommentState::Start => Ok(CommentState::Start),
            CommentState::StartDash => Ok(CommentState::StartDash),
            CommentState::Inside(text) => Ok(CommentState::Inside(text.copy(alloc)?)),
            CommentState::LessThan(text) => Ok(CommentState::LessThan(text.copy(alloc)?)),
            CommentState::LessThanBang(text) => Ok(CommentState::LessThanBang(text.copy(alloc)?)),
            CommentState::LessThanBangDash(text) => {
                Ok(CommentState::LessThanBangDash(text.copy(alloc)?))
            }
            CommentState::LessThanBangDashDash(text) => {
                Ok(CommentState::LessThanBangDashDash(text.copy(alloc)?))
            }
            CommentState::EndDash(text) => Ok(CommentState::EndDash(text.copy(alloc)?)),
            CommentState::End(text) => Ok(CommentState::End(text.copy(alloc)?)),
            CommentState::EndBang(text) => Ok(CommentState::EndBang(text.copy(alloc)?)),
        }
    }

    /// Whether two states are the same.
    pub fn same(&self, other: &CommentState) -> bool
        ensures { IsTrue result ↔ (self.now ≡ other.now) }
    {
        match (self, other) {
            (CommentState::Start, CommentState::Start) => true,
            (CommentState::StartDash, CommentState::StartDash) => true,
            (CommentState::Inside(v), CommentState::Inside(w)) => v.same(w),
            (CommentState::LessThan(v), CommentState::LessThan(w)) => v.same(w),
            (CommentState::LessThanBang(v), CommentState::LessThanBang(w)) => v.same(w),
            (CommentState::LessThanBangDash(v), CommentState::LessThanBangDash(w)) => v.same(w),
            (CommentState::LessThanBangDashDash(v), CommentState::LessThanBangDashDash(w)) => {
                v.same(w)
            }
            (CommentState::EndDash(v), CommentState::EndDash(w)) => v.same(w),
            (CommentState::End(v), CommentState::End(w)) => v.same(w),
            (CommentState::EndBang(v), CommentState::EndBang(w)) => v.same(w),
            _ => false,
        }
    }
}

impl DoctypeState {
    /// A copy.
    pub fn copy(&self, alloc: Global) -> Result<DoctypeState, NoMemory>
        ensures { IfOk result (λ s. s ≡ self.now) }
    {
        match self {
            DoctypeState::Doctype => Ok(DoctypeState::Doctype),
            DoctypeState::BeforeName => Ok(DoctypeState::BeforeName),
            DoctypeState::Name(name) => Ok(DoctypeState::Name(name.copy(alloc)?)),
            DoctypeState::AfterName(name) => Ok(DoctypeState::AfterName(name.copy(alloc)?)),
            DoctypeState::Keyword(name, held) => {
                Ok(DoctypeState::Keyword(name.copy(alloc)?, held.copy(alloc)?))
            }
            DoctypeState::AfterPublicKeyword(name) => {
                Ok(DoctypeState::AfterPublicKeyword(name.copy(alloc)?))
            }
            DoctypeState::PublicIdentifier(name, quote) => {
                Ok(DoctypeState::PublicIdentifier(name.copy(alloc)?, *quote))
            }
            DoctypeState::AfterPublicIdentifier(name) => {
                Ok(DoctypeState::AfterPublicIdentifier(name.copy(alloc)?))
            }
            DoctypeState::AfterSystemKeyword(name) => {
                Ok(DoctypeState::AfterSystemKeyword(name.copy(alloc)?))
            }
            DoctypeState::SystemIdentifier(name, quote) => {
                Ok(DoctypeState::SystemIdentifier(name.copy(alloc)?, *quote))
            }
            DoctypeState::AfterSystemIdentifier(name) => {
                Ok(DoctypeState::AfterSystemIdentifier(name.copy(alloc)?))
            }
            DoctypeState::Bogus(name, force_quirks) => {
                Ok(DoctypeState::Bogus(name.copy(alloc)?, *force_quirks))
            }
        }
    }

    /// Whether two states are the same.
    pub fn same(&self, other: &DoctypeState) -> bool
        ensures { IsTrue result ↔ (self.now ≡ other.now) }
    {
        match (self, other) {
            (DoctypeState::Doctype, DoctypeState::Doctype) => true,
            (DoctypeState::BeforeName, DoctypeState::BeforeName) => true,
            (DoctypeState::Name(m), DoctypeState::Name(n)) => m.same(n),
            (DoctypeState::AfterName(m), DoctypeState::AfterName(n)) => m.same(n),
            (DoctypeState::Keyword(m, v), DoctypeState::Keyword(n, w)) => m.same(n) && v.same(w),
            (DoctypeState::AfterPublicKeyword(m), DoctypeState::AfterPublicKeyword(n)) => m.same(n),
            (DoctypeState::PublicIdentifier(m, p), DoctypeState::PublicIdentifier(n, q)) => {
                m.same(n) && *p == *q
            }
            (DoctypeState::AfterPublicIdentifier(m), DoctypeState::AfterPublicIdentifier(n)) => {
                m.same(n)
            }
            (DoctypeState::AfterSystemKeyword(m), DoctypeState::AfterSystemKeyword(n)) => m.same(n),
            (DoctypeState::SystemIdentifier(m, p), DoctypeState::SystemIdentifier(n, q)) => {
                m.same(n) && *p == *q
            }
            (DoctypeState::AfterSystemIdentifier(m), DoctypeState::AfterSystemIdentifier(n)) => {
                m.same(n)
            }
            (DoctypeState::Bogus(m, p), DoctypeState::Bogus(n, q)) => m.same(n) && *p == *q,
            _ => false,
        }
    }
}

impl MarkState {
    /// A copy.
    pub fn copy(&self, alloc: Global) -> Result<MarkState, NoMemory>
        ensures { IfOk result (λ s. s ≡ self.now) }
    {
        match self {
            MarkState::MarkupDeclarationOpen(held) => {
                Ok(MarkState::MarkupDeclarationOpen(held.copy(alloc)?))
            }
            MarkState::BogusComment(text) => Ok(MarkState::BogusComment(text.copy(alloc)?)),
            MarkState::Comment(state) => Ok(MarkState::Comment(state.copy(alloc)?)),
            MarkState::Doctype(state) => Ok(MarkState::Doctype(state.copy(alloc)?)),
            MarkState::Cdata(state) => Ok(MarkState::Cdata(*state)),
        }
    }

    /// Whether two states are the same.
    pub fn same(&self, other: &MarkState) -> bool
        ensures { IsTrue result ↔ (self.now ≡ other.now) }
    {
        match (self, other) {
            (MarkState::MarkupDeclarationOpen(v), MarkState::MarkupDeclarationOpen(w)) => v.same(w),
            (MarkState::BogusComment(v), MarkState::BogusComment(w)) => v.same(w),
            (MarkState::Comment(s), MarkState::Comment(t)) => s.same(t),
            (MarkState::Doctype(s), MarkState::Doctype(t)) => s.same(t),
            (MarkState::Cdata(s), MarkState::Cdata(t)) => *s == *t,
            _ => false,
        }
    }
}
