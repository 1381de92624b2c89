//! The open state of tree construction (13.2.4 #parse-state): it names elements by their ids.

ghost use Rattle.std.specs.Prelude.{◌≡◌, ◌↔◌, ◌∷◌, [], reverse, IsTrue, IfOk, OnOk, OnErr, IfSome};
ghost use Rattle.std.specs.Prelude.{IfNone};

use crate::instruction::Mode;
use crate::memory::NoMemory;
use crate::name::Name;
use crate::operation::NodeId;
use crate::text::Text;
use crate::token::Tag;
use shared_stack::{Entry, SharedStack, Walk};
use std::alloc::{AllocError, Global};
use std::marker::Model;

/// An open element.
#[derive(Drop)]
pub struct OpenElement {
    pub id: NodeId,
    pub name: Name,
    /// An annotation-xml of MathML whose start tag named an encoding of HTML: an HTML integration
    /// point (13.2.6 #tree-construction).
    pub html_point: bool,
}

impl Entry for OpenElement {
    fn copy(&self, _alloc: Global) -> Result<OpenElement, AllocError> {
        let name = self.name.copy()?;
        Ok(OpenElement {
            id: self.id,
            name,
            html_point: self.html_point,
        })
    }

    fn same(&self, other: &OpenElement) -> bool {
        self.id == other.id && self.html_point == other.html_point && self.name.same(&other.name)
    }
}

/// The stack of open elements (13.2.4.2 #the-stack-of-open-elements). Contracts see the list that
/// begins with the current node.
pub type Stack = SharedStack<OpenElement>;

/// A walk over the stack of open elements, from the current node up. Contracts see the list of the
/// elements that are left.
pub type Elements<'a> = Walk<'a, OpenElement>;

/// An entry of the list of active formatting elements: a marker, or an element with the tag that it
/// was made for.
#[derive(Drop)]
pub enum FormattingEntry {
    Marker,
    Element { id: NodeId, tag: Tag },
}

impl Entry for FormattingEntry {
    fn copy(&self, alloc: Global) -> Result<FormattingEntry, AllocError> {
        match self {
            FormattingEntry::Marker => Ok(FormattingEntry::Marker),
            FormattingEntry::Element { id, tag } => {
                let tag = tag.copy(alloc)?;
                Ok(FormattingEntry::Element { id: *id, tag })
            }
        }
    }

    fn same(&self, other: &FormattingEntry) -> bool {
        match (self, other) {
            (FormattingEntry::Marker, FormattingEntry::Marker) => true,
            (
                FormattingEntry::Element { id: i, tag: s },
                FormattingEntry::Element { id: j, tag: t },
            ) => { *i == *j && s.same(t) }
            _ => false,
        }
    }
}

/// The list of active formatting elements (13.2.4.3 #the-list-of-active-formatting-elements).
/// Contracts see the list that begins with the latest entry.
pub type ActiveFormatting = SharedStack<FormattingEntry>;

/// The stack of template insertion modes (13.2.4.1 #the-insertion-mode). Contracts see the list
/// that begins with the current one.
#[derive(Drop)]
pub struct Modes {
    items: Vec<Mode>,
}

impl Model for Modes {
    ghost use Rattle.std.specs.Prelude.{List, reverse};
    ghost use Rattle.html_types.specs.declared.instruction.Mode.{Mode};

    ghost Value = { List Mode };

    ghost view = { λ m. reverse m.items.items };
}

impl Modes {
    /// No modes, which take no memory.
    pub fn new(alloc: Global) -> Modes
        ensures { result ≡ [] }
    {
        Modes {
            items: Vec::new(alloc),
        }
    }

    /// Adds a mode, which is then the current one.
    pub fn push(&mut self, mode: Mode) -> Result<(), NoMemory>
        ensures ok { OnOk result (self.new ≡ mode ∷ self.old) }
        ensures err { OnErr result (self.new ≡ self.old) }
    {
        self.items.push(mode)?;
        Ok(())
    }

    /// Takes the current mode off.
    pub fn pop(&mut self) -> Option<Mode>
        ensures some { IfSome result (λ m. self.old ≡ m ∷ self.new) }
        ensures none { IfNone result (self.old ≡ []) }
        ensures empty { IfNone result (self.new ≡ []) }
    {
        self.items.pop()
    }

    /// The modes, the current one last.
    pub fn as_slice(&self) -> &[Mode]
        ensures { reverse result.now ≡ self.now }
    {
        self.items.as_slice()
    }

    /// A copy.
    pub fn copy(&self, alloc: Global) -> Result<Modes, NoMemory>
        ensures { IfOk result (λ m. m ≡ self.now) }
    {
        let mut items = Vec::new(alloc);
        for mode in &self.items {
            items.push(*mode)?;
        }
        Ok(Modes { items })
    }

    /// Whether two stacks are the same.
    pub fn same(&self, other: &Modes) -> bool
        ensures { IsTrue result ↔ (self.now ≡ other.now) }
    {
        same_modes(self.as_slice(), other.as_slice())
    }
}

fn same_modes(a: &[Mode], b: &[Mode]) -> bool
    ensures { IsTrue result ↔ (a.now ≡ b.now) }
{
    if a.len() != b.len() {
        return false;
    }
    for i in 0..a.len() {
        if a[i] != b[i] {
            return false;
        }
    }
    true
}

/// The open state (13.2.4 #parse-state).
#[derive(Drop)]
pub struct Open {
    pub stack: Stack,
    pub formats: ActiveFormatting,
    /// The head element pointer.
    pub head: Option<NodeId>,
    /// The form element pointer.
    pub form: Option<NodeId>,
    pub mode: Mode,
    /// The original insertion mode, in the modes "text" and "in table text" alone
    /// (`open_state_is_proper` of `rule_laws`).
    pub original: Option<Mode>,
    pub template_modes: Modes,
    /// The pending table character tokens, in the mode "in table text" alone
    /// (`open_state_is_proper`).
    pub pending_text: Text,
    pub frameset_ok: bool,
    pub quirks: bool,
    /// The next token is left out where it is a line feed.
    pub skip_line_feed: bool,
    /// Foster parenting is on.
    pub foster: bool,
    /// The id of the next element that is made.
    pub next: NodeId,
    /// Of a fragment (13.4 #parsing-html-fragments) its context, under the id of the first element
    /// of the stack, for which it stands; of a page, none.
    pub context: Option<OpenElement>,
}

/// What the parse of a fragment (13.4 #parsing-html-fragments) asks of its context, the element
/// whose children the fragment comes to be.
#[derive(Drop)]
pub struct Context {
    pub name: Name,
    /// An annotation-xml of MathML whose `encoding` is one of HTML: an HTML integration point
    /// (13.2.6 #tree-construction).
    pub html_point: bool,
    /// It is a form, or stands under one: the form element pointer is set.
    pub form: bool,
    /// Its document is in quirks mode.
    pub quirks: bool,
}
