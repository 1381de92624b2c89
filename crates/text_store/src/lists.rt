//! Lists of attributes, whose names and values lie in a store.

ghost use Rattle.std.specs.Prelude.{◌≡◌, ◌+◌, ◌≤◌, ◌∷◌, [], IfOk, OnOk, length};
ghost use Rattle.std.specs.Str.{chars};
ghost use Rattle.text_store.specs.Lists.{HoldsList, KeepsAll, GetsMarks};

use crate::store::{Piece, TextStore};
use html_types::{Attribute, Attributes, Name, NoMemory};
use std::alloc::Global;

/// An attribute whose name and value lie in a store.
#[derive(Clone, Copy)]
pub struct Mark {
    pub(crate) name: Piece,
    pub(crate) value: Piece,
}

/// Where a list lies: from which mark on, and of how many.
#[derive(Clone, Copy)]
pub struct Run {
    pub(crate) from: u32,
    pub(crate) size: u32,
}

/// An element whose attributes are no marks: they are long, and shared with copies of it, or they
/// got more.
#[derive(Drop)]
pub struct ElementApart {
    pub(crate) name: Name,
    pub(crate) list: Attributes,
}

/// A number in 32 bits; one that they don't hold is want of memory.
pub(crate) fn short(number: usize) -> Result<u32, NoMemory>
    ensures { IfOk result (λ n. n ≡ number) }
{
    u32::try_from(number).map_err(|_| NoMemory)
}

/// Texts, and lists of attributes.
#[derive(Drop)]
pub struct Store {
    pub(crate) alloc: Global,
    pub(crate) texts: TextStore,
    pub(crate) marks: Vec<Mark>,
    pub(crate) apart: Vec<ElementApart>,
}

impl Store {
    /// Nothing, which takes no memory.
    pub fn new(alloc: Global) -> Store {
        Store {
            alloc,
            texts: TextStore::new(alloc),
            marks: Vec::new(alloc),
            apart: Vec::new(alloc),
        }
    }

    /// Adds an attribute.
    #[tactic(auto, using(std::proofs::lemmas::Grind::common_steps, crate::proofs::ListLemmas::keeps_then, crate::proofs::ListLemmas::texts_kept, crate::proofs::ListLemmas::mark_kept))]
    pub(crate) fn push_mark(&mut self, name: &str, value: &str) -> Result<(), NoMemory>
        ensures ok { OnOk result
            (GetsMarks self.old self.new
            ((record { name = chars name.now; value = chars value.now }) ∷ [])) }
        ensures kept { KeepsAll self.old self.new }
    {
        let first = self.texts.push(name)?;
        let second = self.texts.push(value)?;
        self.marks.push(Mark {
            name: first,
            value: second,
        })?;
        Ok(())
    }

    /// Adds attributes.
    #[tactic(auto, using(std::proofs::lemmas::Grind::common_steps, crate::proofs::ListLemmas::all_not, crate::proofs::ListLemmas::all_then, crate::proofs::ListLemmas::gets_none))]
    pub(crate) fn push_marks(&mut self, attributes: &[Attribute]) -> Result<(), NoMemory>
        ensures ok { OnOk result (GetsMarks self.old self.new attributes.now) }
        ensures kept { KeepsAll self.old self.new }
    {
        for attribute in attributes {
            self.push_mark(attribute.name.as_str(), attribute.value.as_str())?;
        }
        Ok(())
    }

    /// All marks from one on.
    pub(crate) fn run_from(&self, from: usize) -> Result<Run, NoMemory>
        requires { from ≤ length self.now.marks.items }
        ensures from { IfOk result (λ r. r.from ≡ from) }
        ensures all { IfOk result (λ r. r.from + r.size ≡ length self.now.marks.items) }
    {
        let size = short(self.marks.len() - from)?;
        let from = short(from)?;
        Ok(Run { from, size })
    }

    /// Adds a list.
    #[tactic(auto, using(std::proofs::lemmas::Grind::common_steps, crate::proofs::ListLemmas::all_not, crate::proofs::ListLemmas::no_list))]
    pub(crate) fn push_list(&mut self, attributes: &[Attribute]) -> Result<Run, NoMemory>
        ensures ok { IfOk result (λ r. HoldsList self.new r attributes.now) }
        ensures kept { KeepsAll self.old self.new }
    {
        // Most elements have none.
        if attributes.len() == 0 {
            return Ok(Run { from: 0, size: 0 });
        }
        let from = self.marks.len();
        self.push_marks(attributes)?;
        let list = self.run_from(from)?;
        Ok(list)
    }
}
