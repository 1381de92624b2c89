//! The attributes of a tag or an element, in their order.

ghost use Rattle.std.specs.Prelude.{◌≡◌, [], ◌∷◌, ◌++◌, IsTrue, IsFalse, ◌↔◌, IfOk, OnOk, OnErr};
ghost use Rattle.html_types.specs.Attributes.{has_name, with_missing};
ghost use Rattle.html_types.specs.Sums.{AreApart};

use crate::attribute_list::AttributeList;
use crate::memory::NoMemory;
use crate::text::Text;
use std::alloc::Global;
use std::marker::Model;
use std::sync::Arc;

/// An attribute.
#[derive(Drop)]
pub struct Attribute {
    pub name: Text,
    pub value: Text,
}

impl Attribute {
    /// A copy.
    pub fn copy(&self, alloc: Global) -> Result<Attribute, NoMemory>
        ensures { IfOk result (λ a. a ≡ self.now) }
    {
        let name = self.name.copy(alloc)?;
        let value = self.value.copy(alloc)?;
        Ok(Attribute { name, value })
    }

    /// Whether two attributes are the same.
    pub fn same(&self, other: &Attribute) -> bool
        ensures { IsTrue result ↔ (self.now ≡ other.now) }
    {
        self.name.same(&other.name) && self.value.same(&other.value)
    }
}

/// Attributes in their order: a contract sees the list of them. A name is found in the logarithm of
/// their number. A copy shares them, until one of the two changes.
#[derive(Drop)]
pub struct Attributes {
    alloc: Global,
    // None where there were never any.
    shared: Option<Arc<AttributeList>>,
}

impl Model for Attributes {
    ghost use Rattle.std.specs.Prelude.{List};
    ghost use Rattle.html_types.specs.declared.attributes.Attribute.{Attribute};
    ghost use Rattle.html_types.specs.Attributes.{shared_list};

    ghost Value = { List Attribute };

    ghost view = { λ a. shared_list a.shared };
}

impl Attributes {
    /// No attributes, which take no memory.
    pub fn new(alloc: Global) -> Attributes
        ensures { result ≡ [] }
    {
        Attributes {
            alloc,
            shared: None,
        }
    }

    /// Adds an attribute at the end.
    pub fn push(&mut self, attribute: Attribute) -> Result<(), NoMemory>
        ensures ok { OnOk result (self.new ≡ self.old ++ attribute ∷ []) }
        ensures err { OnErr result (self.new ≡ self.old) }
    {
        match &mut self.shared {
            Some(shared) => Arc::make_mut(shared)?.push(attribute),
            None => {
                // Most tags that have attributes have a few, and no node keeps the list.
                let mut list = AttributeList::with_capacity(self.alloc, 3)?;
                list.push(attribute)?;
                self.shared = Some(Arc::new(self.alloc, list)?);
                Ok(())
            }
        }
    }

    /// Adds at the end, in order, copies of those of the attributes whose names are lacking.
    pub fn add_missing(&mut self, more: &Attributes) -> Result<(), NoMemory>
        ensures ok { OnOk result (self.new ≡ with_missing self.old more.now) }
        ensures err { OnErr result (self.new ≡ self.old) }
    {
        match &mut self.shared {
            Some(shared) => Arc::make_mut(shared)?.add_missing(more.as_slice()),
            None => {
                let mut list = AttributeList::new(self.alloc);
                list.add_missing(more.as_slice())?;
                self.shared = Some(Arc::new(self.alloc, list)?);
                Ok(())
            }
        }
    }

    /// Whether an attribute has this name.
    pub fn has(&self, name: &Text) -> bool
        ensures { result ≡ has_name name.now self.now }
    {
        match &self.shared {
            Some(shared) => shared.has(name),
            None => false,
        }
    }

    /// The attributes as a slice.
    pub fn as_slice(&self) -> &[Attribute]
        ensures { result.now ≡ self.now }
    {
        match &self.shared {
            Some(shared) => shared.as_slice(),
            None => &[],
        }
    }

    /// Whether two lists are the same, in order.
    pub fn same(&self, other: &Attributes) -> bool
        ensures { IsTrue result ↔ (self.now ≡ other.now) }
    {
        same_lists(self.as_slice(), other.as_slice())
    }

    /// Makes the sum by which `are_apart` tells lists apart; a copy has it too, and a change drops
    /// it.
    pub fn sum_up(&mut self) -> Result<(), NoMemory>
        ensures { self.new ≡ self.old }
    {
        if let Some(shared) = &mut self.shared {
            Arc::make_mut(shared)?.sum_up()?;
        }
        Ok(())
    }

    /// Whether two lists are known to differ in more than their order, since their sums do. False
    /// tells nothing.
    pub fn are_apart(&self, other: &Attributes) -> bool
        ensures { IsTrue result → AreApart self.now other.now }
    {
        match (&self.shared, &other.shared) {
            (Some(list), Some(its)) => list.are_apart(its),
            _ => false,
        }
    }

    /// What is left of so many bytes behind all names and values, each attribute counted for one
    /// more; nothing where they have more. It is a hint: no contract speaks of it.
    pub fn left_of(&self, bytes: usize) -> Option<usize> {
        let mut left = bytes;
        for attribute in self.as_slice() {
            left = left
                .checked_sub(1)?
                .checked_sub(attribute.name.as_str().len())?
                .checked_sub(attribute.value.as_str().len())?;
        }
        Some(left)
    }

    /// A copy, which shares them.
    pub fn copy(&self, alloc: Global) -> Result<Attributes, NoMemory>
        ensures { IfOk result (λ a. a ≡ self.now) }
    {
        match &self.shared {
            Some(shared) => Ok(Attributes {
                alloc,
                shared: Some(shared.clone()?),
            }),
            None => Ok(Attributes::new(alloc)),
        }
    }
}

// Whether two lists are the same, in order.
fn same_lists(list: &[Attribute], other: &[Attribute]) -> bool
    ensures { IsTrue result ↔ (list.now ≡ other.now) }
{
    if list.len() != other.len() {
        return false;
    }
    for i in 0..list.len() {
        if !list[i].same(&other[i]) {
            return false;
        }
    }
    true
}
