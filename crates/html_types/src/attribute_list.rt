//! Attributes in a list, with an index of their names once there are many.

ghost use Rattle.std.specs.Prelude.{◌≡◌, [], ◌∷◌, ◌++◌, ◌||◌, if◌then◌else◌, IsTrue, IfOk, OnOk};
ghost use Rattle.std.specs.Prelude.{OnErr, take, length};
ghost use Rattle.html_types.specs.Text.{same_text};
ghost use Rattle.html_types.specs.Attributes.{has_name, with_missing, Indexes};
ghost use Rattle.html_types.specs.Sums.{AreApart};

use crate::attribute_sum::distinct_sum;
use crate::attributes::Attribute;
use crate::memory::NoMemory;
use crate::name_index::NameIndex;
use crate::text::Text;
use std::alloc::{AllocError, Global};
use std::marker::Model;

// So many attributes are looked through one after another; where there are more, their names are in
// an index.
const FEW: usize = 16;

/// Attributes in their order: a contract sees the list of them. A name is found in the logarithm of
/// their number.
#[derive(Drop)]
pub(crate) struct AttributeList {
    alloc: Global,
    list: Vec<Attribute>,
    // Where it is there, it has all their names.
    index: Option<Box<NameIndex>>,
    // A sum that their order doesn't change, where it was asked for and no two have the same name.
    sum: Option<u64>,
}

impl Model for AttributeList {
    ghost use Rattle.std.specs.Prelude.{List};
    ghost use Rattle.html_types.specs.declared.attributes.Attribute.{Attribute};
    ghost use Rattle.html_types.specs.Attributes.{has_name, Indexes};
    ghost use Rattle.html_types.specs.Sums.{HasSum};

    ghost Value = { List Attribute };

    ghost view = { λ a. a.list.items };

    ghost invariant = { λ a. Indexes a.index (λ name. has_name name a.list.items)
        × HasSum a.list.items a.sum };
}

// Whether one of them has this name.
fn is_among(list: &[Attribute], name: &Text) -> bool
    ensures { result ≡ has_name name.now list.now }
{
    for attribute in list {
        if attribute.name.same(name) {
            return true;
        }
    }
    false
}

// A name comes to the index, which is made where there get to be more than a few.
fn add_name(
    alloc: Global,
    index: &mut Option<Box<NameIndex>>,
    list: &[Attribute],
    name: &Text,
) -> Result<(), NoMemory>
    requires { Indexes index.old (λ n. has_name n list.now) }
    ensures ok { OnOk result
        (Indexes index.new (λ n. same_text name.now n || has_name n list.now)) }
    ensures err { OnErr result (Indexes index.new (λ n. has_name n list.now)) }
{
    if let Some(names) = index {
        return names.add(alloc, name);
    }
    if list.len() < FEW {
        return Ok(());
    }
    let mut names = NameIndex::of(alloc, list)?;
    names.add(alloc, name)?;
    *index = Some(Box::new(alloc, names)?);
    Ok(())
}

impl AttributeList {
    /// No attributes, which take no memory.
    pub(crate) fn new(alloc: Global) -> AttributeList
        ensures { result ≡ [] }
    {
        AttributeList {
            alloc,
            list: Vec::new(alloc),
            index: None,
            sum: None,
        }
    }

    /// No attributes, with room for so many.
    pub(crate) fn with_capacity(alloc: Global, capacity: usize) -> Result<AttributeList, NoMemory>
        ensures { IfOk result (λ a. a ≡ []) }
    {
        let list = Vec::with_capacity(alloc, capacity)?;
        Ok(AttributeList {
            alloc,
            list,
            index: None,
            sum: None,
        })
    }

    /// Adds an attribute at the end.
    pub(crate) fn push(&mut self, attribute: Attribute) -> Result<(), NoMemory>
        ensures ok { OnOk result (self.new ≡ self.old ++ attribute ∷ []) }
        ensures err { OnErr result (self.new ≡ self.old) }
    {
        self.sum = None;
        add_name(self.alloc, &mut self.index, &self.list, &attribute.name)?;
        if let Err(error) = self.list.push(attribute) {
            self.index = None;
            return Err(NoMemory::from(error));
        }
        Ok(())
    }

    /// Adds at the end, in order, copies of those of the attributes whose names are lacking.
    pub(crate) fn add_missing(&mut self, more: &[Attribute]) -> Result<(), NoMemory>
        ensures ok { OnOk result (self.new ≡ with_missing self.old more.now) }
        ensures err { OnErr result (self.new ≡ self.old) }
    {
        let before = self.list.len();
        if let Err(error) = self.add_all(more) {
            self.list.truncate(before);
            self.index = None;
            self.sum = None;
            return Err(error);
        }
        Ok(())
    }

    // Adds copies of those that are lacking, or of the first of them.
    fn add_all(&mut self, more: &[Attribute]) -> Result<(), NoMemory>
        ensures ok { OnOk result (self.new ≡ with_missing self.old more.now) }
        ensures err { OnErr result (take (length self.old) self.new ≡ self.old) }
    {
        for attribute in more {
            self.add_one(attribute)?;
        }
        Ok(())
    }

    // Adds a copy of the attribute, unless one has its name.
    fn add_one(&mut self, attribute: &Attribute) -> Result<(), NoMemory>
        ensures ok { OnOk result (self.new ≡ with_missing self.old (attribute.now ∷ [])) }
        ensures err { OnErr result (self.new ≡ self.old) }
    {
        if self.has(&attribute.name) {
            return Ok(());
        }
        let copied = attribute.copy(self.alloc)?;
        self.push(copied)
    }

    /// Whether an attribute has this name.
    pub(crate) fn has(&self, name: &Text) -> bool
        ensures { result ≡ has_name name.now self.now }
    {
        match &self.index {
            Some(index) => index.has(name),
            None => is_among(&self.list, name),
        }
    }

    /// The attributes as a slice.
    pub(crate) fn as_slice(&self) -> &[Attribute]
        ensures { result.now ≡ self.now }
    {
        self.list.as_slice()
    }

    /// Makes the sum by which `are_apart` tells lists apart; a change drops it.
    pub(crate) fn sum_up(&mut self) -> Result<(), NoMemory>
        ensures { self.new ≡ self.old }
    {
        self.sum = distinct_sum(self.alloc, &self.list)?;
        Ok(())
    }

    /// Whether two lists are known to differ in more than their order, since their sums do. False
    /// tells nothing.
    pub(crate) fn are_apart(&self, other: &AttributeList) -> bool
        ensures { IsTrue result → AreApart self.now other.now }
    {
        match (self.sum, other.sum) {
            (Some(sum), Some(its)) => sum != its,
            _ => false,
        }
    }

    /// A copy.
    pub(crate) fn copy(&self, alloc: Global) -> Result<AttributeList, NoMemory>
        ensures { IfOk result (λ a. a ≡ self.now) }
    {
        let mut copied = AttributeList::with_capacity(alloc, self.list.len())?;
        for attribute in &self.list {
            copied.push(attribute.copy(alloc)?)?;
        }
        Ok(copied)
    }
}

impl Clone for AttributeList {
    ghost is_clone = { λ a b. b ≡ a };

    fn clone(&self) -> Result<AttributeList, AllocError> {
        match self.copy(self.alloc) {
            Ok(copied) => Ok(copied),
            Err(_) => Err(AllocError),
        }
    }
}
