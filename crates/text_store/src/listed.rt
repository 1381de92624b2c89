//! Lists of attributes, as they are read.

ghost use Rattle.std.specs.Prelude.{◌≡◌, ◌<◌, length, slice_get, Some, map, IfOk, IfSome};
ghost use Rattle.std.specs.Str.{chars};
ghost use Rattle.std.specs.Option.{option_map};
ghost use Rattle.standard.specs.Tree.{attribute};
ghost use Rattle.text_store.specs.Stores.{Holds};
ghost use Rattle.text_store.specs.declared.store.Spot.TheVariants.{Inside};
ghost use Rattle.text_store.specs.Lists.{mark_at, HoldsMarks};
ghost use Rattle.text_store.specs.Views.{seen_attribute};

use crate::lists::Mark;
use crate::store::{Spot, TextStore};
use html_types::{Attribute, Attributes, NoMemory, Text};
use std::alloc::Global;
use std::marker::Model;

/// A list of attributes, as it is read: a contract sees the list.
#[derive(Drop)]
pub struct Listed<'a> {
    pub(crate) texts: &'a TextStore,
    pub(crate) marks: &'a [Mark],
    // Those behind the marks.
    pub(crate) more: &'a [Attribute],
    // Where they are all of a list that can be shared.
    pub(crate) whole: Option<&'a Attributes>,
}

impl<'a> Model for Listed<'a> {
    ghost use Rattle.std.specs.Prelude.{◌≡◌, List, map, length, ◌++◌, ◌+◌, ◌<◌, ◌^◌, IfSome};
    ghost use Rattle.html_types.specs.declared.attributes.Attribute.{Attribute};
    ghost use Rattle.text_store.specs.Lists.{mark_at, HoldsMarks};

    ghost Value = { List Attribute };

    ghost view = { λ l. map (mark_at l.texts.now) l.marks.now ++ l.more.now };

    ghost invariant = { λ l. HoldsMarks l.texts.now l.marks.now
        × (length l.marks.now + length l.more.now < 2 ^ 64)
        × IfSome l.whole
        (λ whole. whole.now ≡ map (mark_at l.texts.now) l.marks.now ++ l.more.now) };
}

/// An attribute, as it is read.
#[derive(Clone, Copy)]
pub struct SeenAttribute<'a> {
    pub name: &'a str,
    pub value: &'a str,
}

// An attribute whose texts lie there.
fn mark_seen(texts: &TextStore, mark: Mark) -> SeenAttribute<'_>
    requires name { Holds texts.now (Inside mark.name) }
    requires value { Holds texts.now (Inside mark.value) }
    ensures { seen_attribute result ≡ mark_at texts.now mark }
{
    SeenAttribute {
        name: texts.text(Spot::Inside(mark.name)),
        value: texts.text(Spot::Inside(mark.value)),
    }
}

// One of the attributes whose texts lie there.
fn mark_in<'a>(texts: &'a TextStore, marks: &[Mark], index: usize) -> SeenAttribute<'a>
    requires held { HoldsMarks texts.now marks.now }
    requires here { index < length marks.now }
    ensures { slice_get (map (mark_at texts.now) marks.now) index ≡ Some (seen_attribute result) }
{
    mark_seen(texts, marks[index])
}

// An attribute, as it is read.
fn attribute_seen(attribute: &Attribute) -> SeenAttribute<'_>
    ensures { seen_attribute result ≡ attribute.now }
{
    SeenAttribute {
        name: attribute.name.as_str(),
        value: attribute.value.as_str(),
    }
}

// One of the attributes, as it is read.
fn attribute_in(attributes: &[Attribute], index: usize) -> SeenAttribute<'_>
    requires { index < length attributes.now }
    ensures { slice_get attributes.now index ≡ Some (seen_attribute result) }
{
    attribute_seen(&attributes[index])
}

// The value of the mark with that name.
fn value_among<'a>(texts: &'a TextStore, marks: &'a [Mark], name: &str) -> Option<&'a str>
    requires { HoldsMarks texts.now marks.now }
    ensures { option_map (λ text. chars text.now) result
        ≡ attribute (chars name.now) (map (mark_at texts.now) marks.now) }
{
    for mark in marks {
        if texts.text(Spot::Inside(mark.name)) == name {
            return Some(texts.text(Spot::Inside(mark.value)));
        }
    }
    None
}

// The value of the attribute with that name.
fn value_in<'a>(attributes: &'a [Attribute], name: &str) -> Option<&'a str>
    ensures { option_map (λ text. chars text.now) result
        ≡ attribute (chars name.now) attributes.now }
{
    for attribute in attributes {
        if attribute.name.is(name) {
            return Some(attribute.value.as_str());
        }
    }
    None
}

impl<'a> Listed<'a> {
    /// How many attributes there are.
    #[inline(always)]
    pub fn len(&self) -> usize
        ensures { result ≡ length self.now }
    {
        self.marks.len() + self.more.len()
    }

    /// One of them.
    pub fn at(&self, index: usize) -> SeenAttribute<'a>
        requires { index < length self.now }
        ensures { slice_get self.now index ≡ Some (seen_attribute result) }
    {
        let count = self.marks.len();
        if index < count {
            mark_in(self.texts, self.marks, index)
        } else {
            attribute_in(self.more, index - count)
        }
    }

    /// The value of the attribute with that name.
    pub fn value_of(&self, name: &str) -> Option<&'a str>
        ensures { option_map (λ text. chars text.now) result ≡ attribute (chars name.now) self.now }
    {
        match value_among(self.texts, self.marks, name) {
            Some(value) => Some(value),
            None => value_in(self.more, name),
        }
    }

    /// Whether they can be shared.
    #[inline(always)]
    pub(crate) fn is_shared(&self) -> bool {
        self.whole.is_some()
    }

    /// The same attributes, shared, where they can be.
    pub fn shared(&self, alloc: Global) -> Result<Option<Attributes>, NoMemory>
        ensures { IfOk result (λ shared. IfSome shared (λ attributes. attributes ≡ self.now)) }
    {
        match self.whole {
            Some(whole) => Ok(Some(whole.copy(alloc)?)),
            None => Ok(None),
        }
    }

    /// The same attributes on their own.
    pub fn to_attributes(&self, alloc: Global) -> Result<Attributes, NoMemory>
        ensures { IfOk result (λ attributes. attributes ≡ self.now) }
    {
        let mut attributes = Attributes::new(alloc);
        let count = self.len();
        for index in 0..count {
            let seen = self.at(index);
            let name = Text::from_str(alloc, seen.name)?;
            let value = Text::from_str(alloc, seen.value)?;
            attributes.push(Attribute { name, value })?;
        }
        Ok(attributes)
    }
}
