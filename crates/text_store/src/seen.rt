//! What a node of a tree is, as it is read.

ghost use Rattle.std.specs.Prelude.{◌≡◌, ◌+◌, ◌<◌, ◌≤◌, length, map, take, drop, IfOk, IfSome};
ghost use Rattle.std.specs.Str.{chars};
ghost use Rattle.html_types.specs.Names.{name_text, space_of};
ghost use Rattle.standard.specs.Fragment.{name_in};
ghost use Rattle.standard.specs.Tree.{attributes_of};
ghost use Rattle.text_store.specs.declared.kinds.Kept.TheVariants as kept;
ghost use Rattle.text_store.specs.Kinds.{first_name, kind_at, HoldsKind};
ghost use Rattle.text_store.specs.Lists.{mark_at, HoldsMarks, list_at, HoldsList, element_at};
ghost use Rattle.text_store.specs.Views.{seen_kind, seen_name};

use crate::kinds::Kept;
use crate::listed::Listed;
use crate::lists::{ElementApart, Mark, Run, Store};
use crate::store::{Spot, TextStore};
use html_types::{Attribute, Attributes, Name, NoMemory, Space, Word};
use std::alloc::Global;

/// The name of an element, as it is read.
#[derive(Clone, Copy)]
pub enum SeenName<'a> {
    Known(Word),
    Other(Space, &'a str),
}

/// What a node is, as it is read.
#[derive(Drop)]
pub enum Seen<'a> {
    Document,
    /// The contents of a template.
    Contents,
    Doctype(&'a str),
    Element(SeenName<'a>, Listed<'a>),
    Text(&'a str),
    Comment(&'a str),
}

impl<'a> SeenName<'a> {
    /// The namespace.
    pub fn space(self) -> Space
        ensures { result ≡ space_of (seen_name self.entry) }
    {
        match self {
            SeenName::Known(_) => Space::Html,
            SeenName::Other(space, _) => space,
        }
    }

    /// The name as it is written, without its namespace.
    pub fn as_str(self) -> &'a str
        ensures { chars result.now ≡ name_text (seen_name self.entry) }
    {
        match self {
            SeenName::Known(word) => word.text(),
            SeenName::Other(_, text) => text,
        }
    }

    /// The same name on its own.
    pub fn to_name(self, alloc: Global) -> Result<Name, NoMemory>
        ensures { IfOk result (λ name. name ≡ seen_name self.entry) }
    {
        match self {
            SeenName::Known(word) => Ok(Name::Known(word)),
            SeenName::Other(space, text) => Name::other(alloc, space, text),
        }
    }
}

// The name of an element, copied; of anything else one without characters.
#[tactic(auto, using(std::proofs::lemmas::Grind::common_steps, crate::proofs::Literals::no_text))]
fn seen_name_in(alloc: Global, kind: &Seen<'_>) -> Result<Name, NoMemory>
    ensures { IfOk result (λ name. name ≡ name_in (seen_kind kind.now)) }
{
    match kind {
        Seen::Element(name, _) => (*name).to_name(alloc),
        _ => Name::other(alloc, Space::Html, ""),
    }
}

// The attributes of an element on their own; of anything else none.
fn seen_attributes_in(alloc: Global, kind: &Seen<'_>) -> Result<Attributes, NoMemory>
    ensures { IfOk result (λ list. list ≡ attributes_of (seen_kind kind.now)) }
{
    match kind {
        Seen::Element(_, listed) => listed.to_attributes(alloc),
        _ => Ok(Attributes::new(alloc)),
    }
}

// A name, as it is read.
fn seen_of(name: &Name) -> SeenName<'_>
    ensures { seen_name result ≡ name.now }
{
    match name {
        Name::Known(word) => SeenName::Known(*word),
        Name::Other(space, text) => SeenName::Other(*space, text.as_str()),
    }
}

// The marks of a run.
#[inline]
fn part(marks: &[Mark], run: Run) -> &[Mark]
    requires { run.from + run.size ≤ length marks.now }
    ensures marks { result.now ≡ take run.size (drop run.from marks.now) }
    ensures size { length result.now ≡ run.size }
{
    let from = run.from as usize;
    &marks[from..from + run.size as usize]
}

// All marks but the first.
fn behind_first(marks: &[Mark]) -> &[Mark]
    requires { 0 < length marks.now }
    ensures { result.now ≡ drop 1 marks.now }
{
    &marks[1..]
}

// The name that the first mark has.
fn first_name<'a>(texts: &'a TextStore, marks: &[Mark]) -> &'a str
    requires held { HoldsMarks texts.now marks.now }
    requires some { 0 < length marks.now }
    ensures { chars result.now ≡ first_name (map (mark_at texts.now) marks.now) }
{
    texts.text(Spot::Inside(marks[0].name))
}

// Attributes whose texts lie there.
#[inline(always)]
fn listed_of<'a>(texts: &'a TextStore, marks: &'a [Mark]) -> Listed<'a>
    requires { HoldsMarks texts.now marks.now }
    ensures { result ≡ map (mark_at texts.now) marks.now }
{
    Listed {
        texts,
        marks,
        more: &[],
        whole: None,
    }
}

// The first of the attributes.
fn first_of(list: &Attributes, size: u32) -> &[Attribute]
    requires { size ≤ length list.now }
    ensures { result.now ≡ take size list.now }
{
    &list.as_slice()[..size as usize]
}

// The list, where all of it is meant.
fn whole_of(list: &Attributes, size: u32) -> Option<&Attributes>
    requires { size ≤ length list.now }
    ensures { IfSome result (λ whole. whole.now ≡ take size list.now) }
{
    if list.as_slice().len() == size as usize {
        Some(list)
    } else {
        None
    }
}

// The first of the attributes that stand apart.
fn listed_apart<'a>(texts: &'a TextStore, list: &'a Attributes, size: u32) -> Listed<'a>
    requires { size ≤ length list.now }
    ensures { result ≡ take size list.now }
{
    Listed {
        texts,
        marks: &[],
        more: first_of(list, size),
        whole: whole_of(list, size),
    }
}

impl Store {
    // The list that lies there.
    #[inline(always)]
    pub(crate) fn listed(&self, run: Run) -> Listed<'_>
        requires { HoldsList self.now run (list_at self.now run) }
        ensures { result ≡ list_at self.now run }
    {
        listed_of(&self.texts, part(self.marks.as_slice(), run))
    }

    // The element whose name is that of the first mark.
    fn other(&self, space: Space, run: Run) -> Seen<'_>
        requires { HoldsKind self.now (kept.Other space run) }
        ensures { seen_kind result ≡ kind_at self.now (kept.Other space run) }
    {
        let marks = part(self.marks.as_slice(), run);
        let name = first_name(&self.texts, marks);
        let list = listed_of(&self.texts, behind_first(marks));
        Seen::Element(SeenName::Other(space, name), list)
    }

    /// The element that stands apart, with all attributes that it has by now.
    pub(crate) fn element(&self, run: Run) -> &ElementApart
        requires { run.from < length self.now.apart.items }
        ensures { result.now ≡ element_at self.now.apart.items run.from }
    {
        &self.apart[run.from as usize]
    }

    // The element whose attributes stand apart.
    fn apart(&self, run: Run) -> Seen<'_>
        requires { HoldsKind self.now (kept.ElementApart run) }
        ensures { seen_kind result ≡ kind_at self.now (kept.ElementApart run) }
    {
        let apart = self.element(run);
        let name = seen_of(&apart.name);
        let list = listed_apart(&self.texts, &apart.list, run.size);
        Seen::Element(name, list)
    }

    /// What lies there.
    pub fn kind(&self, kept: Kept) -> Seen<'_>
        requires { HoldsKind self.now kept }
        ensures { seen_kind result ≡ kind_at self.now kept }
    {
        match kept {
            Kept::Document => Seen::Document,
            Kept::Contents => Seen::Contents,
            Kept::Doctype(name) => Seen::Doctype(self.texts.text(Spot::Inside(name))),
            Kept::Comment(text) => Seen::Comment(self.texts.text(Spot::Inside(text))),
            Kept::Text(text) => Seen::Text(self.texts.text(Spot::Inside(text))),
            Kept::TextApart(text) => Seen::Text(self.texts.text(Spot::Apart(text))),
            Kept::Known(word, run) => Seen::Element(SeenName::Known(word), self.listed(run)),
            Kept::Other(space, run) => self.other(space, run),
            Kept::ElementApart(run) => self.apart(run),
        }
    }

    // The name of an element that stands apart, which is shared.
    fn apart_name(&self, run: Run) -> Result<Name, NoMemory>
        requires { HoldsKind self.now (kept.ElementApart run) }
        ensures { IfOk result (λ name. name ≡ (element_at self.now.apart.items run.from).name) }
    {
        self.element(run).name.copy()
    }

    // The name of an element, copied; of anything else one without characters.
    fn copied_name(&self, kept: Kept) -> Result<Name, NoMemory>
        requires { HoldsKind self.now kept }
        ensures { IfOk result (λ name. name ≡ name_in (kind_at self.now kept)) }
    {
        seen_name_in(self.alloc, &self.kind(kept))
    }

    /// The name of an element; of anything else one without characters. A long one is shared.
    pub fn name_in(&self, kept: Kept) -> Result<Name, NoMemory>
        requires { HoldsKind self.now kept }
        ensures { IfOk result (λ name. name ≡ name_in (kind_at self.now kept)) }
    {
        match kept {
            Kept::ElementApart(run) => self.apart_name(run),
            _ => self.copied_name(kept),
        }
    }

    /// The attributes of an element on their own; of anything else none.
    pub(crate) fn attributes_in(&self, kept: Kept) -> Result<Attributes, NoMemory>
        requires { HoldsKind self.now kept }
        ensures { IfOk result (λ list. list ≡ attributes_of (kind_at self.now kept)) }
    {
        seen_attributes_in(self.alloc, &self.kind(kept))
    }
}
