//! What a node of a tree is, with its texts and attributes in a store.

ghost use Rattle.std.specs.Prelude.{◌≡◌, ◌++◌, IfOk, OnOk};
ghost use Rattle.std.specs.Str.{chars};
ghost use Rattle.standard.specs.Tree.{is_element, is_document, is_text, with_more};
ghost use Rattle.html_types.specs.declared.name.Name.TheVariants.{Other};
ghost use Rattle.html_types.specs.declared.tree.Kind.TheVariants as kind;
ghost use Rattle.text_store.specs.Stores.{text_at, Holds, HoldsText};
ghost use Rattle.text_store.specs.declared.store.Spot.TheVariants.{Inside};
ghost use Rattle.text_store.specs.declared.lists.Store.{Store};
ghost use Rattle.text_store.specs.Lists.{GetsMarks, HoldsList, KeepsAll};
ghost use Rattle.text_store.specs.Views.{seen_name};
ghost use Rattle.text_store.specs.Kinds.{kind_at, HoldsKind, MeansKind};

use crate::listed::Listed;
use crate::lists::{Run, Store};
use crate::seen::SeenName;
use crate::store::{Piece, Spot};
use html_types::{Attribute, Attributes, Kind, Name, NoMemory, Space, Word};

/// What a node is: its texts and attributes lie in a store.
#[derive(Clone, Copy)]
pub enum Kept {
    Document,
    /// The contents of a template.
    Contents,
    Doctype(Piece),
    Comment(Piece),
    Text(Piece),
    /// A Text that got more when others stood behind it.
    TextApart(Piece),
    /// An element of HTML that the rules speak of.
    Known(Word, Run),
    /// Any other element: its name is that of the run's first mark.
    Other(Space, Run),
    /// An element whose attributes are no marks: its number among those, and how many of its
    /// attributes it has.
    ElementApart(Run),
}

impl Kept {
    /// Whether it is an element.
    #[inline]
    pub fn is_element(self) -> bool
        ensures { (s : Store) → result ≡ is_element (kind_at s self) }
    {
        matches!(
            &self,
            Kept::Known(_, _) | Kept::Other(_, _) | Kept::ElementApart(_)
        )
    }

    /// Whether it is the Document.
    #[inline]
    pub fn is_document(self) -> bool
        ensures { (s : Store) → result ≡ is_document (kind_at s self) }
    {
        matches!(&self, Kept::Document)
    }

    /// Whether it is a Text.
    #[inline]
    pub fn is_text(self) -> bool
        ensures { (s : Store) → result ≡ is_text (kind_at s self) }
    {
        matches!(&self, Kept::Text(_) | Kept::TextApart(_))
    }
}

// A copy of a name and attributes takes at most so many bytes, or else they stay shared.
const MOST_COPIED: usize = 256;

// The bytes of a name that isn't known.
fn name_size(name: &Name) -> usize {
    match name {
        Name::Known(_) => 0,
        Name::Other(_, text) => text.as_str().len(),
    }
}

// Whether a copy takes more. Copies of a tag's attributes are many where formatting elements are
// opened anew, and those of a name where fragments are parsed.
fn are_long(name: &Name, attributes: &[Attribute]) -> bool {
    let mut size = name_size(name);
    if size > MOST_COPIED {
        return true;
    }
    for attribute in attributes {
        let texts = attribute
            .name
            .as_str()
            .len()
            .saturating_add(attribute.value.as_str().len());
        size = size.saturating_add(texts).saturating_add(16);
        if size > MOST_COPIED {
            return true;
        }
    }
    false
}

// Whether a copy of what is read takes more.
fn is_long(name: SeenName<'_>, list: &Listed<'_>) -> bool {
    if let SeenName::Other(_, text) = name {
        if text.len() > MOST_COPIED {
            return true;
        }
    }
    are_long(&Name::Known(Word::Html), list.more)
}

impl Store {
    /// Adds a text.
    #[tactic(auto, using(std::proofs::lemmas::Grind::common_steps, crate::proofs::ListLemmas::texts_kept))]
    pub fn push_text(&mut self, text: &str) -> Result<Piece, NoMemory>
        ensures ok { IfOk result (λ p. HoldsText self.new.texts (Inside p) (chars text.now)) }
        ensures kept { KeepsAll self.old self.new }
    {
        self.texts.push(text)
    }

    // Adds what an element of any name is: a mark with its name and no value stands before those of
    // its attributes.
    #[tactic(auto, using(std::proofs::lemmas::Grind::common_steps, crate::proofs::ListLemmas::all_not, crate::proofs::ListLemmas::all_then))]
    fn push_other(
        &mut self,
        space: Space,
        name: &str,
        attributes: &[Attribute],
    ) -> Result<Kept, NoMemory>
        ensures ok { IfOk result
            (λ k. MeansKind self.new k
            (kind.Element (Other space (chars name.now)) attributes.now)) }
        ensures kept { KeepsAll self.old self.new }
    {
        let from = self.marks.len();
        self.push_mark(name, "")?;
        self.push_marks(attributes)?;
        let list = self.run_from(from)?;
        Ok(Kept::Other(space, list))
    }

    // Adds what an element is whose attributes are few and short.
    #[tactic(auto, using(std::proofs::lemmas::Grind::common_steps, crate::proofs::ListLemmas::all_not, crate::proofs::KindLemmas::known_means))]
    fn push_short(&mut self, name: &Name, attributes: &[Attribute]) -> Result<Kept, NoMemory>
        ensures ok { IfOk result
            (λ k. MeansKind self.new k (kind.Element name.now attributes.now)) }
        ensures kept { KeepsAll self.old self.new }
    {
        match name {
            Name::Known(word) => {
                let list = self.push_list(attributes)?;
                Ok(Kept::Known(*word, list))
            }
            Name::Other(space, text) => self.push_other(*space, text.as_str(), attributes),
        }
    }

    // Adds what an element is whose name or attributes are long: they stay shared.
    #[tactic(auto, using(std::proofs::lemmas::Grind::common_steps, crate::proofs::ListLemmas::all_not))]
    fn push_long(&mut self, name: &Name, attributes: &Attributes) -> Result<Kept, NoMemory>
        ensures ok { IfOk result
            (λ k. MeansKind self.new k (kind.Element name.now attributes.now)) }
        ensures kept { KeepsAll self.old self.new }
    {
        let own_name = name.copy()?;
        let shared = attributes.copy(self.alloc)?;
        self.push_apart(own_name, shared)
    }

    /// Adds what an element is.
    pub fn push_element(&mut self, name: &Name, attributes: &Attributes) -> Result<Kept, NoMemory>
        ensures ok { IfOk result
            (λ k. MeansKind self.new k (kind.Element name.now attributes.now)) }
        ensures kept { KeepsAll self.old self.new }
    {
        let list = attributes.as_slice();
        if are_long(name, list) {
            self.push_long(name, attributes)
        } else {
            self.push_short(name, list)
        }
    }

    // Adds attributes that are read from another store.
    #[tactic(auto, using(std::proofs::lemmas::Grind::common_steps, crate::proofs::ListLemmas::all_not, crate::proofs::ListLemmas::all_then, crate::proofs::ListLemmas::gets_none))]
    fn push_seen_marks(&mut self, list: &Listed<'_>) -> Result<(), NoMemory>
        ensures ok { OnOk result (GetsMarks self.old self.new list.now) }
        ensures kept { KeepsAll self.old self.new }
    {
        let count = list.len();
        for index in 0..count {
            let seen = list.at(index);
            self.push_mark(seen.name, seen.value)?;
        }
        Ok(())
    }

    // Adds what an element of any name is that is read from another store.
    #[tactic(auto, using(std::proofs::lemmas::Grind::common_steps, crate::proofs::ListLemmas::all_not, crate::proofs::ListLemmas::all_then))]
    fn push_seen_other(
        &mut self,
        space: Space,
        name: &str,
        list: &Listed<'_>,
    ) -> Result<Kept, NoMemory>
        ensures ok { IfOk result
            (λ k. MeansKind self.new k (kind.Element (Other space (chars name.now)) list.now)) }
        ensures kept { KeepsAll self.old self.new }
    {
        let from = self.marks.len();
        self.push_mark(name, "")?;
        self.push_seen_marks(list)?;
        let place = self.run_from(from)?;
        Ok(Kept::Other(space, place))
    }

    // Adds a list that is read from another store.
    #[inline]
    #[tactic(auto, using(std::proofs::lemmas::Grind::common_steps, crate::proofs::ListLemmas::all_not, crate::proofs::ListLemmas::no_list))]
    fn push_seen_list(&mut self, list: &Listed<'_>) -> Result<Run, NoMemory>
        ensures ok { IfOk result (λ r. HoldsList self.new r list.now) }
        ensures kept { KeepsAll self.old self.new }
    {
        if list.len() == 0 {
            return Ok(Run { from: 0, size: 0 });
        }
        let from = self.marks.len();
        self.push_seen_marks(list)?;
        let place = self.run_from(from)?;
        Ok(place)
    }

    // Adds what an element is that is read from another store, with its attributes copied.
    #[inline]
    #[tactic(auto, using(std::proofs::lemmas::Grind::common_steps, crate::proofs::ListLemmas::all_not, crate::proofs::KindLemmas::known_means))]
    fn push_seen_short(&mut self, name: SeenName<'_>, list: &Listed<'_>) -> Result<Kept, NoMemory>
        ensures ok { IfOk result
            (λ k. MeansKind self.new k (kind.Element (seen_name name.entry) list.now)) }
        ensures kept { KeepsAll self.old self.new }
    {
        match name {
            SeenName::Known(word) => {
                let run = self.push_seen_list(list)?;
                Ok(Kept::Known(word, run))
            }
            SeenName::Other(space, text) => self.push_seen_other(space, text, list),
        }
    }

    // Adds what an element is that is read from another store, with its attributes as they are.
    #[tactic(auto, using(std::proofs::lemmas::Grind::common_steps, crate::proofs::ListLemmas::all_not))]
    fn push_shared(&mut self, name: SeenName<'_>, list: Attributes) -> Result<Kept, NoMemory>
        ensures ok { IfOk result
            (λ k. MeansKind self.new k (kind.Element (seen_name name.entry) list)) }
        ensures kept { KeepsAll self.old self.new }
    {
        let own = name.to_name(self.alloc)?;
        self.push_apart(own, list)
    }

    /// Adds what an element is that is read from another store. Long attributes that are shared
    /// stay so.
    #[inline]
    #[tactic(auto, using(std::proofs::lemmas::Grind::common_steps, crate::proofs::ListLemmas::all_not))]
    pub fn push_seen(&mut self, name: SeenName<'_>, list: &Listed<'_>) -> Result<Kept, NoMemory>
        ensures ok { IfOk result
            (λ k. MeansKind self.new k (kind.Element (seen_name name.entry) list.now)) }
        ensures kept { KeepsAll self.old self.new }
    {
        if list.is_shared() && is_long(name, list) {
            self.push_long_seen(name, list)
        } else {
            self.push_seen_short(name, list)
        }
    }

    // The same where the attributes are shared and long.
    #[inline(never)]
    #[tactic(auto, using(std::proofs::lemmas::Grind::common_steps, crate::proofs::ListLemmas::all_not))]
    fn push_long_seen(&mut self, name: SeenName<'_>, list: &Listed<'_>) -> Result<Kept, NoMemory>
        ensures ok { IfOk result
            (λ k. MeansKind self.new k (kind.Element (seen_name name.entry) list.now)) }
        ensures kept { KeepsAll self.old self.new }
    {
        let shared = list.shared(self.alloc)?;
        match shared {
            Some(attributes) => self.push_shared(name, attributes),
            None => self.push_seen_short(name, list),
        }
    }

    /// Adds what a node is.
    #[tactic(auto, using(std::proofs::lemmas::Grind::common_steps, crate::proofs::ListLemmas::all_not))]
    pub fn push_kind(&mut self, kind: &Kind) -> Result<Kept, NoMemory>
        ensures ok { IfOk result (λ k. MeansKind self.new k kind.now) }
        ensures kept { KeepsAll self.old self.new }
    {
        match kind {
            Kind::Document => Ok(Kept::Document),
            Kind::Contents => Ok(Kept::Contents),
            Kind::Doctype(name) => {
                let piece = self.push_text(name.as_str())?;
                Ok(Kept::Doctype(piece))
            }
            Kind::Element { name, attributes } => self.push_element(name, attributes),
            Kind::Text(text) => {
                let piece = self.push_text(text.as_str())?;
                Ok(Kept::Text(piece))
            }
            Kind::Comment(text) => {
                let piece = self.push_text(text.as_str())?;
                Ok(Kept::Comment(piece))
            }
        }
    }

    // The text with more behind it.
    #[tactic(auto, using(std::proofs::lemmas::Grind::common_steps, crate::proofs::ListLemmas::texts_kept))]
    fn extend(&mut self, spot: Spot, more: &str) -> Result<Kept, NoMemory>
        requires { Holds self.old.texts spot }
        ensures ok { IfOk result
            (λ k. MeansKind self.new k
            (kind.Text (text_at self.old.texts spot ++ chars more.now))) }
        ensures kept { KeepsAll self.old self.new }
    {
        let longer = self.texts.extend(spot, more)?;
        match longer {
            Spot::Inside(piece) => Ok(Kept::Text(piece)),
            Spot::Apart(piece) => Ok(Kept::TextApart(piece)),
        }
    }

    /// A Text with more text behind it.
    #[tactic(auto, using(std::proofs::lemmas::Grind::common_steps, crate::proofs::ListLemmas::all_not))]
    pub fn more_text(&mut self, kept: Kept, text: &str) -> Result<Kept, NoMemory>
        requires { HoldsKind self.old kept }
        ensures ok { IfOk result
            (λ k. MeansKind self.new k (with_more (kind_at self.old kept) (chars text.now))) }
        ensures kept { KeepsAll self.old self.new }
    {
        match kept {
            Kept::Text(piece) => self.extend(Spot::Inside(piece), text),
            Kept::TextApart(piece) => self.extend(Spot::Apart(piece), text),
            _ => Ok(kept),
        }
    }
}
