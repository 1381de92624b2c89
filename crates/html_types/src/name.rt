//! The name of an element.

ghost use Rattle.std.specs.Prelude.{◌≡◌, ◌↔◌, IsTrue, IfOk};
ghost use Rattle.std.specs.Str.{chars};
ghost use Rattle.html_types.specs.declared.name.Name.TheVariants.{Other};
ghost use Rattle.html_types.specs.Names.{name_of, name_text, space_of, same_name, NamesAreKnown};

use crate::memory::NoMemory;
use crate::name_text::NameText;
use crate::text::Text;
use crate::word::Word;
use std::alloc::Global;

/// The namespaces of elements.
#[derive(Clone, Copy, PartialEq, Eq)]
pub enum Space {
    Html,
    MathMl,
    Svg,
}

/// The name of an element, with its namespace: an HTML name that the rules speak of, or any other.
/// The name of a tag is made from its text by `from_text` or `of` alone, and so is each HTML name;
/// a name of MathML or SVG is always `Other`.
#[derive(Drop)]
pub enum Name {
    Known(Word),
    Other(Space, NameText),
}

impl Name {
    /// The HTML name that is written so, in lower case. It takes memory only where the rules don't
    /// speak of the name.
    pub fn from_text(text: Text) -> Result<Name, NoMemory>
        ensures { IfOk result (λ n. n ≡ name_of text) }
    {
        match Word::find(text.as_str()) {
            Some(word) => Ok(Name::Known(word)),
            None => Ok(Name::Other(Space::Html, NameText::of(text)?)),
        }
    }

    /// The same of a text that is lent.
    pub fn of(alloc: Global, text: &str) -> Result<Name, NoMemory>
        ensures { IfOk result (λ n. n ≡ name_of (chars text.now)) }
    {
        match Word::find(text) {
            Some(word) => Ok(Name::Known(word)),
            None => Name::other(alloc, Space::Html, text),
        }
    }

    /// The name in that namespace that the rules don't speak of.
    pub fn other(alloc: Global, space: Space, text: &str) -> Result<Name, NoMemory>
        ensures { IfOk result (λ n. n ≡ Other space (chars text.now)) }
    {
        let text = Text::from_str(alloc, text)?;
        Ok(Name::Other(space, NameText::of(text)?))
    }

    /// The namespace.
    pub fn space(&self) -> Space
        ensures { result ≡ space_of self.now }
    {
        match self {
            Name::Known(_) => Space::Html,
            Name::Other(space, _) => *space,
        }
    }

    /// The name as it is written, without its namespace.
    pub fn as_str(&self) -> &str
        ensures { chars result.now ≡ name_text self.now }
    {
        match self {
            Name::Known(word) => word.text(),
            Name::Other(_, text) => text.as_str(),
        }
    }

    /// Whether two names are the same.
    pub fn same(&self, other: &Name) -> bool
        ensures value { result ≡ same_name self.now other.now }
        ensures exact { IsTrue result ↔ (self.now ≡ other.now) }
    {
        match (self, other) {
            (Name::Known(a), Name::Known(b)) => a.same(*b),
            (Name::Other(x, a), Name::Other(y, b)) => *x == *y && a.same(b),
            _ => false,
        }
    }

    /// A copy, which shares the name's text.
    pub fn copy(&self) -> Result<Name, NoMemory>
        ensures { IfOk result (λ n. n ≡ self.now) }
    {
        match self {
            Name::Known(word) => Ok(Name::Known(*word)),
            Name::Other(space, text) => Ok(Name::Other(*space, text.copy()?)),
        }
    }
}

/// A name is known by its text: the text of a word is the name of that word, and of no other.
pub fn names_are_known()
    ensures { NamesAreKnown }
{}
