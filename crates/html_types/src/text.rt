//! A text, which a contract sees as the list of its characters.

ghost use Rattle.std.specs.Prelude.{◌≡◌, ◌↔◌, ◌<◌, [], ◌∷◌, ◌++◌, IsTrue, IfOk, OnOk, OnErr};
ghost use Rattle.std.specs.Prelude.{MatchOption, length, take, map};
ghost use Rattle.std.specs.Str.{chars, IsCharBoundary};
ghost use Rattle.std.specs.Char.{to_ascii_lowercase};
ghost use Rattle.html_types.specs.Text.{same_text};

use crate::letters::Letters;
use crate::memory::NoMemory;
use std::alloc::Global;
use std::marker::Model;

/// A text: the list of its characters. A short one takes no memory.
#[derive(Drop)]
pub struct Text {
    alloc: Global,
    letters: Letters,
}

impl Model for Text {
    ghost use Rattle.std.specs.Prelude.{List, ℕ};
    ghost use Rattle.std.specs.Str.{chars};
    ghost use Rattle.html_types.specs.Letters.{letter_bytes};

    ghost Value = { List ℕ };

    ghost view = { λ t. chars (letter_bytes t.letters) };
}

impl Text {
    /// The empty text, which takes no memory.
    pub fn new(alloc: Global) -> Text
        ensures { result ≡ [] }
    {
        Text {
            alloc,
            letters: Letters::new(),
        }
    }

    /// Adds a character at the end.
    pub fn push(&mut self, c: char) -> Result<(), NoMemory>
        ensures ok { OnOk result (self.new ≡ self.old ++ c ∷ []) }
        ensures err { OnErr result (self.new ≡ self.old) }
    {
        // That the bytes are UTF-8 is known of a str.
        let _read = self.letters.as_str();
        self.letters.push(self.alloc, c)?;
        Ok(())
    }

    /// Adds the characters of `added` at the end.
    pub fn push_str(&mut self, added: &str) -> Result<(), NoMemory>
        ensures ok { OnOk result (self.new ≡ self.old ++ chars added.now) }
        ensures err { OnErr result (self.new ≡ self.old) }
    {
        // That the bytes are UTF-8 is known of a str.
        let _read = self.letters.as_str();
        self.letters.push_str(self.alloc, added)?;
        Ok(())
    }

    /// The same characters as a `&str`.
    pub fn as_str(&self) -> &str
        ensures { chars result.now ≡ self.now }
    {
        self.letters.as_str()
    }

    /// Whether two texts are the same.
    pub fn same(&self, other: &Text) -> bool
        ensures value { result ≡ same_text self.now other.now }
        ensures exact { IsTrue result ↔ (self.now ≡ other.now) }
    {
        self.as_str() == other.as_str()
    }

    /// A copy.
    pub fn copy(&self, alloc: Global) -> Result<Text, NoMemory>
        ensures { IfOk result (λ t. t ≡ self.now) }
    {
        Text::from_str(alloc, self.as_str())
    }

    // What it takes its memory from.
    pub(crate) fn allocator(&self) -> Global {
        self.alloc
    }

    /// The text of those characters.
    pub fn from_str(alloc: Global, text: &str) -> Result<Text, NoMemory>
        ensures { IfOk result (λ t. t ≡ chars text.now) }
    {
        let letters = Letters::of(alloc, text)?;
        Ok(Text { alloc, letters })
    }

    /// Whether it is this word.
    pub fn is(&self, word: &str) -> bool
        ensures { result ≡ same_text self.now (chars word.now) }
    {
        self.as_str() == word
    }

    /// How many characters it has.
    pub fn len(&self) -> usize
        ensures { result ≡ length self.now }
    {
        self.as_str().chars().count()
    }

    /// Whether it has no characters.
    pub fn is_empty(&self) -> bool
        ensures { IsTrue result ↔ (self.now ≡ []) }
    {
        self.as_str().is_empty()
    }

    /// A copy with ASCII letters in lower case.
    pub fn lower(&self, alloc: Global) -> Result<Text, NoMemory>
        ensures { IfOk result (λ t. t ≡ map to_ascii_lowercase self.now) }
    {
        let mut lower = Text::new(alloc);
        for c in self.as_str().chars() {
            lower.push(c.to_ascii_lowercase())?;
        }
        Ok(lower)
    }
}

/// The character at a place of a text, and the place behind it; none at the end. Nothing else knows
/// how characters are written in bytes.
pub fn char_at(text: &str, place: usize) -> Option<(char, usize)>
    requires { IsCharBoundary text.now place }
    ensures onward { MatchOption result (place ≡ length text.now) (λ r. place < r.1) }
    ensures boundary { MatchOption result (place ≡ length text.now)
        (λ r. IsCharBoundary text.now r.1) }
    ensures read { MatchOption result
        (place ≡ length text.now)
        (λ r. chars (take r.1 text.now) ≡ chars (take place text.now) ++ r.0 ∷ []) }
{
    let rest = &text[place..];
    match rest.chars().next() {
        None => None,
        Some(c) => Some((c, place + c.len_utf8())),
    }
}
