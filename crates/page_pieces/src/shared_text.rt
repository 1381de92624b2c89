//! A part of a text that is shared.

ghost use Rattle.std.specs.Prelude.{◌≡◌, ◌↔◌, [], length, take, drop, IfOk, OnOk, OnErr, IsTrue};
ghost use Rattle.std.specs.Prelude.{string_bytes};
ghost use Rattle.std.specs.Str.{chars, encode_utf8_all, IsCharBoundary};

use html_types::NoMemory;
use std::alloc::Global;
use std::marker::Model;
use std::sync::Arc;

/// A text that is held once, from a beginning to an end: a contract sees the characters between
/// them.
#[derive(Drop)]
pub struct SharedText {
    whole: Arc<String, Global>,
    begin: usize,
    end: usize,
    // Where it is true each byte of the whole text is a character.
    ascii: bool,
}

impl Model for SharedText {
    ghost use Rattle.std.specs.Prelude.{◌≤◌, ◌-◌, List, ℕ, IsTrue, string_bytes, take, drop};
    ghost use Rattle.std.specs.Arc.{arc_value};
    ghost use Rattle.std.specs.Str.{chars, IsCharBoundary, IsAscii};

    ghost Value = { List ℕ };

    ghost view = { λ t. chars
        (take (t.end - t.begin) (drop t.begin (string_bytes (arc_value t.whole)))) };

    ghost invariant = { λ t.
        ((t.begin ≤ t.end) × IsCharBoundary (string_bytes (arc_value t.whole)) t.begin
        × IsCharBoundary (string_bytes (arc_value t.whole)) t.end)
        × (IsTrue t.ascii → IsAscii (string_bytes (arc_value t.whole))) };
}

impl SharedText {
    /// All of a text.
    pub fn of(alloc: Global, text: String) -> Result<SharedText, NoMemory>
        ensures { IfOk result (λ t. t ≡ chars (string_bytes text)) }
    {
        let end = text.as_str().len();
        let ascii = text.as_str().is_ascii();
        let whole = Arc::new(alloc, text)?;
        Ok(SharedText {
            whole,
            begin: 0,
            end,
            ascii,
        })
    }

    /// The empty text.
    pub fn empty(alloc: Global) -> Result<SharedText, NoMemory>
        ensures { IfOk result (λ t. t ≡ []) }
    {
        SharedText::of(alloc, String::new(alloc))
    }

    /// The same text. None of it is copied.
    pub fn copy(&self) -> Result<SharedText, NoMemory>
        ensures { IfOk result (λ t. t ≡ self.now) }
    {
        let whole = Arc::try_clone(&self.whole)?;
        Ok(SharedText {
            whole,
            begin: self.begin,
            end: self.end,
            ascii: self.ascii,
        })
    }

    /// Its characters.
    pub fn as_str(&self) -> &str
        ensures { chars result.now ≡ self.now }
    {
        &self.whole[self.begin..self.end]
    }

    /// How many characters its first bytes are, so many.
    pub fn count_front(&self, bytes: usize) -> usize
        requires { IsCharBoundary (encode_utf8_all self.now) bytes }
        ensures { result ≡ length (chars (take bytes (encode_utf8_all self.now))) }
    {
        if self.ascii {
            return bytes;
        }
        self.as_str()[..bytes].chars().count()
    }

    /// How many characters it has.
    pub fn count(&self) -> usize
        ensures { result ≡ length self.now }
    {
        if self.ascii {
            return self.end - self.begin;
        }
        self.as_str().chars().count()
    }

    /// Whether it has none.
    pub fn is_empty(&self) -> bool
        ensures { IsTrue result ↔ (self.now ≡ []) }
    {
        self.as_str().is_empty()
    }

    /// Whether two texts are the same.
    pub fn same(&self, other: &SharedText) -> bool
        ensures { IsTrue result ↔ (self.now ≡ other.now) }
    {
        self.as_str() == other.as_str()
    }

    /// Its first bytes, so many. None of them is copied.
    pub fn front(&self, bytes: usize) -> Result<SharedText, NoMemory>
        requires { IsCharBoundary (encode_utf8_all self.now) bytes }
        ensures { IfOk result (λ t. t ≡ chars (take bytes (encode_utf8_all self.now))) }
    {
        let whole = Arc::try_clone(&self.whole)?;
        Ok(SharedText {
            whole,
            begin: self.begin,
            end: self.begin + bytes,
            ascii: self.ascii,
        })
    }

    /// So many of its first bytes are left out.
    pub fn skip(&mut self, bytes: usize)
        requires { IsCharBoundary (encode_utf8_all self.old) bytes }
        ensures { self.new ≡ chars (drop bytes (encode_utf8_all self.old)) }
    {
        self.begin += bytes;
    }

    /// Takes so many of its first bytes.
    pub fn split_front(&mut self, bytes: usize) -> Result<SharedText, NoMemory>
        requires { IsCharBoundary (encode_utf8_all self.old) bytes }
        ensures front { IfOk result (λ t. t ≡ chars (take bytes (encode_utf8_all self.old))) }
        ensures rest { OnOk result (self.new ≡ chars (drop bytes (encode_utf8_all self.old))) }
        ensures err { OnErr result (self.new ≡ self.old) }
    {
        let front = self.front(bytes)?;
        self.skip(bytes);
        Ok(front)
    }
}
