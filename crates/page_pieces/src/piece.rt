//! Pieces of the page.

ghost use Rattle.std.specs.Prelude.{◌≡◌, ◌↔◌, ◌&&◌, ◌+◌, ◌≤◌, [], ◌∷◌, ◌++◌, is_none, length, drop};
ghost use Rattle.std.specs.Prelude.{IfOk, OnOk, OnErr, IsTrue, MatchOption};
ghost use Rattle.std.specs.Str.{chars, encode_utf8_all, IsCharBoundary};
ghost use Rattle.std.specs.VecDeque.{deque_len, deque_capacity};
ghost use Rattle.core_definitions.specs.Desk.{blank as no_text, sent_again};
ghost use Rattle.core_definitions.specs.Settling.{is_empty as has_none};

use crate::shared_text::SharedText;
use html_types::{Ending, NoMemory};
use std::alloc::Global;
use std::collections::VecDeque;
use std::marker::Model;

/// Some of the page's text, and perhaps the page's ending behind it.
#[derive(Drop)]
pub struct Piece {
    text: SharedText,
    ending: Option<Ending>,
}

impl Model for Piece {
    ghost use Rattle.core_definitions.specs.Batches as rules;

    ghost Value = { rules.Piece };

    ghost view = { λ p. record { text = p.text; ending = p.ending } };
}

impl Piece {
    /// That text, and that ending behind it.
    pub fn new(text: SharedText, ending: Option<Ending>) -> Piece
        ensures { result ≡ record { text = text; ending = ending } }
    {
        Piece { text, ending }
    }

    /// The piece with neither text nor an ending.
    pub fn blank(alloc: Global) -> Result<Piece, NoMemory>
        ensures { IfOk result (λ p. p ≡ no_text) }
    {
        let text = SharedText::empty(alloc)?;
        Ok(Piece { text, ending: None })
    }

    /// The same piece. None of its text is copied.
    pub fn copy(&self) -> Result<Piece, NoMemory>
        ensures { IfOk result (λ p. p ≡ self.now) }
    {
        let text = self.text.copy()?;
        Ok(Piece {
            text,
            ending: self.ending,
        })
    }

    /// Its text.
    pub fn text(&self) -> &SharedText
        ensures { result.now ≡ self.now.text }
    {
        &self.text
    }

    /// Its ending.
    pub fn ending(&self) -> Option<Ending>
        ensures { result ≡ self.now.ending }
    {
        self.ending
    }

    /// Whether it has neither text nor an ending.
    pub fn is_blank(&self) -> bool
        ensures { result ≡ (has_none self.now.text && is_none self.now.ending) }
    {
        self.text.is_empty() && self.ending.is_none()
    }

    /// Whether two pieces are the same.
    pub fn same(&self, other: &Piece) -> bool
        ensures { IsTrue result ↔ (self.now ≡ other.now) }
    {
        self.text.same(&other.text) && self.ending == other.ending
    }

    /// So many of its text's first bytes are left out.
    pub fn skip(&mut self, bytes: usize)
        requires { IsCharBoundary (encode_utf8_all self.old.text) bytes }
        ensures { self.new
            ≡ record self.old { text = chars (drop bytes (encode_utf8_all self.old.text)) } }
    {
        self.text.skip(bytes);
    }
}

/// Pieces in order: a contract sees the list of them.
#[derive(Drop)]
pub struct Pieces {
    list: VecDeque<Piece>,
}

impl Model for Pieces {
    ghost use Rattle.std.specs.Prelude.{List};
    ghost use Rattle.core_definitions.specs.Batches as rules;

    ghost Value = { List rules.Piece };

    ghost view = { λ p. p.list.items };
}

impl Pieces {
    /// No pieces, which take no memory.
    pub fn new(alloc: Global) -> Pieces
        ensures { result ≡ [] }
    {
        Pieces {
            list: VecDeque::new(alloc),
        }
    }

    /// How many they are.
    pub fn len(&self) -> usize
        ensures { result ≡ length self.now }
    {
        self.list.len()
    }

    /// Whether there is none.
    pub fn is_empty(&self) -> bool
        ensures { result ≡ has_none self.now }
    {
        self.list.is_empty()
    }

    /// Adds a piece at the end.
    pub fn push(&mut self, piece: Piece) -> Result<(), NoMemory>
        ensures ok { OnOk result (self.new ≡ self.old ++ piece ∷ []) }
        ensures err { OnErr result (self.new ≡ self.old) }
    {
        self.list.push_back(piece)?;
        Ok(())
    }

    /// Puts a piece in front.
    pub fn put_front(&mut self, piece: Piece) -> Result<(), NoMemory>
        ensures ok { OnOk result (self.new ≡ piece ∷ self.old) }
        ensures err { OnErr result (self.new ≡ self.old) }
    {
        self.list.push_front(piece)?;
        Ok(())
    }

    /// The first piece.
    pub fn first(&self) -> Option<&Piece>
        ensures { MatchOption result (self.now ≡ []) (λ p. self.now ≡ p.now ∷ drop 1 self.now) }
    {
        self.list.front()
    }

    /// Takes the first piece.
    pub fn pop(&mut self) -> Option<Piece>
        ensures { MatchOption result ((self.old ≡ []) × (self.new ≡ []))
            (λ p. self.old ≡ p ∷ self.new) }
    {
        self.list.pop_front()
    }

    /// Moves pieces that were sent in front of these, but for those of which nothing is left. Where
    /// there is no memory, all stay where they are.
    pub fn put_again(&mut self, sent: &mut Pieces) -> Result<(), NoMemory>
        ensures again { OnOk result (self.new ≡ sent_again sent.old ++ self.old) }
        ensures none { OnOk result (sent.new ≡ []) }
        ensures err { OnErr result (self.new ≡ self.old) }
        ensures sent { OnErr result (sent.new ≡ sent.old) }
    {
        self.list.reserve(sent.list.len())?;
        move_again(&mut sent.list, &mut self.list);
        Ok(())
    }
}

// Moves pieces in front of others, which have room for them, but for those of which nothing is
// left.
fn move_again(sent: &mut VecDeque<Piece>, others: &mut VecDeque<Piece>)
    requires { deque_len others.old + deque_len sent.old ≤ deque_capacity others.old }
    ensures again { others.new.items ≡ sent_again sent.old.items ++ others.old.items }
    ensures none { sent.new.items ≡ [] }
{
    'pieces: while let Some(piece) = sent.pop_back() {
        if !piece.is_blank() {
            others.push_front_reserved(piece);
        }
    }
}
