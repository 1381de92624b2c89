//! What the parser's side answers.

ghost use Rattle.std.specs.Prelude.{◌≡◌, ◌↔◌, ◌+◌, ◌≤◌, Some, IsTrue, length};
ghost use Rattle.speculation.specs.Asking.{IsAnswer, page_limit};

use crate::batch::Batches;
use crate::checkpoint::Checkpoint;
use crate::in_force::InForce;
use page_pieces::Piece;
use parse_machine::Machine;
use std::marker::{Model, PhantomData};

/// What a reply says, whoever made it: the core's reply, and of which piece and from which state
/// its batches were made. The state is none where the parser's side had none any more, behind a
/// refusal.
#[derive(Drop)]
pub struct Said {
    pub(crate) epoch: u64,
    pub(crate) number: u64,
    pub(crate) start: Option<Checkpoint>,
    pub(crate) piece: Piece,
    pub(crate) from: u64,
    pub(crate) batches: Batches,
}

impl Model for Said {
    ghost use Rattle.std.specs.Prelude.{◌≤◌, ◌+◌, length};
    ghost use Rattle.speculation.specs.Asking.{Told, page_limit};

    ghost Value = { Told };

    ghost view = { λ s.
        record {
          reply = record { epoch = s.epoch; number = s.number; batches = s.batches };
          start = s.start;
          piece = s.piece;
          from = s.from;
        } };

    // Its piece ends within the limit of a page.
    ghost invariant = { λ s. s.from + length s.piece.text ≤ page_limit };
}

impl Said {
    /// The epoch of its request.
    pub fn epoch(&self) -> u64
        ensures { result ≡ self.now.reply.epoch }
    {
        self.epoch
    }

    /// The number of its request.
    pub fn number(&self) -> u64
        ensures { result ≡ self.now.reply.number }
    {
        self.number
    }

    /// How many characters of the page stand before its piece, which ends within the limit of a
    /// page.
    pub fn from(&self) -> u64
        ensures value { result ≡ self.now.from }
        ensures within { result + length self.now.piece.text ≤ page_limit }
    {
        self.from
    }

    /// Whether it is of that piece: its text and its ending.
    pub fn is_of(&self, piece: &Piece) -> bool
        ensures { IsTrue result ↔ (self.now.piece ≡ piece.now) }
    {
        self.piece.same(piece)
    }

    /// Whether it is known to begin at the state of that machine. False tells nothing.
    pub fn begins_at(&self, machine: &Machine) -> bool
        ensures { IsTrue result → self.now.start ≡ Some machine.now }
    {
        match &self.start {
            None => false,
            Some(start) => start.is(machine),
        }
    }

    /// Its batches, to read.
    pub fn batches(&self) -> &Batches
        ensures { result.now ≡ self.now.reply.batches }
    {
        &self.batches
    }

    /// Its batches.
    pub fn into_batches(self) -> Batches
        ensures { result ≡ self.reply.batches }
    {
        let Said {
            epoch: _epoch,
            number: _number,
            start: _start,
            piece: _piece,
            from: _from,
            batches,
        } = self;
        batches
    }
}

/// A reply. Its type keeps that operations, states and stops are those of the parse of its own
/// piece from its own start, with the entities in force.
#[derive(Drop)]
pub struct Reply<E: InForce> {
    pub said: Said,
    pub of: PhantomData<E>,
    pub ghost parsed: { IsAnswer E.entities said },
}
