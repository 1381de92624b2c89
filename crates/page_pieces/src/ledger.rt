//! What is kept of the pieces that were sent.

ghost use Rattle.std.specs.Prelude.{◌≡◌, ◌-◌, ◌<◌, [], ◌∷◌, ◌++◌, false, not, nat_lt, drop, IfOk};
ghost use Rattle.std.specs.Prelude.{OnOk, OnErr, IsTrue, MatchOption};
ghost use Rattle.std.specs.Str.{chars, encode_utf8_all, IsCharBoundary};
ghost use Rattle.core_definitions.specs.Settling.{is_empty as has_none};
ghost use Rattle.page_pieces.specs.Keeping as keeping;
ghost use Rattle.page_pieces.specs.Keeping.{first_kept, can_keep, keeps, rewound};

use crate::piece::{Piece, Pieces};
use html_types::NoMemory;
use std::alloc::Global;
use std::marker::Model;

/// The piece in hand, those that were sent in this epoch and aren't taken, those to be sent, and
/// the counts of requests and replies.
#[derive(Drop)]
pub struct Ledger {
    ahead: usize,
    left: Piece,
    asked: Pieces,
    to_send: Pieces,
    sent: usize,
    taken: usize,
    dropped: usize,
}

impl Model for Ledger {
    ghost use Rattle.std.specs.Prelude.{◌≤◌};
    ghost use Rattle.page_pieces.specs.Keeping.{Kept};

    ghost Value = { Kept };

    ghost view = { λ l.
        record {
          ahead = l.ahead;
          left = l.left;
          asked = l.asked;
          to_send = l.to_send;
          sent = l.sent;
          taken = l.taken;
          dropped = l.dropped;
        } };

    // Each reply is to a request, and was taken before it was dropped.
    ghost invariant = { λ l. (l.taken ≤ l.sent) × (l.dropped ≤ l.taken) };
}

// Moves the first of some pieces behind others, and gives it.
fn move_first(from: &mut Pieces, to: &mut Pieces) -> Result<Piece, NoMemory>
    requires { has_none from.old ≡ false }
    ensures piece { IfOk result (λ p. from.old ≡ p ∷ from.new) }
    ensures moved { IfOk result (λ p. to.new ≡ to.old ++ p ∷ []) }
    ensures err { OnErr result ((from.new ≡ from.old) × (to.new ≡ to.old)) }
{
    let Some(first) = from.first() else {
        return Err(NoMemory);
    };
    let copy = first.copy()?;
    to.push(copy)?;
    from.pop().ok_or(NoMemory)
}

impl Ledger {
    /// No pieces. So many requests are sent ahead at most.
    pub fn new(alloc: Global, ahead: usize) -> Result<Ledger, NoMemory>
        ensures { IfOk result (λ l. l ≡ first_kept ahead) }
    {
        let left = Piece::blank(alloc)?;
        Ok(Ledger {
            ahead,
            left,
            asked: Pieces::new(alloc),
            to_send: Pieces::new(alloc),
            sent: 0,
            taken: 0,
            dropped: 0,
        })
    }

    /// Adds a piece that was never sent.
    pub fn add(&mut self, piece: Piece) -> Result<(), NoMemory>
        ensures ok { OnOk result
            (self.new ≡ record self.old { to_send = self.old.to_send ++ piece ∷ [] }) }
        ensures err { OnErr result (self.new ≡ self.old) }
    {
        self.to_send.push(piece)
    }

    /// How many requests are sent whose replies weren't taken.
    pub fn outstanding(&self) -> usize
        ensures { result ≡ keeping.outstanding self.now }
    {
        self.sent - self.taken
    }

    /// How many requests may be sent.
    pub fn credit(&self) -> usize
        ensures { result ≡ self.now.ahead - keeping.outstanding self.now }
    {
        self.ahead.saturating_sub(self.outstanding())
    }

    /// The number of requests that were sent.
    pub fn sent(&self) -> usize
        ensures { result ≡ self.now.sent }
    {
        self.sent
    }

    /// Whether credit is left and a piece is to be sent.
    pub fn can_keep(&self) -> bool
        ensures { result ≡ can_keep self.now }
    {
        self.outstanding() < self.ahead && !self.to_send.is_empty()
    }

    /// The first of the pieces to be sent, which is kept until its reply was taken.
    pub fn keep(&mut self) -> Result<Piece, NoMemory>
        requires { IsTrue (can_keep self.old) }
        ensures piece { IfOk result (λ p. self.old.to_send ≡ p ∷ self.new.to_send) }
        ensures kept { OnOk result (self.new ≡ keeps self.old) }
        ensures err { OnErr result (self.new ≡ self.old) }
    {
        let sent = self.sent.checked_add(1).ok_or(NoMemory)?;
        let piece = move_first(&mut self.to_send, &mut self.asked)?;
        self.sent = sent;
        Ok(piece)
    }

    /// The first of the pieces that were sent in this epoch and aren't taken.
    pub fn asked(&self) -> Option<&Piece>
        ensures { MatchOption result (self.now.asked ≡ [])
            (λ p. self.now.asked ≡ p.now ∷ drop 1 self.now.asked) }
    {
        self.asked.first()
    }

    /// A reply was taken. It is of this epoch, and its piece is in hand now; or an epoch that has
    /// ended had sent the request, and the reply is dropped.
    pub fn took(&mut self) -> bool
        requires { 0 < keeping.outstanding self.old }
        ensures took { self.new ≡ keeping.took self.old }
        ensures current { result ≡ not (nat_lt 0 (keeping.stale self.old)) }
    {
        let stale = self.asked.len() < self.outstanding();
        self.taken += 1;
        if stale {
            self.dropped += 1;
            return false;
        }
        if let Some(piece) = self.asked.pop() {
            self.left = piece;
        }
        true
    }

    /// Of the piece in hand, what isn't executed.
    pub fn left(&self) -> &Piece
        ensures { result.now ≡ self.now.left }
    {
        &self.left
    }

    /// So many bytes more of the piece in hand are executed.
    pub fn used(&mut self, bytes: usize)
        requires { IsCharBoundary (encode_utf8_all self.old.left.text) bytes }
        ensures { self.new
            ≡ record self.old {
              left = record self.old.left
                  { text = chars (drop bytes (encode_utf8_all self.old.left.text)) };
            } }
    {
        self.left.skip(bytes);
    }

    /// The epoch has ended: what isn't executed of the pieces that were sent is to be sent again,
    /// in front of all others. Where there is no memory, the ledger stays as it was.
    pub fn rewind(&mut self, alloc: Global) -> Result<(), NoMemory>
        ensures ok { OnOk result (self.new ≡ rewound self.old) }
        ensures err { OnErr result (self.new ≡ self.old) }
    {
        let blank = Piece::blank(alloc)?;
        let left = self.left.copy()?;
        self.asked.put_front(left)?;
        if let Err(error) = self.to_send.put_again(&mut self.asked) {
            let _front = self.asked.pop();
            return Err(error);
        }
        self.left = blank;
        Ok(())
    }
}
