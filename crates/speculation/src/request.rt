//! What is asked of the parser's side.

ghost use Rattle.std.specs.Prelude.{◌≡◌, ◌≤◌, ◌+◌, length};
ghost use Rattle.speculation.specs.Asking.{page_limit};

use crate::boxed::BoxedMachine;
use page_pieces::Piece;
use std::marker::Model;

/// A piece of the page that is to be parsed, from the state that the request carries, or else from
/// where the one before it ended. A contract sees the core's request, and how many characters of
/// the page stand before the piece; the piece ends within the limit of a page.
#[derive(Drop)]
pub struct Request {
    pub(crate) epoch: u64,
    pub(crate) number: u64,
    pub(crate) start: Option<BoxedMachine>,
    pub(crate) piece: Piece,
    pub(crate) from: u64,
}

impl Model for Request {
    ghost use Rattle.std.specs.Prelude.{◌≤◌, ◌+◌, length};
    ghost use Rattle.speculation.specs.Asking.{Asked, page_limit};

    ghost Value = { Asked };

    ghost view = { λ r.
        record {
          request = record { epoch = r.epoch; number = r.number; start = r.start; piece = r.piece };
          from = r.from;
        } };

    ghost invariant = { λ r. r.from + length r.piece.text ≤ page_limit };
}

impl Request {
    /// A request under an epoch and a number, of a piece before which so many characters of the
    /// page stand.
    pub fn new(
        epoch: u64,
        number: u64,
        start: Option<BoxedMachine>,
        piece: Piece,
        from: u64,
    ) -> Request
        requires { from + length piece.text ≤ page_limit }
        ensures request { result.request
            ≡ record { epoch = epoch; number = number; start = start; piece = piece } }
        ensures from { result.from ≡ from }
    {
        Request {
            epoch,
            number,
            start,
            piece,
            from,
        }
    }

    /// Its epoch.
    pub fn epoch(&self) -> u64
        ensures { result ≡ self.now.request.epoch }
    {
        self.epoch
    }

    /// Its number.
    pub fn number(&self) -> u64
        ensures { result ≡ self.now.request.number }
    {
        self.number
    }

    /// Its piece.
    pub fn piece(&self) -> &Piece
        ensures { result.now ≡ self.now.request.piece }
    {
        &self.piece
    }

    /// How many characters of the page stand before the piece.
    pub fn from(&self) -> u64
        ensures value { result ≡ self.now.from }
        ensures within { result + length self.now.request.piece.text ≤ page_limit }
    {
        self.from
    }
}
