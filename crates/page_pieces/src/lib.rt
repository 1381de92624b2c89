//! Pieces of the page's text, which is held once, and what the document's side of the core keeps of
//! them: the piece in hand, those that were sent and not taken, and those that are to be sent.
#![tactic(auto)]

pub mod ledger;
pub mod piece;
pub mod shared_text;

pub use ledger::Ledger;
pub use piece::{Piece, Pieces};
pub use shared_text::SharedText;
