//! The definitions of the core: a parser's side that works ahead of the document, and a document's
//! side that keeps what was made ahead or throws it away. Their laws stand in `core_laws`.
//!
//! Reading order of `specs/`: Batches (what the parser's side makes of a piece of the page),
//! Verdict (kept and failed), Settling (how far a script in hand runs), Desk (the document's side),
//! Core (both sides and their events), StandsFor (which state of the serial parse the document's
//! side stands for), Journal (what a run leaves behind, and its replay).
#![tactic(auto)]

pub mod event;
pub mod verdict;

pub use event::Event;
pub use verdict::Verdict;
