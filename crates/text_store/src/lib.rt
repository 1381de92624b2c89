//! Texts and lists of attributes in a few buffers, named by where they lie. What a name once named
//! it names for good.
#![tactic(auto)]

mod apart;
mod kinds;
mod listed;
mod lists;
mod ops;
mod pieces;
mod seen;
mod store;

pub use kinds::Kept;
pub use listed::{Listed, SeenAttribute};
pub use lists::{Mark, Run, Store};
pub use ops::{OpList, Ops, Record, SeenOp};
pub use seen::{Seen, SeenName};
pub use store::{Piece, TextStore};
