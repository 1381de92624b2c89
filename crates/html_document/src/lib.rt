//! The library: the tree of a page whose scripts don't run, from its bytes, whole or in pieces;
//! the tree of a fragment; and a tree in three flat lists that hold no pointer.
#![tactic(auto)]

mod feeding;
mod flat;
mod fragment;
mod page;
mod refused;
mod spans;

pub use feeding::{PAGE_LIMIT, PageParser};
pub use flat::Flat;
pub use fragment::{Fragment, parse_fragment};
pub use page::parse;
pub use refused::Refused;
pub use spans::{FlatAttribute, FlatNode, NONE, Span};
