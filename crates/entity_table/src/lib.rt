//! The standard's named character references (13.5 #named-character-references): reading their
//! file, the name that a text is, and the longest name that a text begins with.
#![tactic(auto)]

pub mod cursor;
mod guess;
mod prepared;
mod read;
pub mod row;
mod search;
pub mod table;

pub use cursor::{Cursor, Step};
pub use row::{Characters, Match};
pub use table::{Table, TableFault};
