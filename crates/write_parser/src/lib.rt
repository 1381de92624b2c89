//! Text that scripts write (8.4.3 #document.write(), document.write()), and the parse of a page's
//! text between scripts: a parser and a document, the scripts that run, and what they wrote that
//! isn't parsed yet.
#![tactic(auto)]

mod left;
mod live;
mod nesting;
mod rest;
mod writer;

pub use left::Left;
pub use parse_machine::{End, Ran};
pub use writer::Writer;
