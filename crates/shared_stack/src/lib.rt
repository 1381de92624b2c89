//! Lists seen from their end, whose copies share their older entries.
#![tactic(auto)]

mod block;
mod entry;
mod older;
mod stack;
mod walk;

pub use entry::Entry;
pub use stack::SharedStack;
pub use walk::Walk;
