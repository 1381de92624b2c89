//! The core, step by step: the document's side and the parser's side. What each event does is
//! exactly what the definitions in `core_definitions` say of it.
#![tactic(auto)]

pub mod doc_side;
pub mod fetch;
pub mod file;
pub mod journal;
mod side;
mod stage;
pub mod state;
pub mod tally;
pub mod work_side;

pub use core_definitions::Event;
pub use doc_side::DocSide;
pub use fetch::{Fetch, FetchedFile};
pub use file::is_lawful;
pub use journal::Journal;
pub use parse_machine::End;
pub use state::State;
pub use tally::Tally;
pub use work_side::WorkSide;
