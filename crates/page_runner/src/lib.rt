//! Runs a page from its files to its text.
#![tactic(auto)]

mod batch;
mod command;
mod eye;
mod in_place;
mod making;
mod nowhere;
mod on_two;
mod publisher;
mod report;
mod running;
mod status;
mod watched;
mod watchers;
mod watching;

pub use command::{ENTITIES_LIMIT, run};
pub use core_steps::Tally;
pub use eye::{ClosedEye, Eye};
pub use in_place::page_in_place;
pub use on_two::page_on_two;
pub use page_turns::Job;
pub use report::Report;
pub use status::{Limit, Status};
pub use tree_watch::Seen;
pub use watched::page_watched;
