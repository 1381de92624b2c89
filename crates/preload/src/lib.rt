//! Scripts that are fetched before they are awaited: the names that a reply makes known, fetchers
//! that have a thread each, and what a run has of them.
#![tactic(auto)]

mod fetch;
mod helper;
mod listing;
mod messages;
mod name;
mod team;

pub use fetch::{FetchEnds, fetch_all};
pub use helper::{Helper, HelperLanes, start};
pub use listing::names;
pub use messages::{Fetched, Wanted};
pub use name::ScriptName;
pub use team::Fetchers;
