//! The core as one: both sides, and the requests and replies that are under way between them, event
//! by event, in whatever order. What each event does is exactly what the definitions in
//! `core_definitions` say of it, and what `core_laws` proves of every list of events holds of it.
#![tactic(auto)]

mod both;
pub mod pair;
pub mod scripts;
pub mod setup;

pub use core_steps::{End, Event, Fetch, FetchedFile, Journal, State};
pub use pair::Pair;
pub use scripts::Scripts;
pub use setup::Setup;
