//! The open state of tree construction (13.2.4 #parse-state), and what the instructions of a row do
//! to it (13.2.6 #tree-construction).
#![tactic(auto)]

mod at_once;
mod checks;
mod closing;
mod foreign;
mod foreign_end;
mod formatting;
mod forms;
mod fragment;
mod inputs;
mod insert;
mod likes;
mod machine;
mod pending;
mod places;
mod reset;
mod state;
mod walks;
mod weight;

pub use foreign::opened;
pub use formatting::{entry_of, take_entry_off};
pub use insert::take_id;
pub use places::place_for_last;
pub use state::{Adopted, Builder, Pushed};
pub use walks::{has_in_scope, has_open, take_off};
