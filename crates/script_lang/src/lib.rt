//! The language of scripts: reads a script's text as a list of statements.
#![tactic(auto)]

mod reading;
mod script;
mod string;

pub use reading::read;
pub use script::Script;
