//! A page is run with its scripts in memory: its bytes and its scripts' in, what the program prints
//! of it out.
#![tactic(auto)]

mod keeper;
mod running;
mod scripts;

pub use running::{Ran, run};
pub use scripts::Scripts;
