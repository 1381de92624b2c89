//! The words of the command: its grammar, as `clap` reads it, and what the words ask for.
#![tactic(auto)]

mod words;

pub use words::{BatchWords, CommandWords, MakeWords, PageWords, Refused, read_words};
