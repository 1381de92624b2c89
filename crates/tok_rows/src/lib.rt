//! What the tokenizer's rows answer: the base of the `tok_` crates, each of which has the rows of
//! one group of states (13.2.5 #tokenization).
#![tactic(auto)]

pub mod next;

pub use next::Transition;
