//! The tokenizer (13.2.5 #tokenization) over a text that comes in pieces.
#![tactic(auto)]

pub mod append;
pub mod comment;
mod discard;
pub mod part;
mod place;
pub mod raw;
pub mod reading;
pub mod reference;
pub mod tokenizer;
pub mod whole;

pub use tokenizer::Tokenizer;
