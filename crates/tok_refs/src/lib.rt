//! The tokenizer's states of character references (13.2.5.72 #character-reference-state,
//! 13.2.5.73 #named-character-reference-state, 13.2.5.75 #numeric-character-reference-state to
//! 13.2.5.80 #numeric-character-reference-end-state).
#![tactic(auto)]

mod literal;
pub mod named;
pub mod numeric;
pub mod rows;

pub use rows::step;
