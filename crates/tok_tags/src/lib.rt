//! The tokenizer's states of tags and their attributes (13.2.5.6 #tag-open-state to
//! 13.2.5.8 #tag-name-state, 13.2.5.32 #before-attribute-name-state to
//! 13.2.5.40 #self-closing-start-tag-state).
#![tactic(auto)]

pub mod in_place;
mod parts;
pub mod rows;

pub use in_place::add_in_place;
pub use rows::step;
