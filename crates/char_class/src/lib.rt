//! Classes of characters as the tokenizer's rows tell them apart (13.2.5 #tokenization), where a
//! run of plain text ends, and white space.
#![tactic(auto)]

pub mod class;
pub mod mark;
mod space;

pub use class::{class_of, name_char, shown};
pub use mark::first_mark;
pub use space::is_space;
