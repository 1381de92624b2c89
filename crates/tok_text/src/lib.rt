//! The tokenizer's states of text: data, RCDATA, RAWTEXT, script data and PLAINTEXT, those in which
//! the end tag of the middle three is sought, and those of script data behind `<!--` (13.2.5.1
//! #data-state to 13.2.5.5 #plaintext-state, 13.2.5.9 #rcdata-less-than-sign-state to 13.2.5.31
//! #script-data-double-escape-end-state).
#![tactic(auto)]

mod escapes;
pub mod plain;
pub mod rows;

pub use plain::is_plain;
pub use rows::step;
