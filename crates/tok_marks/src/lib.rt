//! The tokenizer's states of markup declarations, comments, doctypes and CDATA sections
//! (13.2.5.41 #bogus-comment-state to 13.2.5.71 #cdata-section-end-state).
#![tactic(auto)]

pub mod cdata;
pub mod comment;
pub mod declaration;
pub mod doctype;
pub mod in_place;
pub mod plain;

pub use declaration::step;
pub use in_place::add_in_place;
pub use plain::is_plain;
