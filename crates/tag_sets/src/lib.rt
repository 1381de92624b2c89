//! The sets of element names that tree construction speaks of
//! (13.2.4.2 #the-stack-of-open-elements, 13.2.6.1 #creating-and-inserting-nodes,
//! 13.2.6.3 #closing-elements-that-have-implied-end-tags), as exact tests of words and of names.
#![tactic(auto)]

mod attributes;
pub mod elements;
mod foreign;
pub mod sets;

pub use attributes::{is_html_annotation, is_spelled, value_of};
pub use elements::{ends, is_any, is_the, meant, own};
pub use foreign::{is_annotation, is_foreign_stop, is_math_text, is_svg_point};
pub use sets::{is_in, stops_at};
