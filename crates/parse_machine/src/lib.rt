//! The parser: tokenizer and builder together, from text to operations (13.2.5 #tokenization,
//! 13.2.6 #tree-construction). No tree is read, so the next state and the stop depend on the state
//! and the text alone.
#![tactic(auto)]

mod after_adoption;
mod end;
mod fragment;
mod machine;
mod process;
mod text_runs;
mod token;
mod weight;

pub use end::End;
pub use fragment::parse_fragment;
pub use html_types::{Finish, Stop};
pub use machine::{Machine, Ran};
pub use token::construct;
