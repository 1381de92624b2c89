//! A page's UTF-8, which comes in pieces: its text as it comes, and how it ends.
#![tactic(auto)]

mod bytes;
mod decoder;

pub use bytes::without_mark;
pub use decoder::{Decoder, Fed};
pub use html_types::Ending;
