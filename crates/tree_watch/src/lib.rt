//! Watchers: others read the document while it grows, each as it stood behind some publication of
//! the one who makes it, and none as it stood in between.
#![tactic(auto)]

mod board;
mod rule;
mod shown;
mod steps;
mod watcher;

pub use board::{Board, Told};
pub use watcher::{Glance, Seen, Watcher};
