//! What a pair is given.

use crate::scripts::Scripts;
use entity_table::Table;
use html_types::{Ending, Text};

/// What a pair is given.
#[derive(Drop)]
pub struct Setup<'a> {
    /// The named character references, which are those in force.
    pub table: &'a Table,
    /// The page's text, as it was cut.
    pub pieces: Vec<Text>,
    /// How the page ends.
    pub ending: Ending,
    /// What comes of fetching scripts.
    pub scripts: Scripts,
    /// So many requests are sent ahead at most.
    pub ahead: usize,
}
