//! What is left of the text that scripts wrote.

use html_types::{Text, Why};

/// What is left of the text that was written at level 0.
#[derive(Drop)]
pub enum Left {
    /// All is used, and no script is awaited.
    Empty,
    /// The script of that `src` is awaited.
    Awaits(Text),
    /// The page is refused.
    Refused(Why),
}
