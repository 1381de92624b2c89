//! How the parse of a page is over.

use html_types::Why;

/// How the parse of a page is over.
#[derive(Clone, Copy, PartialEq, Eq)]
pub enum End {
    /// Parsing stopped (13.2.7 #the-end).
    Finished,
    /// The page is refused.
    Refused(Why),
}
