//! What the document's side has in hand besides batches.

use html_types::{NodeId, Text};
use parse_machine::{End, Machine};

/// Where the document's side stands.
#[derive(Drop)]
pub(crate) enum Stage {
    /// No script is in hand.
    Free,
    /// A script whose end tag was met, and the parser just behind the tag.
    Tagged(NodeId, Machine),
    /// A script that awaits the file of that name, and that parser.
    Waits(Text, Machine),
    /// The parse is over, and whether a script was in hand then.
    Done(End, bool),
}
