//! The events of the core.

use html_types::Text;

/// An event of the core: a push or a pop on one of the two lanes between the sides, the return of a
/// fetch, or a step that one side takes by itself.
#[derive(Drop)]
pub enum Event {
    /// The document's side sends a piece of the page.
    Send,
    /// The parser's side takes the request that stands first.
    Pick,
    /// The parser's side gives the reply to it.
    Give,
    /// The document's side takes the reply that stands first.
    Take,
    /// The document's side executes a batch, or runs the script that is in hand.
    Do,
    /// The fetch of the script of that name has returned.
    Arrive(Text),
}
