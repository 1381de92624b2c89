//! What goes through the lanes.

use speculation::{InForce, Reply, Request};

/// What the document's side puts.
#[derive(Drop)]
pub enum ToParser {
    /// A piece of the page is to be parsed.
    Ask(Request),
    /// Nothing more is asked.
    Stop,
}

/// What the parser's side puts.
#[derive(Drop)]
pub enum FromParser<E: InForce> {
    /// The reply to a request.
    Answer(Reply<E>),
    /// Memory ran out over a request. It is the last that is answered.
    NoMemory,
}
