//! The parser's side in a thread of its own: it takes requests from one lane and puts its replies
//! into another, in order. Where no thread starts, the same steps run over the same lanes in the
//! calling thread.
#![tactic(auto)]

mod messages;
mod running;
mod seat;
mod side;

pub use messages::{FromParser, ToParser};
pub use running::{Lanes, ParserThread, start, start_here};
pub use side::{Ends, work};
