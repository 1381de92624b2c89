//! Kinds of events.

use core_pair::Event;
use html_types::{NoMemory, Text};
use std::alloc::Global;

/// An event. The only script that arrives is `a`.
#[derive(Clone, Copy)]
pub enum Kind {
    Send,
    Pick,
    Give,
    Take,
    Do,
    Arrive,
}

/// The events, in the order in which one that is enabled is looked for.
pub const KINDS: [Kind; 6] = [
    Kind::Send,
    Kind::Pick,
    Kind::Give,
    Kind::Take,
    Kind::Do,
    Kind::Arrive,
];

/// An event of that kind.
pub fn event_of(alloc: Global, kind: Kind) -> Result<Event, NoMemory> {
    match kind {
        Kind::Send => Ok(Event::Send),
        Kind::Pick => Ok(Event::Pick),
        Kind::Give => Ok(Event::Give),
        Kind::Take => Ok(Event::Take),
        Kind::Do => Ok(Event::Do),
        Kind::Arrive => Ok(Event::Arrive(Text::from_str(alloc, "a")?)),
    }
}
