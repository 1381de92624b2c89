// What came of a page.
ghost use Rattle.std.specs.Prelude.{◌≡◌, [], None, false, IfSome, IsSomeAnd};
ghost use Rattle.core_steps.specs.Tallies.{IsTallyOf};

use crate::status::Status;
use core_steps::{DocSide, Tally};
use parser_thread::Lanes;
use preload::HelperLanes;
use speculation::InForce;
use std::alloc::Global;
use tree_watch::Seen;

/// What came of a page that was run on the calling thread.
#[derive(Drop)]
pub(crate) struct Run {
    pub(crate) outcome: Status,
    pub(crate) side: Option<DocSide>,
}

/// What came of a page.
#[derive(Drop)]
pub struct Report<E: InForce> {
    /// How the run ended.
    pub outcome: Status,
    /// The document's side as it ended, with the document and the journal: none where the page
    /// wasn't begun, or memory ran out before anything of it was read. Where memory ran out later,
    /// or writing failed, the journal has the events before that.
    pub side: Option<DocSide>,
    /// What went through both lanes between the document's side and the parser's side: none where
    /// there were no lanes.
    pub ends: Option<Lanes<E>>,
    /// Of each helper that might be used, in their order, what went through its lanes: none where
    /// no memory for its thread was to be had. There are none where the page wasn't begun.
    pub helped: Vec<Option<HelperLanes>>,
    /// What the watchers saw last, in their order: none where nobody watched, or the page wasn't
    /// begun. At want of memory what a look at the end found may stand in a watcher's place.
    pub seen: Vec<Seen>,
}

impl<E: InForce> Report<E> {
    /// Of a page that wasn't begun, or for which memory ran out before anything of it was read.
    pub(crate) fn bare(alloc: Global, outcome: Status) -> Report<E>
        ensures outcome { result.outcome ≡ outcome }
        ensures side { result.side ≡ None }
        ensures ends { result.ends ≡ None }
        ensures helped { result.helped.items ≡ [] }
        ensures seen { result.seen.items ≡ [] }
    {
        Report {
            outcome,
            side: None,
            ends: None,
            helped: Vec::new(alloc),
            seen: Vec::new(alloc),
        }
    }

    /// What the run came to in numbers, where the page was begun. After want of memory they tell
    /// nothing. The tree is walked.
    pub fn tally(&self) -> Option<Tally>
        ensures none { self.now.side ≡ None → result ≡ None }
        ensures some { IfSome self.now.side (λ side. side.spent ≡ false
            → IsSomeAnd result (IsTallyOf side.desk)) }
    {
        match &self.side {
            Some(side) => Some(side.tally()),
            None => None,
        }
    }
}
