//! The count of a lane: how many values were put, in a word that the taking end looks at.

ghost use Rattle.std.specs.Prelude.{true, false, []};
ghost use Rattle.op_queue.specs.Count.{tally, IsCounted, Counts, Looks};

use atomic_table::{Play, Seat, Split, Table, TableRule};
use std::alloc::Global;
use std::collections::LinkedList;

/// What a seat at the count knows: whether it counts, how many it has counted, and what it found at
/// each of its looks. No value of it is made.
pub struct Tally {
    pub counts: bool,
    pub put: u64,
    pub looks: LinkedList<u64>,
}

/// The rule.
pub struct Counted;

impl TableRule<(), Tally, ()> for Counted {
    ghost holds = { λ _. IsCounted };

    ghost first = { λ _. tally true 0 [] };
}

/// One more is put.
pub struct CountsOne;

impl Play<(), Tally> for CountsOne {
    ghost then = { Counts };
}

/// The count is looked at.
pub struct LooksAt;

impl Play<(), Tally> for LooksAt {
    ghost then = { Looks };
}

/// A seat that counts, and one that looks.
pub struct Sides;

impl Split<Tally> for Sides {
    ghost left = { λ v. v };

    ghost right = { λ v. tally false 0 [] };
}

/// The count of a lane.
pub type Count = Table<(), Tally, (), Counted, Global>;

/// A seat at the count. It has no bytes.
pub type Teller = Seat<(), Tally>;
