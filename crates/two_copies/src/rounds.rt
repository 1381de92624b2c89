//! The writer's loops over the readers. `p` is the writer's plan as the call begins.
ghost use Rattle.std.specs.Prelude.{◌≡◌, ℕ, ◌+◌, ◌-◌, ◌*◌, ◌^◌, ◌<◌, ◌≤◌, [], length, slice_index};
ghost use Rattle.two_copies.specs.declared.board.Plan.{Plan};
ghost use Rattle.two_copies.specs.Sides.{IsSized, IsPlanned, IsSameSeat, plan_of, unit, view};
ghost use Rattle.two_copies.specs.Sides.{opened, flipped, closed};
ghost use Rattle.crossbeam_utils.specs.Register.{TurnsAt};

use crate::board::{Doing, Place, Sides};
use crate::part::Part;
use crate::plays::{Begin, Empty, End, Fill, Gather, Reach, Record, Turn};
use atomic_table::Shared;
use crossbeam_utils::Backoff;
use crossbeam_utils::rule::{Outcome, Protocol};
use std::alloc::Allocator;
use std::snapshot::Snapshot;
use std::sync::Wait;

type Top<T, V, P> = Shared<Option<Part<T>>, Doing<T, V>, Snapshot<Part<T>>, Sides<P>>;

// Waits until the reader has left the side `off`, and takes its part.
fn take_back<T: Drop, V, P: Protocol<T, V>, R: Wait>(
    rt: &R,
    top: &Top<T, V, P>,
    place: &mut Place<T, V>,
    like: &Part<T>,
    reader: usize,
    off: usize,
    seen: u64,
) -> Part<T>
    requires table { (place.old.table_id ≡ top.now.table_id) × IsSized top.now.table_id
        × (8 * reader + 8 ≤ top.now.table_id.slots) × (off < 2) }
    requires ready { let p : Plan T = plan_of place.old like.now in IsPlanned place.old p
        × (reader + 1 ≡ p.left) × (off ≡ p.off) × (p.hand ≡ 0) × (p.filled ≡ 0)
        × (reader < length p.last) × (seen ≡ slice_index p.last reader) }
    ensures { let p : Plan T = plan_of place.old like.now in IsSameSeat place.old place.new
        × IsPlanned place.new (record p { left = reader }) × (result ≡ p.spare) }
{
    let backoff = Backoff::new();
    for _ in rt.forever() {
        let epoch = top.load::<Gather>(place, 16 * reader + 16);
        if epoch != seen || seen % 2 == 0 {
            let part = top.exchange(place, 8 * reader + off, None).unwrap();
            top.load::<Empty>(place, 0);
            return part;
        }
        backoff.snooze();
    }
    unreachable!()
}

pub(crate) fn gather<T: Drop, V, P: Protocol<T, V>, R: Wait>(
    rt: &R,
    top: &Top<T, V, P>,
    place: &mut Place<T, V>,
    part: &mut Part<T>,
    left: usize,
    off: usize,
    last: &[u64],
)
    requires table { (place.old.table_id ≡ top.now.table_id) × IsSized top.now.table_id
        × (8 * left ≤ top.now.table_id.slots) × (off < 2) × (left ≤ length last.now) }
    requires ready { let p : Plan T = plan_of place.old part.old in IsPlanned place.old p
        × (left ≡ p.left) × (off ≡ p.off) × (p.hand ≡ 0) × (p.filled ≡ 0)
        × (0 < left → (p.last ≡ last.now) × (p.spare ≡ unit part.old)) }
    requires parts { part.old.count + left ≡ 2 ^ 63 }
    ensures { let p : Plan T = plan_of place.old part.old in IsSameSeat place.old place.new
        × IsPlanned place.new (record p { left = 0 })
        × (part.new ≡ record part.old { count = 2 ^ 63 }) }
{
    let mut left = left;
    while left > 0 {
        left -= 1;
        let back = take_back(rt, top, place, part, left, off, last[left]);
        part.join(back);
    }
}

pub(crate) fn fill<T: Drop, V, P: Protocol<T, V>>(
    top: &Top<T, V, P>,
    place: &mut Place<T, V>,
    part: &mut Part<T>,
    readers: usize,
    off: usize,
)
    requires table { (place.old.table_id ≡ top.now.table_id) × IsSized top.now.table_id
        × (8 * readers ≡ top.now.table_id.slots) × (0 < readers) × (off < 2) }
    requires ready { let p : Plan T = plan_of place.old part.old in IsPlanned place.old p
        × (p.left ≡ 0) × (off ≡ p.off) × (p.hand ≡ 0) × (p.filled ≡ 0) × (part.old.count ≡ 2 ^ 63) }
    ensures seat { let p : Plan T = plan_of place.old part.old in IsSameSeat place.old place.new
        × IsPlanned place.new (record p { filled = readers; spare = unit part.old }) }
    ensures part { part.new ≡ record part.old { count = 2 ^ 63 - readers } }
{
    for reader in 0..readers {
        top.load::<Reach>(place, 0);
        top.exchange(place, 8 * reader + off, Some(part.split_one()));
        top.load::<Fill>(place, 0);
    }
}

pub(crate) fn note_epochs<T: Drop, V, P: Protocol<T, V>, A: Allocator>(
    top: &Top<T, V, P>,
    place: &mut Place<T, V>,
    like: &Part<T>,
    last: &mut Vec<u64, A>,
)
    requires table { (place.old.table_id ≡ top.now.table_id) × IsSized top.now.table_id
        × (8 * length last.old.items ≡ top.now.table_id.slots) }
    requires ready { let p : Plan T = plan_of place.old like.now in IsPlanned place.old p
        × (p.last ≡ []) }
    ensures { let p : Plan T = plan_of place.old like.now in IsSameSeat place.old place.new
        × IsPlanned place.new (record p { last = last.new.items })
        × (length last.new.items ≡ length last.old.items) }
{
    for reader in 0..last.len() {
        last[reader] = top.load::<Record>(place, 16 * reader + 16);
    }
}

pub(crate) fn begin<T: Drop, V, P: Protocol<T, V>>(
    top: &Top<T, V, P>,
    place: &mut Place<T, V>,
    like: &Part<T>,
)
    requires table { let p : Plan T = plan_of place.old like.now in
        (place.old.table_id ≡ top.now.table_id) × IsSized top.now.table_id
        × (8 * p.filled ≡ top.now.table_id.slots) }
    requires ready { let p : Plan T = plan_of place.old like.now in IsPlanned place.old p
        × (p.fresh ≡ 1) × (p.left ≡ 0) × (p.hand ≡ 0) × (p.shown.value ≡ p.spare.value) }
    ensures { let p : Plan T = plan_of place.old like.now in IsSameSeat place.old place.new
        × IsPlanned place.new (opened p) }
{
    top.store::<Begin>(place, 0, 0);
}

pub(crate) fn turn_as<T: Drop, V, P: Protocol<T, V>, M: Outcome<T, V>>(
    top: &Top<T, V, P>,
    place: &mut Place<T, V>,
    like: &Part<T>,
    off: usize,
)
    requires table { let p : Plan T = plan_of place.old like.now in
        (place.old.table_id ≡ top.now.table_id) × IsSized top.now.table_id
        × (8 * p.filled ≡ top.now.table_id.slots) }
    requires ready { let p : Plan T = plan_of place.old like.now in IsPlanned place.old p
        × (p.side < 2) × (p.left ≡ 0) × (p.hand ≡ 0) × (off ≡ p.off) }
    requires rule { let p : Plan T = plan_of place.old like.now in TurnsAt P.holds place.old.id
        (view place.old) p.shown.value p.spare.value M.then }
    ensures seat { let p : Plan T = plan_of place.old like.now in
        (place.new.table_id ≡ place.old.table_id) × (place.new.id ≡ place.old.id)
        × IsPlanned place.new (flipped p.filled p.off p) }
    ensures rule { let p : Plan T = plan_of place.old like.now in M.then (view place.old)
        p.shown.value p.spare.value (view place.new) }
{
    top.store::<Turn<M>>(place, 0, off as u64);
}

pub(crate) fn shut<T: Drop, V, P: Protocol<T, V>>(
    top: &Top<T, V, P>,
    place: &mut Place<T, V>,
    like: &Part<T>,
    readers: usize,
)
    requires table { (place.old.table_id ≡ top.now.table_id) × IsSized top.now.table_id
        × (8 * readers ≡ top.now.table_id.slots) }
    requires ready { let p : Plan T = plan_of place.old like.now in IsPlanned place.old p
        × (p.side < 2) × (p.left ≡ 0) }
    ensures { let p : Plan T = plan_of place.old like.now in IsSameSeat place.old place.new
        × IsPlanned place.new (closed readers p) }
{
    top.store::<End>(place, 0, 2);
}
