//! The readers, under a rule of the caller's.
ghost use Rattle.std.specs.Prelude.{◌≡◌, ◌+◌, ◌*◌, ◌≤◌, [], ◌∷◌, None};
ghost use Rattle.std.specs.Arc.{arc_value};
ghost use Rattle.two_copies.specs.Sides.{IsSized, posed};
ghost use Rattle.two_copies.specs.declared.board.Role.TheVariants.{Out, Holds};

use crate::board::{Board, Place};
use crate::part::Part;
use crate::plays::Free;
use crossbeam_utils::rule::Protocol;
use std::alloc::{Allocator, Global};
use std::sync::Arc;

mod steps;

/// What makes readers. Threads may share it.
#[derive(Drop)]
pub struct Factory<T: Drop, V, P: Protocol<T, V>, A: Allocator = Global> {
    pub(crate) board: Arc<Board<T, V, P, A>, A>,
    ghost sized: { IsSized (arc_value board).shared.table_id },
}

/// A reader that is not reading.
pub struct Reader<T: Drop, V, P: Protocol<T, V>, A: Allocator = Global> {
    from: Factory<T, V, P, A>,
    pub place: Place<T, V>,
    index: usize,
    ghost seated: { place.table_id ≡ (arc_value from.board).shared.table_id },
    ghost inside: { 8 * index + 8 ≤ place.table_id.slots },
    ghost out: { place ≡ posed place (Out index) [] },
}

/// A reader with the value that it reads. It is not `Drop`: end it by `leave`.
pub struct Reading<T: Drop, V, P: Protocol<T, V>, A: Allocator = Global> {
    from: Factory<T, V, P, A>,
    pub place: Place<T, V>,
    index: usize,
    side: usize,
    pub part: Part<T>,
    ghost seated: { place.table_id ≡ (arc_value from.board).shared.table_id },
    ghost inside: { (8 * index + 8 ≤ place.table_id.slots) × (side ≤ 1) },
    ghost holds: { place ≡ posed place (Holds index side part) ((8 * index + side, None) ∷ []) },
}

impl<T: Drop, V, P: Protocol<T, V>, A: Allocator> Drop for Reader<T, V, P, A> {
    fn drop(self) {
        let Self {
            from,
            mut place,
            index,
        } = self;
        from.board
            .shared
            .store::<Free>(&mut place, 16 * index + 17, 0);
    }
}
