//! What the writer does with the copies.
ghost use Rattle.std.specs.Prelude.{◌≡◌, ◌*◌, ◌^◌, ◌<◌, [], ◌∷◌, IfOk};
ghost use Rattle.std.specs.Arc.{arc_value};
ghost use Rattle.crossbeam_utils.specs.Register.{TurnsAt, Forks};
ghost use Rattle.two_copies.specs.Sides.{IsPlanned, first_plan, view};

use super::{Desk, Open};
use crate::board::{Board, Place};
use crate::part::{Part, freeze, thaw};
use crate::plays::Cut;
use crate::reader::Factory;
use crate::rounds::{begin, fill, gather, note_epochs, shut, turn_as};
use atomic_table::{Split, Table};
use crossbeam_utils::rule::{Outcome, Protocol};
use std::alloc::{AllocError, Allocator};
use std::snapshot::Snapshot;
use std::sync::{Arc, Wait};

fn lay<T: Drop, V, P: Protocol<T, V>, A: Allocator + Clone>(
    alloc: A,
    readers: usize,
    part: &Part<T>,
) -> Result<(Factory<T, V, P, A>, Place<T, V>), AllocError>
    requires { (readers < 2 ^ 32) × P.holds part.now.value (P.first ∷ []) }
    ensures { IfOk result
        (λ t. (t.1.table_id ≡ (arc_value t.0.board).shared.table_id)
        × (t.1.table_id.slots ≡ 8 * readers) × IsPlanned t.1 (first_plan part.now)
        × (view t.1 ≡ P.first)) }
{
    let mut words = Vec::from_elem(alloc.clone()?, 0u64, 16 * readers + 16)?;
    words[0] = 2;
    let about = Snapshot::of(part);
    let (table, place): (Board<T, V, P, A>, Place<T, V>) = Table::vacant(
        alloc.clone()?,
        words.as_slice(),
        8 * readers,
        &about,
    )?;
    let board = Arc::new(alloc, table)?;
    Ok((Factory::over(board), place))
}

impl<T: Drop, V, P: Protocol<T, V>, A: Allocator> Open<T, V, P, A> {
    pub fn new(alloc: A, first: T, readers: usize) -> Result<Open<T, V, P, A>, AllocError>
    where
        A: Clone,
        requires { (0 < readers) × (readers < 2 ^ 32) × P.holds first (P.first ∷ []) }
        ensures { IfOk result (λ o. (o.shown.value ≡ first) × (view o.place ≡ P.first)) }
    {
        let last = Vec::from_elem(alloc.clone()?, 0u64, readers)?;
        let (deed, mut shown) = freeze(Box::new(alloc.clone()?, first)?);
        let Ok((from, mut place)) = lay(alloc, readers, &shown) else {
            drop(thaw(deed, shown));
            return Err(AllocError);
        };
        fill(&from.board.shared, &mut place, &mut shown, readers, 0);
        begin(&from.board.shared, &mut place, &shown);
        Ok(Open {
            from,
            place,
            side: 0,
            last,
            deed,
            shown,
        })
    }

    /// Keeps the spare copy, and shows it to no one.
    pub fn shelve(self, spare: Box<T, A>) -> Desk<T, V, P, A>
        ensures { (result.shown ≡ self.shown) × (result.spare.value ≡ spare.value)
            × (result.place ≡ self.place) }
    {
        let Open {
            from,
            place,
            side,
            last,
            deed,
            shown,
        } = self;
        let (spare_deed, spare) = freeze(spare);
        Desk {
            from,
            place,
            side,
            left: 0,
            last,
            deed,
            shown,
            spare_deed,
            spare,
        }
    }

    /// Readers take `next` from now on.
    pub fn show_as<M: Outcome<T, V>>(self, next: Box<T, A>) -> Desk<T, V, P, A>
        requires { TurnsAt P.holds self.place.id (view self.place) self.shown.value next.value
            M.then }
        ensures values { (result.shown.value ≡ next.value)
            × (result.spare.value ≡ self.shown.value) }
        ensures table { result.place.table_id ≡ self.place.table_id }
        ensures rule { (result.place.id ≡ self.place.id)
            × M.then (view self.place) self.shown.value next.value (view result.place) }
    {
        let Open {
            from,
            mut place,
            side,
            mut last,
            deed: spare_deed,
            shown: spare,
        } = self;
        let (deed, mut shown) = freeze(next);
        let (readers, off) = (last.len(), 1 - side);
        let top = &from.board.shared;
        fill(top, &mut place, &mut shown, readers, off);
        turn_as::<T, V, P, M>(top, &mut place, &shown, off);
        note_epochs(top, &mut place, &shown, &mut last);
        Desk {
            from,
            place,
            side: off,
            left: readers,
            last,
            deed,
            shown,
            spare_deed,
            spare,
        }
    }

    /// Readers take nothing from now on. It waits for those that are reading.
    pub fn close<R: Wait>(self, rt: &R) -> Box<T, A>
        ensures { result.value ≡ self.shown.value }
    {
        let Open {
            from,
            mut place,
            side,
            mut last,
            deed,
            mut shown,
        } = self;
        let top = &from.board.shared;
        let readers = last.len();
        shut(top, &mut place, &shown, readers);
        note_epochs(top, &mut place, &shown, &mut last);
        gather(
            rt,
            top,
            &mut place,
            &mut shown,
            readers,
            side,
            last.as_slice(),
        );
        thaw(deed, shown)
    }
}

impl<T: Drop, V, P: Protocol<T, V>, A: Allocator> Desk<T, V, P, A> {
    pub fn tell<M: Split<V>>(&mut self) -> Place<T, V>
        requires { Forks P.holds self.old.place.id (view self.old.place)
            (M.left (view self.old.place)) (M.right (view self.old.place)) }
        ensures kept { (self.new.shown ≡ self.old.shown) × (self.new.spare ≡ self.old.spare)
            × (self.new.from ≡ self.old.from) × (self.new.place.id ≡ self.old.place.id)
            × (view self.new.place ≡ M.left (view self.old.place)) }
        ensures table { self.new.place.table_id ≡ self.old.place.table_id }
        ensures given { (result.table_id ≡ self.old.place.table_id)
            × (view result ≡ M.right (view self.old.place)) × (result.me.1 ≡ []) }
    {
        let from = &self.from;
        let shared = &from.board.shared;
        shared.split_seat::<Cut<M>>(&mut self.place)
    }

    /// Waits until each reader has left the spare copy, and takes it.
    pub fn open<R: Wait>(self, rt: &R) -> (Open<T, V, P, A>, Box<T, A>)
        ensures values { (result.0.shown ≡ self.shown) × (result.1.value ≡ self.spare.value) }
        ensures seat { (result.0.place.id ≡ self.place.id)
            × (view result.0.place ≡ view self.place) }
        ensures table { result.0.place.table_id ≡ self.place.table_id }
    {
        let Desk {
            from,
            mut place,
            side,
            left,
            last,
            deed,
            shown,
            spare_deed,
            mut spare,
        } = self;
        let top = &from.board.shared;
        gather(
            rt,
            top,
            &mut place,
            &mut spare,
            left,
            1 - side,
            last.as_slice(),
        );
        let open = Open {
            from,
            place,
            side,
            last,
            deed,
            shown,
        };
        (open, thaw(spare_deed, spare))
    }
}
