//! What a reader does.
ghost use Rattle.std.specs.Prelude.{◌≡◌, [], IfOk, MatchResult};
ghost use Rattle.std.specs.Arc.{arc_value};
ghost use Rattle.crossbeam_utils.specs.Register.{Admits, Turns, Merges};
ghost use Rattle.two_copies.specs.Sides.{IsSized, view};

use super::{Factory, Reader, Reading};
use crate::board::{Board, Place};
use crate::plays::{BackOut, Claim, Enter, Glue, Leave, Look, Sit};
use atomic_table::Join;
use crossbeam_utils::rule::{Outcome, Protocol};
use std::alloc::{AllocError, Allocator};
use std::sync::Arc;

impl<T: Drop, V, P: Protocol<T, V>, A: Allocator> Factory<T, V, P, A> {
    pub(crate) fn over(board: Arc<Board<T, V, P, A>, A>) -> Factory<T, V, P, A>
        requires { IsSized (arc_value board).shared.table_id }
        ensures { result.board ≡ board }
    {
        Factory { board }
    }

    pub fn another(&self) -> Result<Factory<T, V, P, A>, AllocError>
        ensures { IfOk result (λ f. arc_value f.board ≡ arc_value self.now.board) }
    {
        Ok(Factory {
            board: Arc::try_clone(&self.board)?,
        })
    }

    /// Returns `Err` if it finds each place in use, as may happen while readers come and go, or the
    /// count of owners is full.
    pub fn reader(&self) -> Result<Reader<T, V, P, A>, AllocError>
        requires { Admits P.holds P.first }
        ensures view { IfOk result (λ r. view r.place ≡ P.first) }
        ensures table { IfOk result
            (λ r. r.place.table_id ≡ (arc_value self.now.board).shared.table_id) }
    {
        let from = self.another()?;
        let mut place = from.board.shared.load_new_seat::<Sit>(0).1;
        for index in 0..from.board.slot_count() / 8 {
            let shared = &from.board.shared;
            if shared.compare_exchange::<Claim>(&mut place, 16 * index + 17, 0, 1) == 0 {
                return Ok(Reader { from, place, index });
            }
        }
        Err(AllocError)
    }

    pub fn was_dropped(&self) -> bool {
        self.board.shared.peek(0) == 2
    }
}

impl<T: Drop, V, P: Protocol<T, V>, A: Allocator> Reader<T, V, P, A> {
    pub fn factory(&self) -> &Factory<T, V, P, A> {
        &self.from
    }

    /// Takes in what the writer told.
    pub fn learn<M: Join<V>>(&mut self, note: Place<T, V>)
        requires own { (note.table_id ≡ self.old.place.table_id) × (note.me.1 ≡ []) }
        requires rule { Merges P.holds self.old.place.id (view self.old.place) note.id (view note)
            (M.both (view self.old.place) (view note)) M.spent }
        ensures table { self.new.place.table_id ≡ self.old.place.table_id }
        ensures learned { (self.new.place.id ≡ self.old.place.id)
            × (view self.new.place ≡ M.both (view self.old.place) (view note)) }
    {
        let from = &self.from;
        let shared = &from.board.shared;
        shared.join_seat::<Glue<M>>(&mut self.place, note);
    }

    /// Takes the value that was published last. The reader comes back where the writer is gone.
    pub fn enter_as<M: Outcome<T, V>>(self) -> Result<Reading<T, V, P, A>, Reader<T, V, P, A>>
        requires { Turns P.holds self.place.id (view self.place) (λ x. x) M.then }
        ensures table { MatchResult result (λ r. r.place.table_id ≡ self.place.table_id)
            (λ r. r.place.table_id ≡ self.place.table_id) }
        ensures turned { MatchResult result
            (λ r. (r.place.id ≡ self.place.id)
            × M.then (view self.place) r.part.value r.part.value (view r.place))
            (λ r. (r.place.id ≡ self.place.id) × (view r.place ≡ view self.place)) }
    {
        let Self {
            from,
            mut place,
            index,
        } = self;
        let shared = &from.board.shared;
        shared.fetch_add::<Enter>(&mut place, 16 * index + 16, 1);
        let side = shared.load::<Look<M>>(&mut place, 0);
        if side >= 2 {
            shared.fetch_add::<BackOut>(&mut place, 16 * index + 16, 1);
            return Err(Reader { from, place, index });
        }
        let side = side as usize;
        let part = shared.exchange(&mut place, 8 * index + side, None).unwrap();
        Ok(Reading {
            from,
            place,
            index,
            side,
            part,
        })
    }
}

impl<T: Drop, V, P: Protocol<T, V>, A: Allocator> Reading<T, V, P, A> {
    pub fn get(&self) -> &T
        ensures { result.now ≡ self.now.part.value }
    {
        self.part.get()
    }

    pub fn leave(self) -> Reader<T, V, P, A>
        ensures table { result.place.table_id ≡ self.place.table_id }
        ensures left { (result.place.id ≡ self.place.id) × (view result.place ≡ view self.place) }
    {
        let Reading {
            from,
            mut place,
            index,
            side,
            part,
        } = self;
        let shared = &from.board.shared;
        shared.exchange(&mut place, 8 * index + side, Some(part));
        shared.fetch_add::<Leave>(&mut place, 16 * index + 16, 1);
        Reader { from, place, index }
    }
}
