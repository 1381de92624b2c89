//! What the writer does.
ghost use Rattle.std.specs.Prelude.{◌≡◌, ◌^◌, ◌<◌, [], ◌∷◌, ◌++◌, length, drop, fold, ◌↔◌, IsTrue};
ghost use Rattle.std.specs.Prelude.{IsOk, IfOk, MatchResult};
ghost use Rattle.std.specs.Arc.{arc_value};
ghost use Rattle.crossbeam_utils.specs.Register.{TurnsAt, Forks};
ghost use Rattle.two_copies.specs.Log.{InStep};
ghost use Rattle.two_copies.specs.Sides.{view};

use super::Writer;
use crate::Absorb;
use crate::board::Place;
use crate::desk::Open;
use crate::reader::Factory;
use atomic_table::Split;
use crossbeam_utils::rule::{Outcome, Protocol};
use std::alloc::{AllocError, Allocator};
use std::collections::VecDeque;
use std::sync::Wait;

// Applies what the spare copy lacks of the copy that is shown. It returns how many operations are
// left of those.
fn catch_up<T: Absorb<O>, O: Drop, A: Allocator>(
    spare: &mut T,
    shown: &T,
    log: &mut VecDeque<O, A>,
    behind: usize,
    ahead: usize,
) -> usize
    requires { InStep T.applied (T.state shown.now) (T.state spare.old) log.old.items behind ahead }
    ensures in_step { InStep T.applied (T.state shown.now) (T.state spare.new) log.new.items result
        ahead }
    ensures pending { drop result log.new.items ≡ drop behind log.old.items }
    ensures succeeds { T.never_fails → result ≡ 0 }
{
    let mut behind = behind;
    while behind > 0 {
        let op = log.pop_front().unwrap();
        if let Err(op) = spare.absorb_second(op, shown) {
            log.push_front_reserved(op);
            break;
        }
        behind -= 1;
    }
    behind
}

// Applies what neither copy has. It returns how many operations the spare copy is ahead.
fn go_ahead<T: Absorb<O>, O: Drop, A: Allocator>(
    spare: &mut T,
    shown: &T,
    log: &VecDeque<O, A>,
    ahead: usize,
) -> usize
    requires { InStep T.applied (T.state shown.now) (T.state spare.old) log.now.items 0 ahead }
    ensures in_step { InStep T.applied (T.state shown.now) (T.state spare.new) log.now.items 0
        result }
    ensures succeeds { T.never_fails → result ≡ length log.now.items }
{
    let mut ahead = ahead;
    while ahead < log.len() {
        if spare.absorb_first(&log[ahead], shown).is_err() {
            break;
        }
        ahead += 1;
    }
    ahead
}

// Returns how far the spare copy is behind and ahead.
fn bring_up<T: Absorb<O>, O: Drop, A: Allocator>(
    spare: &mut T,
    shown: &T,
    log: &mut VecDeque<O, A>,
    behind: usize,
    ahead: usize,
) -> (usize, usize)
    requires { InStep T.applied (T.state shown.now) (T.state spare.old) log.old.items behind ahead }
    ensures in_step { InStep T.applied (T.state shown.now) (T.state spare.new) log.new.items
        result.0 result.1 }
    ensures pending { drop result.0 log.new.items ≡ drop behind log.old.items }
    ensures succeeds { T.never_fails → (result.0 ≡ 0) × (result.1 ≡ length log.new.items) }
{
    let behind = catch_up(spare, shown, log, behind, ahead);
    if behind > 0 {
        return (behind, ahead);
    }
    (0, go_ahead(spare, shown, log, ahead))
}

impl<T: Absorb<O> + Drop, O: Drop, V, P: Protocol<T, V>, A: Allocator> Writer<T, O, V, P, A> {
    /// Makes room for so many readers.
    pub fn new(
        alloc: A,
        first: T,
        second: T,
        readers: usize,
    ) -> Result<Writer<T, O, V, P, A>, AllocError>
    where
        A: Clone,
        requires readers { (0 < readers) × (readers < 2 ^ 32) }
        requires alike { T.state first ≡ T.state second }
        requires rule { P.holds first (P.first ∷ []) }
        ensures { IfOk result
            (λ w. (w.desk.shown.value ≡ first) × (drop w.behind w.log.items ≡ [])
            × (view w.desk.place ≡ P.first)) }
    {
        let log = VecDeque::new(alloc.clone()?);
        let spare = Box::new(alloc.clone()?, second)?;
        let open = Open::new(alloc, first, readers)?;
        Ok(Writer {
            desk: open.shelve(spare),
            log,
            behind: 0,
            ahead: 0,
        })
    }

    pub fn factory(&self) -> &Factory<T, V, P, A>
        ensures { (arc_value result.now.board).shared.table_id ≡ self.now.desk.place.table_id }
    {
        &self.desk.from
    }

    /// Cuts off a part of the writer's view, for a reader to `learn`. It has no bytes.
    pub fn tell<M: Split<V>>(&mut self) -> Place<T, V>
        requires { Forks P.holds self.old.desk.place.id (view self.old.desk.place)
            (M.left (view self.old.desk.place)) (M.right (view self.old.desk.place)) }
        ensures kept { (self.new.desk.shown ≡ self.old.desk.shown) × (self.new.log ≡ self.old.log)
            × (self.new.behind ≡ self.old.behind)
            × (view self.new.desk.place ≡ M.left (view self.old.desk.place)) }
        ensures table { self.new.desk.place.table_id ≡ self.old.desk.place.table_id }
        ensures given { (result.table_id ≡ self.old.desk.place.table_id)
            × (view result ≡ M.right (view self.old.desk.place)) × (result.me.1 ≡ []) }
    {
        self.desk.tell::<M>()
    }

    /// What readers take now.
    pub fn published(&self) -> &T
        ensures { result.now ≡ self.now.desk.shown.value }
    {
        self.desk.shown.get()
    }

    pub fn has_pending_operations(&self) -> bool
        ensures { IsTrue result ↔ (0 < length (drop self.now.behind self.now.log.items)) }
    {
        self.behind < self.log.len()
    }

    /// The operation comes back where there is no memory.
    pub fn append(&mut self, op: O) -> Result<(), O>
        ensures desk { self.new.desk ≡ self.old.desk }
        ensures pending { MatchResult result
            (λ _. drop self.new.behind self.new.log.items ≡ drop self.old.behind self.old.log.items
            ++ op ∷ [])
            (λ x. (x ≡ op)
            × (drop self.new.behind self.new.log.items ≡ drop self.old.behind self.old.log.items)) }
    {
        match self.log.push_back(op) {
            Ok(()) => Ok(()),
            Err(failed) => Err(failed.value),
        }
    }

    /// Shows readers a copy that has each operation. It waits for those that still read that copy.
    /// At `Err` an operation could not be absorbed, and readers see what they saw.
    pub fn publish_as<M: Outcome<T, V>, R: Wait>(
        self,
        rt: &R,
    ) -> (Writer<T, O, V, P, A>, Result<(), AllocError>)
        requires { (next : T)
            → T.state next
            ≡ fold T.applied (T.state self.desk.shown.value) (drop self.behind self.log.items)
            → TurnsAt P.holds self.desk.place.id (view self.desk.place) self.desk.shown.value next
            M.then }
        ensures seat { result.0.desk.place.id ≡ self.desk.place.id }
        ensures table { result.0.desk.place.table_id ≡ self.desk.place.table_id }
        ensures succeeds { T.never_fails → IsOk result.1 }
        ensures values { MatchResult result.1
            (λ _. (T.state result.0.desk.shown.value
            ≡ fold T.applied (T.state self.desk.shown.value) (drop self.behind self.log.items))
            × (drop result.0.behind result.0.log.items ≡ []))
            (λ _. (result.0.desk.shown.value ≡ self.desk.shown.value)
            × (drop result.0.behind result.0.log.items ≡ drop self.behind self.log.items)) }
        ensures rule { MatchResult result.1
            (λ _. M.then (view self.desk.place) self.desk.shown.value result.0.desk.shown.value
            (view result.0.desk.place)) (λ _. view result.0.desk.place ≡ view self.desk.place) }
    {
        let Writer {
            desk,
            mut log,
            behind,
            ahead,
        } = self;
        let (open, mut spare) = desk.open(rt);
        let (behind, ahead) = bring_up(&mut *spare, open.shown.get(), &mut log, behind, ahead);
        if behind == 0 && ahead == log.len() {
            let writer = Writer {
                desk: open.show_as::<M>(spare),
                log,
                behind: ahead,
                ahead: 0,
            };
            return (writer, Ok(()));
        }
        let writer = Writer {
            desk: open.shelve(spare),
            log,
            behind,
            ahead,
        };
        (writer, Err(AllocError))
    }

    /// Waits for the readers, and returns what was published last. Operations that are pending are
    /// dropped.
    pub fn take<R: Wait>(self, rt: &R) -> Box<T, A>
        ensures { result.value ≡ self.desk.shown.value }
    {
        let Writer {
            desk,
            log: _log,
            behind: _,
            ahead: _,
        } = self;
        let (open, _spare) = desk.open(rt);
        open.close(rt)
    }
}
