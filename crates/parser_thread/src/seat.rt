//! Where the parser's side is: in a thread of its own, or in this one.

ghost use Rattle.std.specs.Prelude.{◌≡◌, []};
ghost use Rattle.parser_thread.specs.Answers.{Worked};
ghost use Rattle.parser_thread.specs.Parts.{Kept};
ghost use Rattle.parser_thread.specs.Seats.{asked_lane, answers_lane, IsSeated};

use crate::messages::{FromParser, ToParser};
use crate::side::{Ends, ParserSide, answer_all};
use entity_table::Table;
use op_queue::{Put, Take};
use outside::Gate;
use speculation::InForce;
use std::alloc::Global;
use std::snapshot::Snapshot;
use std::sync::atomic::{AtomicU64, Ordering};
use std::sync::{Arc, Wait};
use std::thread;
use std::thread::{Promise, PromisedHandle, Threads};

/// The parser's ends of both lanes.
#[derive(Drop)]
pub(crate) struct ParserLanes<E: InForce> {
    pub(crate) asked: Take<ToParser>,
    pub(crate) answers: Put<FromParser<E>>,
}

/// What the closure for the thread gives back.
#[derive(Drop)]
pub(crate) enum Parting<E: InForce> {
    /// It has worked.
    Done(Ends<E>),
    /// It was called in the thread that made it, and hands the lanes back as they were.
    Unused(ParserLanes<E>),
}

/// The parting is over the lanes that the closure was given.
#[derive(Drop)]
pub(crate) struct RunningSeat<E: InForce> {
    lanes: Snapshot<ParserLanes<E>>,
}

impl<E: InForce> Promise<Parting<E>> for RunningSeat<E> {
    ghost use Rattle.parser_thread.specs.Parts.{Kept};

    ghost kept_by = { λ p r. Kept E.InForce p.lanes.value r };
}

/// Where the parser's side is.
#[derive(Drop)]
pub(crate) enum Seat<E: InForce> {
    /// In a thread of its own.
    There(PromisedHandle<Parting<E>, RunningSeat<E>>),
    /// In this thread.
    Here(ParserSide<E>),
    /// It has ended.
    Ended(Ends<E>),
}

/// What a thread for the parser's side owns.
pub(crate) struct Outfit<E: InForce, G> {
    pub(crate) lanes: ParserLanes<E>,
    pub(crate) table: Table,
    pub(crate) gate: Arc<G, Global>,
    // 1 where no thread could be made.
    pub(crate) refused: Arc<AtomicU64, Global>,
}

// What runs in the thread; or in this one, where no thread could be made.
fn sit<R: Wait + Copy, E: InForce, G: Gate + Drop>(
    rt: R,
    alloc: Global,
    lanes: ParserLanes<E>,
    table: Table,
    gate: Arc<G, Global>,
    refused: Arc<AtomicU64, Global>,
) -> Parting<E>
    requires table { table ≡ E.entities }
    requires first { (lanes.asked.taken ≡ []) × (lanes.answers.put ≡ []) }
    ensures { Kept E.InForce lanes result }
{
    if refused.load(Ordering::SeqCst) == 1 {
        return Parting::Unused(lanes);
    }
    let ParserLanes { asked, answers } = lanes;
    Parting::Done(answer_all(&rt, alloc, &table, asked, answers, &*gate))
}

// The seat of a closure that was called here.
fn seat_here<E: InForce>(parting: Parting<E>, was: Snapshot<ParserLanes<E>>) -> Seat<E>
    requires kept { Kept E.InForce was.value parting }
    requires first { (was.value.asked.taken ≡ []) × (was.value.answers.put ≡ []) }
    ensures asked { asked_lane E.InForce result ≡ was.value.asked.lane }
    ensures answers { answers_lane E.InForce result ≡ was.value.answers.lane }
    ensures seated { IsSeated E.InForce result }
{
    match parting {
        Parting::Done(ends) => Seat::Ended(ends),
        Parting::Unused(lanes) => {
            let ParserLanes { asked, answers } = lanes;
            Seat::Here(ParserSide::new(asked, answers))
        }
    }
}

/// Starts the thread. Where none can be made the parser's side stays in this one, over the same
/// lanes.
pub(crate) fn take_seat<
    R: Threads + Wait + Copy + Send + Sync + 'static,
    E: InForce + Send + 'static,
    G: Gate + Drop + Send + Sync + 'static,
>(rt: &R, alloc: Global, outfit: Outfit<E, G>, refused: &AtomicU64) -> Seat<E>
    requires table { outfit.table ≡ E.entities }
    requires first { (outfit.lanes.asked.taken ≡ []) × (outfit.lanes.answers.put ≡ []) }
    ensures asked { asked_lane E.InForce result ≡ outfit.lanes.asked.lane }
    ensures answers { answers_lane E.InForce result ≡ outfit.lanes.answers.lane }
    ensures seated { IsSeated E.InForce result }
{
    let Outfit {
        lanes,
        table,
        gate,
        refused: told,
    } = outfit;
    let was = Snapshot::of(&lanes);
    let promise = RunningSeat {
        lanes: Snapshot::of(&lanes),
    };
    let their_rt = *rt;
    match thread::spawn_with(
        rt,
        promise,
        move || -> Parting<E>
            requires table { table ≡ E.entities }
            requires first { (lanes.asked.taken ≡ []) × (lanes.answers.put ≡ []) }
            ensures { Kept E.InForce lanes result }
        { sit(their_rt, alloc, lanes, table, gate, told) },
    ) {
        Ok(child) => Seat::There(child),
        Err(refusal) => {
            refused.store(1, Ordering::SeqCst);
            seat_here((refusal.value)(), was)
        }
    }
}

impl<E: InForce> Seat<E> {
    /// Where the parser's side is in this thread, it answers one message.
    pub(crate) fn step<R: Wait, G: Gate>(&mut self, rt: &R, alloc: Global, table: &Table, gate: &G)
        requires table { table.now ≡ E.entities }
        requires seated { IsSeated E.InForce self.old }
        ensures asked { asked_lane E.InForce self.new ≡ asked_lane E.InForce self.old }
        ensures answers { answers_lane E.InForce self.new ≡ answers_lane E.InForce self.old }
        ensures seated { IsSeated E.InForce self.new }
    {
        match self {
            Seat::Here(side) => side.step(rt, alloc, table, gate),
            Seat::There(_) => {}
            Seat::Ended(_) => {}
        }
    }

    /// The ends of the lanes, once the parser's side has ended.
    pub(crate) fn leave<R: Threads + Wait, G: Gate>(
        self,
        rt: &R,
        alloc: Global,
        table: &Table,
        gate: &G,
    ) -> Ends<E>
        requires table { table.now ≡ E.entities }
        requires seated { IsSeated E.InForce self }
        ensures asked { result.asked.lane ≡ asked_lane E.InForce self }
        ensures answers { result.answers.lane ≡ answers_lane E.InForce self }
        ensures worked { Worked E.InForce result.asked.taken result.answers.put }
    {
        match self {
            Seat::There(child) => match child.join(rt) {
                Parting::Done(ends) => ends,
                Parting::Unused(lanes) => {
                    let ParserLanes { asked, answers } = lanes;
                    answer_all(rt, alloc, table, asked, answers, gate)
                }
            },
            Seat::Here(side) => side.finish(rt, alloc, table, gate),
            Seat::Ended(ends) => ends,
        }
    }
}
