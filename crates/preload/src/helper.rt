//! A helper with its thread, as the document's side has it.

ghost use Rattle.std.specs.Prelude.{◌≡◌, [], ◌∷◌, ◌++◌, IfOk, IfErr};
ghost use Rattle.std.specs.String.{string_bytes};
ghost use mathlib.Core.List.{IsPrefix};
ghost use Rattle.preload.specs.declared.messages.Wanted.TheVariants as message;
ghost use Rattle.preload.specs.Fetching.{FetchedAll};
ghost use Rattle.preload.specs.Helping.{Kept, asked_lane, answers_lane, IsSeated, IsWorking};

use crate::fetch::{FetchEnds, fetch_all};
use crate::messages::{Fetched, Wanted};
use crate::name::ScriptName;
use op_queue::{Met, Put, Take, lane, meet};
use outside::Outside;
use std::alloc::{AllocError, Global};
use std::snapshot::Snapshot;
use std::sync::atomic::{AtomicU64, Ordering};
use std::sync::{Arc, Wait};
use std::thread;
use std::thread::{Promise, PromisedHandle, Threads};

/// The fetcher's ends of both lanes.
#[derive(Drop)]
pub(crate) struct FetcherLanes {
    pub(crate) asked: Take<Wanted>,
    pub(crate) answers: Put<Fetched>,
}

/// What the closure for the thread gives back.
#[derive(Drop)]
pub(crate) enum Parting<F: Drop> {
    /// It has fetched.
    Done(F, FetchEnds),
    /// It was called in the thread that made it, and hands all back as it was.
    Unused(F, FetcherLanes),
}

/// The parting is of this helper, over these lanes.
#[derive(Drop)]
pub(crate) struct OverHelper<F> {
    pub(crate) helper: Snapshot<F>,
    pub(crate) lanes: Snapshot<FetcherLanes>,
    pub(crate) dir: Snapshot<String>,
}

impl<F: Outside + Drop> Promise<Parting<F>> for OverHelper<F> {
    ghost use Rattle.std.specs.String.{string_bytes};
    ghost use Rattle.preload.specs.Helping.{Kept};

    ghost kept_by = { λ p r. Kept F.Outside (string_bytes p.dir.value) p.helper.value p.lanes.value
        r };
}

/// Where the helper is.
#[derive(Drop)]
pub(crate) enum Seat<F: Outside + Drop> {
    /// In a thread of its own.
    There(PromisedHandle<Parting<F>, OverHelper<F>>),
    /// In this thread, and not used.
    Idle(F, FetcherLanes),
    /// It has ended.
    Ended(F, FetchEnds),
}

/// What was put into both lanes and taken from them.
#[derive(Drop)]
pub struct HelperLanes {
    pub asked: Met<Wanted>,
    pub answers: Met<Fetched>,
}

/// A helper at work in its thread, and the document's ends of both lanes. It isn't let go: `finish`
/// ends it.
#[derive(Drop)]
pub struct Helper<F: Outside + Drop> {
    pub ask: Put<Wanted>,
    pub answers: Take<Fetched>,
    pub(crate) seat: Seat<F>,
    pub(crate) dir: String,
    pub(crate) alloc: Global,
    // What it was when it began.
    pub was: Snapshot<F>,
}

// What runs in the thread; or in this one, where no thread could be made.
fn sit<R: Wait + Copy, F: Outside + Drop>(
    rt: R,
    alloc: Global,
    dir: String,
    lanes: FetcherLanes,
    helper: F,
    refused: Arc<AtomicU64, Global>,
) -> Parting<F>
    requires first { (lanes.asked.taken ≡ []) × (lanes.answers.put ≡ []) }
    ensures { Kept F.Outside (string_bytes dir) helper lanes result }
{
    if refused.load(Ordering::SeqCst) == 1 {
        return Parting::Unused(helper, lanes);
    }
    let FetcherLanes { asked, answers } = lanes;
    let (helper, ends) = fetch_all(&rt, alloc, dir.as_str(), asked, answers, helper);
    Parting::Done(helper, ends)
}

// The seat of a closure that was called here.
fn seat_here<F: Outside + Drop>(
    parting: Parting<F>,
    was: Snapshot<FetcherLanes>,
    helper: Snapshot<F>,
    dir: Snapshot<String>,
) -> Seat<F>
    requires kept { Kept F.Outside (string_bytes dir.value) helper.value was.value parting }
    requires first { (was.value.asked.taken ≡ []) × (was.value.answers.put ≡ []) }
    ensures asked { asked_lane F.Outside result ≡ was.value.asked.lane }
    ensures answers { answers_lane F.Outside result ≡ was.value.answers.lane }
    ensures seated { IsSeated F.Outside (string_bytes dir.value) helper.value result }
{
    match parting {
        Parting::Done(helper, ends) => Seat::Ended(helper, ends),
        Parting::Unused(helper, lanes) => Seat::Idle(helper, lanes),
    }
}

// Starts the thread. Where none can be made the helper stays in this one.
fn take_seat<R: Threads + Wait + Copy + Send + Sync + 'static, F: Outside + Drop + Send + 'static>(
    rt: &R,
    alloc: Global,
    dir: String,
    lanes: FetcherLanes,
    helper: F,
    told: Arc<AtomicU64, Global>,
    refused: &AtomicU64,
) -> Seat<F>
    requires first { (lanes.asked.taken ≡ []) × (lanes.answers.put ≡ []) }
    ensures asked { asked_lane F.Outside result ≡ lanes.asked.lane }
    ensures answers { answers_lane F.Outside result ≡ lanes.answers.lane }
    ensures seated { IsSeated F.Outside (string_bytes dir) helper result }
{
    let was = Snapshot::of(&lanes);
    let before = Snapshot::of(&helper);
    let folder = Snapshot::of(&dir);
    let promise = OverHelper {
        helper: Snapshot::of(&helper),
        lanes: Snapshot::of(&lanes),
        dir: Snapshot::of(&dir),
    };
    let their_rt = *rt;
    match thread::spawn_with(
        rt,
        promise,
        move || -> Parting<F>
            requires first { (lanes.asked.taken ≡ []) × (lanes.answers.put ≡ []) }
            ensures { Kept F.Outside (string_bytes dir) helper lanes result }
        { sit(their_rt, alloc, dir, lanes, helper, told) },
    ) {
        Ok(child) => Seat::There(child),
        Err(refusal) => {
            refused.store(1, Ordering::SeqCst);
            seat_here((refusal.value)(), was, before, folder)
        }
    }
}

// What a start takes memory for.
struct Outfit {
    ask: Put<Wanted>,
    replies: Take<Fetched>,
    lanes: FetcherLanes,
    own_dir: String,
    their_dir: String,
    refused: Arc<AtomicU64, Global>,
    told: Arc<AtomicU64, Global>,
}

fn fit_out(alloc: Global, dir: &str) -> Result<Outfit, AllocError>
    ensures asked { IfOk result (λ o. (o.ask.put ≡ []) × (o.lanes.asked.taken ≡ [])
        × (o.lanes.asked.lane ≡ o.ask.lane)) }
    ensures answers { IfOk result (λ o. (o.replies.taken ≡ []) × (o.lanes.answers.put ≡ [])
        × (o.lanes.answers.lane ≡ o.replies.lane)) }
    ensures dir { IfOk result (λ o. (string_bytes o.own_dir ≡ dir.now)
        × (string_bytes o.their_dir ≡ dir.now)) }
{
    let (ask, asked) = lane(alloc, 65)?;
    let (answers, replies) = lane(alloc, 65)?;
    let own_dir = String::from_str(alloc, dir)?;
    let their_dir = String::from_str(alloc, dir)?;
    let refused = Arc::new(alloc, AtomicU64::new(0))?;
    let told = Arc::try_clone(&refused)?;
    Ok(Outfit {
        ask,
        replies,
        lanes: FetcherLanes { asked, answers },
        own_dir,
        their_dir,
        refused,
        told,
    })
}

/// Starts a fetcher that owns the helper. Where memory runs out the helper comes back.
pub fn start<R: Threads + Wait + Copy + Send + Sync + 'static, F: Outside + Drop + Send + 'static>(
    rt: &R,
    alloc: Global,
    dir: &str,
    helper: F,
) -> Result<Helper<F>, F>
    ensures working { IfOk result (λ h. IsWorking F.Outside dir.now h) }
    ensures first { IfOk result (λ h. (h.ask.put ≡ []) × (h.answers.taken ≡ [])
        × (h.was.value ≡ helper)) }
    ensures back { IfErr result (λ h. h ≡ helper) }
{
    let Ok(
        Outfit {
            ask,
            replies,
            lanes,
            own_dir,
            their_dir,
            refused,
            told,
        },
    ) = fit_out(alloc, dir)
    else {
        return Err(helper);
    };
    let was = Snapshot::of(&helper);
    let seat = take_seat(rt, alloc, their_dir, lanes, helper, told, &*refused);
    Ok(Helper {
        ask,
        answers: replies,
        seat,
        dir: own_dir,
        alloc,
        was,
    })
}

impl<F: Outside + Drop> Helper<F> {
    /// Whether it has a thread.
    pub fn is_there(&self) -> bool {
        match &self.seat {
            Seat::There(_) => true,
            Seat::Idle(_, _) => false,
            Seat::Ended(_, _) => false,
        }
    }

    /// Asks for a name.
    pub fn ask<R: Wait>(&mut self, rt: &R, name: ScriptName)
        ensures asked { self.new.ask.put ≡ self.old.ask.put ++ message.Ask name ∷ [] }
        ensures lane { self.new.ask.lane ≡ self.old.ask.lane }
        ensures others { self.new ≡ record self.old { ask = self.new.ask } }
    {
        self.ask.put(rt, Wanted::Ask(name));
    }

    /// Takes the answer that comes next, waiting until it is there.
    pub fn next<R: Wait>(&mut self, rt: &R) -> Fetched
        ensures taken { self.new.answers.taken ≡ self.old.answers.taken ++ result ∷ [] }
        ensures lane { self.new.answers.lane ≡ self.old.answers.lane }
        ensures others { self.new ≡ record self.old { answers = self.new.answers } }
    {
        self.answers.take(rt)
    }

    /// Tells the fetcher to stop, waits until it has, and gives back the helper, and what went
    /// through both lanes.
    pub fn finish<R: Threads + Wait>(self, rt: &R) -> (F, HelperLanes)
        requires working { IsWorking F.Outside (string_bytes self.dir) self }
        ensures asked { result.1.asked.put ≡ self.ask.put ++ message.Stop ∷ [] }
        ensures taken { result.1.answers.taken ≡ self.answers.taken }
        ensures asked_in_order { IsPrefix result.1.asked.taken result.1.asked.put }
        ensures answers_in_order { IsPrefix result.1.answers.taken result.1.answers.put }
        ensures fetched { FetchedAll (string_bytes self.dir) (F.seen self.was.value)
            (F.seen result.0) result.1.asked.taken result.1.answers.put }
    {
        let Helper {
            mut ask,
            answers,
            seat,
            dir,
            alloc,
            was,
        } = self;
        ask.put(rt, Wanted::Stop);
        let (helper, ends) = leave(seat, rt, alloc, dir.as_str(), was);
        let FetchEnds {
            asked: asked_end,
            answers: answers_end,
        } = ends;
        let lanes = HelperLanes {
            asked: meet(ask.end(), asked_end),
            answers: meet(answers_end, answers.end()),
        };
        (helper, lanes)
    }
}

// The helper and the ends of the lanes, once it has ended.
fn leave<R: Threads + Wait, F: Outside + Drop>(
    seat: Seat<F>,
    rt: &R,
    alloc: Global,
    dir: &str,
    was: Snapshot<F>,
) -> (F, FetchEnds)
    requires seated { IsSeated F.Outside dir.now was.value seat }
    ensures asked { result.1.asked.lane ≡ asked_lane F.Outside seat }
    ensures answers { result.1.answers.lane ≡ answers_lane F.Outside seat }
    ensures fetched { FetchedAll dir.now (F.seen was.value) (F.seen result.0) result.1.asked.taken
        result.1.answers.put }
{
    match seat {
        Seat::There(child) => match child.join(rt) {
            Parting::Done(helper, ends) => (helper, ends),
            Parting::Unused(helper, lanes) => {
                let FetcherLanes { asked, answers } = lanes;
                fetch_all(rt, alloc, dir, asked, answers, helper)
            }
        },
        Seat::Idle(helper, lanes) => {
            let FetcherLanes { asked, answers } = lanes;
            fetch_all(rt, alloc, dir, asked, answers, helper)
        }
        Seat::Ended(helper, ends) => (helper, ends),
    }
}
