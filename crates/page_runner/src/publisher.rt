// One who publishes what the document does, in a thread of its own, and the lane to it.
ghost use Rattle.std.specs.Prelude.{◌≡◌, ℕ, ◌<◌, ◌≤◌, ◌^◌, [], length, true, false, IfOk, IsTrue};
ghost use Rattle.std.specs.Prelude.{OnOk, OnErr};
ghost use Rattle.page_turns.specs.Watched.{ungrown, AreLast};
ghost use Rattle.page_runner.specs.declared.publisher.ToPublisher.TheVariants as word;
ghost use Rattle.page_runner.specs.Watching.{doc_of};
ghost use Rattle.page_runner.specs.Publishing.{AreDid, HasFollowed, IsPublished, IsSeated, shows};
ghost use Rattle.page_runner.specs.Publishing.{shows_with, shows_behind, shows_of};

use crate::eye::Eye;
use crate::watching::{Watching, none_seen};
use doc_changes::Change;
use html_types::NoMemory;
use op_queue::{Put, Take, TakeEnd, lane, meet};
use page_turns::Watch;
use std::alloc::Global;
use std::marker::Model;
use std::snapshot::Snapshot;
use std::sync::{Arc, Wait};
use std::thread::{Promise, PromisedHandle, Threads};
use std::{mem, thread};
use tree_watch::Seen;

// How many words wait for the publisher at most. The document's thread waits where one more would.
const WORDS: usize = 1024;

/// What the publisher is told.
#[derive(Drop)]
pub(crate) enum ToPublisher {
    /// The document did this, and is to be shown as it is now.
    Did(Vec<Change>),
    /// The parse is over.
    End,
}

/// What the publisher gives back: what was seen last, false where one who watched ended without the
/// mark, and the end of its lane.
#[derive(Drop)]
pub(crate) struct Published {
    pub(crate) seen: Vec<Seen>,
    pub(crate) all: bool,
    pub(crate) told: TakeEnd<ToPublisher>,
}

/// The publisher took what came over this lane, for so many who watch.
#[derive(Drop)]
pub(crate) struct OverLane {
    pub(crate) told: Snapshot<Take<ToPublisher>>,
    pub(crate) count: Snapshot<usize>,
}

impl Promise<Published> for OverLane {
    ghost use Rattle.page_runner.specs.Publishing.{IsPublished};

    ghost kept_by = { λ p r. IsPublished p.told.value.lane p.count.value r };
}

/// What a publisher takes memory for before the page is begun.
#[derive(Drop)]
pub(crate) struct Outfit<Y> {
    put: Put<ToPublisher>,
    take: Take<ToPublisher>,
    eye: Arc<Y, Global>,
}

/// The lane to a publisher.
pub(crate) fn fit_out<Y: Eye + Drop>(
    alloc: Global,
    eye: &Arc<Y, Global>,
) -> Result<Outfit<Y>, NoMemory>
    ensures { IfOk result (λ o. (o.put.put ≡ []) × (o.take.taken ≡ [])
        × (o.take.lane ≡ o.put.lane)) }
{
    let (put, take) = lane(alloc, WORDS)?;
    let eye = Arc::try_clone(eye)?;
    Ok(Outfit { put, take, eye })
}

// Shows the document once more. False where memory runs out, or ran out before: nothing is shown.
fn show_more<W: Watch>(watch: &mut W, all: bool, changes: Vec<Change>) -> bool
    requires { IsTrue (W.watches watch.old) }
    ensures watches { W.watches watch.new ≡ W.watches watch.old }
    ensures count { W.count watch.new ≡ W.count watch.old }
    ensures all { IsTrue result → IsTrue all }
    ensures shows { IsTrue result → shows (W.doc watch.new) (W.shown watch.new)
        ≡ shows_with (shows (W.doc watch.old) (W.shown watch.old)) (word.Did changes) }
    ensures kept { result ≡ false → shows (W.doc watch.new) (W.shown watch.new)
        ≡ shows (W.doc watch.old) (W.shown watch.old) }
{
    if !all {
        return false;
    }
    match watch.did(changes) {
        Ok(()) => true,
        Err(NoMemory) => false,
    }
}

// Shows what the document did, in turn, until the parse is over. False where memory ran out: from
// there on nothing is shown.
fn follow<R: Wait, W: Watch>(
    rt: &R,
    told: Take<ToPublisher>,
    watch: &mut W,
) -> (TakeEnd<ToPublisher>, bool)
    requires first { told.taken ≡ [] }
    requires watches { IsTrue (W.watches watch.old) }
    requires begins { (W.doc watch.old ≡ ungrown) × (W.shown watch.old ≡ []) }
    ensures lane { result.0.lane ≡ told.lane }
    ensures count { W.count watch.new ≡ W.count watch.old }
    ensures followed { HasFollowed result.0.taken result.1
        (shows (W.doc watch.new) (W.shown watch.new)) }
{
    let mut told = told;
    let mut all = true;
    for _ in rt.forever() {
        match told.take(rt) {
            ToPublisher::End => return (told.end(), all),
            ToPublisher::Did(changes) => {
                all = show_more(watch, all, changes);
            }
        }
    }
    unreachable!()
}

// Sets the mark, and waits for all who watch.
fn finish<R: Threads + Wait>(alloc: Global, watching: Watching<'_, R>) -> (Vec<Seen>, bool)
    ensures seen { AreLast (doc_of watching.entry.board) result.0.items }
    ensures count { IsTrue result.1 → length result.0.items ≡ watching.entry.count }
    ensures few { length result.0.items ≤ watching.entry.count }
{
    let mut watching = watching;
    let ended = watching.end(alloc);
    watching.close();
    ended
}

// What runs in the publisher's thread.
fn publish<R: Threads + Wait + Copy + Send + Sync + 'static, Y: Eye + Drop + Send + Sync + 'static>(
    rt: &R,
    alloc: Global,
    told: Take<ToPublisher>,
    count: usize,
    eye: Arc<Y, Global>,
) -> Published
    requires count { (0 < count) × (count < 2 ^ 32) }
    requires first { told.taken ≡ [] }
    ensures { IsPublished told.lane count result }
{
    let mut watching = Watching::begin(rt, alloc, count, &eye);
    let (told, all) = follow(rt, told, &mut watching);
    let (seen, marked) = finish(alloc, watching);
    if !all {
        return Published {
            seen: none_seen(alloc),
            all: false,
            told,
        };
    }
    Published {
        seen,
        all: marked,
        told,
    }
}

// Where the publisher is.
enum Seat<'a, R> {
    // In a thread of its own.
    There(Put<ToPublisher>, PromisedHandle<Published, OverLane>),
    // No thread could be made: the document's thread publishes.
    Here(Watching<'a, R>),
    Ended,
}

/// A publisher, as the document's thread has it. A contract sees what it was told to show. It isn't
/// let go: `close` ends it.
pub(crate) struct Publisher<'a, R> {
    rt: &'a R,
    seat: Seat<'a, R>,
    count: usize,
}

impl<'a, R> Model for Publisher<'a, R> {
    ghost use Rattle.page_runner.specs.Publishing.{Handed, shows_of, IsSeated};

    ghost Value = { Handed };

    ghost view = { λ p. record { shows = shows_of p.seat; count = p.count } };

    ghost invariant = { λ p. IsSeated p.count p.seat };
}

impl<'a, R: Threads + Wait + Copy + Send + Sync + 'static> Publisher<'a, R> {
    /// Starts a publisher, with so many who watch.
    pub(crate) fn start<Y: Eye + Drop + Send + Sync + 'static>(
        rt: &'a R,
        alloc: Global,
        outfit: Outfit<Y>,
        count: usize,
        eye: &Arc<Y, Global>,
    ) -> Publisher<'a, R>
        requires count { (0 < count) × (count < 2 ^ 32) }
        requires put { outfit.put.put ≡ [] }
        requires taken { outfit.take.taken ≡ [] }
        requires lane { outfit.take.lane ≡ outfit.put.lane }
        ensures count { result.count ≡ count }
        ensures doc { result.shows.doc ≡ ungrown }
        ensures shown { result.shows.shown ≡ [] }
    {
        let Outfit {
            put,
            take,
            eye: their_eye,
        } = outfit;
        let promise = OverLane {
            told: Snapshot::of(&take),
            count: Snapshot::of(&count),
        };
        let their_rt = *rt;
        let seat = match thread::spawn_with(
            rt,
            promise,
            move || -> Published
                requires count { (0 < count) × (count < 2 ^ 32) }
                requires first { take.taken ≡ [] }
                ensures { IsPublished take.lane count result }
            { publish(&their_rt, alloc, take, count, their_eye) },
        ) {
            Ok(child) => Seat::There(put, child),
            Err(_refusal) => Seat::Here(Watching::begin(rt, alloc, count, eye)),
        };
        Publisher { rt, seat, count }
    }
}

// Tells the publisher that the parse is over, and waits for it.
fn call_back<R: Threads + Wait>(
    rt: &R,
    put: Put<ToPublisher>,
    child: PromisedHandle<Published, OverLane>,
) -> (Vec<Seen>, bool)
    requires lane { child.promise.told.value.lane ≡ put.lane }
    requires did { AreDid put.put }
    ensures seen { AreLast (shows_behind put.put).doc result.0.items }
    ensures count { IsTrue result.1 → length result.0.items ≡ child.promise.count.value }
    ensures few { length result.0.items ≤ child.promise.count.value }
{
    let mut put = put;
    put.put(rt, ToPublisher::End);
    let Published { seen, all, told } = child.join(rt);
    let _met = meet(put.end(), told);
    (seen, all)
}

// Tells what the document did, which is more than nothing, or shows it here.
fn tell<R: Threads + Wait>(
    rt: &R,
    seat: &mut Seat<'_, R>,
    changes: Vec<Change>,
) -> Result<(), NoMemory>
    ensures seated { (count : ℕ) → IsSeated count seat.old → IsSeated count seat.new }
    ensures ok { OnOk result
        (shows_of seat.new ≡ shows_with (shows_of seat.old) (word.Did changes)) }
    ensures err { OnErr result ((shows_of seat.new).doc ≡ (shows_of seat.old).doc) }
    ensures err_shown { OnErr result ((shows_of seat.new).shown ≡ (shows_of seat.old).shown) }
{
    match seat {
        Seat::There(put, _child) => {
            put.put(rt, ToPublisher::Did(changes));
            Ok(())
        }
        Seat::Here(watching) => watching.did(changes),
        // Nobody is left who could be shown it, and a run tells nothing more behind its end.
        Seat::Ended => Err(NoMemory),
    }
}

// The parse is over: what was seen last.
fn end_seat<R: Threads + Wait>(
    rt: &R,
    alloc: Global,
    seat: Seat<'_, R>,
    count: usize,
) -> (Vec<Seen>, bool)
    requires { IsSeated count seat }
    ensures seen { AreLast (shows_of seat.entry).doc result.0.items }
    ensures count { IsTrue result.1 → length result.0.items ≡ count }
    ensures few { length result.0.items ≤ count }
{
    match seat {
        Seat::There(put, child) => call_back(rt, put, child),
        Seat::Here(watching) => finish(alloc, watching),
        Seat::Ended => (none_seen(alloc), false),
    }
}

impl<'a, R: Threads + Wait> Publisher<'a, R> {
    /// Ends it, behind the run.
    pub(crate) fn close(self, alloc: Global) {
        let Publisher { rt, seat, count } = self;
        let _ended = end_seat(rt, alloc, seat, count);
    }
}

impl<'a, R: Threads + Wait> Watch for Publisher<'a, R> {
    ghost watches = { λ _. true };

    ghost count = { λ p. p.count };

    ghost doc = { λ p. p.shows.doc };

    ghost shown = { λ p. p.shows.shown };

    fn wants(&self) -> bool {
        true
    }

    fn did(&mut self, changes: Vec<Change>) -> Result<(), NoMemory> {
        if changes.is_empty() {
            return Ok(());
        }
        tell(self.rt, &mut self.seat, changes)
    }

    fn end(&mut self, alloc: Global) -> (Vec<Seen>, bool) {
        let seat = mem::replace(&mut self.seat, Seat::Ended);
        end_seat(self.rt, alloc, seat, self.count)
    }
}
