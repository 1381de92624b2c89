// A page is run with the parser's side in a thread of its own.
ghost use Rattle.std.specs.Prelude.{◌≡◌, ◌<◌, ◌≤◌, ◌⊎◌, [], ◌∷◌, ◌++◌, length, map, Some, None};
ghost use Rattle.std.specs.Prelude.{false, IfOk, IfSome, IsSome, IsTrue};
ghost use Rattle.std.specs.String.{string_bytes};
ghost use Rattle.parser_thread.specs.declared.messages.ToParser.TheVariants as message;
ghost use Rattle.parser_thread.specs.Answers.{said};
ghost use Rattle.parser_thread.specs.Running.{IsRunning};
ghost use Rattle.core_steps.specs.Sides.{first_shown};
ghost use Rattle.page_runner.specs.Manner.{manner};
ghost use Rattle.page_runner.specs.Reports.{HasSide, has_run_out, IsCutByReads, Reports};
ghost use Rattle.page_turns.specs.Cuts.{IsCut};
ghost use Rattle.page_turns.specs.Watched.{ungrown};
ghost use Rattle.page_runner.specs.Watching.{IsWatched};
ghost use Rattle.page_turns.specs.Scripts.{AreDistinct};
ghost use Rattle.preload.specs.Teams.{HelpedEach, names_through, given_through};
ghost use Rattle.page_runner.specs.Answers.{is_finished, folder_by, IsBegun, PageAnswers};
ghost use Rattle.page_runner.specs.Answers.{ReadsPage, RunsPage};
ghost use Rattle.page_runner.specs.OnTwo.{IfBoth, InOrder, IsAnswered, IsJournaled, DropsFailed};
ghost use Rattle.page_runner.specs.OnTwo.{IsLookingAhead, IsFetchingAwaited};

use crate::report::Report;
use crate::running::{begin_page, begin_run, let_go, run_with};
use crate::status::Status;
use core_steps::DocSide;
use entity_table::Table;
use html_types::NoMemory;
use outside::{Gate, Outside, Sink};
use page_turns::{Counterpart, Job, Unwatched, Watch};
use parser_thread::{FromParser, Lanes, ParserThread, start};
use preload::Fetchers;
use speculation::{InForce, Reply, Request};
use std::alloc::Global;
use std::marker::Model;
use std::sync::{Arc, Wait};
use std::thread::Threads;

/// The parser's side over two lanes. A contract sees what went through them.
pub(crate) struct OverLanes<'a, R, E: InForce, G> {
    rt: &'a R,
    running: ParserThread<E, G>,
    // How many requests were put whose replies weren't taken.
    under_way: usize,
}

impl<'a, R, E: InForce, G> Model for OverLanes<'a, R, E, G> {
    ghost use Rattle.std.specs.Prelude.{◌≡◌, map};
    ghost use Rattle.parser_thread.specs.declared.messages.ToParser.TheVariants as message;
    ghost use Rattle.parser_thread.specs.Answers.{said};
    ghost use Rattle.parser_thread.specs.Running.{IsRunning};
    ghost use Rattle.page_runner.specs.Exchanges.{Exchange};
    ghost use Rattle.page_runner.specs.OnTwo.{asks_in};

    ghost Value = { Exchange };

    ghost view = { λ o.
        record {
          asks = asks_in o.running.ask.put;
          messages = map (said E.InForce) o.running.replies.taken;
          under_way = o.under_way;
        } };

    ghost invariant = { λ o. IsRunning E.InForce o.running
        × (o.running.ask.put ≡ map message.Ask (asks_in o.running.ask.put)) };
}

impl<'a, R: Wait, E: InForce, G: Gate + Drop> Counterpart<E> for OverLanes<'a, R, E, G> {
    ghost load = { λ o. record { requests = 0; hand = 0; replies = o.under_way } };

    ghost put = { λ o. Some o.asks };

    ghost taken = { λ o. Some o.messages };

    // Where the lanes' ends meet the order is known of them, by `finish`.
    ghost ordered = { λ _. false };

    fn has_room(&self, ahead: usize) -> bool {
        self.under_way < ahead
    }

    fn ask(&mut self, request: Request) -> Result<(), NoMemory> {
        self.running.send(self.rt, request);
        self.under_way += 1;
        Ok(())
    }

    fn answer(&mut self, _table: &Table) -> Result<bool, NoMemory> {
        Ok(false)
    }

    fn take(&mut self) -> Result<Reply<E>, NoMemory> {
        self.under_way -= 1;
        match self.running.take(self.rt) {
            FromParser::Answer(reply) => Ok(reply),
            FromParser::NoMemory => Err(NoMemory),
        }
    }
}

impl<'a, R: Threads + Wait, E: InForce, G: Gate + Drop> OverLanes<'a, R, E, G> {
    // Over lanes through which nothing went.
    fn new(rt: &'a R, running: ParserThread<E, G>) -> OverLanes<'a, R, E, G>
        requires running { IsRunning E.InForce running }
        requires first { (running.ask.put ≡ []) × (running.replies.taken ≡ []) }
        ensures { result ≡ record { asks = []; messages = []; under_way = 0 } }
    {
        OverLanes {
            rt,
            running,
            under_way: 0,
        }
    }

    // Tells the parser's side to stop, and waits until it has.
    fn finish(self) -> Lanes<E>
        ensures stopped { result.asked.put ≡ map message.Ask self.entry.asks ++ message.Stop ∷ [] }
        ensures messages { map (said E.InForce) result.answers.taken ≡ self.entry.messages }
        ensures in_order { InOrder E.InForce result }
        ensures answered { IsAnswered E.InForce result }
    {
        let OverLanes {
            rt,
            running,
            under_way: _under_way,
        } = self;
        running.finish(rt)
    }
}

// No memory for what a run begins with.
pub(crate) fn without_memory<E: InForce>(alloc: Global) -> Report<E>
    ensures outcome { result.outcome ≡ Status.NoMemory }
    ensures side { result.side ≡ None }
    ensures ends { result.ends ≡ None }
    ensures helped { result.helped.items ≡ [] }
    ensures seen { result.seen.items ≡ [] }
{
    Report::bare(alloc, Status::NoMemory)
}

// No memory for the fetchers: what went through the lanes is let go.
fn without_fetchers<E: InForce>(alloc: Global, ends: Lanes<E>) -> Report<E>
    ensures outcome { result.outcome ≡ Status.NoMemory }
    ensures side { result.side ≡ None }
    ensures ends { result.ends ≡ None }
    ensures helped { result.helped.items ≡ [] }
    ensures seen { result.seen.items ≡ [] }
{
    let _ends = ends;
    without_memory(alloc)
}

// What a run on two threads begins with, all memory that the lanes and the parser's side need: room
// for a read of the page, a document's side, and the parser's side at work.
fn begin_on_two<
    R: Threads + Wait + Copy + Send + Sync + 'static,
    E: InForce + Send + 'static,
    G: Gate + Drop + Send + Sync + 'static,
>(
    rt: &R,
    alloc: Global,
    job: &Job<'_>,
    gate: &Arc<G, Global>,
) -> Result<(Vec<u8>, DocSide, ParserThread<E, G>), NoMemory>
    requires table { job.now.table.now ≡ E.entities }
    requires piece { 0 < job.now.piece }
    requires some { 0 < job.now.ahead }
    requires few { job.now.ahead ≤ 64 }
    ensures room { IfOk result (λ begun. length begun.0.items ≡ job.now.piece) }
    ensures side { IfOk result (λ begun. begun.1 ≡ first_shown job.now.table.now job.now.ahead) }
    ensures running { IfOk result (λ begun. IsRunning E.InForce begun.2) }
    ensures first { IfOk result (λ begun. (begun.2.ask.put ≡ []) × (begun.2.replies.taken ≡ [])) }
{
    let (room, side) = begin_run(alloc, job)?;
    match start::<R, E, G>(rt, alloc, job.table, job.ahead, gate) {
        Ok(running) => Ok((room, side, running)),
        Err(NoMemory) => {
            let_go(side);
            Err(NoMemory)
        }
    }
}

// Runs the page that was begun, and then has the parser's side stop.
pub(crate) fn run_on_two<
    R: Threads + Wait + Copy + Send + Sync + 'static,
    E: InForce + Send + 'static,
    F: Outside + Drop + Send + 'static,
    K: Sink,
    G: Gate + Drop + Send + Sync + 'static,
    W: Watch,
>(
    rt: &R,
    alloc: Global,
    job: &Job<'_>,
    files: &mut F,
    out: &mut K,
    gate: &Arc<G, Global>,
    helpers: &mut Vec<F>,
    watch: &mut W,
) -> Report<E>
    requires table { job.now.table.now ≡ E.entities }
    requires begun { IsBegun (string_bytes job.now.page) (F.seen files.old) }
    requires piece { 0 < job.now.piece }
    requires some { 0 < job.now.ahead }
    requires few { job.now.ahead ≤ 64 }
    requires watch { (W.doc watch.old ≡ ungrown) × (W.shown watch.old ≡ []) }
    requires unwatched { W.watches watch.old ≡ false → W.count watch.old ≡ 0 }
    ensures runs { RunsPage job.now.table.now (manner job.now.dump (W.count watch.old))
        (string_bytes job.now.page)
        (folder_by (string_bytes job.now.dir) job.now.preload
        (map F.seen helpers.old.items) (map F.seen helpers.new.items))
        (F.seen files.old) (F.seen files.new)
        (K.faults out.old) (K.faults out.new) (K.taken out.old) (K.taken out.new)
        (K.clean out.new) result.outcome }
    ensures reports { IfSome result.side
        (λ side. Reports job.now.table.now job.now.ahead (manner job.now.dump (W.count watch.old))
        (string_bytes job.now.page)
        (folder_by (string_bytes job.now.dir) job.now.preload (map F.seen helpers.old.items)
        (map F.seen helpers.new.items))
        (F.seen files.old) (F.seen files.new) (K.taken out.old) (K.taken out.new) side
        result.outcome) }
    ensures side { IsSome result.side ⊎ ((result.outcome ≡ Status.NoMemory)
        × (F.seen files.new ≡ F.seen files.old) × (K.taken out.new ≡ K.taken out.old)) }
    ensures cut { IfSome result.side (λ side. IsCut job.now.piece (has_run_out result.outcome)
        (F.seen files.old) (F.seen files.new) side.journal.pieces) }
    ensures in_order { IfSome result.ends (λ ends. InOrder E.InForce ends) }
    ensures answered { IfSome result.ends (λ ends. IsAnswered E.InForce ends) }
    ensures journaled { IfBoth result.side result.ends
        (λ side ends. IsJournaled E.InForce job.now.table.now job.now.ahead side.journal
        result.outcome ends) }
    ensures dropped { IfBoth result.side result.ends
        (λ side ends. DropsFailed E.InForce job.now.table.now job.now.ahead side.journal ends) }
    ensures looks_ahead { IfSome result.side (λ side. IsLookingAhead job.now.table.now job.now.ahead
        side.journal) }
    ensures fetches { IfSome result.side (λ side. IsFetchingAwaited job.now.table.now job.now.ahead
        (given_through result.helped.items) side.journal) }
    ensures ends { IfSome result.side (λ _. IsSome result.ends) }
    ensures helped { HelpedEach (string_bytes job.now.dir) result.helped.items
        (map F.seen helpers.old.items) (map F.seen helpers.new.items) }
    ensures used { length result.helped.items ≤ job.now.preload }
    ensures once { AreDistinct (names_through result.helped.items) }
    ensures watched { IsTrue (W.watches watch.old) → IfSome result.side (λ side. IsWatched side
        result.outcome (W.count watch.old) result.seen.items) }
    ensures few { length result.seen.items ≤ W.count watch.old }
    ensures unbegun { result.side ≡ None → result.seen.items ≡ [] }
{
    let Ok((mut room, mut side, running)) = begin_on_two::<R, E, G>(rt, alloc, job, gate) else {
        return without_memory(alloc);
    };
    let mut lanes = OverLanes::new(rt, running);
    let Ok(mut early) = Fetchers::start(rt, alloc, job.dir.as_str(), job.preload, helpers) else {
        let_go(side);
        return without_fetchers(alloc, lanes.finish());
    };
    let (outcome, seen) = run_with::<E, _, _, F, K, W>(
        alloc, job, files, out, &mut side, &mut lanes, &mut early, &mut room, watch,
    );
    let ends = lanes.finish();
    let helped = early.finish(helpers);
    Report {
        outcome,
        side: Some(side),
        ends: Some(ends),
        helped,
        seen,
    }
}

/// Begins the page, parses it and writes what comes of it, with the parser's side in a thread of
/// its own, which begins before the page's first read. Where no thread can be made it is in the
/// calling thread, over the same lanes, and nothing else differs. The parser's side is told to stop
/// in every case before it is joined. The first so many helpers as the job says fetch scripts, each
/// in a thread of its own, before they are awaited; where no thread can be made a helper isn't
/// used. The sink is finished where the parse came to an end.
pub fn page_on_two<
    R: Threads + Wait + Copy + Send + Sync + 'static,
    E: InForce + Send + 'static,
    F: Outside + Drop + Send + 'static,
    K: Sink,
    G: Gate + Drop + Send + Sync + 'static,
>(
    rt: &R,
    alloc: Global,
    job: &Job<'_>,
    files: &mut F,
    out: &mut K,
    gate: &Arc<G, Global>,
    helpers: &mut Vec<F>,
) -> Report<E>
    requires table { job.now.table.now ≡ E.entities }
    requires piece { (0 < job.now.piece) × (job.now.piece ≤ 65536) }
    requires ahead { (0 < job.now.ahead) × (job.now.ahead ≤ 64) }

    // What was written is the serial parse's text, as of `page_in_place`; the journal replays to
    // this very document, these lines and this outcome.
    ensures answer { PageAnswers job.now.table.now (manner job.now.dump 0)
        (string_bytes job.now.page)
        (folder_by (string_bytes job.now.dir) job.now.preload (map F.seen helpers.old.items)
        (map F.seen helpers.new.items))
        (F.seen files.old) (F.seen files.new) (K.faults out.old) (K.faults out.new)
        (K.taken out.old) (K.taken out.new) result.outcome }
    ensures reads { ReadsPage (string_bytes job.now.page) (string_bytes job.now.dir)
        (string_bytes job.now.page ∷ []) (F.seen files.old) (F.seen files.new) }
    ensures clean { IsTrue (is_finished result.outcome) → IsTrue (K.clean out.new) }
    ensures reports { IfSome result.side
        (λ side. Reports job.now.table.now job.now.ahead (manner job.now.dump 0)
        (string_bytes job.now.page)
        (folder_by (string_bytes job.now.dir) job.now.preload (map F.seen helpers.old.items)
        (map F.seen helpers.new.items))
        (F.seen files.old) (F.seen files.new) (K.taken out.old) (K.taken out.new) side
        result.outcome) }
    ensures side { HasSide (string_bytes job.now.page) (F.seen files.old) (F.seen files.new)
        (K.taken out.old) (K.taken out.new) result.outcome result.side }
    // How the page was cut: a piece for each read.
    ensures cut { IfSome result.side (λ side. IsCutByReads job.now.piece (string_bytes job.now.page)
        (F.seen files.old) (F.seen files.new) result.outcome side.journal.pieces) }

    // What went through both lanes.
    ensures in_order { IfSome result.ends (λ ends. InOrder E.InForce ends) }
    ensures answered { IfSome result.ends (λ ends. IsAnswered E.InForce ends) }
    ensures journaled { IfBoth result.side result.ends
        (λ side ends. IsJournaled E.InForce job.now.table.now job.now.ahead side.journal
        result.outcome ends) }
    ensures dropped { IfBoth result.side result.ends
        (λ side ends. DropsFailed E.InForce job.now.table.now job.now.ahead side.journal ends) }
    ensures looks_ahead { IfSome result.side (λ side. IsLookingAhead job.now.table.now job.now.ahead
        side.journal) }
    ensures fetches { IfSome result.side (λ side. IsFetchingAwaited job.now.table.now job.now.ahead
        (given_through result.helped.items) side.journal) }
    ensures ends { IfSome result.side (λ _. IsSome result.ends) }

    // Each helper is back in its place. Those that were used fetched each name that they were asked
    // for, once and in order, and no name was asked of two.
    ensures helped { HelpedEach (string_bytes job.now.dir) result.helped.items
        (map F.seen helpers.old.items) (map F.seen helpers.new.items) }
    ensures used { length result.helped.items ≤ job.now.preload }
    ensures once { AreDistinct (names_through result.helped.items) }

    // Nobody watches.
    ensures unseen { result.seen.items ≡ [] }
{
    match begin_page(files, out, job) {
        Some(outcome) => Report::bare(alloc, outcome),
        None => {
            let mut unwatched = Unwatched;
            run_on_two::<R, E, F, K, G, Unwatched>(
                rt,
                alloc,
                job,
                files,
                out,
                gate,
                helpers,
                &mut unwatched,
            )
        }
    }
}
