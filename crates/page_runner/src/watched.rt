// A page is run while others watch its tree grow.
ghost use Rattle.std.specs.Prelude.{◌≡◌, ◌<◌, ◌≤◌, ◌^◌, ◌⊎◌, [], length, map, None, IfSome, IsSome};
ghost use Rattle.std.specs.Prelude.{IsTrue};
ghost use Rattle.std.specs.String.{string_bytes};
ghost use Rattle.page_turns.specs.Scripts.{AreDistinct};
ghost use Rattle.preload.specs.Teams.{HelpedEach, names_through, given_through};
ghost use Rattle.page_runner.specs.Manner.{manner};
ghost use Rattle.page_runner.specs.Reports.{HasSide, IsCutByReads, Reports};
ghost use Rattle.page_runner.specs.OnTwo.{IfBoth, InOrder, IsAnswered, IsJournaled, DropsFailed};
ghost use Rattle.page_runner.specs.OnTwo.{IsLookingAhead, IsFetchingAwaited};
ghost use Rattle.page_runner.specs.Answers.{is_finished, folder_by, PageAnswers, MayReadPage};
ghost use Rattle.page_runner.specs.Watching.{IsWatched, IsLeftAlone};

use crate::eye::Eye;
use crate::on_two::{page_on_two, run_on_two, without_memory};
use crate::publisher::{Publisher, fit_out};
use crate::report::Report;
use crate::running::{begin_page, let_go};
use outside::{Gate, Outside, Sink};
use page_turns::Job;
use speculation::InForce;
use std::alloc::Global;
use std::sync::{Arc, Wait};
use std::thread::Threads;

/// Runs the page as `page_on_two` does, while so many watch its tree grow, each in a thread of its
/// own. What each Do changed is handed over to a publisher, in a thread of its own too, which
/// publishes the tree as it is then, and at the end, whatever came of the page, with the mark.
/// Where no thread can be made for it, the calling thread publishes. Behind the tree or its dump
/// the text of the tree is written for each watcher, as that saw it last. One for which no thread
/// can be made, or that finds no place at the board, looks at the end, in the publisher's thread.
/// One that ends without having seen the mark, as all do where memory runs out in publishing, makes
/// the outcome want of memory. The lane to the publisher is made before the page is begun.
pub fn page_watched<
    R: Threads + Wait + Copy + Send + Sync + 'static,
    E: InForce + Send + 'static,
    F: Outside + Drop + Send + 'static,
    K: Sink,
    G: Gate + Drop + Send + Sync + 'static,
    Y: Eye + Drop + Send + Sync + 'static,
>(
    rt: &R,
    alloc: Global,
    job: &Job<'_>,
    files: &mut F,
    out: &mut K,
    gate: &Arc<G, Global>,
    helpers: &mut Vec<F>,
    watchers: u64,
    eye: &Arc<Y, Global>,
) -> Report<E>
    requires table { job.now.table.now ≡ E.entities }
    requires piece { (0 < job.now.piece) × (job.now.piece ≤ 65536) }
    requires ahead { (0 < job.now.ahead) × (job.now.ahead ≤ 64) }
    requires watchers { watchers < 2 ^ 32 }

    // As of `page_on_two`, with the lines of the watchers.
    ensures answer { PageAnswers job.now.table.now (manner job.now.dump watchers)
        (string_bytes job.now.page)
        (folder_by (string_bytes job.now.dir) job.now.preload (map F.seen helpers.old.items)
        (map F.seen helpers.new.items))
        (F.seen files.old) (F.seen files.new) (K.faults out.old) (K.faults out.new)
        (K.taken out.old) (K.taken out.new) result.outcome }
    ensures reads { MayReadPage (string_bytes job.now.page) (string_bytes job.now.dir)
        (F.seen files.old) (F.seen files.new) }
    ensures clean { IsTrue (is_finished result.outcome) → IsTrue (K.clean out.new) }
    ensures reports { IfSome result.side
        (λ side. Reports job.now.table.now job.now.ahead (manner job.now.dump watchers)
        (string_bytes job.now.page)
        (folder_by (string_bytes job.now.dir) job.now.preload (map F.seen helpers.old.items)
        (map F.seen helpers.new.items))
        (F.seen files.old) (F.seen files.new) (K.taken out.old) (K.taken out.new) side
        result.outcome) }
    // Where memory ran out before the page was begun, nothing was begun.
    ensures side { HasSide (string_bytes job.now.page) (F.seen files.old) (F.seen files.new)
        (K.taken out.old) (K.taken out.new) result.outcome result.side
        ⊎ IsLeftAlone (F.seen files.old) (F.seen files.new) (K.taken out.old) (K.taken out.new)
        result.outcome }
    ensures cut { IfSome result.side (λ side. IsCutByReads job.now.piece (string_bytes job.now.page)
        (F.seen files.old) (F.seen files.new) result.outcome side.journal.pieces) }
    ensures in_order { IfSome result.ends (λ ends. InOrder E.InForce ends) }
    ensures answered { IfSome result.ends (λ ends. IsAnswered E.InForce ends) }
    ensures journaled { IfBoth result.side result.ends
        (λ side ends. IsJournaled E.InForce job.now.table.now job.now.ahead side.journal
        result.outcome ends) }
    ensures dropped { IfBoth result.side result.ends
        (λ side ends. DropsFailed E.InForce job.now.table.now job.now.ahead side.journal ends) }
    ensures looks_ahead { IfSome result.side (λ side. IsLookingAhead job.now.table.now job.now.ahead
        side.journal) }
    ensures fetches { IfSome result.side (λ side. IsFetchingAwaited job.now.table.now job.now.ahead
        (given_through result.helped.items) side.journal) }
    ensures ends { IfSome result.side (λ _. IsSome result.ends) }
    ensures helped { HelpedEach (string_bytes job.now.dir) result.helped.items
        (map F.seen helpers.old.items) (map F.seen helpers.new.items) }
    ensures used { length result.helped.items ≤ job.now.preload }
    ensures once { AreDistinct (names_through result.helped.items) }

    // What the watchers saw last, with the mark, is a document that the run passed through, and its
    // number is that of the changes which the run made up to there, each of them once; where the
    // parse came to an end it is the document. All saw it, or the outcome is want of memory.
    ensures watched { 0 < watchers → IfSome result.side (λ side. IsWatched side result.outcome
        watchers result.seen.items) }
    // No more than watched, and none of a page that wasn't begun.
    ensures few { length result.seen.items ≤ watchers }
    ensures unbegun { result.side ≡ None → result.seen.items ≡ [] }
{
    if watchers == 0 {
        return page_on_two::<R, E, F, K, G>(rt, alloc, job, files, out, gate, helpers);
    }
    let Ok(outfit) = fit_out(alloc, eye) else {
        return without_memory(alloc);
    };
    match begin_page(files, out, job) {
        Some(outcome) => {
            let_go(outfit);
            Report::bare(alloc, outcome)
        }
        None => {
            let mut publisher = Publisher::start(rt, alloc, outfit, watchers as usize, eye);
            let report = run_on_two::<R, E, F, K, G, Publisher<'_, R>>(
                rt,
                alloc,
                job,
                files,
                out,
                gate,
                helpers,
                &mut publisher,
            );
            publisher.close(alloc);
            report
        }
    }
}
