// A page is run with the parser's side on the calling thread.
ghost use Rattle.std.specs.Prelude.{◌≡◌, ◌<◌, ◌≤◌, ◌⊎◌, [], ◌∷◌, IfSome, IsSome, IsTrue};
ghost use Rattle.std.specs.String.{string_bytes};
ghost use Rattle.page_runner.specs.Manner.{manner};
ghost use Rattle.page_runner.specs.Reports.{HasSide, has_run_out, IsCutByReads, Reports};
ghost use Rattle.page_turns.specs.Cuts.{IsCut};
ghost use Rattle.page_turns.specs.Scripts.{folder_with};
ghost use Rattle.page_runner.specs.OnTwo.{IsLookingAhead, IsFetchingAwaited};
ghost use Rattle.page_runner.specs.Answers.{is_finished, IsBegun, PageAnswers, ReadsPage, RunsPage};

use crate::report::{Report, Run};
use crate::running::{begin_page, begin_run, run_with};
use crate::status::Status;
use core_steps::DocSide;
use html_types::NoMemory;
use outside::{Outside, Sink};
use page_turns::{InPlace, Job, Nobody, Unwatched};
use speculation::InForce;
use std::alloc::Global;
use std::marker::Brand;

// Runs the page that was begun. Where memory doesn't suffice for what it begins with, there is no
// document's side to report.
fn run_begun<E: InForce, F: Outside, K: Sink>(
    alloc: Global,
    job: &Job<'_>,
    files: &mut F,
    out: &mut K,
) -> Run
    requires table { job.now.table.now ≡ E.entities }
    requires begun { IsBegun (string_bytes job.now.page) (F.seen files.old) }
    requires piece { 0 < job.now.piece }
    requires some { 0 < job.now.ahead }
    requires few { job.now.ahead ≤ 64 }
    ensures runs { RunsPage job.now.table.now (manner job.now.dump 0) (string_bytes job.now.page)
        (folder_with (string_bytes job.now.dir) [])
        (F.seen files.old) (F.seen files.new)
        (K.faults out.old) (K.faults out.new) (K.taken out.old) (K.taken out.new)
        (K.clean out.new) result.outcome }
    ensures reports { IfSome result.side
        (λ side. Reports job.now.table.now job.now.ahead (manner job.now.dump 0)
        (string_bytes job.now.page) (folder_with (string_bytes job.now.dir) [])
        (F.seen files.old) (F.seen files.new) (K.taken out.old) (K.taken out.new) side
        result.outcome) }
    ensures side { IsSome result.side ⊎ ((result.outcome ≡ Status.NoMemory)
        × (F.seen files.new ≡ F.seen files.old) × (K.taken out.new ≡ K.taken out.old)) }
    ensures cut { IfSome result.side (λ side. IsCut job.now.piece (has_run_out result.outcome)
        (F.seen files.old) (F.seen files.new) side.journal.pieces) }
    ensures looks_ahead { IfSome result.side (λ side. IsLookingAhead job.now.table.now job.now.ahead
        side.journal) }
    ensures fetches { IfSome result.side
        (λ side. IsFetchingAwaited job.now.table.now job.now.ahead []
        side.journal) }
{
    let (mut room, mut side) = match begin_run(alloc, job) {
        Err(NoMemory) => {
            return Run {
                outcome: Status::NoMemory,
                side: None,
            };
        }
        Ok(begun) => begun,
    };
    let mut lanes: InPlace<E> = InPlace::new(alloc);
    let mut nobody = Nobody;
    let mut unwatched = Unwatched;
    let (outcome, _seen) = run_with::<E, InPlace<E>, Nobody, F, K, Unwatched>(
        alloc,
        job,
        files,
        out,
        &mut side,
        &mut lanes,
        &mut nobody,
        &mut room,
        &mut unwatched,
    );
    Run {
        outcome,
        side: Some(side),
    }
}

/// Begins the page, parses it and writes what comes of it, all on the calling thread: the
/// document's side and the parser's side take turns. The page is read ahead of the parse, as long
/// as fewer requests are under way than may be. The sink is finished where the parse came to an
/// end.
pub fn page_in_place<F: Outside, K: Sink>(
    alloc: Global,
    job: &Job<'_>,
    files: &mut F,
    out: &mut K,
) -> Report<Brand>
    requires piece { (0 < job.now.piece) × (job.now.piece ≤ 65536) }
    requires ahead { (0 < job.now.ahead) × (job.now.ahead ≤ 64) }
    ensures answer { PageAnswers job.now.table.now (manner job.now.dump 0)
        (string_bytes job.now.page) (folder_with (string_bytes job.now.dir) [])
        (F.seen files.old) (F.seen files.new) (K.faults out.old) (K.faults out.new)
        (K.taken out.old) (K.taken out.new) result.outcome }
    ensures reads { ReadsPage (string_bytes job.now.page) (string_bytes job.now.dir)
        (string_bytes job.now.page ∷ []) (F.seen files.old) (F.seen files.new) }
    ensures clean { IsTrue (is_finished result.outcome) → IsTrue (K.clean out.new) }
    ensures reports { IfSome result.side
        (λ side. Reports job.now.table.now job.now.ahead (manner job.now.dump 0)
        (string_bytes job.now.page) (folder_with (string_bytes job.now.dir) [])
        (F.seen files.old) (F.seen files.new) (K.taken out.old) (K.taken out.new) side
        result.outcome) }
    ensures side { HasSide (string_bytes job.now.page) (F.seen files.old) (F.seen files.new)
        (K.taken out.old) (K.taken out.new) result.outcome result.side }
    // How the page was cut: a piece for each read.
    ensures cut { IfSome result.side (λ side. IsCutByReads job.now.piece (string_bytes job.now.page)
        (F.seen files.old) (F.seen files.new) result.outcome side.journal.pieces) }
    // As far as the credit and the page go requests are sent first, and a script is fetched where
    // it is awaited.
    ensures looks_ahead { IfSome result.side (λ side. IsLookingAhead job.now.table.now job.now.ahead
        side.journal) }
    ensures fetches { IfSome result.side
        (λ side. IsFetchingAwaited job.now.table.now job.now.ahead []
        side.journal) }
    // Nobody watches.
    ensures unseen { result.seen.items ≡ [] }
{
    match begin_page(files, out, job) {
        Some(outcome) => Report::bare(alloc, outcome),
        None => {
            let Run { outcome, side } = run_begun::<Brand, F, K>(alloc, job, files, out);
            Report {
                outcome,
                side,
                ends: None,
                helped: Vec::new(alloc),
                seen: Vec::new(alloc),
            }
        }
    }
}
