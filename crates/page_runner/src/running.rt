// A page that was begun is run, with whatever counterpart, and whoever fetches its scripts early.
ghost use Rattle.std.specs.Prelude.{◌≡◌, ◌≢◌, ◌<◌, ◌≤◌, ℕ, [], length, All, false, IfOk, IfSome};
ghost use Rattle.std.specs.Prelude.{IfNone, IsTrue};
ghost use Rattle.outside.specs.Outside.{Rose};
ghost use Rattle.standard.specs.Outer.{document_text};
ghost use Rattle.parse_machine.specs.Ends.{result_of};
ghost use Rattle.page_runner.specs.Shown.{status_of};
ghost use Rattle.std.specs.String.{string_bytes};
ghost use Rattle.core_steps.specs.Sides.{first_shown};
ghost use Rattle.run_laws.specs.Along.{takes_in};
ghost use Rattle.page_turns.specs.Along.{Goes};
ghost use Rattle.page_turns.specs.Turns.{no_load};
ghost use Rattle.page_turns.specs.Watched.{ungrown};
ghost use Rattle.page_turns.specs.Cuts.{IsCut};
ghost use Rattle.page_turns.specs.Scripts.{folder_with};
ghost use Rattle.page_runner.specs.Manner.{manner, result_in};
ghost use Rattle.page_runner.specs.Reports.{has_run_out, Reports};
ghost use Rattle.page_runner.specs.OnTwo.{AreRepliesAt};
ghost use Rattle.page_runner.specs.Answers.{is_finished, Gives, IsBegun, RunsPage};
ghost use Rattle.page_runner.specs.Beginning.{BeginsOr};
ghost use Rattle.page_runner.specs.Watching.{IsWatched};

use crate::command::{end_at_fault, end_page, status_for};
use crate::status::Status;
use core_steps::DocSide;
use html_types::NoMemory;
use op_exec::Doc;
use outside::{Failed, Outside, Port, Sink};
use page_turns::{Counterpart, End, Failure, Job, Prefetch, Watch, parse_page};
use speculation::InForce;
use std::alloc::Global;
use tree_watch::Seen;

/// Lets a value go. Where a document's side ends in the function that has it, the proof of that
/// function spells out all of its parts, which takes minutes; here they are those of its type,
/// once.
pub(crate) fn let_go<T: Drop>(_value: T) {}

// Writes what came of the page, unless one who watched ended without the mark.
fn end_shown<K: Sink>(
    alloc: Global,
    out: &mut K,
    doc: &Doc,
    outcome: End,
    dump: bool,
    seen: &[Seen],
    all: bool,
) -> Status
    requires { IsTrue all → All (λ s. s.text ≡ document_text doc.now.tree) seen.now }
    ensures gives { (count : ℕ) → (IsTrue all → length seen.now ≡ count)
        → Gives (Rose (K.faults out.old) (K.faults out.new)) (K.taken out.old) (K.taken out.new)
        (status_of outcome, result_in (manner dump count) (result_of outcome) doc.now.tree) result }
    ensures clean { IsTrue (is_finished result) → IsTrue (K.clean out.new) }
    ensures all { result ≢ Status.NoMemory → IsTrue all }
{
    if !all {
        return Status::NoMemory;
    }
    end_page(alloc, out, doc, outcome, dump, seen)
}

// Why the run gave up: one who watched may have ended without the mark too.
fn failure_of(failure: Failure, all: bool) -> Failure
    ensures write { result ≡ Failure.Write → failure ≡ Failure.Write }
    ensures all { result ≡ Failure.Write → IsTrue all }
{
    if all { failure } else { Failure::Memory }
}

// Parses the page that was begun, and writes what comes of it, and for each who watched what that
// saw last.
pub(crate) fn run_with<
    E: InForce,
    L: Counterpart<E>,
    P: Prefetch<E>,
    F: Outside,
    K: Sink,
    W: Watch,
>(
    alloc: Global,
    job: &Job<'_>,
    files: &mut F,
    out: &mut K,
    doc: &mut DocSide,
    lanes: &mut L,
    early: &mut P,
    room: &mut [u8],
    watch: &mut W,
) -> (Status, Vec<Seen>)
    requires table { job.now.table.now ≡ E.entities }
    requires first { doc.old ≡ first_shown job.now.table.now job.now.ahead }
    requires load { L.load lanes.old ≡ no_load }
    requires put { IfSome (L.put lanes.old) (λ asks. asks ≡ []) }
    requires taken { IfSome (L.taken lanes.old) (λ messages. messages ≡ []) }
    requires given { P.given early.old ≡ [] }
    requires room { 0 < length room.old }
    requires begun { IsBegun (string_bytes job.now.page) (F.seen files.old) }
    requires some { 0 < job.now.ahead }
    requires few { job.now.ahead ≤ 64 }
    requires watch { (W.doc watch.old ≡ ungrown) × (W.shown watch.old ≡ []) }
    requires unwatched { W.watches watch.old ≡ false → W.count watch.old ≡ 0 }
    ensures runs { RunsPage job.now.table.now (manner job.now.dump (W.count watch.old))
        (string_bytes job.now.page) (folder_with (string_bytes job.now.dir) (P.given early.new))
        (F.seen files.old) (F.seen files.new)
        (K.faults out.old) (K.faults out.new) (K.taken out.old) (K.taken out.new)
        (K.clean out.new) result.0 }
    ensures reports { Reports job.now.table.now job.now.ahead
        (manner job.now.dump (W.count watch.old)) (string_bytes job.now.page)
        (folder_with (string_bytes job.now.dir) (P.given early.new))
        (F.seen files.old) (F.seen files.new) (K.taken out.old) (K.taken out.new) doc.new result.0 }
    ensures cut { IsCut (length room.old) (has_run_out result.0) (F.seen files.old)
        (F.seen files.new)
        doc.new.journal.pieces }
    ensures goes { Goes (P.given early.new) (L.put lanes.new) doc.new }
    ensures crew { P.crew early.new ≡ P.crew early.old }
    ensures messages { IfSome (L.taken lanes.new)
        (λ messages. AreRepliesAt result.0 (takes_in doc.new.journal.events) messages) }
    ensures watched { IsTrue (W.watches watch.old)
        → IsWatched doc.new result.0 (W.count watch.old) result.1.items }
    ensures few { length result.1.items ≤ W.count watch.old }
{
    match parse_page::<E, L, P, F, K, W>(alloc, job, files, out, doc, lanes, early, room, watch) {
        Err(failure) => {
            let (seen, all) = watch.end(alloc);
            (status_for(failure_of(failure, all)), seen)
        }
        Ok(outcome) => {
            let (seen, all) = watch.end(alloc);
            let last = seen.as_slice();
            let status = end_shown(alloc, out, doc.doc(), outcome, job.dump, last, all);
            (status, seen)
        }
    }
}

// Begins the page. Where it isn't there, or the call fails, it says how the run ends; at a fault
// the sink is finished.
pub(crate) fn begin_page<F: Outside, K: Sink>(
    files: &mut F,
    out: &mut K,
    job: &Job<'_>,
) -> Option<Status>
    ensures begins { BeginsOr (string_bytes job.now.page) (F.seen files.old) (F.seen files.new)
        (K.faults out.old) (K.faults out.new) (K.taken out.old) (K.taken out.new) result }
    ensures clean { IfSome result (λ outcome.
        IsTrue (is_finished outcome) → IsTrue (K.clean out.new)) }
    ensures untouched { IfNone result (out.new ≡ out.old) }
{
    match files.begin(Port::Page, job.page.as_str()) {
        Err(Failed) => Some(end_at_fault(out)),
        Ok(false) => Some(Status::Absent),
        Ok(true) => None,
    }
}

// What a run begins with: the room for a read of the page, and a document's side.
pub(crate) fn begin_run(alloc: Global, job: &Job<'_>) -> Result<(Vec<u8>, DocSide), NoMemory>
    requires piece { 0 < job.now.piece }
    requires some { 0 < job.now.ahead }
    requires few { job.now.ahead ≤ 64 }
    ensures room { IfOk result (λ begun. length begun.0.items ≡ job.now.piece) }
    ensures side { IfOk result (λ begun. begun.1 ≡ first_shown job.now.table.now job.now.ahead) }
{
    let room = vec![in alloc; 0u8; job.piece]?;
    let side = DocSide::new(alloc, job.table, job.ahead)?;
    Ok((room, side))
}
