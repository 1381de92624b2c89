// A run, from the words to the status.
ghost use Rattle.std.specs.Prelude.{◌≡◌, ◌≤◌, ◌<◌, ◌++◌, ℕ, List, [], ◌∷◌, length, All, map, Some};
ghost use Rattle.std.specs.Prelude.{None, false, Err, IfOk, IfErr, OnOk, OnErr, IsErrOf, IsTrue};
ghost use Rattle.std.specs.String.{string_bytes};
ghost use Rattle.standard.specs.Outer.{document_text};
ghost use Rattle.page_turns.specs.Watched.{watch_text};
ghost use Rattle.page_runner.specs.Manner.{manner, result_in, watch_lines};
ghost use Rattle.outside.specs.Outside.{Rose, Begun, KeepsOthers};
ghost use Rattle.command_words.specs.Words.{for_page, asked, shown};
ghost use Rattle.page_turns.specs.Calls.{EachWithin};
ghost use Rattle.page_turns.specs.Given.{ReadTo};
ghost use Rattle.page_turns.specs.Taken.{Took, TookFront};
ghost use Rattle.parse_machine.specs.Ends.{result_of};
ghost use Rattle.page_runner.specs.Shown.{status_of};
ghost use Rattle.page_runner.specs.Making.{MakesTo};
ghost use Rattle.page_runner.specs.Batches.{BatchesTo};
ghost use Rattle.page_runner.specs.Answers.{status_for, table_of, is_finished, folder_by};
ghost use Rattle.page_runner.specs.Answers.{HelpersBack, HelpersBackOf, Gives, MayRunPage};
ghost use Rattle.page_runner.specs.Answers.{ReadsTable, ReadsNone, answer_without, Answers, RunsTo};
ghost use Rattle.page_runner.specs.Answers.{StopsAtLimits, BeginsOnce, CompletesRun, Exactly};
ghost use Rattle.page_runner.specs.Answers.{AbsenceRose, FaultRose};

use crate::batch::run_batch;
use crate::eye::ClosedEye;
use crate::making::run_make;
use crate::running::let_go;
use crate::status::{Limit, Status};
use crate::watched::page_watched;
use command_words::{CommandWords, PageWords, Refused, read_words};
use core_steps::Fetch;
use entity_table::{Table, TableFault};
use html_types::{NoMemory, Why};
use op_exec::Doc;
use outside::{Failed, Gate, Outside, Port, Sink};
use page_turns::{End, Failure, Job, read_whole, show_outcome, show_watch, write_all};
use speculation::InForce;
use std::alloc::Global;
use std::marker::Brand;
use std::sync::{Arc, Wait};
use std::thread::Threads;
use tree_watch::Seen;

/// The most bytes of the entities file.
pub const ENTITIES_LIMIT: usize = 4_194_304;

/// Why there is no table of the entities.
#[derive(Clone, Copy)]
pub(crate) enum Unread {
    NoMemory,
    /// There is no such file.
    Missing,
    /// Beginning or reading it failed.
    Faulted,
    /// The file is too long, or lists none.
    NotTable,
}

pub(crate) fn status_for(failure: Failure) -> Status
    ensures { result ≡ status_for failure }
{
    match failure {
        Failure::Memory => Status::NoMemory,
        Failure::Write => Status::WriteFault,
    }
}

// The status with which a run of that outcome ends.
fn status_at(outcome: End) -> Status
    ensures { result ≡ status_of outcome }
{
    match outcome {
        End::Finished => Status::Done,
        End::Refused(Why::BadUtf8) => Status::BadUtf8,
        End::Refused(Why::Depth) => Status::Limit(Limit::Depth),
        End::Refused(Why::Writes) => Status::Limit(Limit::Writes),
        End::Refused(Why::Page) => Status::Limit(Limit::Page),
        End::Refused(Why::Fault) => Status::ReadFault,
    }
}

// Adds the line of what the watcher of that number saw last.
fn add_watch_line(
    alloc: Global,
    text: &mut Vec<u8>,
    number: usize,
    seen: &Seen,
) -> Result<(), NoMemory>
    ensures { OnOk result (text.new.items ≡ text.old.items ++ watch_text number seen.now.text) }
{
    let line = show_watch(alloc, number, seen.text.as_str())?;
    text.extend_from_slice(&line)?;
    Ok(())
}

// Adds the lines of what the watchers saw last.
fn add_watch_lines(alloc: Global, text: &mut Vec<u8>, seen: &[Seen]) -> Result<(), NoMemory>
    ensures { OnOk result ((t : List ℕ) → All (λ s. s.text ≡ t) seen.now
        → text.new.items ≡ text.old.items ++ watch_lines (length seen.now) t) }
{
    for i in 0..seen.len() {
        add_watch_line(alloc, text, i + 1, &seen[i])?;
    }
    Ok(())
}

// What is written of a page whose parse finished: the tree, and what the watchers saw last.
fn show_finished(alloc: Global, doc: &Doc, dump: bool, seen: &[Seen]) -> Result<Vec<u8>, NoMemory>
    requires { All (λ s. s.text ≡ document_text doc.now.tree) seen.now }
    ensures { IfOk result (λ bytes. bytes.items
        ≡ result_in (manner dump (length seen.now)) (result_of End.Finished) doc.now.tree) }
{
    let mut text = show_outcome(alloc, doc, End::Finished, dump)?;
    add_watch_lines(alloc, &mut text, seen)?;
    Ok(text)
}

// What is written of a page's outcome behind the lines of its scripts.
fn show_end(
    alloc: Global,
    doc: &Doc,
    outcome: End,
    dump: bool,
    seen: &[Seen],
) -> Result<Vec<u8>, NoMemory>
    requires { All (λ s. s.text ≡ document_text doc.now.tree) seen.now }
    ensures { IfOk result (λ bytes. bytes.items
        ≡ result_in (manner dump (length seen.now)) (result_of outcome) doc.now.tree) }
{
    match outcome {
        End::Finished => show_finished(alloc, doc, dump, seen),
        End::Refused(_) => show_outcome(alloc, doc, outcome, dump),
    }
}

// Writes what came of the page, and finishes the sink.
fn write_end<K: Sink>(
    alloc: Global,
    out: &mut K,
    doc: &Doc,
    outcome: End,
    dump: bool,
    seen: &[Seen],
) -> Result<(), Failure>
    requires { All (λ s. s.text ≡ document_text doc.now.tree) seen.now }
    ensures ok { OnOk result (Took (K.taken out.old) (K.taken out.new)
        (result_in (manner dump (length seen.now)) (result_of outcome) doc.now.tree)) }
    ensures err { OnErr result (TookFront (K.taken out.old) (K.taken out.new)
        (result_in (manner dump (length seen.now)) (result_of outcome) doc.now.tree)) }
    ensures clean { OnOk result (IsTrue (K.clean out.new)) }
    ensures write { IsErrOf result Failure.Write → Rose (K.faults out.old) (K.faults out.new) }
{
    let text = show_end(alloc, doc, outcome, dump, seen)?;
    write_all(out, &text)?;
    out.finish()?;
    Ok(())
}

// The same, and the status of the run.
pub(crate) fn end_page<K: Sink>(
    alloc: Global,
    out: &mut K,
    doc: &Doc,
    outcome: End,
    dump: bool,
    seen: &[Seen],
) -> Status
    requires { All (λ s. s.text ≡ document_text doc.now.tree) seen.now }
    ensures gives { Gives (Rose (K.faults out.old) (K.faults out.new))
        (K.taken out.old) (K.taken out.new) (
          status_of outcome,
          result_in (manner dump (length seen.now)) (result_of outcome) doc.now.tree,
        )
        result }
    ensures clean { IsTrue (is_finished result) → IsTrue (K.clean out.new) }
{
    match write_end(alloc, out, doc, outcome, dump, seen) {
        Err(failure) => status_for(failure),
        Ok(()) => status_at(outcome),
    }
}

// A fault before the page was begun. The sink is finished then too.
pub(crate) fn end_at_fault<K: Sink>(out: &mut K) -> Status
    ensures gives { Gives (Rose (K.faults out.old) (K.faults out.new)) (K.taken out.old)
        (K.taken out.new) (Status.ReadFault, []) result }
    ensures clean { IsTrue (is_finished result) → IsTrue (K.clean out.new) }
{
    match out.finish() {
        Ok(()) => Status::ReadFault,
        Err(Failed) => Status::WriteFault,
    }
}

// There is no table, so the page isn't begun.
pub(crate) fn end_without<K: Sink>(out: &mut K, unread: Unread) -> Status
    ensures gives { Gives (Rose (K.faults out.old) (K.faults out.new)) (K.taken out.old)
        (K.taken out.new) (answer_without unread) result }
    ensures clean { IsTrue (is_finished result) → IsTrue (K.clean out.new) }
{
    match unread {
        Unread::NoMemory => Status::NoMemory,
        Unread::Missing => Status::Absent,
        Unread::Faulted => end_at_fault(out),
        Unread::NotTable => Status::Entities,
    }
}

// Runs the page with the entities in force, watched by so many. The report, whose type names them,
// ends here.
fn by_table<
    R: Threads + Wait + Copy + Send + Sync + 'static,
    E: InForce + Send + 'static,
    F: Outside + Drop + Send + 'static,
    K: Sink,
    G: Gate + Drop + Send + Sync + 'static,
>(
    rt: &R,
    alloc: Global,
    job: &Job<'_>,
    files: &mut F,
    out: &mut K,
    gate: &Arc<G, Global>,
    helpers: &mut Vec<F>,
    watch: usize,
) -> Status
    requires table { job.now.table.now ≡ E.entities }
    requires piece { (0 < job.now.piece) × (job.now.piece ≤ 65536) }
    requires ahead { (0 < job.now.ahead) × (job.now.ahead ≤ 64) }
    requires watch { watch ≤ 8 }
    ensures runs { MayRunPage job.now.table.now
        (manner job.now.dump watch) (string_bytes job.now.page)
        (folder_by (string_bytes job.now.dir) job.now.preload
        (map F.seen helpers.old.items) (map F.seen helpers.new.items))
        (F.seen files.old) (F.seen files.new)
        (K.faults out.old) (K.faults out.new) (K.taken out.old) (K.taken out.new)
        (K.clean out.new) result }
    ensures helpers { HelpersBack job.now.preload (map F.seen helpers.old.items)
        (map F.seen helpers.new.items) }
{
    let Ok(eye) = Arc::new(alloc, ClosedEye) else {
        return Status::NoMemory;
    };
    let watchers = watch as u64;
    let report = page_watched::<R, E, F, K, G, ClosedEye>(
        rt, alloc, job, files, out, gate, helpers, watchers, &eye,
    );
    let outcome = report.outcome;
    let_go(report);
    outcome
}

// Runs the page over the table.
fn run_page<
    R: Threads + Wait + Copy + Send + Sync + 'static,
    F: Outside + Drop + Send + 'static,
    K: Sink,
    G: Gate + Drop + Send + Sync + 'static,
>(
    rt: &R,
    alloc: Global,
    table: &Table,
    files: &mut F,
    out: &mut K,
    gate: &Arc<G, Global>,
    helpers: &mut Vec<F>,
    words: PageWords,
) -> Status
    requires piece { (0 < words.piece) × (words.piece ≤ 65536) }
    requires ahead { (0 < words.ahead) × (words.ahead ≤ 64) }
    requires watch { words.watch ≤ 8 }
    ensures runs { MayRunPage table.now
        (manner words.dump words.watch) (string_bytes words.page)
        (folder_by (string_bytes words.dir) words.preload
        (map F.seen helpers.old.items) (map F.seen helpers.new.items))
        (F.seen files.old) (F.seen files.new)
        (K.faults out.old) (K.faults out.new) (K.taken out.old) (K.taken out.new)
        (K.clean out.new) result }
    ensures helpers { HelpersBack words.preload (map F.seen helpers.old.items)
        (map F.seen helpers.new.items) }
{
    let job = Job {
        page: words.page,
        dir: words.dir,
        table,
        piece: words.piece,
        ahead: words.ahead,
        dump: words.dump,
        preload: words.preload,
    };
    by_table::<R, Brand, F, K, G>(rt, alloc, &job, files, out, gate, helpers, words.watch)
}

// The table that the file lists. One that is too long is none.
fn table_of(alloc: Global, bytes: &[u8]) -> Result<Table, TableFault>
    ensures table { IfOk result (λ table. table_of bytes.now ≡ Some table) }
    ensures no_table { result ≡ Err TableFault.NotTable → table_of bytes.now ≡ None }
{
    if bytes.len() > ENTITIES_LIMIT {
        return Err(TableFault::NotTable);
    }
    Table::read(alloc, bytes)
}

// Reads the entities.
pub(crate) fn read_entities<F: Outside>(
    alloc: Global,
    files: &mut F,
    path: &str,
) -> Result<Table, Unread>
    ensures table { IfOk result
        (λ table. ReadsTable path.now (F.seen files.old) (F.seen files.new) table) }
    ensures none { IfErr result
        (λ unread. ReadsNone path.now (F.seen files.old) (F.seen files.new) unread) }
    ensures no_further { ReadTo ENTITIES_LIMIT Port.Entities path.now (F.seen files.old)
        (F.seen files.new) }
    ensures within { EachWithin ENTITIES_LIMIT Port.Entities (F.seen files.old) (F.seen files.new) }
    ensures begun { Begun ((F.seen files.old).begun Port.Entities)
        ((F.seen files.new).begun Port.Entities) (path.now ∷ []) }
    ensures others { KeepsOthers Port.Entities (F.seen files.old) (F.seen files.new) }
{
    let bytes = match read_whole(alloc, files, Port::Entities, path, ENTITIES_LIMIT) {
        Err(NoMemory) => return Err(Unread::NoMemory),
        Ok(Fetch::Missing) => return Err(Unread::Missing),
        Ok(Fetch::Faulted) => return Err(Unread::Faulted),
        Ok(Fetch::Got(bytes)) => bytes,
    };
    match table_of(alloc, &bytes) {
        Err(TableFault::NotTable) => Err(Unread::NotTable),
        Err(TableFault::NoMemory) => Err(Unread::NoMemory),
        Ok(table) => Ok(table),
    }
}

// Reads the entities, and runs the page over them.
fn run_files<
    R: Threads + Wait + Copy + Send + Sync + 'static,
    F: Outside + Drop + Send + 'static,
    K: Sink,
    G: Gate + Drop + Send + Sync + 'static,
>(
    rt: &R,
    alloc: Global,
    files: &mut F,
    out: &mut K,
    gate: &Arc<G, Global>,
    helpers: &mut Vec<F>,
    words: PageWords,
) -> Status
    requires piece { (0 < words.piece) × (words.piece ≤ 65536) }
    requires ahead { (0 < words.ahead) × (words.ahead ≤ 64) }
    requires watch { words.watch ≤ 8 }
    ensures answer { Answers (shown words) (map F.seen helpers.old.items)
        (map F.seen helpers.new.items)
        (F.seen files.old) (F.seen files.new)
        (K.faults out.old) (K.faults out.new) (K.taken out.old) (K.taken out.new) result }
    ensures no_further { StopsAtLimits (Some (for_page (shown words))) (F.seen files.old)
        (F.seen files.new) }
    ensures begins { BeginsOnce (Some (for_page (shown words))) (F.seen files.old)
        (F.seen files.new) }
    ensures clean { IsTrue (is_finished result) → IsTrue (K.clean out.new) }
    ensures helpers { HelpersBack words.preload (map F.seen helpers.old.items)
        (map F.seen helpers.new.items) }
{
    match read_entities(alloc, files, words.entities.as_str()) {
        Err(unread) => end_without(out, unread),
        Ok(table) => run_page(rt, alloc, &table, files, out, gate, helpers, words),
    }
}

// Reads the words, and runs what they ask for.
fn run_words<
    R: Threads + Wait + Copy + Send + Sync + 'static,
    F: Outside + Drop + Send + 'static,
    K: Sink,
    G: Gate + Drop + Send + Sync + 'static,
>(
    rt: &R,
    alloc: Global,
    words: &[String],
    files: &mut F,
    out: &mut K,
    gate: &Arc<G, Global>,
    helpers: &mut Vec<F>,
) -> Status
    ensures answer { RunsTo (asked (map string_bytes words.now)) (map F.seen helpers.old.items)
        (map F.seen helpers.new.items)
        (F.seen files.old) (F.seen files.new)
        (K.faults out.old) (K.faults out.new) (K.taken out.old) (K.taken out.new) result }
    ensures no_further { StopsAtLimits (asked (map string_bytes words.now)) (F.seen files.old)
        (F.seen files.new) }
    ensures begins { BeginsOnce (asked (map string_bytes words.now)) (F.seen files.old)
        (F.seen files.new) }
    ensures makes { MakesTo (asked (map string_bytes words.now)) (F.seen files.old)
        (F.seen files.new)
        (K.faults out.old) (K.faults out.new) (K.taken out.old) (K.taken out.new) result }
    ensures batches { BatchesTo (asked (map string_bytes words.now))
        (F.seen files.old) (F.seen files.new)
        (K.faults out.old) (K.faults out.new) (K.taken out.old) (K.taken out.new) result }
    ensures clean { IsTrue (is_finished result) → IsTrue (K.clean out.new) }
    ensures helpers { HelpersBackOf (asked (map string_bytes words.now))
        (map F.seen helpers.old.items) (map F.seen helpers.new.items) }
{
    match read_words(alloc, words) {
        Err(Refused::Usage) => Status::Usage,
        Err(Refused::NoMemory) => Status::NoMemory,
        Ok(CommandWords::Page(words)) => run_files(rt, alloc, files, out, gate, helpers, words),
        Ok(CommandWords::Make(words)) => run_make(rt, alloc, out, gate, words),
        Ok(CommandWords::Batch(words)) => run_batch(rt, alloc, files, out, &words),
    }
}

/// Runs the command that the words give, of which the program's name is the first: the entities
/// file is read, and then the page is begun, parsed and written, its scripts with it; or the pages
/// of a list are; or a page is made, parsed, and what that comes to in numbers written. The sink is
/// finished where the parse came to an end. Of the helpers the first so many as the words say fetch
/// scripts before they are awaited.
pub fn run<
    R: Threads + Wait + Copy + Send + Sync + 'static,
    F: Outside + Drop + Send + 'static,
    K: Sink,
    G: Gate + Drop + Send + Sync + 'static,
>(
    rt: &R,
    alloc: Global,
    words: &[String],
    files: &mut F,
    out: &mut K,
    gate: &Arc<G, Global>,
    helpers: &mut Vec<F>,
) -> Status
    // The status and the bytes that the sink took are the answer to what the run met, and the text
    // is that of the serial parse.
    ensures answer { RunsTo (asked (map string_bytes words.now)) (map F.seen helpers.old.items)
        (map F.seen helpers.new.items)
        (F.seen files.old) (F.seen files.new)
        (K.faults out.old) (K.faults out.new) (K.taken out.old) (K.taken out.new) result }

    // The same of the pages of a list, each with the answer that a run of it alone has.
    ensures batches { BatchesTo (asked (map string_bytes words.now))
        (F.seen files.old) (F.seen files.new)
        (K.faults out.old) (K.faults out.new) (K.taken out.old) (K.taken out.new) result }

    // The same of a page that is made from a number.
    ensures makes { MakesTo (asked (map string_bytes words.now)) (F.seen files.old)
        (F.seen files.new)
        (K.faults out.old) (K.faults out.new) (K.taken out.old) (K.taken out.new) result }
    ensures clean { IsTrue (is_finished result) → IsTrue (K.clean out.new) }
    ensures no_further { StopsAtLimits (asked (map string_bytes words.now)) (F.seen files.old)
        (F.seen files.new) }

    // Where the outside tells what was begun: entities, page or list, and each script once at most,
    // a list's pages in its order, and nothing else ever.
    ensures begins { BeginsOnce (asked (map string_bytes words.now)) (F.seen files.old)
        (F.seen files.new) }

    // Each helper is back in its place, and those that weren't to be used are as they were.
    ensures helpers { HelpersBackOf (asked (map string_bytes words.now))
        (map F.seen helpers.old.items) (map F.seen helpers.new.items) }

    // Where nothing stands in its way, all is written, or memory runs out: what it would be with no
    // helper.
    ensures complete { CompletesRun (asked (map string_bytes words.now))
        (map F.seen helpers.old.items) (map F.seen helpers.new.items)
        (F.seen files.old) (F.seen files.new)
        (K.faults out.old) (K.faults out.new) (K.taken out.old) (K.taken out.new) result }

    // What follows for single statuses.
    ensures usage { Exactly Status.Usage result (asked (map string_bytes words.now) ≡ None) }
    ensures absent { result ≡ Status.Absent
        → AbsenceRose (asked (map string_bytes words.now)) (F.seen files.old) (F.seen files.new) }
    ensures read_fault { result ≡ Status.ReadFault
        → FaultRose (asked (map string_bytes words.now)) (F.seen files.old) (F.seen files.new) }
    ensures write_fault { result ≡ Status.WriteFault → Rose (K.faults out.old) (K.faults out.new) }
{
    run_words(rt, alloc, words, files, out, gate, helpers)
}
