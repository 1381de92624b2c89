//! The calls of the runs. Each stands alone here, in a function that promises nothing: what the
//! runs promise is long, and would be known in all that stands behind the call.

ghost use Rattle.std.specs.Prelude.{◌≡◌, ◌<◌, ◌≤◌};

use entity_table::Table;
use html_types::NoMemory;
use outside::{Gate, Outside, Sink};
use page_runner::{Eye, Job, Report, Status, page_in_place, page_on_two, page_watched, run};
use speculation::InForce;
use std::alloc::Global;
use std::sync::{Arc, Wait};
use std::thread::Threads;

// A number of bytes that a read may have.
fn piece_of(piece: usize) -> usize
    ensures some { 0 < result }
    ensures few { result ≤ 65536 }
{
    piece.max(1).min(65_536)
}

/// A page with the scripts of a folder, in reads of so many bytes, 1 for 0 and 65,536 at most,
/// whose scripts so many helpers fetch early.
pub fn job_of<'a>(
    page: String,
    dir: String,
    table: &'a Table,
    piece: usize,
    preload: usize,
) -> Job<'a>
    ensures table { result.table.now ≡ table.now }
    ensures piece { (0 < result.piece) × (result.piece ≤ 65536) }
    ensures ahead { (0 < result.ahead) × (result.ahead ≤ 64) }
{
    let piece = piece_of(piece);
    Job {
        page,
        dir,
        table,
        piece,
        ahead: 8,
        dump: false,
        preload,
    }
}

/// Lets a value go. Where a document's side ends in the function that has it, the proof of that
/// function spells out all of its parts, which takes minutes; here they are those of its type,
/// once.
pub fn let_go<T: Drop>(_value: T) {}

/// A path, as a job has it.
pub fn path_of(alloc: Global, path: &str) -> Result<String, NoMemory> {
    Ok(String::from_str(alloc, path)?)
}

/// Runs the words' page on two threads, with these helpers.
pub fn status_with_helpers<
    R: Threads + Wait + Copy + Send + Sync + 'static,
    F: Outside + Drop + Send + 'static,
    K: Sink,
    G: Gate + Drop + Send + Sync + 'static,
>(
    rt: &R,
    alloc: Global,
    words: &[String],
    files: &mut F,
    out: &mut K,
    gate: &Arc<G, Global>,
    helpers: &mut Vec<F>,
) -> Status {
    run(rt, alloc, words, files, out, gate, helpers)
}

/// The same, without helpers.
pub fn status_on_two<
    R: Threads + Wait + Copy + Send + Sync + 'static,
    F: Outside + Drop + Send + 'static,
    K: Sink,
    G: Gate + Drop + Send + Sync + 'static,
>(
    rt: &R,
    alloc: Global,
    words: &[String],
    files: &mut F,
    out: &mut K,
    gate: &Arc<G, Global>,
) -> Status {
    let mut none = Vec::new(alloc);
    status_with_helpers(rt, alloc, words, files, out, gate, &mut none)
}

/// Runs the page on one thread.
pub fn status_in_place<F: Outside, K: Sink>(
    alloc: Global,
    job: &Job<'_>,
    files: &mut F,
    out: &mut K,
) -> Status
    requires piece { (0 < job.now.piece) × (job.now.piece ≤ 65536) }
    requires ahead { (0 < job.now.ahead) × (job.now.ahead ≤ 64) }
{
    let report = page_in_place(alloc, job, files, out);
    let status = report.outcome;
    let_go(report);
    status
}

/// Runs the page on two threads, with these helpers and with the entities in force.
pub fn report_with_helpers<
    R: Threads + Wait + Copy + Send + Sync + 'static,
    E: InForce + Send + 'static,
    F: Outside + Drop + Send + 'static,
    K: Sink,
    G: Gate + Drop + Send + Sync + 'static,
>(
    rt: &R,
    alloc: Global,
    job: &Job<'_>,
    files: &mut F,
    out: &mut K,
    gate: &Arc<G, Global>,
    helpers: &mut Vec<F>,
) -> Report<E>
    requires table { job.now.table.now ≡ E.entities }
    requires piece { (0 < job.now.piece) × (job.now.piece ≤ 65536) }
    requires ahead { (0 < job.now.ahead) × (job.now.ahead ≤ 64) }
{
    page_on_two::<R, E, F, K, G>(rt, alloc, job, files, out, gate, helpers)
}

/// The same, without helpers.
pub fn report_on_two<
    R: Threads + Wait + Copy + Send + Sync + 'static,
    E: InForce + Send + 'static,
    F: Outside + Drop + Send + 'static,
    K: Sink,
    G: Gate + Drop + Send + Sync + 'static,
>(
    rt: &R,
    alloc: Global,
    job: &Job<'_>,
    files: &mut F,
    out: &mut K,
    gate: &Arc<G, Global>,
) -> Report<E>
    requires table { job.now.table.now ≡ E.entities }
    requires piece { (0 < job.now.piece) × (job.now.piece ≤ 65536) }
    requires ahead { (0 < job.now.ahead) × (job.now.ahead ≤ 64) }
{
    let mut none = Vec::new(alloc);
    report_with_helpers::<R, E, F, K, G>(rt, alloc, job, files, out, gate, &mut none)
}

/// The same while so many watch.
pub fn report_watched<
    R: Threads + Wait + Copy + Send + Sync + 'static,
    E: InForce + Send + 'static,
    F: Outside + Drop + Send + 'static,
    K: Sink,
    G: Gate + Drop + Send + Sync + 'static,
    Y: Eye + Drop + Send + Sync + 'static,
>(
    rt: &R,
    alloc: Global,
    job: &Job<'_>,
    files: &mut F,
    out: &mut K,
    gate: &Arc<G, Global>,
    watchers: u32,
    eye: &Arc<Y, Global>,
) -> Report<E>
    requires table { job.now.table.now ≡ E.entities }
    requires piece { (0 < job.now.piece) × (job.now.piece ≤ 65536) }
    requires ahead { (0 < job.now.ahead) × (job.now.ahead ≤ 64) }
{
    let watchers = u64::from(watchers);
    let mut none = Vec::new(alloc);
    page_watched::<R, E, F, K, G, Y>(rt, alloc, job, files, out, gate, &mut none, watchers, eye)
}
