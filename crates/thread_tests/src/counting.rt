//! How much of a page the document's side parses itself.

ghost use Rattle.std.specs.Prelude.{◌≡◌, ◌<◌, ◌≤◌, [], IfOk};

use crate::calls::{job_of, let_go, path_of, report_on_two};
use crate::running::{ROOM, files_of};
use entity_table::Table;
use html_types::NoMemory;
use outside::{MemFiles, MemSink, OpenGate};
use page_runner::{Job, Report, Status};
use speculation::InForce;
use std::alloc::Global;
use std::marker::Brand;
use std::sync::{Arc, Wait};
use std::thread::Threads;

/// What runs on two threads come to.
#[derive(Clone, Copy)]
pub struct Count {
    /// The scripts of the page that failed.
    pub failed: u64,
    /// The characters of the page that the document's side parsed itself.
    pub parsed: u64,
}

// What the run came to: none where it isn't done, since what it didn't come to would count as
// nothing.
fn count_of<E: InForce>(report: &Report<E>) -> Option<Count> {
    if report.outcome != Status::Done {
        return None;
    }
    match &report.side {
        Some(side) => Some(Count {
            failed: side.tally().failed,
            parsed: side.journal().parsed_here(),
        }),
        None => None,
    }
}

// What the run comes to. Of what it needs nothing is dropped here.
fn count_of_run<R: Threads + Wait + Copy + Send + Sync + 'static, E: InForce + Send + 'static>(
    rt: &R,
    alloc: Global,
    job: &Job<'_>,
    files: &mut MemFiles,
    sink: &mut MemSink,
    gate: &Arc<OpenGate, Global>,
) -> Option<Count>
    requires table { job.now.table.now ≡ E.entities }
    requires piece { (0 < job.now.piece) × (job.now.piece ≤ 65536) }
    requires ahead { (0 < job.now.ahead) × (job.now.ahead ≤ 64) }
{
    let report = report_on_two::<R, E, _, _, OpenGate>(rt, alloc, job, files, sink, gate);
    let count = count_of(&report);
    let_go(report);
    count
}

// Runs the page, the entities of the table being those in force.
fn count_in_force<R: Threads + Wait + Copy + Send + Sync + 'static, E: InForce + Send + 'static>(
    rt: &R,
    alloc: Global,
    table: &Table,
    page: &str,
    piece: usize,
) -> Result<Count, NoMemory>
    requires table { table.now ≡ E.entities }
{
    let path = path_of(alloc, "p")?;
    let folder = path_of(alloc, "d")?;
    let job = job_of(path, folder, table, piece, 0);
    let mut files = files_of(alloc, page)?;
    let mut sink = MemSink::new(alloc, ROOM)?;
    let gate = Arc::new(alloc, OpenGate)?;
    count_of_run::<R, E>(rt, alloc, &job, &mut files, &mut sink, &gate).ok_or(NoMemory)
}

/// The table of a file that lists no entity.
pub fn no_entities(alloc: Global) -> Result<Table, NoMemory>
    ensures { IfOk result (λ table. table ≡ []) }
{
    match Table::read(alloc, b"{}") {
        Ok(table) => Ok(table),
        Err(_) => Err(NoMemory),
    }
}

// The same, with no entities in force.
fn count_without<R: Threads + Wait + Copy + Send + Sync + 'static>(
    rt: &R,
    alloc: Global,
    table: &Table,
    page: &str,
    piece: usize,
) -> Result<Count, NoMemory>
    requires table { table.now ≡ [] }
{
    count_in_force::<R, Brand>(rt, alloc, table, page, piece)
}

/// What the page comes to on two threads, with no entities, and with reads of `piece` bytes. A run
/// that isn't done is want of memory.
pub fn count_page<R: Threads + Wait + Copy + Send + Sync + 'static>(
    rt: &R,
    alloc: Global,
    page: &str,
    piece: usize,
) -> Result<Count, NoMemory> {
    let table = no_entities(alloc)?;
    count_without(rt, alloc, &table, page, piece)
}

/// What the pages come to together.
pub fn count_pages<R: Threads + Wait + Copy + Send + Sync + 'static>(
    rt: &R,
    alloc: Global,
    pages: &[&str],
    piece: usize,
) -> Result<Count, NoMemory> {
    let mut all = Count {
        failed: 0,
        parsed: 0,
    };
    for page in pages {
        let one = count_page(rt, alloc, page, piece)?;
        all.failed = all.failed.saturating_add(one.failed);
        all.parsed = all.parsed.saturating_add(one.parsed);
    }
    Ok(all)
}

/// A page with a comment of 10,000 characters, more than a state is held for.
pub fn long_comment(alloc: Global) -> Result<String, NoMemory> {
    let mut page = String::from_str(alloc, "<p><!--")?;
    for _ in 0..10_000u32 {
        page.push('x')?;
    }
    page.push_str("--><p>y")?;
    Ok(page)
}
