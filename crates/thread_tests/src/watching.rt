//! Pages that are watched while they are parsed.

ghost use Rattle.std.specs.Prelude.{◌≡◌, ◌<◌, ◌≤◌, []};

use crate::calls::{job_of, let_go, path_of, report_watched};
use crate::counting::no_entities;
use crate::held::{HeldEye, HeldFiles};
use crate::meeting::Meeting;
use crate::running::ROOM;
use entity_table::Table;
use html_types::NoMemory;
use outside::{MemFiles, MemSink, OpenGate};
use page_runner::{ClosedEye, Job, Report, Seen, Status};
use speculation::InForce;
use std::alloc::Global;
use std::marker::Brand;
use std::mem;
use std::sync::{Arc, Wait};
use std::test::Fail;
use std::thread::Threads;

// How often the page of which a call is held is run.
const HELD_RUNS: u32 = 20;

const PAGE: &str = "<p>x<script src=\"a\"></script>";

// What a page comes to that was watched.
#[derive(Drop)]
struct Watched {
    status: Status,
    sink: MemSink,
    seen: Vec<Seen>,
}

fn files_of(alloc: Global) -> Result<MemFiles, NoMemory> {
    let mut files = MemFiles::new(alloc, &[])?;
    files.add("p", PAGE.as_bytes())?;
    files.add("d/a", b"")?;
    Ok(files)
}

// What the run of which a call is held comes to. Of what it needs nothing is dropped here.
fn status_of_held<R: Threads + Wait + Copy + Send + Sync + 'static, E: InForce + Send + 'static>(
    rt: &R,
    alloc: Global,
    job: &Job<'_>,
    files: &mut HeldFiles<MemFiles>,
    sink: &mut MemSink,
    gate: &Arc<OpenGate, Global>,
    eye: &Arc<HeldEye, Global>,
) -> Status
    requires table { job.now.table.now ≡ E.entities }
    requires piece { (0 < job.now.piece) × (job.now.piece ≤ 65536) }
    requires ahead { (0 < job.now.ahead) × (job.now.ahead ≤ 64) }
{
    let report = report_watched::<R, E, _, _, OpenGate, HeldEye>(
        rt, alloc, job, files, sink, gate, 1, eye,
    );
    let status = report.outcome;
    let_go(report);
    status
}

// The page's script is held until the first watcher has seen a change, and that is held until the
// script was begun. The entities of the table are in force.
fn held_in_force<R: Threads + Wait + Copy + Send + Sync + 'static, E: InForce + Send + 'static>(
    rt: &R,
    alloc: Global,
    table: &Table,
) -> Result<Status, NoMemory>
    requires table { table.now ≡ E.entities }
{
    let path = path_of(alloc, "p")?;
    let folder = path_of(alloc, "d")?;
    let job = job_of(path, folder, table, 4096, 0);
    let meeting = Arc::new(alloc, Meeting::new())?;
    let mut files = HeldFiles::new(files_of(alloc)?, Arc::try_clone(&meeting)?);
    let mut sink = MemSink::new(alloc, ROOM)?;
    let gate = Arc::new(alloc, OpenGate)?;
    let eye = Arc::new(alloc, HeldEye(meeting))?;
    Ok(status_of_held::<R, E>(rt, alloc, &job, &mut files, &mut sink, &gate, &eye))
}

// How a run ended, and what was seen of it.
fn told_of<E: InForce>(alloc: Global, report: Report<E>) -> (Status, Vec<Seen>) {
    let mut report = report;
    let seen = mem::replace(&mut report.seen, Vec::new(alloc));
    let status = report.outcome;
    let_go(report);
    (status, seen)
}

// What the run that is watched comes to. Of what it needs nothing is dropped here.
fn told_of_run<R: Threads + Wait + Copy + Send + Sync + 'static, E: InForce + Send + 'static>(
    rt: &R,
    alloc: Global,
    job: &Job<'_>,
    files: &mut MemFiles,
    sink: &mut MemSink,
    gate: &Arc<OpenGate, Global>,
    watchers: u32,
    eye: &Arc<ClosedEye, Global>,
) -> (Status, Vec<Seen>)
    requires table { job.now.table.now ≡ E.entities }
    requires piece { (0 < job.now.piece) × (job.now.piece ≤ 65536) }
    requires ahead { (0 < job.now.ahead) × (job.now.ahead ≤ 64) }
{
    let report = report_watched::<R, E, _, _, OpenGate, ClosedEye>(
        rt, alloc, job, files, sink, gate, watchers, eye,
    );
    told_of(alloc, report)
}

// The page, read by single bytes and watched by so many, with the table's entities in force.
fn watched_in_force<R: Threads + Wait + Copy + Send + Sync + 'static, E: InForce + Send + 'static>(
    rt: &R,
    alloc: Global,
    table: &Table,
    watchers: u32,
) -> Result<Watched, NoMemory>
    requires table { table.now ≡ E.entities }
{
    let path = path_of(alloc, "p")?;
    let folder = path_of(alloc, "d")?;
    let job = job_of(path, folder, table, 1, 0);
    let mut files = files_of(alloc)?;
    let mut sink = MemSink::new(alloc, ROOM)?;
    let gate = Arc::new(alloc, OpenGate)?;
    let eye = Arc::new(alloc, ClosedEye)?;
    let (status, seen) = told_of_run::<R, E>(
        rt, alloc, &job, &mut files, &mut sink, &gate, watchers, &eye,
    );
    Ok(Watched { status, sink, seen })
}

// The same with no entities in force.
fn held_without<R: Threads + Wait + Copy + Send + Sync + 'static>(
    rt: &R,
    alloc: Global,
    table: &Table,
) -> Result<Status, NoMemory>
    requires table { table.now ≡ [] }
{
    held_in_force::<R, Brand>(rt, alloc, table)
}

fn watched_without<R: Threads + Wait + Copy + Send + Sync + 'static>(
    rt: &R,
    alloc: Global,
    table: &Table,
    watchers: u32,
) -> Result<Watched, NoMemory>
    requires table { table.now ≡ [] }
{
    watched_in_force::<R, Brand>(rt, alloc, table, watchers)
}

fn held_once<R: Threads + Wait + Copy + Send + Sync + 'static>(
    rt: &R,
    alloc: Global,
) -> Result<Status, NoMemory> {
    let table = no_entities(alloc)?;
    held_without(rt, alloc, &table)
}

fn watched_by<R: Threads + Wait + Copy + Send + Sync + 'static>(
    rt: &R,
    alloc: Global,
    watchers: u32,
) -> Result<Watched, NoMemory> {
    let table = no_entities(alloc)?;
    watched_without(rt, alloc, &table, watchers)
}

// How many runs of the page of which a call is held are done.
fn count_held<R: Threads + Wait + Copy + Send + Sync + 'static>(
    rt: &R,
    alloc: Global,
) -> Result<u32, NoMemory> {
    let mut done: u32 = 0;
    for _ in 0..HELD_RUNS {
        if held_once(rt, alloc)? == Status::Done {
            done = done.saturating_add(1);
        }
    }
    Ok(done)
}

// A watcher that looks on the document's thread, or at the end alone, gives up: the fetch fails.
#[test]
fn a_watcher_sees_the_tree_while_a_script_is_fetched(rt: HostRuntime) -> Result<(), Fail> {
    assert_eq!(rt; count_held(&rt, rt.alloc())?, HELD_RUNS);
    Ok(())
}

const LINES: &str =
    "tree \"<html><head></head><body><p>x<script src=\\\"a\\\"></script></p></body></html>\"\nwatch 1 \"<html><head></head><body><p>x<script src=\\\"a\\\"></script></p></body></html>\"\nwatch 2 \"<html><head></head><body><p>x<script src=\\\"a\\\"></script></p></body></html>\"\n";

#[test]
fn each_watcher_has_a_line(rt: HostRuntime) -> Result<(), Fail> {
    let watched = watched_by(&rt, rt.alloc(), 2)?;
    assert!(rt; watched.status == Status::Done);
    assert!(rt; watched.sink.bytes() == LINES.as_bytes());
    assert_eq!(rt; watched.seen.len(), 2);
    for seen in watched.seen {
        assert!(rt; seen.last);
    }
    Ok(())
}
