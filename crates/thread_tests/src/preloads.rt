//! Scripts that helpers fetch before they are awaited.

ghost use Rattle.std.specs.Prelude.{◌≡◌, ◌<◌, ◌≤◌, []};

use crate::calls::{job_of, path_of, report_with_helpers, status_with_helpers};
use crate::counting::no_entities;
use crate::paired::{PairedFiles, Pairing, Role};
use crate::running::ROOM;
use entity_table::Table;
use html_types::NoMemory;
use outside::{MemFiles, MemSink, OpenGate, Outside, Port};
use page_runner::{Job, Report, Status};
use speculation::InForce;
use std::alloc::Global;
use std::marker::Brand;
use std::sync::{Arc, Wait};
use std::test::Fail;
use std::thread::Threads;

const ENTITIES: &str = "{\"&amp;\":{\"codepoints\":[38]}}";

// Two scripts of their own files.
const PAGE: &str = "<script src=\"a\"></script><script src=\"b\"></script>";

const TREE: &str =
    "tree \"<html><head><script src=\\\"a\\\"></script><script src=\\\"b\\\"></script></head><body></body></html>\"\n";

// A page, its entities, and two files with that script.
fn files_with(
    alloc: Global,
    page: &str,
    script: &str,
    fail: &[(Port, u64)],
) -> Result<MemFiles, NoMemory> {
    let mut files = MemFiles::new(alloc, fail)?;
    files.add("e", ENTITIES.as_bytes())?;
    files.add("p", page.as_bytes())?;
    files.add("d/a", script.as_bytes())?;
    files.add("d/b", script.as_bytes())?;
    Ok(files)
}

// One helper with such files, whose calls don't fail.
fn one_helper(alloc: Global, page: &str, script: &str) -> Result<Vec<MemFiles>, NoMemory> {
    let mut helpers = Vec::new(alloc);
    helpers.push(files_with(alloc, page, script, &[])?)?;
    Ok(helpers)
}

fn words_of(alloc: Global, preload: &str) -> Result<Vec<String>, NoMemory> {
    let mut words = Vec::new(alloc);
    for word in ["specparse", "page", "--preload", preload, "p", "d", "e"] {
        words.push(String::from_str(alloc, word)?)?;
    }
    Ok(words)
}

// What a run over files in memory with helpers comes to.
fn run_helped<R: Threads + Wait + Copy + Send + Sync + 'static, F: Outside + Drop + Send + 'static>(
    rt: &R,
    alloc: Global,
    preload: &str,
    files: &mut F,
    helpers: &mut Vec<F>,
) -> Result<(Status, MemSink), NoMemory> {
    let words = words_of(alloc, preload)?;
    let mut sink = MemSink::new(alloc, ROOM)?;
    let gate = Arc::new(alloc, OpenGate)?;
    let status = status_with_helpers(rt, alloc, &words, files, &mut sink, &gate, helpers);
    Ok((status, sink))
}

// Every call of a helper for a script fails.
const ALL_FAIL: [(Port, u64); 4] = [
    (Port::Script, 1),
    (Port::Script, 2),
    (Port::Script, 3),
    (Port::Script, 4),
];

#[test]
fn helpers_that_fail_change_nothing(rt: HostRuntime) -> Result<(), Fail> {
    let alloc = rt.alloc();
    let mut files = files_with(alloc, PAGE, "", &[])?;
    let mut helpers = Vec::new(alloc);
    helpers.push(files_with(alloc, PAGE, "", &ALL_FAIL)?)?;
    helpers.push(files_with(alloc, PAGE, "", &ALL_FAIL)?)?;
    let (status, sink) = run_helped(&rt, alloc, "2", &mut files, &mut helpers)?;
    assert_eq!(rt; status.exit(), 0);
    assert_eq!(rt; sink.bytes(), TREE.as_bytes());
    assert_eq!(rt; helpers.len(), 2);
    Ok(())
}

// The files of each role, with scripts that are empty.
fn paired_files(
    alloc: Global,
    role: Role,
    pairing: &Arc<Pairing, Global>,
) -> Result<PairedFiles<MemFiles>, NoMemory> {
    let files = files_with(alloc, PAGE, "", &[])?;
    Ok(PairedFiles::new(files, role, Arc::try_clone(pairing)?))
}

// The status of the page with files that read no script and two helpers that hold one another.
fn run_paired<R: Threads + Wait + Copy + Send + Sync + 'static>(
    rt: &R,
    alloc: Global,
    preload: &str,
) -> Result<Status, NoMemory> {
    let pairing = Arc::new(alloc, Pairing::new())?;
    let mut files = paired_files(alloc, Role::Own, &pairing)?;
    let mut helpers = Vec::new(alloc);
    helpers.push(paired_files(alloc, Role::First, &pairing)?)?;
    helpers.push(paired_files(alloc, Role::Second, &pairing)?)?;
    let (status, _sink) = run_helped(rt, alloc, preload, &mut files, &mut helpers)?;
    Ok(status)
}

#[test]
fn two_helpers_are_at_work_at_once(rt: HostRuntime) -> Result<(), Fail> {
    assert_eq!(rt; run_paired(&rt, rt.alloc(), "2")?.exit(), 0);
    Ok(())
}

// One alone gives up, and the run's own files read no script.
#[test]
fn one_helper_is_not_two(rt: HostRuntime) -> Result<(), Fail> {
    assert_eq!(rt; run_paired(&rt, rt.alloc(), "1")?.exit(), 7);
    assert_eq!(rt; run_paired(&rt, rt.alloc(), "0")?.exit(), 7);
    Ok(())
}

const WRITES_HELPER: &str = "document.write(\"helper\");";

const WRITES_OWN: &str = "document.write(\"own\");";

// What the page comes to where the files of a helper differ.
fn run_differing<R: Threads + Wait + Copy + Send + Sync + 'static>(
    rt: &R,
    alloc: Global,
    preload: &str,
) -> Result<(Status, MemSink), NoMemory> {
    let mut files = files_with(alloc, PAGE, WRITES_OWN, &[])?;
    let mut helpers = one_helper(alloc, PAGE, WRITES_HELPER)?;
    run_helped(rt, alloc, preload, &mut files, &mut helpers)
}

// The page whose scripts write that word.
fn text_with(alloc: Global, shown: &str) -> Result<String, NoMemory> {
    Ok(format!(in alloc;
        "tree \"<html><head><script src=\\\"a\\\"></script></head><body>{shown}<script src=\\\"b\\\"></script>{shown}</body></html>\"\n"
    )?)
}

// Where a helper's file differs it shows whose script ran.
#[test]
fn the_script_of_the_helper_runs(rt: HostRuntime) -> Result<(), Fail> {
    let alloc = rt.alloc();
    for (preload, shown) in [("1", "helper"), ("0", "own")] {
        let (status, sink) = run_differing(&rt, alloc, preload)?;
        assert_eq!(rt; status.exit(), 0);
        let text = text_with(alloc, shown)?;
        assert_eq!(rt; sink.bytes(), text.as_bytes());
    }
    Ok(())
}

// The first of its scripts is in no document, and never awaited.
const TEMPLATE_PAGE: &str =
    "<template><script src=\"a\"></script></template><script src=\"b\"></script>";

// Whether each of both scripts has arrived: none where the run isn't done.
fn arrivals_of<E: InForce>(report: &Report<E>) -> Option<(bool, bool)> {
    if report.outcome != Status::Done {
        return None;
    }
    match &report.side {
        Some(side) => Some((
            side.journal().find("a").is_some(),
            side.journal().find("b").is_some(),
        )),
        None => None,
    }
}

// What the run comes to. Of what it needs nothing is dropped here: what it promises is long.
fn arrivals_of_run<R: Threads + Wait + Copy + Send + Sync + 'static, E: InForce + Send + 'static>(
    rt: &R,
    alloc: Global,
    job: &Job<'_>,
    files: &mut MemFiles,
    sink: &mut MemSink,
    gate: &Arc<OpenGate, Global>,
    helpers: &mut Vec<MemFiles>,
) -> Option<(bool, bool)>
    requires table { job.now.table.now ≡ E.entities }
    requires piece { (0 < job.now.piece) × (job.now.piece ≤ 65536) }
    requires ahead { (0 < job.now.ahead) × (job.now.ahead ≤ 64) }
{
    let report = report_with_helpers::<R, E, _, _, OpenGate>(
        rt, alloc, job, files, sink, gate, helpers,
    );
    arrivals_of(&report)
}

// Runs that page with a helper, the entities of the table being those in force.
fn template_in_force<R: Threads + Wait + Copy + Send + Sync + 'static, E: InForce + Send + 'static>(
    rt: &R,
    alloc: Global,
    table: &Table,
    preload: usize,
) -> Result<(bool, bool), NoMemory>
    requires table { table.now ≡ E.entities }
{
    let path = path_of(alloc, "p")?;
    let folder = path_of(alloc, "d")?;
    let job = job_of(path, folder, table, 4096, preload);
    let mut files = files_with(alloc, TEMPLATE_PAGE, "", &[])?;
    let mut helpers = one_helper(alloc, TEMPLATE_PAGE, "")?;
    let mut sink = MemSink::new(alloc, ROOM)?;
    let gate = Arc::new(alloc, OpenGate)?;
    arrivals_of_run::<R, E>(rt, alloc, &job, &mut files, &mut sink, &gate, &mut helpers).ok_or(
        NoMemory,
    )
}

// The same, with no entities.
fn template_without<R: Threads + Wait + Copy + Send + Sync + 'static>(
    rt: &R,
    alloc: Global,
    table: &Table,
    preload: usize,
) -> Result<(bool, bool), NoMemory>
    requires table { table.now ≡ [] }
{
    template_in_force::<R, Brand>(rt, alloc, table, preload)
}

// What a helper answers arrives, though it isn't awaited; from the files comes what is awaited, and
// nothing else.
#[test]
fn an_early_answer_arrives_early(rt: HostRuntime) -> Result<(), Fail> {
    let alloc = rt.alloc();
    let table = no_entities(alloc)?;
    let (early, awaited) = template_without(&rt, alloc, &table, 1)?;
    assert!(rt; early);
    assert!(rt; awaited);
    let (early, awaited) = template_without(&rt, alloc, &table, 0)?;
    assert!(rt; !early);
    assert!(rt; awaited);
    Ok(())
}
