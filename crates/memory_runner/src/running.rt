//! A page is run with its scripts.

ghost use Rattle.std.specs.Prelude.{◌≡◌, ◌<◌, ◌≤◌, [], codes, IfOk};
ghost use Rattle.std.specs.String.{string_bytes};
ghost use Rattle.page_turns.specs.Scripts.{folder_with};
ghost use Rattle.page_runner.specs.Answers.{PageAnswers};
ghost use Rattle.page_runner.specs.Manner.{manner};
ghost use Rattle.memory_runner.specs.Runs.{scripts_in, outcome_of, Runs};

use crate::keeper::Keeper;
use crate::scripts::{FOLDER, PAGE, Scripts, files_with};
use entity_table::Table;
use html_types::{NoMemory, Why};
use outside::{Outside, Sink};
use page_runner::{Limit, Status, page_in_place};
use page_turns::{End, Job};
use std::alloc::Global;

/// What came of a page that was run.
#[derive(Drop)]
pub struct Ran {
    pub outcome: End,
    /// What the program prints.
    pub text: Vec<u8>,
}

// What a parse came to whose run ended so.
fn outcome_of(status: Status) -> Option<End>
    ensures { result ≡ outcome_of status }
{
    match status {
        Status::Done => Some(End::Finished),
        Status::BadUtf8 => Some(End::Refused(Why::BadUtf8)),
        Status::Limit(Limit::Depth) => Some(End::Refused(Why::Depth)),
        Status::Limit(Limit::Writes) => Some(End::Refused(Why::Writes)),
        Status::Limit(Limit::Page) => Some(End::Refused(Why::Page)),
        _ => None,
    }
}

fn job_with(alloc: Global, table: &Table, dump: bool) -> Result<Job<'_>, NoMemory>
    ensures table { IfOk result (λ job. job.table.now ≡ table.now) }
    ensures page { IfOk result (λ job. string_bytes job.page ≡ codes "p") }
    ensures dir { IfOk result (λ job. string_bytes job.dir ≡ codes "s") }
    ensures dump { IfOk result (λ job. job.dump ≡ dump) }
    ensures piece { IfOk result (λ job. job.piece ≡ 65536) }
    ensures ahead { IfOk result (λ job. job.ahead ≡ 1) }
{
    let page = String::from_str(alloc, PAGE)?;
    let dir = String::from_str(alloc, FOLDER)?;
    Ok(Job {
        page,
        dir,
        table,
        piece: 65_536,
        ahead: 1,
        dump,
        preload: 0,
    })
}

// Lets a value go. Where a report ends in the function that has it, its proof spells out all of
// the report's parts; here they are those of the type, once.
fn let_go<T: Drop>(_value: T) {}

// How the page of that job ends. What else is told of it goes.
fn end_of<F: Outside, K: Sink>(alloc: Global, job: &Job<'_>, files: &mut F, out: &mut K) -> Status
    requires piece { (0 < job.now.piece) × (job.now.piece ≤ 65536) }
    requires ahead { (0 < job.now.ahead) × (job.now.ahead ≤ 64) }
    ensures { PageAnswers job.now.table.now (manner job.now.dump 0) (string_bytes job.now.page)
        (folder_with (string_bytes job.now.dir) []) (F.seen files.old) (F.seen files.new)
        (K.faults out.old) (K.faults out.new) (K.taken out.old) (K.taken out.new) result }
{
    let report = page_in_place(alloc, job, files, out);
    let outcome = report.outcome;
    let_go(report);
    outcome
}

/// Runs a page with these scripts: what the program prints of it, with the tree's text or its
/// dump. No other script is there.
pub fn run(
    alloc: Global,
    table: &Table,
    scripts: Scripts,
    page: &[u8],
    dump: bool,
) -> Result<Ran, NoMemory>
    ensures { IfOk result (λ ran. Runs table.now (scripts_in scripts) page.now dump ran) }
{
    let job = job_with(alloc, table, dump)?;
    let mut files = files_with(scripts, page)?;
    let mut out = Keeper::new(alloc);
    let end = end_of(alloc, &job, &mut files, &mut out);
    match outcome_of(end) {
        None => Err(NoMemory),
        Some(outcome) => Ok(Ran {
            outcome,
            text: out.bytes,
        }),
    }
}
