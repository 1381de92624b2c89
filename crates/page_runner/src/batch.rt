// The command `batch`: the pages of a list.
ghost use Rattle.std.specs.Prelude.{◌≡◌, [], ◌∷◌, map, Some, IfOk, IfErr, IsTrue};
ghost use Rattle.std.specs.String.{string_bytes};
ghost use Rattle.outside.specs.Outside.{Rose, Begun, KeepsOthers};
ghost use Rattle.command_words.specs.Words.{for_batch, batch_shown};
ghost use Rattle.page_turns.specs.Calls.{EachWithin};
ghost use Rattle.page_turns.specs.Given.{ReadTo};
ghost use Rattle.page_batch.specs.declared.list.TheConstants.{LIST_LIMIT};
ghost use Rattle.page_runner.specs.Answers.{is_finished, Gives, StopsAtLimits, BeginsOnce};
ghost use Rattle.page_runner.specs.Batches.{ReadsList, ReadsNoList, answer_unlisted, RunsPaths};
ghost use Rattle.page_runner.specs.Batches.{ListedAnswers, ReadsListed, BatchAnswers};

use crate::command::{end_at_fault, end_without, read_entities, status_for};
use crate::status::Status;
use command_words::BatchWords;
use core_steps::Fetch;
use entity_table::Table;
use html_types::NoMemory;
use outside::{Outside, Port, Sink};
use page_batch::{LIST_LIMIT, ListFault, paths_of, run_list};
use page_turns::read_whole;
use speculation::InForce;
use std::alloc::Global;
use std::marker::Brand;
use std::thread::Threads;

/// Why there is no list of pages.
#[derive(Clone, Copy)]
pub(crate) enum Unlisted {
    NoMemory,
    /// There is no such file.
    Missing,
    /// Beginning or reading it failed.
    Faulted,
    /// The file is no list.
    NotList,
}

// Reads the list of pages.
fn read_list<F: Outside>(alloc: Global, files: &mut F, path: &str) -> Result<Vec<String>, Unlisted>
    ensures list { IfOk result (λ paths.
        ReadsList path.now (F.seen files.old) (F.seen files.new) (map string_bytes paths.items)) }
    ensures none { IfErr result (λ unlisted.
        ReadsNoList path.now (F.seen files.old) (F.seen files.new) unlisted) }
    ensures no_further { ReadTo LIST_LIMIT Port.List path.now
        (F.seen files.old) (F.seen files.new) }
    ensures within { EachWithin LIST_LIMIT Port.List (F.seen files.old) (F.seen files.new) }
    ensures begun { Begun ((F.seen files.old).begun Port.List) ((F.seen files.new).begun Port.List)
        (path.now ∷ []) }
    ensures others { KeepsOthers Port.List (F.seen files.old) (F.seen files.new) }
{
    let bytes = match read_whole(alloc, files, Port::List, path, LIST_LIMIT) {
        Err(NoMemory) => return Err(Unlisted::NoMemory),
        Ok(Fetch::Missing) => return Err(Unlisted::Missing),
        Ok(Fetch::Faulted) => return Err(Unlisted::Faulted),
        Ok(Fetch::Got(bytes)) => bytes,
    };
    match paths_of(alloc, &bytes) {
        Err(ListFault::NotList) => Err(Unlisted::NotList),
        Err(ListFault::NoMemory) => Err(Unlisted::NoMemory),
        Ok(paths) => Ok(paths),
    }
}

// There is no list, so no page is begun.
fn end_unlisted<K: Sink>(out: &mut K, unlisted: Unlisted) -> Status
    ensures gives { Gives (Rose (K.faults out.old) (K.faults out.new))
        (K.taken out.old) (K.taken out.new) (answer_unlisted unlisted) result }
    ensures clean { IsTrue (is_finished result) → IsTrue (K.clean out.new) }
{
    match unlisted {
        Unlisted::NoMemory => Status::NoMemory,
        Unlisted::Missing => Status::Absent,
        Unlisted::Faulted => end_at_fault(out),
        Unlisted::NotList => Status::List,
    }
}

// Runs the pages at the paths with the entities in force.
fn paths_in_force<R: Threads + Sync, E: InForce + Send, F: Outside, K: Sink>(
    rt: &R,
    alloc: Global,
    table: &Table,
    words: &BatchWords,
    paths: &[String],
    files: &mut F,
    out: &mut K,
) -> Status
    requires { table.now ≡ E.entities }
    ensures { RunsPaths table.now (string_bytes words.now.dir) (map string_bytes paths.now)
        (F.seen files.old) (F.seen files.new)
        (K.faults out.old) (K.faults out.new) (K.taken out.old) (K.taken out.new)
        (K.clean out.new) result }
{
    match run_list::<R, E, F, K>(rt, alloc, table, words.dir.as_str(), paths, files, out) {
        Err(failure) => status_for(failure),
        Ok(()) => Status::Done,
    }
}

// Runs the pages at the paths over the table.
fn run_paths<R: Threads + Sync, F: Outside, K: Sink>(
    rt: &R,
    alloc: Global,
    table: &Table,
    words: &BatchWords,
    paths: &[String],
    files: &mut F,
    out: &mut K,
) -> Status
    ensures { RunsPaths table.now (string_bytes words.now.dir) (map string_bytes paths.now)
        (F.seen files.old) (F.seen files.new)
        (K.faults out.old) (K.faults out.new) (K.taken out.old) (K.taken out.new)
        (K.clean out.new) result }
{
    paths_in_force::<R, Brand, F, K>(rt, alloc, table, words, paths, files, out)
}

// Reads the list, and runs its pages over the table.
fn run_listed<R: Threads + Sync, F: Outside, K: Sink>(
    rt: &R,
    alloc: Global,
    table: &Table,
    files: &mut F,
    out: &mut K,
    words: &BatchWords,
) -> Status
    ensures answer { ListedAnswers table.now
        (string_bytes words.now.list) (string_bytes words.now.dir)
        (F.seen files.old) (F.seen files.new)
        (K.faults out.old) (K.faults out.new) (K.taken out.old) (K.taken out.new) result }
    ensures reads { ReadsListed (string_bytes words.now.list) (string_bytes words.now.dir)
        (F.seen files.old) (F.seen files.new) }
    ensures clean { IsTrue (is_finished result) → IsTrue (K.clean out.new) }
{
    match read_list(alloc, files, words.list.as_str()) {
        Err(unlisted) => end_unlisted(out, unlisted),
        Ok(paths) => run_paths(rt, alloc, table, words, &paths, files, out),
    }
}

/// Reads the entities, and then the list, and runs its pages.
pub(crate) fn run_batch<R: Threads + Sync, F: Outside, K: Sink>(
    rt: &R,
    alloc: Global,
    files: &mut F,
    out: &mut K,
    words: &BatchWords,
) -> Status
    ensures answer { BatchAnswers (batch_shown words.now) (F.seen files.old) (F.seen files.new)
        (K.faults out.old) (K.faults out.new) (K.taken out.old) (K.taken out.new) result }
    ensures no_further { StopsAtLimits (Some (for_batch (batch_shown words.now)))
        (F.seen files.old) (F.seen files.new) }
    ensures begins { BeginsOnce (Some (for_batch (batch_shown words.now)))
        (F.seen files.old) (F.seen files.new) }
    ensures clean { IsTrue (is_finished result) → IsTrue (K.clean out.new) }
{
    match read_entities(alloc, files, words.entities.as_str()) {
        Err(unread) => end_without(out, unread),
        Ok(table) => run_listed(rt, alloc, &table, files, out, words),
    }
}
