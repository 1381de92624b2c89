// The command `make`: a page is made from a number, parsed, and what that comes to in numbers is
// written.
ghost use Rattle.std.specs.Prelude.{◌≡◌, ◌<◌, ◌≤◌, ◌^◌, ◌++◌, [], codes, IfOk, OnOk, OnErr};
ghost use Rattle.std.specs.Prelude.{IsErrOf, IsTrue};
ghost use Rattle.std.specs.String.{string_bytes};
ghost use Rattle.std.specs.Prelude.{encode_utf8_all};
ghost use Rattle.outside.specs.Outside.{Rose};
ghost use Rattle.page_turns.specs.Taken.{Took, TookFront};
ghost use Rattle.page_maker.specs.Made.{made_page, made_scripts};
ghost use Rattle.page_runner.specs.Answers.{is_finished, Gives};
ghost use Rattle.page_runner.specs.Making.{tally_text, Adds, AreFilesOf, IsRefusal, IsRunOf, Makes};
ghost use Rattle.page_runner.specs.Making.{Tells};

use crate::command::status_for;
use crate::nowhere::Nowhere;
use crate::on_two::page_on_two;
use crate::report::Report;
use crate::running::let_go;
use crate::status::Status;
use command_words::MakeWords;
use core_steps::Tally;
use entity_table::Table;
use html_types::NoMemory;
use outside::{Failed, Gate, NeverFails, Sink};
use page_maker::{Made, MadeScript, make};
use page_turns::{Failure, Job, write_all};
use speculation::InForce;
use std::alloc::{AllocError, Global};
use std::marker::Brand;
use std::sync::{Arc, Wait};
use std::thread::Threads;

/// What came of the parse of the made page.
#[derive(Clone, Copy)]
pub(crate) enum MadeRun {
    /// It finished, with these numbers.
    Finished(Tally),
    /// It was refused, and the run ends so.
    Refused(Status),
}

// Adds the file of a script.
fn add_script(alloc: Global, files: &mut NeverFails, script: &MadeScript) -> Result<(), NoMemory>
    ensures { OnOk result
        (Adds (codes "scripts/" ++ encode_utf8_all script.now.name)
        (encode_utf8_all script.now.text) files.old files.new) }
{
    let name = script.name.as_str();
    let path = format!(in alloc; "scripts/{name}")?;
    files.add(path.as_str(), script.text.as_str().as_bytes())
}

// The files of a page: itself, and its scripts.
fn files_of(alloc: Global, made: &Made) -> Result<NeverFails, NoMemory>
    requires { made.now.scripts.items ≡ made_scripts }
    ensures { IfOk result (λ files. AreFilesOf (encode_utf8_all made.now.page) files) }
{
    let mut files = NeverFails::new(alloc);
    files.add("page", made.page.as_str().as_bytes())?;
    add_script(alloc, &mut files, &made.scripts[0])?;
    add_script(alloc, &mut files, &made.scripts[1])?;
    Ok(files)
}

// The line of the numbers.
fn tally_line(alloc: Global, tally: Tally) -> Result<String, AllocError>
    ensures { IfOk result (λ line. string_bytes line ≡ tally_text tally) }
{
    let Tally {
        scripts,
        kept,
        failed,
        nodes,
        written,
    } = tally;
    format!(in alloc;
        "scripts {scripts} kept {kept} failed {failed} nodes {nodes} written {written}\n"
    )
}

// Writes the line of the numbers, and finishes the sink.
fn write_tally<K: Sink>(alloc: Global, out: &mut K, tally: Tally) -> Result<(), Failure>
    ensures ok { OnOk result (Took (K.taken out.old) (K.taken out.new) (tally_text tally)) }
    ensures err { OnErr result (TookFront (K.taken out.old) (K.taken out.new) (tally_text tally)) }
    ensures clean { OnOk result (IsTrue (K.clean out.new)) }
    ensures write { IsErrOf result Failure.Write → Rose (K.faults out.old) (K.faults out.new) }
{
    let line = tally_line(alloc, tally)?;
    write_all(out, line.as_bytes())?;
    out.finish()?;
    Ok(())
}

// The same, and the status of the run.
fn end_finished<K: Sink>(alloc: Global, out: &mut K, tally: Tally) -> Status
    ensures gives { Gives (Rose (K.faults out.old) (K.faults out.new)) (K.taken out.old)
        (K.taken out.new) (Status.Done, tally_text tally) result }
    ensures clean { IsTrue (is_finished result) → IsTrue (K.clean out.new) }
{
    match write_tally(alloc, out, tally) {
        Ok(()) => Status::Done,
        Err(failure) => status_for(failure),
    }
}

// Nothing is written where the parse was refused, but the sink is finished.
fn end_refused<K: Sink>(out: &mut K, outcome: Status) -> Status
    requires { IsRefusal outcome }
    ensures gives { Gives (Rose (K.faults out.old) (K.faults out.new)) (K.taken out.old)
        (K.taken out.new) (outcome, []) result }
    ensures clean { IsTrue (is_finished result) → IsTrue (K.clean out.new) }
{
    match out.finish() {
        Ok(()) => outcome,
        Err(Failed) => Status::WriteFault,
    }
}

// Writes what the made page came to.
fn end_make<K: Sink>(alloc: Global, out: &mut K, words: MakeWords, run: MadeRun) -> Status
    requires { IsRunOf words run }
    ensures makes { Makes words (Rose (K.faults out.old) (K.faults out.new)) (K.taken out.old)
        (K.taken out.new) result }
    ensures clean { IsTrue (is_finished result) → IsTrue (K.clean out.new) }
{
    match run {
        MadeRun::Finished(tally) => end_finished(alloc, out, tally),
        MadeRun::Refused(outcome) => end_refused(out, outcome),
    }
}

// What came of the page, by its report.
fn run_of<E: InForce>(report: &Report<E>) -> Result<MadeRun, NoMemory>
    ensures { IfOk result (λ run. Tells report.now.outcome report.now.side run) }
{
    match report.outcome {
        Status::NoMemory => Err(NoMemory),
        Status::Done => match &report.side {
            Some(side) => {
                // What the journal replays to is known from here on.
                let _journal = side.journal();
                Ok(MadeRun::Finished(side.tally()))
            }
            None => Err(NoMemory),
        },
        outcome => Ok(MadeRun::Refused(outcome)),
    }
}

// Parses the page of these files.
fn parse_made<
    R: Threads + Wait + Copy + Send + Sync + 'static,
    E: InForce + Send + 'static,
    G: Gate + Drop + Send + Sync + 'static,
>(
    rt: &R,
    alloc: Global,
    table: &Table,
    files: &mut NeverFails,
    gate: &Arc<G, Global>,
    words: MakeWords,
) -> Result<MadeRun, NoMemory>
    requires table { (table.now ≡ []) × (E.entities ≡ []) }
    requires files { AreFilesOf (made_page words.number words.count) files.old }
    requires count { words.count ≤ 50000 }
    ensures { IfOk result (λ run. IsRunOf words run) }
{
    let job = Job {
        page: String::from_str(alloc, "page")?,
        dir: String::from_str(alloc, "scripts")?,
        table,
        piece: 4096,
        ahead: 8,
        dump: false,
        preload: 0,
    };
    let mut nowhere = Nowhere::new();
    let mut helpers = Vec::new(alloc);
    let report = page_on_two::<R, E, NeverFails, Nowhere, G>(
        rt,
        alloc,
        &job,
        files,
        &mut nowhere,
        gate,
        &mut helpers,
    );
    let run = run_of(&report);
    let_go(report);
    run
}

// The table of a file that lists no entity.
fn no_entities(alloc: Global) -> Result<Table, NoMemory>
    ensures { IfOk result (λ table. table ≡ []) }
{
    match Table::read(alloc, b"{}") {
        Ok(table) => Ok(table),
        Err(_) => Err(NoMemory),
    }
}

// Makes the page, and parses it.
fn make_and_parse<
    R: Threads + Wait + Copy + Send + Sync + 'static,
    G: Gate + Drop + Send + Sync + 'static,
>(rt: &R, alloc: Global, gate: &Arc<G, Global>, words: MakeWords) -> Result<MadeRun, NoMemory>
    requires number { words.number < 2 ^ 31 }
    requires count { words.count ≤ 50000 }
    ensures { IfOk result (λ run. IsRunOf words run) }
{
    let made = make(alloc, words.number, words.count)?;
    let mut files = files_of(alloc, &made)?;
    let table = no_entities(alloc)?;
    parse_made::<R, Brand, G>(rt, alloc, &table, &mut files, gate, words)
}

/// Makes the page that the words ask for, parses it, and writes what that comes to in numbers. It
/// is parsed from files in memory, in pieces of 4,096 bytes and at most 8 pieces ahead. The sink is
/// finished where the parse came to an end.
pub(crate) fn run_make<
    R: Threads + Wait + Copy + Send + Sync + 'static,
    K: Sink,
    G: Gate + Drop + Send + Sync + 'static,
>(rt: &R, alloc: Global, out: &mut K, gate: &Arc<G, Global>, words: MakeWords) -> Status
    requires number { words.number < 2 ^ 31 }
    requires count { words.count ≤ 50000 }
    ensures makes { Makes words (Rose (K.faults out.old) (K.faults out.new)) (K.taken out.old)
        (K.taken out.new) result }
    ensures clean { IsTrue (is_finished result) → IsTrue (K.clean out.new) }
{
    match make_and_parse(rt, alloc, gate, words) {
        Ok(run) => end_make(alloc, out, words, run),
        Err(NoMemory) => Status::NoMemory,
    }
}
