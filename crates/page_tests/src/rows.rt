//! A run over files and a sink in memory.

use crate::calls::{job_of, path_of, status_in_place, status_on_two};
use entity_table::{Table, TableFault};
use html_types::NoMemory;
use outside::{MemFiles, MemSink, OpenGate, Port};
use page_runner::Status;
use std::alloc::Global;
use std::sync::{Arc, Wait};
use std::thread::Threads;

/// Which call runs a page.
#[derive(Clone, Copy)]
pub enum Way {
    /// `run`, by its words: on two threads.
    OnTwo,
    /// `page_in_place`, which begins with the page.
    InPlace,
}

/// What a run meets.
#[derive(Clone, Copy)]
pub struct Conditions<'a> {
    pub way: Way,
    /// The most bytes of a read of the page.
    pub piece: usize,
    /// The most bytes that a read gives, of whichever file.
    pub most: usize,
    /// The calls that fail.
    pub fail: &'a [(Port, u64)],
    /// How many bytes the sink takes, and whether it can't be finished.
    pub sink: usize,
    pub fails_to_finish: bool,
}

/// Nothing fails.
pub const CALM: Conditions<'static> = Conditions {
    way: Way::OnTwo,
    piece: 4096,
    most: 4096,
    fail: &[],
    sink: 100_000,
    fails_to_finish: false,
};

/// A run in which these calls fail.
pub fn failing(fail: &'static [(Port, u64)]) -> Conditions<'static> {
    Conditions { fail, ..CALM }
}

/// A page (none: there is no such file), the files of its scripts, the entities file, whether the
/// dump is asked for, what the run meets, and the status and text that are wanted.
#[derive(Clone, Copy)]
pub struct Row {
    pub page: Option<&'static [u8]>,
    pub scripts: &'static [(&'static str, &'static [u8])],
    pub entities: &'static str,
    pub dump: bool,
    pub met: Conditions<'static>,
    pub status: Status,
    pub text: &'static str,
}

// Names with and without `;`, one that another begins, and one that stands for two characters.
const ENTITIES: &str =
    "{\"&amp;\":{\"codepoints\":[38]},\"&amp\":{\"codepoints\":[38]},\"&lt;\":{\"codepoints\":[60]},\"&lt\":{\"codepoints\":[60]},\"&not;\":{\"codepoints\":[172]},\"&not\":{\"codepoints\":[172]},\"&notin;\":{\"codepoints\":[8713]},\"&nbsp;\":{\"codepoints\":[160]},\"&acE;\":{\"codepoints\":[8766,819]},\"&CounterClockwiseContourIntegral;\":{\"codepoints\":[8755]}}";

/// A run in which nothing fails.
pub fn page(page: &'static [u8], status: Status, text: &'static str) -> Row {
    Row {
        page: Some(page),
        scripts: &[],
        entities: ENTITIES,
        dump: false,
        met: CALM,
        status,
        text,
    }
}

/// A page with files of scripts, in whose run nothing fails, and which is parsed to its end.
pub fn scripted(
    html: &'static [u8],
    scripts: &'static [(&'static str, &'static [u8])],
    text: &'static str,
) -> Row {
    Row {
        scripts,
        ..page(html, Status::Done, text)
    }
}

fn add_scripts(alloc: Global, files: &mut MemFiles, row: &Row) -> Result<(), NoMemory> {
    for (name, bytes) in row.scripts {
        let path = format!(in alloc; "d/{name}")?;
        files.add(path.as_str(), bytes)?;
    }
    Ok(())
}

fn files(alloc: Global, row: &Row, met: &Conditions<'_>) -> Result<MemFiles, NoMemory> {
    let mut files = MemFiles::new(alloc, met.fail)?;
    files.limit(met.most.max(1));
    files.add("e", row.entities.as_bytes())?;
    if let Some(page) = row.page {
        files.add("p", page)?;
    }
    add_scripts(alloc, &mut files, row)?;
    Ok(files)
}

fn sink(alloc: Global, met: &Conditions<'_>) -> Result<MemSink, NoMemory> {
    let mut sink = MemSink::new(alloc, met.sink)?;
    if met.fails_to_finish {
        sink.fail_finish();
    }
    Ok(sink)
}

fn words(alloc: Global, piece: &str, dump: bool) -> Result<Vec<String>, NoMemory> {
    let mut words = Vec::new(alloc);
    for word in ["specparse", "page", "--piece", piece, "p", "d", "e"] {
        words.push(String::from_str(alloc, word)?)?;
    }
    if dump {
        words.push(String::from_str(alloc, "--dump")?)?;
    }
    Ok(words)
}

/// What a run answers, what its sink took, and the files, which tell how many calls were made.
#[derive(Drop)]
pub struct PageRun {
    pub files: MemFiles,
    pub sink: MemSink,
    pub status: Status,
}

impl PageRun {
    /// Whether the run answers and writes that.
    pub fn is(&self, status: Status, text: &[u8]) -> bool {
        self.status == status && self.sink.bytes() == text
    }
}

fn read_table(alloc: Global, entities: &str) -> Result<Table, TableFault> {
    Table::read(alloc, entities.as_bytes())
}

fn run_on_two<R: Threads + Wait + Copy + Send + Sync + 'static>(
    rt: &R,
    alloc: Global,
    piece: &str,
    dump: bool,
    files: &mut MemFiles,
    sink: &mut MemSink,
) -> Result<Status, NoMemory> {
    let words = words(alloc, piece, dump)?;
    let gate = Arc::new(alloc, OpenGate)?;
    Ok(status_on_two(rt, alloc, &words, files, sink, &gate))
}

fn run_in_place(
    alloc: Global,
    row: &Row,
    piece: usize,
    files: &mut MemFiles,
    sink: &mut MemSink,
) -> Result<Status, NoMemory> {
    let Ok(table) = read_table(alloc, row.entities) else {
        return Err(NoMemory);
    };
    let path = path_of(alloc, "p")?;
    let folder = path_of(alloc, "d")?;
    let job = job_of(path, folder, &table, piece, row.dump);
    Ok(status_in_place(alloc, &job, files, sink))
}

fn run_over<R: Threads + Wait + Copy + Send + Sync + 'static>(
    rt: &R,
    alloc: Global,
    row: &Row,
    met: &Conditions<'_>,
    files: &mut MemFiles,
    sink: &mut MemSink,
) -> Result<Status, NoMemory> {
    match met.way {
        Way::OnTwo => {
            let piece = format!(in alloc; "{}", met.piece)?;
            run_on_two(rt, alloc, piece.as_str(), row.dump, files, sink)
        }
        Way::InPlace => run_in_place(alloc, row, met.piece, files, sink),
    }
}

/// Runs the row's page under these conditions in place of its own.
pub fn run_row<R: Threads + Wait + Copy + Send + Sync + 'static>(
    rt: &R,
    alloc: Global,
    row: &Row,
    met: &Conditions<'_>,
) -> Result<PageRun, NoMemory> {
    let mut files = files(alloc, row, met)?;
    let mut sink = sink(alloc, met)?;
    let status = run_over(rt, alloc, row, met, &mut files, &mut sink)?;
    Ok(PageRun {
        files,
        sink,
        status,
    })
}

/// Whether the run answers and writes what is wanted.
pub fn gives<R: Threads + Wait + Copy + Send + Sync + 'static>(
    rt: &R,
    alloc: Global,
    row: &Row,
    met: &Conditions<'_>,
) -> Result<bool, NoMemory> {
    let ran = run_row(rt, alloc, row, met)?;
    Ok(ran.is(row.status, row.text.as_bytes()))
}

/// Whether the run answers and writes what is wanted, with reads of 1, of 7 and of 4,096 bytes.
pub fn gives_at_every_piece<R: Threads + Wait + Copy + Send + Sync + 'static>(
    rt: &R,
    alloc: Global,
    row: &Row,
    way: Way,
) -> Result<bool, NoMemory> {
    for piece in [1, 7, 4096] {
        let met = Conditions {
            way,
            piece,
            ..row.met
        };
        if !gives(rt, alloc, row, &met)? {
            return Ok(false);
        }
    }
    Ok(true)
}

/// The text of the first row that doesn't give what is wanted at every piece. None where each does.
pub fn wrong_at_a_piece<R: Threads + Wait + Copy + Send + Sync + 'static>(
    rt: &R,
    alloc: Global,
    rows: &[Row],
    way: Way,
) -> Result<Option<&'static str>, NoMemory> {
    for row in rows {
        if !gives_at_every_piece(rt, alloc, row, way)? {
            return Ok(Some(row.text));
        }
    }
    Ok(None)
}

/// The text of the first row that doesn't give what is wanted in what it meets. None where each
/// does.
pub fn wrong_as_met<R: Threads + Wait + Copy + Send + Sync + 'static>(
    rt: &R,
    alloc: Global,
    rows: &[Row],
    way: Way,
) -> Result<Option<&'static str>, NoMemory> {
    for row in rows {
        if !gives(rt, alloc, row, &Conditions { way, ..row.met })? {
            return Ok(Some(row.text));
        }
    }
    Ok(None)
}

/// Whether a run with that number of bytes a read is refused for its words, and writes nothing.
pub fn is_usage<R: Threads + Wait + Copy + Send + Sync + 'static>(
    rt: &R,
    alloc: Global,
    piece: &str,
) -> Result<bool, NoMemory> {
    let row = page(b"", Status::Usage, "");
    let mut files = files(alloc, &row, &CALM)?;
    let mut sink = sink(alloc, &CALM)?;
    let status = run_on_two(rt, alloc, piece, false, &mut files, &mut sink)?;
    Ok(status == row.status && sink.bytes().is_empty())
}
