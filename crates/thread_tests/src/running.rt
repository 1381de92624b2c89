//! Pages that are run on two threads, or on one.

use crate::calls::{job_of, path_of, status_in_place, status_with_helpers};
use crate::delays::{SlowFiles, SlowGate, SlowSink};
use crate::thread_pages::{ENTITIES, SCRIPTS};
use entity_table::{Table, TableFault};
use html_types::NoMemory;
use outside::{MemFiles, MemSink, Outside, Sink};
use page_runner::Status;
use std::alloc::Global;
use std::sync::{Arc, Wait};
use std::thread::Threads;

/// More bytes than a page of these writes.
pub const ROOM: usize = 100_000;

/// What a page comes to.
#[derive(Drop)]
pub struct Written {
    pub status: Status,
    pub sink: MemSink,
}

/// How a page is read and sent: the bytes of a read, how many requests go ahead of their replies,
/// and how many helpers fetch its scripts early.
#[derive(Clone, Copy)]
pub struct Sending {
    /// 1 to 65,536.
    pub piece: u32,
    /// 1 to 64.
    pub ahead: u32,
    /// 0 to 8.
    pub helpers: u32,
}

/// As it is where the command says nothing of it.
pub const DEFAULT: Sending = Sending {
    piece: 4096,
    ahead: 8,
    helpers: 0,
};

/// The page and its scripts, in memory.
pub fn files_of(alloc: Global, page: &str) -> Result<MemFiles, NoMemory> {
    let mut files = MemFiles::new(alloc, &[])?;
    files.add("e", ENTITIES.as_bytes())?;
    files.add("p", page.as_bytes())?;
    for (name, text) in &SCRIPTS {
        let path = format!(in alloc; "d/{name}")?;
        files.add(path.as_str(), text.as_bytes())?;
    }
    Ok(files)
}

/// The words of a run that sends so.
pub fn words_of(alloc: Global, sending: Sending) -> Result<Vec<String>, NoMemory> {
    let piece = format!(in alloc; "{}", sending.piece)?;
    let ahead = format!(in alloc; "{}", sending.ahead)?;
    let helpers = format!(in alloc; "{}", sending.helpers)?;
    let mut words = Vec::new(alloc);
    for word in [
        "specparse",
        "page",
        "--piece",
        piece.as_str(),
        "--ahead",
        ahead.as_str(),
        "--preload",
        helpers.as_str(),
        "p",
        "d",
        "e",
    ] {
        words.push(String::from_str(alloc, word)?)?;
    }
    Ok(words)
}

/// The entities in force.
pub fn table_of(alloc: Global) -> Result<Table, NoMemory> {
    match Table::read(alloc, ENTITIES.as_bytes()) {
        Ok(table) => Ok(table),
        // The text lists entities, so that memory alone can be wanting.
        Err(TableFault::NoMemory | TableFault::NotTable) => Err(NoMemory),
    }
}

/// Runs the page over the table on one thread, with the numbers that the command has where its
/// words say nothing of them.
pub fn run_in_place<F: Outside, K: Sink>(
    alloc: Global,
    table: &Table,
    files: &mut F,
    out: &mut K,
) -> Result<Status, NoMemory> {
    let path = path_of(alloc, "p")?;
    let folder = path_of(alloc, "d")?;
    let job = job_of(path, folder, table, 4096, 0);
    Ok(status_in_place(alloc, &job, files, out))
}

/// What the page comes to on one thread, without delays.
pub fn run_alone(alloc: Global, page: &str) -> Result<Written, NoMemory> {
    let table = table_of(alloc)?;
    let mut files = files_of(alloc, page)?;
    let mut sink = MemSink::new(alloc, ROOM)?;
    let status = run_in_place(alloc, &table, &mut files, &mut sink)?;
    Ok(Written { status, sink })
}

// So many helpers with files of that page, each with delays of its own.
fn slow_helpers(
    alloc: Global,
    page: &str,
    count: u32,
    seed: u64,
) -> Result<Vec<SlowFiles<MemFiles>>, NoMemory> {
    let mut helpers = Vec::new(alloc);
    for which in 0..count {
        let own = !seed ^ (u64::from(which) << 32);
        helpers.push(SlowFiles::new(files_of(alloc, page)?, own))?;
    }
    Ok(helpers)
}

/// What the page comes to on two threads and with helpers, with the delays of this seed.
pub fn run_slowly<R: Threads + Wait + Copy + Send + Sync + 'static>(
    rt: &R,
    alloc: Global,
    page: &str,
    sending: Sending,
    seed: u64,
) -> Result<Written, NoMemory> {
    let words = words_of(alloc, sending)?;
    let mut files = SlowFiles::new(files_of(alloc, page)?, seed);
    let mut out = SlowSink::new(MemSink::new(alloc, ROOM)?, seed);
    let gate = Arc::new(alloc, SlowGate { seed })?;
    let mut helpers = slow_helpers(alloc, page, sending.helpers, seed)?;
    let status = status_with_helpers(rt, alloc, &words, &mut files, &mut out, &gate, &mut helpers);
    Ok(Written {
        status,
        sink: out.sink,
    })
}
