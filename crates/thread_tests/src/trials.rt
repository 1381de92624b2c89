//! Pages of which one call is held.

use crate::calls::status_on_two;
use crate::held::{HeldFiles, HeldGate, HeldSink};
use crate::meeting::Meeting;
use crate::running::{DEFAULT, ROOM, files_of, run_in_place, table_of, words_of};
use html_types::NoMemory;
use outside::{MemFiles, MemSink};
use page_runner::Status;
use std::alloc::Global;
use std::sync::{Arc, Wait};
use std::thread::Threads;

/// Which call is held.
#[derive(Clone, Copy)]
pub enum Held {
    /// The fetch of the page's script.
    Fetch,
    /// The first write, of the line of the page's script.
    Write,
}

// The page of which that call is held: a script, and text for two requests.
fn held_page(alloc: Global, held: Held) -> Result<String, NoMemory> {
    let front = match held {
        Held::Fetch => "<script src=\"a\"></script>",
        Held::Write => "<script>console.log(document.documentElement.outerHTML);</script>",
    };
    let mut page = String::from_str(alloc, front)?;
    for _ in 0..5000u32 {
        page.push('x')?;
    }
    Ok(page)
}

// What a run begins with of which a call is held: the files of its page, a sink, and where the held
// call meets the gate.
#[derive(Drop)]
struct Trial {
    files: MemFiles,
    sink: MemSink,
    meeting: Arc<Meeting, Global>,
}

impl Trial {
    fn new(alloc: Global, held: Held) -> Result<Trial, NoMemory> {
        let page = held_page(alloc, held)?;
        Ok(Trial {
            files: files_of(alloc, page.as_str())?,
            sink: MemSink::new(alloc, ROOM)?,
            meeting: Arc::new(alloc, Meeting::new())?,
        })
    }

    // The gate that meets the call.
    fn gate(&self, alloc: Global) -> Result<Arc<HeldGate, Global>, NoMemory> {
        let meeting = Arc::try_clone(&self.meeting)?;
        Ok(Arc::new(alloc, HeldGate(meeting))?)
    }
}

fn run_held_fetch<R: Threads + Wait + Copy + Send + Sync + 'static>(
    rt: &R,
    alloc: Global,
    words: &[String],
    trial: Trial,
    gate: &Arc<HeldGate, Global>,
) -> Status {
    let mut files = HeldFiles::new(trial.files, trial.meeting);
    let mut sink = trial.sink;
    status_on_two(rt, alloc, words, &mut files, &mut sink, gate)
}

fn run_held_write<R: Threads + Wait + Copy + Send + Sync + 'static>(
    rt: &R,
    alloc: Global,
    words: &[String],
    trial: Trial,
    gate: &Arc<HeldGate, Global>,
) -> Status {
    let mut files = trial.files;
    let mut out = HeldSink::new(trial.sink, trial.meeting);
    status_on_two(rt, alloc, words, &mut files, &mut out, gate)
}

/// The status of a page on two threads, of which one call is held until the second reply was given,
/// and that reply's gate until the call was begun.
pub fn run_held<R: Threads + Wait + Copy + Send + Sync + 'static>(
    rt: &R,
    alloc: Global,
    held: Held,
) -> Result<Status, NoMemory> {
    let words = words_of(alloc, DEFAULT)?;
    let trial = Trial::new(alloc, held)?;
    let gate = trial.gate(alloc)?;
    Ok(match held {
        Held::Fetch => run_held_fetch(rt, alloc, &words, trial, &gate),
        Held::Write => run_held_write(rt, alloc, &words, trial, &gate),
    })
}

/// The same on one thread, which gives no second reply while the call is held.
pub fn run_held_in_place(alloc: Global, held: Held) -> Result<Status, NoMemory> {
    let table = table_of(alloc)?;
    let mut trial = Trial::new(alloc, held)?;
    match held {
        Held::Fetch => {
            let mut files = HeldFiles::new(trial.files, trial.meeting);
            run_in_place(alloc, &table, &mut files, &mut trial.sink)
        }
        Held::Write => {
            let mut out = HeldSink::new(trial.sink, trial.meeting);
            run_in_place(alloc, &table, &mut trial.files, &mut out)
        }
    }
}
