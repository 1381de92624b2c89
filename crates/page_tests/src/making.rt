//! Pages that are made from a number.

use crate::calls::status_on_two;
use html_types::NoMemory;
use outside::{MemFiles, MemSink, OpenGate};
use page_runner::Status;
use std::alloc::Global;
use std::sync::{Arc, Wait};
use std::test::Fail;
use std::thread::Threads;

// The words behind `make`, how many bytes the sink takes, and the status and text that are wanted.
#[derive(Clone, Copy)]
struct Row {
    words: &'static [&'static str],
    sink: usize,
    status: Status,
    text: &'static str,
}

fn words(alloc: Global, texts: &[&str]) -> Result<Vec<String>, NoMemory> {
    let mut words = Vec::new(alloc);
    for text in ["specparse", "make"] {
        words.push(String::from_str(alloc, text)?)?;
    }
    for text in texts {
        words.push(String::from_str(alloc, text)?)?;
    }
    Ok(words)
}

// Whether the run answers and writes what is wanted. The files outside are none.
fn gives<R: Threads + Wait + Copy + Send + Sync + 'static>(
    rt: &R,
    alloc: Global,
    row: &Row,
) -> Result<bool, NoMemory> {
    let words = words(alloc, row.words)?;
    let mut files = MemFiles::new(alloc, &[])?;
    let mut sink = MemSink::new(alloc, row.sink)?;
    let gate = Arc::new(alloc, OpenGate)?;
    let status = status_on_two(rt, alloc, &words, &mut files, &mut sink, &gate);
    Ok(status == row.status && sink.bytes() == row.text.as_bytes())
}

fn made(words: &'static [&'static str], text: &'static str) -> Row {
    Row {
        words,
        sink: 100,
        status: Status::Done,
        text,
    }
}

fn usage(words: &'static [&'static str]) -> Row {
    Row {
        status: Status::Usage,
        ..made(words, "")
    }
}

// Pages of the items of each kind, at both ends of what NUMBER may be, and a sink that fails within
// the line.
fn pages() -> [Row; 9] {
    [
        made(
            &["1", "4"],
            "scripts 1 kept 1 failed 0 nodes 21 written 8\n",
        ),
        made(
            &["1", "9"],
            "scripts 5 kept 4 failed 1 nodes 43 written 35\n",
        ),
        made(
            &["7", "1000"],
            "scripts 515 kept 242 failed 273 nodes 3204 written 2715\n",
        ),
        made(&["0", "1"], "scripts 0 kept 0 failed 0 nodes 6 written 0\n"),
        made(
            &["2147483647", "1"],
            "scripts 0 kept 0 failed 0 nodes 6 written 0\n",
        ),
        // a script's file, whose text leaves the parser as it was
        made(
            &["30", "3"],
            "scripts 1 kept 1 failed 0 nodes 10 written 4\n",
        ),
        // the files' other script, which begins a comment
        made(&["5", "2"], "scripts 1 kept 0 failed 1 nodes 8 written 4\n"),
        made(
            &["26", "3"],
            "scripts 2 kept 0 failed 2 nodes 13 written 7\n",
        ),
        Row {
            sink: 10,
            status: Status::WriteFault,
            ..made(&["1", "4"], "scripts 1 ")
        },
    ]
}

// Words that aren't those of the command.
fn refused() -> [Row; 9] {
    [
        usage(&["2147483648", "1"]),
        usage(&["1", "0"]),
        usage(&["1", "50001"]),
        usage(&["1"]),
        usage(&[]),
        usage(&["1", "4", "4"]),
        usage(&["-1", "4"]),
        usage(&["1", "four"]),
        usage(&["--dump", "1", "4"]),
    ]
}

#[test]
fn made_pages(rt: HostRuntime) -> Result<(), Fail> {
    for row in &pages() {
        assert!(rt; gives(&rt, rt.alloc(), row)?);
    }
    for row in &refused() {
        assert!(rt; gives(&rt, rt.alloc(), row)?);
    }
    Ok(())
}
