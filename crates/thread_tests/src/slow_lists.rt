//! A list of pages over files and a sink whose calls take a while.

use crate::calls::status_on_two;
use crate::delays::{SlowFiles, SlowSink};
use crate::running::{files_of, run_alone};
use crate::thread_pages::PAGES;
use html_types::NoMemory;
use outside::{MemFiles, MemSink, OpenGate};
use page_runner::Status;
use std::alloc::Global;
use std::sync::{Arc, Wait};
use std::thread::Threads;

// How often each page stands in the list.
const TURNS: u32 = 10;

// More bytes than the list's pages write.
const ROOM: usize = 1_000_000;

// The paths of the pages, a line each, so often.
fn list_of(alloc: Global, turns: u32) -> Result<String, NoMemory> {
    let mut list = String::new(alloc);
    for _ in 0..turns {
        for number in 0..PAGES.len() {
            let line = format!(in alloc; "p{number}\n")?;
            list.push_str(line.as_str())?;
        }
    }
    Ok(list)
}

// The words of the list `l`.
fn words_of(alloc: Global) -> Result<Vec<String>, NoMemory> {
    let mut words = Vec::new(alloc);
    for word in ["specparse", "batch", "l", "d", "e"] {
        words.push(String::from_str(alloc, word)?)?;
    }
    Ok(words)
}

fn files_in(alloc: Global) -> Result<MemFiles, NoMemory> {
    let mut files = files_of(alloc, "")?;
    for number in 0..PAGES.len() {
        let path = format!(in alloc; "p{number}")?;
        files.add(path.as_str(), PAGES[number].as_bytes())?;
    }
    let list = list_of(alloc, TURNS)?;
    files.add("l", list.as_str().as_bytes())?;
    Ok(files)
}

// What is written of the page, by a run of it alone.
fn push_part(alloc: Global, text: &mut Vec<u8>, number: usize) -> Result<(), NoMemory> {
    let alone = run_alone(alloc, PAGES[number % PAGES.len()])?;
    let head = format!(in alloc; "page \"p{number}\"\n")?;
    let foot = format!(in alloc; "status {}\n", alone.status.exit())?;
    text.extend_from_slice(head.as_str().as_bytes())?;
    text.extend_from_slice(alone.sink.bytes())?;
    text.extend_from_slice(foot.as_str().as_bytes())?;
    Ok(())
}

fn text_of_each(alloc: Global) -> Result<Vec<u8>, NoMemory> {
    let mut text = Vec::new(alloc);
    for number in 0..PAGES.len() {
        push_part(alloc, &mut text, number)?;
    }
    Ok(text)
}

/// What the pages of the list write, one by one.
pub fn text_of_list(alloc: Global) -> Result<Vec<u8>, NoMemory> {
    let each = text_of_each(alloc)?;
    let mut text = Vec::new(alloc);
    for _ in 0..TURNS {
        text.extend_from_slice(&each)?;
    }
    Ok(text)
}

/// Whether a list of 200 pages, with the delays of this seed, is done and has this text.
pub fn is_same<R: Threads + Wait + Copy + Send + Sync + 'static>(
    rt: &R,
    alloc: Global,
    text: &[u8],
    seed: u64,
) -> Result<bool, NoMemory> {
    let words = words_of(alloc)?;
    let mut files = SlowFiles::new(files_in(alloc)?, seed);
    let mut out = SlowSink::new(MemSink::new(alloc, ROOM)?, seed);
    let gate = Arc::new(alloc, OpenGate)?;
    let status = status_on_two(rt, alloc, &words, &mut files, &mut out, &gate);
    Ok(status == Status::Done && out.sink.bytes() == text)
}
