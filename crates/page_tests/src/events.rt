//! What the two sides did over a page, an event a line. A line has the event, the request's number,
//! its epoch, how many characters of the page stand before its text, the characters of its text,
//! and what became of a reply.
//!
//! The page is run in one thread. The document's side does the same events in the same order where
//! the parser's side is in a thread of its own; the parser's side takes and gives sooner or later
//! there.

use crate::exchange::{Asked, Step};
use crate::trace::{Fate, Row};
use crate::traced::{Paths, trace};
use html_types::NoMemory;
use outside::MemFiles;
use std::alloc::{AllocError, Global};
use std::test::Fail;

// A page with a script that is kept, one whose file is awaited, and one that fails. It is read 48
// bytes at a time, 4 requests ahead.
const PAGE: &[u8] =
    b"<p>one<script>document.write(\"<i>x</i>\");</script> two <script src=\"a\"></script>three<p>four <script>document.write(\"<b>\");</script> five six seven eight <p>nine";

// Its events, which were worked out. `bench/timeline` draws these lines.
const LINES: [&str; 45] = [
    "send 1 1 0 48",
    "send 2 1 48 48",
    "send 3 1 96 48",
    "send 4 1 144 17",
    "pick 1 1 0 48",
    "give 1 1 0 48",
    "pick 2 1 48 48",
    "give 2 1 48 48",
    "pick 3 1 96 48",
    "give 3 1 96 48",
    "pick 4 1 144 17",
    "give 4 1 144 17",
    "take 1 1 0 48 kept",
    "send 5 1 161 0",
    "pick 5 1 161 0",
    "give 5 1 161 0",
    "do 1 1 0 48",
    "take 2 1 48 48 kept",
    "do 2 1 48 48",
    "do 2 1 48 48",
    "do 2 1 48 48",
    "do 2 1 48 48",
    "arrive a",
    "do 2 1 48 48",
    "do 2 1 48 48",
    "take 3 1 96 48 kept",
    "do 3 1 96 48",
    "do 3 1 96 48",
    "send 6 2 132 12",
    "send 7 2 144 17",
    "pick 6 2 132 12",
    "give 6 2 132 12",
    "pick 7 2 144 17",
    "give 7 2 144 17",
    "take 4 1 144 17 dropped",
    "send 8 2 161 0",
    "pick 8 2 161 0",
    "give 8 2 161 0",
    "take 5 1 161 0 dropped",
    "take 6 2 132 12 kept",
    "do 6 2 132 12",
    "take 7 2 144 17 kept",
    "do 7 2 144 17",
    "take 8 2 161 0 kept",
    "do 8 2 161 0",
];

fn step_word(step: Step) -> &'static str {
    match step {
        Step::Send => "send",
        Step::Pick => "pick",
        Step::Give => "give",
        Step::Take => "take",
    }
}

// Behind a line.
fn fate_word(fate: Fate) -> &'static str {
    match fate {
        Fate::Kept => " kept",
        Fate::Dropped => " dropped",
    }
}

fn asked_line(alloc: Global, word: &str, asked: Asked, fate: &str) -> Result<String, AllocError> {
    let Asked {
        number,
        epoch,
        from,
        characters,
    } = asked;
    format!(in alloc; "{word} {number} {epoch} {from} {characters}{fate}")
}

fn line_of(alloc: Global, row: &Row) -> Result<String, AllocError> {
    match row {
        Row::Passed(passed) => asked_line(alloc, step_word(passed.step), passed.asked, ""),
        Row::Taken(asked, fate) => asked_line(alloc, "take", *asked, fate_word(*fate)),
        Row::Done(Some(asked)) => asked_line(alloc, "do", *asked, ""),
        Row::Done(None) => String::from_str(alloc, "do"),
        Row::Arrived(name) => format!(in alloc; "arrive {}", name.as_str()),
    }
}

fn files(alloc: Global) -> Result<MemFiles, NoMemory> {
    let mut files = MemFiles::new(alloc, &[])?;
    files.add("page.html", PAGE)?;
    files.add("./a", b"document.write(\"y\");")?;
    files.add("entities.json", b"{\"&amp;\":{\"codepoints\":[38]}}")?;
    Ok(files)
}

#[test]
fn a_page_has_its_events(rt: HostRuntime) -> Result<(), Fail> {
    let alloc = rt.alloc();
    let mut files = files(alloc)?;
    let paths = Paths {
        page: "page.html",
        dir: ".",
        entities: "entities.json",
    };
    let rows = trace(alloc, &mut files, paths, 48, 4)?;
    assert_eq!(rt; rows.len(), LINES.len());
    for (row, wanted) in rows.iter().zip(&LINES) {
        let line = line_of(alloc, row)?;
        assert_eq!(rt; line.as_str(), *wanted);
    }
    Ok(())
}
