//! Lists of pages over files and a sink in memory: what one page meets stops no other, and each
//! script is begun once.

use crate::calls::status_on_two;
use html_types::NoMemory;
use outside::{MemFiles, MemSink, OpenGate, Port};
use page_runner::Status;
use std::alloc::Global;
use std::sync::{Arc, Wait};
use std::test::Fail;
use std::thread::Threads;

// A list (none: there is no such file) of pages `p`, `q` and `r`, with the files of their scripts,
// the calls that fail, how many bytes the sink takes, how many calls are made at the port of the
// scripts, and the status and text that are wanted.
#[derive(Clone, Copy)]
struct ListRow {
    list: Option<&'static [u8]>,
    pages: &'static [(&'static str, &'static [u8])],
    scripts: &'static [(&'static str, &'static [u8])],
    entities: &'static str,
    fail: &'static [(Port, u64)],
    sink: usize,
    script_calls: u64,
    status: Status,
    text: &'static str,
}

const THREE: ListRow = ListRow {
    list: Some(b"p\nq\nr\n"),
    pages: &[("p", b""), ("q", b"\xFF"), ("r", b"")],
    scripts: &[],
    entities: "{}",
    fail: &[],
    sink: 100_000,
    script_calls: 0,
    status: Status::Done,
    text: "page \"p\"\ntree \"<html><head></head><body></body></html>\"\nstatus 0\npage \"q\"\nrefused bad-utf8\nstatus 4\npage \"r\"\ntree \"<html><head></head><body></body></html>\"\nstatus 0\n",
};

const AWAITING: &[(&str, &[u8])] = &[
    ("p", b"<script src=\"a\"></script>"),
    ("q", b"<script src=\"a\"></script>"),
];

// Nothing was written.
fn nothing(list: Option<&'static [u8]>, status: Status) -> ListRow {
    ListRow {
        list,
        status,
        text: "",
        ..THREE
    }
}

fn lists() -> [ListRow; 12] {
    [
        THREE,
        // Two pages that await a script which isn't there: it is begun once.
        ListRow {
            list: Some(b"p\nq"),
            pages: AWAITING,
            script_calls: 1,
            text: "page \"p\"\nmiss \"a\"\ntree \"<html><head><script src=\\\"a\\\"></script></head><body></body></html>\"\nstatus 0\npage \"q\"\nmiss \"a\"\ntree \"<html><head><script src=\\\"a\\\"></script></head><body></body></html>\"\nstatus 0\n",
            ..THREE
        },
        // One that can't be begun.
        ListRow {
            list: Some(b"p\nq"),
            pages: AWAITING,
            scripts: &[("a", b"")],
            fail: &[(Port::Script, 1)],
            script_calls: 1,
            text: "page \"p\"\nstatus 7\npage \"q\"\nstatus 7\n",
            ..THREE
        },
        // A page that can't be begun, between two that can, and one that can't be read on.
        ListRow {
            fail: &[(Port::Page, 3)],
            text: "page \"p\"\ntree \"<html><head></head><body></body></html>\"\nstatus 0\npage \"q\"\nstatus 7\npage \"r\"\ntree \"<html><head></head><body></body></html>\"\nstatus 0\n",
            ..THREE
        },
        ListRow {
            fail: &[(Port::Page, 2)],
            list: Some(b"p\np"),
            text: "page \"p\"\nstatus 7\npage \"p\"\ntree \"<html><head></head><body></body></html>\"\nstatus 0\n",
            ..THREE
        },
        // One that isn't there.
        ListRow {
            list: Some(b"s\np"),
            text: "page \"s\"\nstatus 9\npage \"p\"\ntree \"<html><head></head><body></body></html>\"\nstatus 0\n",
            ..THREE
        },
        nothing(Some(b""), Status::Done),
        nothing(Some(b"\n\n"), Status::List),
        nothing(Some(b"\xFF"), Status::List),
        nothing(None, Status::Absent),
        ListRow {
            fail: &[(Port::List, 1)],
            ..nothing(Some(b"p"), Status::ReadFault)
        },
        ListRow {
            entities: "[]",
            ..nothing(None, Status::Entities)
        },
    ]
}

fn files_of(alloc: Global, row: &ListRow) -> Result<MemFiles, NoMemory> {
    let mut files = MemFiles::new(alloc, row.fail)?;
    files.add("e", row.entities.as_bytes())?;
    if let Some(list) = row.list {
        files.add("l", list)?;
    }
    for (name, page) in row.pages {
        files.add(name, page)?;
    }
    for (name, script) in row.scripts {
        let path = format!(in alloc; "d/{name}")?;
        files.add(path.as_str(), script)?;
    }
    Ok(files)
}

// The words of the list `l`.
fn words_of(alloc: Global) -> Result<Vec<String>, NoMemory> {
    let mut words = Vec::new(alloc);
    for word in ["specparse", "batch", "l", "d", "e"] {
        words.push(String::from_str(alloc, word)?)?;
    }
    Ok(words)
}

// What a run of a list comes to.
#[derive(Drop)]
struct ListRun {
    status: Status,
    files: MemFiles,
    sink: MemSink,
}

fn run_row<R: Threads + Wait + Copy + Send + Sync + 'static>(
    rt: &R,
    alloc: Global,
    row: &ListRow,
    room: usize,
) -> Result<ListRun, NoMemory> {
    let mut files = files_of(alloc, row)?;
    let mut sink = MemSink::new(alloc, room)?;
    let words = words_of(alloc)?;
    let gate = Arc::new(alloc, OpenGate)?;
    let status = status_on_two(rt, alloc, &words, &mut files, &mut sink, &gate);
    Ok(ListRun {
        status,
        files,
        sink,
    })
}

// The first row that gives something else.
fn wrong<R: Threads + Wait + Copy + Send + Sync + 'static>(
    rt: &R,
    alloc: Global,
    rows: &[ListRow],
) -> Result<Option<usize>, NoMemory> {
    for (at, row) in rows.iter().enumerate() {
        let ran = run_row(rt, alloc, row, row.sink)?;
        let calls = ran.files.calls(Port::Script);
        if ran.status != row.status
            || ran.sink.bytes() != row.text.as_bytes()
            || calls != row.script_calls
        {
            return Ok(Some(at));
        }
    }
    Ok(None)
}

#[test]
fn lists_give_the_text_of_their_pages(rt: HostRuntime) -> Result<(), Fail> {
    let rows = lists();
    assert_eq!(rt; wrong(&rt, rt.alloc(), &rows)?, None);
    Ok(())
}

// A sink that fails leaves a front.
#[test]
fn a_sink_that_fails_takes_a_front_of_a_list(rt: HostRuntime) -> Result<(), Fail> {
    let text = THREE.text.as_bytes();
    for room in 0..text.len() {
        let ran = run_row(&rt, rt.alloc(), &THREE, room)?;
        assert!(rt; ran.status == Status::WriteFault, "{room}");
        assert!(rt; ran.sink.bytes() == &text[..room], "{room}");
    }
    Ok(())
}
