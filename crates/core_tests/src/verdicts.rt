//! Pages whose scripts are known to keep what was parsed ahead of them, or to fail.

use crate::events::{KINDS, Kind};
use crate::running::{Page, Told, entities, run};
use entity_table::Table;
use html_types::{Ending, NoMemory, Why};
use std::alloc::Global;
use std::test::Fail;

// A page, what its body holds in the end, and how many of its scripts fail.
#[derive(Clone, Copy)]
struct Row {
    text: &'static str,
    body: &'static str,
    failed: u64,
}

const ROWS: [Row; 8] = [
    // Nodes were added, and the parser stands as before: two requests are sent, and no reply is
    // dropped.
    Row {
        text: "<p>a<script>document.write(\"<b>x</b>\");</script>b",
        body: "<p>a<script>document.write(\"<b>x</b>\");</script><b>x</b>b</p>",
        failed: 0,
    },
    Row {
        text: "<p>a<script>document.write(\"<b>x\");</script>b",
        body: "<p>a<script>document.write(\"<b>x\");</script><b>xb</b></p>",
        failed: 1,
    },
    // By frameset-ok alone.
    Row {
        text: "<div><script>document.write(\"x\");</script><frameset>",
        body: "<div><script>document.write(\"x\");</script>x</div>",
        failed: 1,
    },
    // The place of the x is decided when it is executed.
    Row {
        text: "<div><table id=\"t\"><script>document.getElementById(\"t\").remove();</script>x</table></div>",
        body: "<div>x</div>",
        failed: 0,
    },
    Row {
        text: "<div><table id=\"t\">x</table></div>",
        body: "<div>x<table id=\"t\"></table></div>",
        failed: 0,
    },
    // By the CR alone.
    Row {
        text: "<body>a<script>document.write(\"\\r\");</script>\nb",
        body: "a<script>document.write(\"\\r\");</script>\nb",
        failed: 1,
    },
    Row {
        text: "<body><script>document.write(\"<script src=\\\"a\\\"><\\/script>X\");document.write(\"Y\");</script>Z",
        body: "<script>document.write(\"<script src=\\\"a\\\"><\\/script>X\");document.write(\"Y\");</script><script src=\"a\"></script>QXYZ",
        failed: 0,
    },
    Row {
        text: "<div id=\"d\"><script>document.getElementById(\"d\").remove();</script></div>y",
        body: "y",
        failed: 0,
    },
];

// What comes of a page in one piece, all of which is sent before anything else is done.
fn run_whole(alloc: Global, table: &Table, text: &str) -> Result<Told, NoMemory> {
    let page = Page {
        text,
        cut: 10_000,
        ahead: 64,
        ending: Ending::End,
    };
    run(alloc, table, page, &[Kind::Send])
}

// Whether a page comes to that tree, by so many failed scripts: each time the rest of the page is
// sent again, and its ending, the reply to which was dropped.
fn gives(
    alloc: Global,
    table: &Table,
    text: &str,
    tree: &str,
    failed: u64,
) -> Result<bool, NoMemory> {
    let told = run_whole(alloc, table, text)?;
    let counted = told.dropped == failed
        && told.sent.saturating_sub(failed) == failed.saturating_add(2);
    Ok(counted && told.done && told.written.is("", tree))
}

fn gives_row(alloc: Global, table: &Table, row: Row) -> Result<bool, NoMemory> {
    let Row { text, body, failed } = row;
    let tree = format!(in alloc; "<html><head></head><body>{body}</body></html>")?;
    gives(alloc, table, text, tree.as_str(), failed)
}

#[test]
fn scripts_are_kept_or_fail(rt: HostRuntime) -> Result<(), Fail> {
    let alloc = rt.alloc();
    let table = entities(alloc)?;
    for row in &ROWS {
        assert!(rt; gives_row(alloc, &table, *row)?, "{}", row.text);
    }
    Ok(())
}

// Elements, more than may be open.
fn too_deep(alloc: Global, front: &str, back: &str) -> Result<String, NoMemory> {
    let mut text = String::from_str(alloc, front)?;
    for _ in 0..600u32 {
        text.push_str("<div>")?;
    }
    text.push_str(back)?;
    Ok(text)
}

#[test]
fn a_refusal_that_was_made_ahead_is_thrown_away(rt: HostRuntime) -> Result<(), Fail> {
    let alloc = rt.alloc();
    let page = too_deep(alloc, "<script>document.write(\"<!--\");</script>", "")?;
    let tree = too_deep(
        alloc,
        "<html><head><script>document.write(\"<!--\");</script><!--",
        "--></head><body></body></html>",
    )?;
    assert!(rt; gives(alloc, &entities(alloc)?, page.as_str(), tree.as_str(), 1)?);
    Ok(())
}

#[test]
fn endings_are_refused_with_their_reason(rt: HostRuntime) -> Result<(), Fail> {
    let alloc = rt.alloc();
    let table = entities(alloc)?;
    for (ending, why) in [
        (Ending::End, None),
        (Ending::Bad, Some(Why::BadUtf8)),
        (Ending::Long, Some(Why::Page)),
        (Ending::Fault, Some(Why::Fault)),
    ] {
        let page = Page {
            text: "<p>a",
            cut: 10_000,
            ahead: 8,
            ending,
        };
        let told = run(alloc, &table, page, &KINDS)?;
        assert!(rt; told.refused == why);
        assert_eq!(rt; told.done, why.is_none());
    }
    Ok(())
}
