//! Events in many orders: each gives the lines and the tree that were worked out, and stays within
//! the bounds.

use crate::events::{KINDS, Kind};
use crate::running::{Page, Told, entities, run};
use entity_table::Table;
use html_types::{Ending, NoMemory};
use rand_core::utils::NextWord;
use rand_pcg::Pcg32;
use std::alloc::Global;
use std::test::Fail;

// A part of a page's body, what comes of it, the lines of its scripts, and how many of them fail.
// All its elements are closed.
#[derive(Clone, Copy)]
struct Part {
    text: &'static str,
    body: &'static str,
    lines: &'static str,
    failed: u64,
}

const PARTS: [Part; 10] = [
    Part {
        text: "<p>a<script>document.write(\"<b>x</b>\");</script>b</p>",
        body: "<p>a<script>document.write(\"<b>x</b>\");</script><b>x</b>b</p>",
        lines: "",
        failed: 0,
    },
    // An element is left open.
    Part {
        text: "<p>c<script>document.write(\"<i>y\");</script>d</i></p>",
        body: "<p>c<script>document.write(\"<i>y\");</script><i>yd</i></p>",
        lines: "",
        failed: 1,
    },
    // The element is taken out, with all that comes into it behind the script.
    Part {
        text: "<div id=\"d\">e<script>document.getElementById(\"d\").remove();</script>f</div>g",
        body: "g",
        lines: "",
        failed: 0,
    },
    // A CR that a script wrote and the LF behind it are one newline.
    Part {
        text: "<p>h<script>document.write(\"\\r\");</script>\ni</p>",
        body: "<p>h<script>document.write(\"\\r\");</script>\ni</p>",
        lines: "",
        failed: 1,
    },
    Part {
        text: "<p>j<script src=\"a\"></script>k</p>",
        body: "<p>j<script src=\"a\"></script>Qk</p>",
        lines: "",
        failed: 0,
    },
    // The script that it writes is awaited before the rest that it wrote is parsed.
    Part {
        text: "<p><script>document.write(\"<script src=\\\"a\\\"><\\/script>X\");document.write(\"Y\");</script>Z</p>",
        body: "<p><script>document.write(\"<script src=\\\"a\\\"><\\/script>X\");document.write(\"Y\");</script><script src=\"a\"></script>QXYZ</p>",
        lines: "",
        failed: 0,
    },
    Part {
        text: "<p id=\"o\">m<script>console.log(document.getElementById(\"o\").outerHTML);</script>n</p>",
        body: "<p id=\"o\">m<script>console.log(document.getElementById(\"o\").outerHTML);</script>n</p>",
        lines: "log <p id=\"o\">m<script>console.log(document.getElementById(\"o\").outerHTML);</script></p>\n",
        failed: 0,
    },
    // The open elements have the names that they had, and one is another.
    Part {
        text: "<table><tr><td>1<script>document.write(\"</td><td>2\");</script>3</td></tr></table>",
        body: "<table><tbody><tr><td>1<script>document.write(\"</td><td>2\");</script></td><td>23</td></tr></tbody></table>",
        lines: "",
        failed: 1,
    },
    // The written text ends inside a reference, and inside a tag.
    Part {
        text: "<p><script>document.write(\"&am\");</script>p;<script>document.write(\"<i\");</script> class=\"k\">z</i></p>",
        body: "<p><script>document.write(\"&am\");</script>&amp;<script>document.write(\"<i\");</script><i class=\"k\">z</i></p>",
        lines: "",
        failed: 2,
    },
    Part {
        text: "<p><script>foo();</script>q<script src=\"../b\"></script>r</p>",
        body: "<p><script>foo();</script>q<script src=\"../b\"></script>r</p>",
        lines: "syntax\nmiss ../b\n",
        failed: 0,
    },
];

// A page of two parts, what is written of it, and how many of its scripts fail.
#[derive(Drop)]
struct Whole {
    text: String,
    tree: String,
    lines: String,
    failed: u64,
}

fn join_parts(alloc: Global, front: Part, back: Part) -> Result<Whole, NoMemory> {
    Ok(Whole {
        text: format!(in alloc; "<body>{}{}", front.text, back.text)?,
        tree: format!(in alloc;
            "<html><head></head><body>{}{}</body></html>",
            front.body, back.body
        )?,
        lines: format!(in alloc; "{}{}", front.lines, back.lines)?,
        failed: front.failed.saturating_add(back.failed),
    })
}

// Each of the first 50 numbers gives another page.
fn page_of(alloc: Global, number: u32) -> Result<Whole, NoMemory> {
    let front = (number % 10) as usize;
    let back = (number / 10 % 9) as usize;
    join_parts(alloc, PARTS[front], PARTS[(front + 1 + back) % 10])
}

fn draw_order(alloc: Global, random: &mut Pcg32) -> Result<Vec<Kind>, NoMemory> {
    let mut order = Vec::new(alloc);
    for _ in 0..500u32 {
        order.push(KINDS[(random.next_word() % 6) as usize])?;
    }
    Ok(order)
}

// Whether requests and dropped replies stay within the bounds, where so many scripts fail.
fn is_within_bounds(told: &Told, failed: u64, ahead: usize) -> bool {
    let most = told
        .pieces
        .saturating_add(1)
        .saturating_mul(failed.saturating_add(1));
    told.sent <= most && told.dropped <= failed.saturating_mul(ahead as u64)
}

// Whether the page comes to what is wanted by events in an order that is drawn, in pieces of so
// many characters at most.
fn gives(
    alloc: Global,
    table: &Table,
    wanted: &Whole,
    ahead: usize,
    random: &mut Pcg32,
) -> Result<bool, NoMemory> {
    let order = draw_order(alloc, random)?;
    let page = Page {
        text: wanted.text.as_str(),
        cut: (random.next_word() % 40) as usize,
        ahead,
        ending: Ending::End,
    };
    let told = run(alloc, table, page, order.as_slice())?;
    let same = told.written.is(wanted.lines.as_str(), wanted.tree.as_str());
    Ok(told.done && same && is_within_bounds(&told, wanted.failed, ahead))
}

#[test]
fn each_order_gives_the_serial_parse(rt: HostRuntime) -> Result<(), Fail> {
    let alloc = rt.alloc();
    let table = entities(alloc)?;
    let mut random = Pcg32::new(2026, 54);
    for number in 0..50u32 {
        let wanted = page_of(alloc, number)?;
        for ahead in [1, 2, 3, 64] {
            let given = gives(alloc, &table, &wanted, ahead, &mut random)?;
            assert!(rt; given, "{}, {ahead} ahead", wanted.text);
        }
    }
    Ok(())
}
