//! Runs in which something isn't there, or a call fails: which of several faults is answered, and
//! which isn't come to.

use crate::cases::WRITES_ITSELF;
use crate::rows::{
    CALM, Conditions, Row, Way, failing, page, scripted, wrong_as_met, wrong_at_a_piece,
};
use outside::Port;
use page_runner::{Limit, Status};
use std::test::Fail;

// Runs that end before the page is begun.
fn unbegun() -> [Row; 3] {
    [
        Row {
            page: None,
            status: Status::Absent,
            ..page(b"", Status::Done, "")
        },
        Row {
            entities: "[]",
            ..page(b"x", Status::Entities, "")
        },
        Row {
            entities: "{\"&amp;\":{\"codepoints\":[38,1,2]}}",
            ..page(b"x", Status::Entities, "")
        },
    ]
}

const EXTERNAL: &[u8] = b"<script src=\"a\"></script>x";

// The page's second read fails, which begins behind the script's end tag.
const SECOND_READ: Conditions<'static> = Conditions {
    piece: 25,
    fail: &[(Port::Page, 3)],
    ..CALM
};

fn faults() -> [Row; 9] {
    [
        Row {
            met: failing(&[(Port::Script, 1)]),
            status: Status::ReadFault,
            ..scripted(EXTERNAL, &[("a", b"")], "")
        },
        // The scripts write too much before the fault of the page is come to.
        Row {
            met: SECOND_READ,
            status: Status::Limit(Limit::Writes),
            ..scripted(EXTERNAL, &[("a", WRITES_ITSELF)], "refused writes\n")
        },
        Row {
            met: SECOND_READ,
            status: Status::ReadFault,
            ..scripted(EXTERNAL, &[("a", b"")], "")
        },
        // They write too much before the bad byte is come to.
        Row {
            status: Status::Limit(Limit::Writes),
            ..scripted(
                b"<script src=\"a\"></script>\xFF",
                &[("a", WRITES_ITSELF)],
                "refused writes\n",
            )
        },
        // What a script logs before the fault stands. The script's element is the first read's 65
        // bytes.
        Row {
            met: Conditions {
                piece: 65,
                ..SECOND_READ
            },
            ..page(
                b"<script>console.log(document.documentElement.outerHTML);</script>x",
                Status::ReadFault,
                "log 1 \"<html><head><script>console.log(document.documentElement.outerHTML);</script></head></html>\"\n",
            )
        },
        // The fault comes in the middle of a character.
        Row {
            met: Conditions {
                piece: 1,
                fail: &[(Port::Page, 3)],
                ..CALM
            },
            ..page(b"\xC3\xA9", Status::ReadFault, "")
        },
        // The page isn't begun, and the sink can't be finished.
        Row {
            met: Conditions {
                fail: &[(Port::Page, 1)],
                fails_to_finish: true,
                ..CALM
            },
            ..page(b"x", Status::WriteFault, "")
        },
        // The sink fails with the bad byte, and what was written before it stands.
        Row {
            met: Conditions { sink: 9, ..CALM },
            ..page(
                b"<script>foo();</script>\xFF",
                Status::WriteFault,
                "syntax 1\n",
            )
        },
        // A call that isn't made doesn't fail.
        Row {
            met: failing(&[(Port::Page, 4), (Port::Script, 4)]),
            ..scripted(
                EXTERNAL,
                &[("a", b"foo();")],
                "syntax 1\ntree \"<html><head><script src=\\\"a\\\"></script></head><body>x</body></html>\"\n",
            )
        },
    ]
}

// Which files of scripts are begun and read: the call that fails is made, or isn't.
fn counted() -> [Row; 21] {
    [
        // The file of `a` is begun, read, and read to its end.
        Row {
            status: Status::ReadFault,
            met: failing(&[(Port::Script, 3)]),
            ..scripted(
                b"<script src=\"a\"></script><script src=\"a\"></script>",
                &[("a", b"foo();")],
                "",
            )
        },
        Row {
            met: failing(&[(Port::Script, 4)]),
            ..scripted(
                b"<script src=\"a\"></script><script src=\"a\"></script>",
                &[("a", b"foo();")],
                "syntax 1\nsyntax 2\ntree \"<html><head><script src=\\\"a\\\"></script><script src=\\\"a\\\"></script></head><body></body></html>\"\n",
            )
        },
        Row {
            status: Status::ReadFault,
            met: failing(&[(Port::Script, 6)]),
            ..scripted(
                b"<script src=\"a\"></script><script src=\"b\"></script><script src=\"a\"></script><script src=\"b\"></script>",
                &[
                    ("a", b"foo();"),
                    ("b", b"document.getElementById(\"k\").remove();"),
                ],
                "syntax 1\n",
            )
        },
        Row {
            met: failing(&[(Port::Script, 7)]),
            ..scripted(
                b"<script src=\"a\"></script><script src=\"b\"></script><script src=\"a\"></script><script src=\"b\"></script>",
                &[
                    ("a", b"foo();"),
                    ("b", b"document.getElementById(\"k\").remove();"),
                ],
                "syntax 1\nthrow 2\nsyntax 3\nthrow 4\ntree \"<html><head><script src=\\\"a\\\"></script><script src=\\\"b\\\"></script><script src=\\\"a\\\"></script><script src=\\\"b\\\"></script></head><body></body></html>\"\n",
            )
        },
        Row {
            met: failing(&[(Port::Script, 4)]),
            ..scripted(
                b"<script>document.write(\"<script src=\\\"a\\\"><\\/script>\");</script><script src=\"a\"></script>",
                &[("a", b"foo();")],
                "syntax 2\nsyntax 3\ntree \"<html><head><script>document.write(\\\"<script src=\\\\\\\"a\\\\\\\"><\\\\/script>\\\");</script><script src=\\\"a\\\"></script><script src=\\\"a\\\"></script></head><body></body></html>\"\n",
            )
        },
        // A file that isn't there is begun once.
        Row {
            status: Status::ReadFault,
            met: failing(&[(Port::Script, 1)]),
            ..scripted(
                b"<script src=\"b\"></script><script src=\"b\"></script>",
                &[],
                "",
            )
        },
        Row {
            met: failing(&[(Port::Script, 2)]),
            ..scripted(
                b"<script src=\"b\"></script><script src=\"b\"></script>",
                &[],
                "miss \"b\"\nmiss \"b\"\ntree \"<html><head><script src=\\\"b\\\"></script><script src=\\\"b\\\"></script></head><body></body></html>\"\n",
            )
        },
        // No file is begun for these names.
        Row {
            met: failing(&[(Port::Script, 1)]),
            ..scripted(
                b"<script src=\"../b\"></script>",
                &[("a", b"")],
                "miss \"../b\"\ntree \"<html><head><script src=\\\"../b\\\"></script></head><body></body></html>\"\n",
            )
        },
        Row {
            met: failing(&[(Port::Script, 1)]),
            ..scripted(
                b"<script src=\".a\"></script>",
                &[("a", b"")],
                "miss \".a\"\ntree \"<html><head><script src=\\\".a\\\"></script></head><body></body></html>\"\n",
            )
        },
        Row {
            met: failing(&[(Port::Script, 1)]),
            ..scripted(
                b"<script src=\"a/b\"></script>",
                &[("a", b"")],
                "miss \"a/b\"\ntree \"<html><head><script src=\\\"a/b\\\"></script></head><body></body></html>\"\n",
            )
        },
        Row {
            met: failing(&[(Port::Script, 1)]),
            ..scripted(
                b"<script src=\"a?\"></script>",
                &[("a", b"")],
                "miss \"a?\"\ntree \"<html><head><script src=\\\"a?\\\"></script></head><body></body></html>\"\n",
            )
        },
        Row {
            met: failing(&[(Port::Script, 1)]),
            ..scripted(
                b"<script src=\"\xC3\xA9\"></script>",
                &[("a", b"")],
                "miss \"é\"\ntree \"<html><head><script src=\\\"é\\\"></script></head><body></body></html>\"\n",
            )
        },
        Row {
            met: failing(&[(Port::Script, 1)]),
            ..scripted(
                b"<script src=\"aaaaaaaaaaaaaaaaaaaaaaaaaaaaaaaaaaaaaaaaaaaaaaaaaaaaaaaaaaaaaaaaaaaaaaaaaaaaaaaaaaaaaaaaaaaaaaaaaaaaa\"></script>",
                &[("a", b"")],
                "miss \"aaaaaaaaaaaaaaaaaaaaaaaaaaaaaaaaaaaaaaaaaaaaaaaaaaaaaaaaaaaaaaaaaaaaaaaaaaaaaaaaaaaaaaaaaaaaaaaaaaaaa\"\ntree \"<html><head><script src=\\\"aaaaaaaaaaaaaaaaaaaaaaaaaaaaaaaaaaaaaaaaaaaaaaaaaaaaaaaaaaaaaaaaaaaaaaaaaaaaaaaaaaaaaaaaaaaaaaaaaaaaa\\\"></script></head><body></body></html>\"\n",
            )
        },
        // This one is lawful, and begun once.
        Row {
            status: Status::ReadFault,
            met: failing(&[(Port::Script, 1)]),
            ..scripted(
                b"<script src=\"aaaaaaaaaaaaaaaaaaaaaaaaaaaaaaaaaaaaaaaaaaaaaaaaaaaaaaaaaaaaaaaaaaaaaaaaaaaaaaaaaaaaaaaaaaaaaaaaaaaa\"></script>",
                &[],
                "",
            )
        },
        Row {
            met: failing(&[(Port::Script, 2)]),
            ..scripted(
                b"<script src=\"aaaaaaaaaaaaaaaaaaaaaaaaaaaaaaaaaaaaaaaaaaaaaaaaaaaaaaaaaaaaaaaaaaaaaaaaaaaaaaaaaaaaaaaaaaaaaaaaaaaa\"></script>",
                &[],
                "miss \"aaaaaaaaaaaaaaaaaaaaaaaaaaaaaaaaaaaaaaaaaaaaaaaaaaaaaaaaaaaaaaaaaaaaaaaaaaaaaaaaaaaaaaaaaaaaaaaaaaaa\"\ntree \"<html><head><script src=\\\"aaaaaaaaaaaaaaaaaaaaaaaaaaaaaaaaaaaaaaaaaaaaaaaaaaaaaaaaaaaaaaaaaaaaaaaaaaaaaaaaaaaaaaaaaaaaaaaaaaaa\\\"></script></head><body></body></html>\"\n",
            )
        },
        // Scripts that aren't run, or aren't reached.
        Row {
            met: failing(&[(Port::Script, 1)]),
            ..scripted(
                b"<script src=\"a\" async></script><script src=\"a\" type=\"x\"></script>",
                &[("a", b"foo();")],
                "tree \"<html><head><script src=\\\"a\\\" async=\\\"\\\"></script><script src=\\\"a\\\" type=\\\"x\\\"></script></head><body></body></html>\"\n",
            )
        },
        Row {
            met: failing(&[(Port::Script, 1)]),
            ..scripted(
                b"<template><script src=\"a\"></script></template>",
                &[("a", b"foo();")],
                "tree \"<html><head><template><script src=\\\"a\\\"></script></template></head><body></body></html>\"\n",
            )
        },
        Row {
            met: failing(&[(Port::Script, 1)]),
            ..scripted(
                b"<script src=\"a\">",
                &[("a", b"foo();")],
                "tree \"<html><head><script src=\\\"a\\\"></script></head><body></body></html>\"\n",
            )
        },
        Row {
            met: failing(&[(Port::Script, 1)]),
            ..scripted(
                b"<script>document.write(\"<!--\");</script><script src=\"a\"></script>-->",
                &[("a", b"foo();")],
                "tree \"<html><head><script>document.write(\\\"<!--\\\");</script><!--<script src=\\\"a\\\"></script>--></head><body></body></html>\"\n",
            )
        },
        Row {
            status: Status::BadUtf8,
            met: failing(&[(Port::Script, 1)]),
            ..scripted(
                b"\xFF<script src=\"a\"></script>",
                &[("a", b"foo();")],
                "refused bad-utf8\n",
            )
        },
        Row {
            met: failing(&[(Port::Script, 1)]),
            ..scripted(
                b"<div id=\"d\"><script>document.getElementById(\"d\").remove();</script><script src=\"a\"></script></div>",
                &[("a", b"foo();")],
                "tree \"<html><head></head><body></body></html>\"\n",
            )
        },
    ]
}

#[test]
fn what_is_not_there_is_told(rt: HostRuntime) -> Result<(), Fail> {
    assert_eq!(rt;
        wrong_as_met(&rt, rt.alloc(), &unbegun(), Way::OnTwo)?,
        None
    );
    Ok(())
}

#[test]
fn the_first_fault_is_answered(rt: HostRuntime) -> Result<(), Fail> {
    let rows = faults();
    assert_eq!(rt; wrong_as_met(&rt, rt.alloc(), &rows, Way::OnTwo)?, None);
    assert_eq!(rt; wrong_as_met(&rt, rt.alloc(), &rows, Way::InPlace)?, None);
    Ok(())
}

#[test]
fn files_are_read_once(rt: HostRuntime) -> Result<(), Fail> {
    let rows = counted();
    assert_eq!(rt; wrong_at_a_piece(&rt, rt.alloc(), &rows, Way::OnTwo)?, None);
    assert_eq!(rt;
        wrong_at_a_piece(&rt, rt.alloc(), &rows, Way::InPlace)?,
        None
    );
    Ok(())
}

// Its 41,944th write passes the limit, and its file is read once.
#[test]
fn a_script_that_writes_itself_is_refused(rt: HostRuntime) -> Result<(), Fail> {
    let row = Row {
        met: Conditions {
            piece: 7,
            ..failing(&[(Port::Script, 4)])
        },
        status: Status::Limit(Limit::Writes),
        ..scripted(
            b"<script src=\"a\"></script>",
            &[("a", WRITES_ITSELF)],
            "refused writes\n",
        )
    };
    assert_eq!(rt; wrong_as_met(&rt, rt.alloc(), &[row], Way::OnTwo)?, None);
    Ok(())
}
