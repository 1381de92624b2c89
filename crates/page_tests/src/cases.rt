//! Pages, with what comes of them where a call fails.

use crate::rows::{Row, page, scripted};
use page_runner::{Limit, Status};

/// A page, and what comes of it where a call fails.
#[derive(Clone, Copy)]
pub struct Case {
    pub row: Row,
    /// What stands written where the page's reading fails behind so many bytes or more. Nothing
    /// does behind fewer.
    pub fronts: &'static [(usize, &'static str)],
    /// Where the page's reading fails behind so many bytes or more, the parse ends before the
    /// fault.
    pub settled: usize,
    /// What stands written where the fetch of its script fails.
    pub unfetched: &'static str,
}

impl Case {
    /// What comes of the page where its reading fails behind so many bytes.
    pub fn behind(&self, bytes: usize) -> (Status, &'static str) {
        if self.settled <= bytes {
            return (self.row.status, self.row.text);
        }
        let mut written = "";
        for (from, front) in self.fronts {
            if *from <= bytes {
                written = *front;
            }
        }
        (Status::ReadFault, written)
    }
}

// A page that is parsed to its end only where no call fails, and whose script isn't fetched before
// its first line.
fn whole(row: Row, fronts: &'static [(usize, &'static str)]) -> Case {
    Case {
        row: Row {
            entities: "{\"&amp;\":{\"codepoints\":[38]}}",
            ..row
        },
        fronts,
        settled: usize::MAX,
        unfetched: "",
    }
}

/// An empty page, and a page with a script that writes one with a file.
pub fn written() -> [Case; 2] {
    [
        whole(
            page(
                b"",
                Status::Done,
                "tree \"<html><head></head><body></body></html>\"\n",
            ),
            &[],
        ),
        whole(
            scripted(
                b"<body><script>document.write(\"<script src=\\\"a\\\"><\\/script>X\");document.write(\"Y\");</script>Z",
                &[("a", b"document.write(\"Q\");")],
                "tree \"<html><head></head><body><script>document.write(\\\"<script src=\\\\\\\"a\\\\\\\"><\\\\/script>X\\\");document.write(\\\"Y\\\");</script><script src=\\\"a\\\"></script>QXYZ</body></html>\"\n",
            ),
            &[],
        ),
    ]
}

/// The same page, whose script in the file logs the tree besides, and a page with a script that a
/// file writes.
pub fn logged() -> [Case; 2] {
    [
        whole(
            scripted(
                b"<body><script>document.write(\"<script src=\\\"a\\\"><\\/script>X\");document.write(\"Y\");</script>Z",
                &[(
                    "a",
                    b"document.write(\"Q\");console.log(document.documentElement.outerHTML);",
                )],
                "log 2 \"<html><head></head><body><script>document.write(\\\"<script src=\\\\\\\"a\\\\\\\"><\\\\/script>X\\\");document.write(\\\"Y\\\");</script><script src=\\\"a\\\"></script>Q</body></html>\"\ntree \"<html><head></head><body><script>document.write(\\\"<script src=\\\\\\\"a\\\\\\\"><\\\\/script>X\\\");document.write(\\\"Y\\\");</script><script src=\\\"a\\\"></script>QXYZ</body></html>\"\n",
            ),
            &[(
                91,
                "log 2 \"<html><head></head><body><script>document.write(\\\"<script src=\\\\\\\"a\\\\\\\"><\\\\/script>X\\\");document.write(\\\"Y\\\");</script><script src=\\\"a\\\"></script>Q</body></html>\"\n",
            )],
        ),
        // The fourth byte and the fifth are one character.
        whole(
            scripted(
                b"<p>\xC3\xA9<script src=\"a\"></script><script>console.log(document.documentElement.outerHTML);</script>b",
                &[("a", b"document.write(\"<script>foo();<\\/script><b>\");")],
                "syntax 2\nlog 3 \"<html><head></head><body><p>é<script src=\\\"a\\\"></script><script>foo();</script><b><script>console.log(document.documentElement.outerHTML);</script></b></p></body></html>\"\ntree \"<html><head></head><body><p>é<script src=\\\"a\\\"></script><script>foo();</script><b><script>console.log(document.documentElement.outerHTML);</script>b</b></p></body></html>\"\n",
            ),
            &[
                (30, "syntax 2\n"),
                (
                    95,
                    "syntax 2\nlog 3 \"<html><head></head><body><p>é<script src=\\\"a\\\"></script><script>foo();</script><b><script>console.log(document.documentElement.outerHTML);</script></b></p></body></html>\"\n",
                ),
            ],
        ),
    ]
}

/// Pages with a script that isn't there, and with one whose name is unlawful.
pub fn missing() -> [Case; 2] {
    [
        whole(
            scripted(
                b"<script src=\"b\"></script>",
                &[],
                "miss \"b\"\ntree \"<html><head><script src=\\\"b\\\"></script></head><body></body></html>\"\n",
            ),
            &[(25, "miss \"b\"\n")],
        ),
        whole(
            scripted(
                b"<script src=\"../b\"></script>",
                &[],
                "miss \"../b\"\ntree \"<html><head><script src=\\\"../b\\\"></script></head><body></body></html>\"\n",
            ),
            &[(28, "miss \"../b\"\n")],
        ),
    ]
}

/// Pages with a bad byte at their end: behind a log, and behind a script that writes the beginning
/// of a comment.
pub fn bad() -> [Case; 2] {
    [
        // The bad byte is the 66th.
        Case {
            settled: 66,
            ..whole(
                page(
                    b"<script>console.log(document.documentElement.outerHTML);</script>\xFF",
                    Status::BadUtf8,
                    "log 1 \"<html><head><script>console.log(document.documentElement.outerHTML);</script></head></html>\"\nrefused bad-utf8\n",
                ),
                &[(
                    65,
                    "log 1 \"<html><head><script>console.log(document.documentElement.outerHTML);</script></head></html>\"\n",
                )],
            )
        },
        // The bad byte is the 41st.
        Case {
            settled: 41,
            ..whole(
                page(
                    b"<script>document.write(\"<!--\");</script>\xFF",
                    Status::BadUtf8,
                    "refused bad-utf8\n",
                ),
                &[],
            )
        },
    ]
}

/// A page with svg, with scripts behind it.
pub fn foreign() -> [Case; 1] {
    [Case {
        unfetched: "syntax 1\n",
        ..whole(
            scripted(
                b"<svg viewbox=\"0\"><foreignobject><p>a</svg><script>foo();</script><script src=\"a\"></script>b",
                &[("a", b"document.getElementById(\"k\").remove();")],
                "syntax 1\nthrow 2\ntree \"<html><head></head><body><svg viewBox=\\\"0\\\"><foreignObject><p>a<script>foo();</script><script src=\\\"a\\\"></script>b</p></foreignObject></svg></body></html>\"\n",
            ),
            &[(65, "syntax 1\n"), (90, "syntax 1\nthrow 2\n")],
        )
    }]
}

/// The file of a script: it writes that script again, 25 characters. The 41,944th write passes the
/// limit.
pub const WRITES_ITSELF: &[u8] = b"document.write(\"<script src=\\\"a\\\"><\\/script>\");";

/// A page with that script. No fault of the page behind its end tag is come to.
pub fn writes_itself() -> Case {
    Case {
        settled: 25,
        ..whole(
            Row {
                status: Status::Limit(Limit::Writes),
                ..scripted(
                    b"<script src=\"a\"></script>",
                    &[("a", WRITES_ITSELF)],
                    "refused writes\n",
                )
            },
            &[],
        )
    }
}
