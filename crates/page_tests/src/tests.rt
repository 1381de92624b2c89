//! Pages that the rows over the built program don't have (`tests/rows`), at each size of read; and
//! words that aren't read.

use crate::rows::{Row, Way, is_usage, page, wrong_at_a_piece};
use page_runner::{Limit, Status};
use std::test::Fail;

fn pages() -> [Row; 4] {
    [
        Row {
            dump: true,
            ..page(
                b"<script>foo();</script>\xFF",
                Status::BadUtf8,
                "syntax 1\nrefused bad-utf8\n",
            )
        },
        page(
            b"<p>&notit; &ampx &CounterClockwiseContourIntegral &CounterClockwiseContourIntegral; &foo bar",
            Status::Done,
            "tree \"<html><head></head><body><p>¬it; &amp;x &amp;CounterClockwiseContourIntegral ∳ &amp;foo bar</p></body></html>\"\n",
        ),
        page(
            b"<p>&lt\r\n&not<i>&no&amp\x00&acE&notin\xC3\xA9&am",
            Status::Done,
            "tree \"<html><head></head><body><p>&lt;\\n¬<i>&amp;no&amp;&amp;acE¬iné&amp;am</i></p></body></html>\"\n",
        ),
        page(
            b"<template><basefont></p>x",
            Status::Done,
            "tree \"<html><head><template><basefont>x</template></head><body></body></html>\"\n",
        ),
    ]
}

#[test]
fn pages_give_their_trees(rt: HostRuntime) -> Result<(), Fail> {
    let rows = pages();
    assert_eq!(rt; wrong_at_a_piece(&rt, rt.alloc(), &rows, Way::OnTwo)?, None);
    Ok(())
}

#[test]
fn words_that_clap_refuses_are_usage(rt: HostRuntime) -> Result<(), Fail> {
    for piece in ["0", "65537", "x"] {
        assert!(rt; is_usage(&rt, rt.alloc(), piece)?, "{piece}");
    }
    Ok(())
}

// A limit is a status of its own.
#[test]
fn limits_have_one_exit(rt: HostRuntime) -> Result<(), Fail> {
    assert_eq!(rt; Status::Limit(Limit::Depth).exit(), 5);
    Ok(())
}
