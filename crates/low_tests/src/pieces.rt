//! Pages in two pieces: their texts, and how they end.

use html_types::{NoMemory, Text};
use std::alloc::Global;
use std::process::Abort;
use std::test::Fail;
use utf8_pieces::{Decoder, Ending};

// Reads a piece, and puts its text behind that of the pieces before.
fn feed(
    decoder: &mut Decoder,
    alloc: Global,
    text: &mut Text,
    piece: &[u8],
) -> Result<(), NoMemory> {
    let fed = decoder.feed(alloc, piece)?;
    text.push_str(fed.text.as_str())
}

fn close(decoder: &Decoder, fault: bool) -> Ending {
    decoder.close(fault)
}

// Reads two pieces of a page of at most 4 bytes, and compares its text and ending.
fn expect<R: Abort>(
    rt: &R,
    alloc: Global,
    pieces: (&[u8], &[u8]),
    fault: bool,
    wanted: (&str, Ending),
) -> Result<(), Fail> {
    let mut decoder = Decoder::new(alloc, 4);
    let mut text = Text::new(alloc);
    feed(&mut decoder, alloc, &mut text, pieces.0)?;
    feed(&mut decoder, alloc, &mut text, pieces.1)?;
    assert_eq!(rt; text.as_str(), wanted.0);
    assert!(rt; close(&decoder, fault) == wanted.1, "{}", wanted.0);
    Ok(())
}

#[test]
fn endings(rt: HostRuntime) -> Result<(), Fail> {
    let alloc = rt.alloc();
    expect(&rt, alloc, (b"ab", b"cd"), false, ("abcd", Ending::End))?;
    expect(&rt, alloc, (b"abcd", b"e"), false, ("abcd", Ending::Long))?;
    expect(
        &rt,
        alloc,
        (b"abc\xC3", b"\xA9"),
        false,
        ("abc", Ending::Long),
    )?;
    expect(&rt, alloc, (b"abc", b"d\xFF"), false, ("abcd", Ending::Bad))?;
    expect(
        &rt,
        alloc,
        (b"abcd", b"\xC3"),
        false,
        ("abcd", Ending::Long),
    )?;
    expect(&rt, alloc, (b"abc", b"\xC3"), false, ("abc", Ending::Bad))?;
    expect(&rt, alloc, (b"abc", b"\xC3"), true, ("abc", Ending::Fault))
}

#[test]
fn the_mark_is_dropped_once(rt: HostRuntime) -> Result<(), Fail> {
    let alloc = rt.alloc();
    expect(
        &rt,
        alloc,
        (b"\xEF\xBB", b"\xBFa"),
        false,
        ("a", Ending::End),
    )?;
    expect(
        &rt,
        alloc,
        (b"a", b"\xEF\xBB\xBF"),
        false,
        ("a\u{FEFF}", Ending::End),
    )
}
