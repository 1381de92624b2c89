//! Where a run of plain text ends, for each mark at each place.

use char_class::first_mark;
use html_types::NoMemory;
use std::alloc::Global;
use std::test::Fail;

const MARKS: [u8; 4] = [b'\0', b'\r', b'&', b'<'];

// The most letters before a mark.
const MOST: usize = 200;

// That many letters, a mark, and as many letters and marks.
fn around(alloc: Global, mark: u8) -> Result<Vec<u8>, NoMemory> {
    let mut bytes = Vec::new(alloc);
    for _ in 0..MOST {
        bytes.push(b'x')?;
    }
    bytes.push(mark)?;
    for i in 0..MOST {
        bytes.push(if i % 3 == 0 { mark } else { b'x' })?;
    }
    Ok(bytes)
}

// Whether in each front of a text, whose first mark stands there, that mark is found, or the
// front's end.
fn is_found(text: &[u8], place: usize) -> bool {
    for length in 0..text.len() {
        if first_mark(&text[..length]) != place.min(length) {
            return false;
        }
    }
    true
}

#[test]
fn each_mark_is_found_at_each_place(rt: HostRuntime) -> Result<(), Fail> {
    for mark in MARKS {
        let bytes = around(rt.alloc(), mark)?;
        assert!(rt; bytes.len() > 2 * MOST);
        for place in 0..MOST + 1 {
            assert!(rt; is_found(&bytes[MOST - place..], place), "{mark} {place}");
        }
    }
    Ok(())
}
