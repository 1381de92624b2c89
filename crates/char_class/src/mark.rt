//! Where a run of plain text ends.

ghost use Rattle.std.specs.Prelude.{◌≡◌, ◌≤◌, length};
ghost use Rattle.std.specs.List.{position_or_len};
ghost use Rattle.standard.specs.Class as classes;
ghost use Rattle.memchr.specs.Find.{is_byte3};

use memchr::{memchr, memchr3};

// So many bytes are looked through first, and then more and more: by two searches, of which the
// first may go on far behind what the second finds.
const FIRST: usize = 64;

// The place of the first `<`, `&` or CR, or the length.
#[tactic(auto, using(std::proofs::lemmas::Grind::common_steps, crate::proofs::Marks::places))]
fn first_but_nul(bytes: &[u8]) -> usize
    ensures place { result ≡ position_or_len (is_byte3 60 38 13) bytes.now }
    ensures within { result ≤ length bytes.now }
{
    match memchr3(b'<', b'&', b'\r', bytes) {
        Some(place) => place,
        None => bytes.len(),
    }
}

// The place of the first mark of a few bytes, or how many they are.
#[tactic(auto, using(std::proofs::lemmas::Grind::common_steps, crate::proofs::Marks::marks))]
fn mark_in(bytes: &[u8]) -> usize
    ensures place { result ≡ classes.first_mark bytes.now }
    ensures within { result ≤ length bytes.now }
{
    let end = first_but_nul(bytes);
    match memchr(b'\0', &bytes[..end]) {
        Some(nul) => nul,
        None => end,
    }
}

/// The place of the first `<`, `&`, NUL or CR, or the length where there is none. All that stands
/// before it, the data state emits as it is, and the input stream's treatment of newlines (13.2.3.5
/// #preprocessing-the-input-stream) leaves it alone.
pub fn first_mark(bytes: &[u8]) -> usize
    ensures { result ≡ classes.first_mark bytes.now }
{
    let mut passed = 0;
    let mut window = FIRST;
    'windows: while passed < bytes.len() {
        let behind = passed + window.min(bytes.len() - passed);
        let place = passed + mark_in(&bytes[passed..behind]);
        if place < behind {
            return place;
        }
        passed = behind;
        window = window.saturating_mul(8);
    }
    passed
}
