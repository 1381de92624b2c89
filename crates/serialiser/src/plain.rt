//! Runs of characters that stand in the text of a tree as they are.

ghost use Rattle.std.specs.Prelude.{◌≡◌, ◌+◌, ◌++◌, Bool, flat_map, length, take};
ghost use Rattle.std.specs.Str.{chars, IsCharBoundary};
ghost use Rattle.serialiser.specs.Plain.{escaped_for, is_stop, plain_len};

// Whether a character that begins with the byte may be written otherwise. U+00A0 is C2 A0.
fn is_stop(byte: u8) -> bool
    ensures { result ≡ is_stop byte }
{
    byte == b'"' || byte == b'&' || byte == b'<' || byte == b'>' || byte == 0xc2
}

// How many bytes stand before the first such byte.
fn plain_len(bytes: &[u8]) -> usize
    ensures { result ≡ plain_len bytes.now }
{
    for (i, byte) in bytes.iter().enumerate() {
        if is_stop(*byte) {
            return i;
        }
    }
    bytes.len()
}

/// The characters of a text from a place on, up to the first that may be written otherwise in a
/// text or in an attribute's value.
pub(crate) fn plain_run(text: &str, from: usize) -> &str
    requires { IsCharBoundary text.now from }
    ensures plain { (in_value : Bool)
        → flat_map (escaped_for in_value) (chars result.now) ≡ chars result.now }
    ensures boundary { IsCharBoundary text.now (from + length result.now) }
    ensures front { chars (take (from + length result.now) text.now) ≡ chars (take from text.now)
        ++ chars result.now }
{
    let rest = &text[from..];
    &rest[..plain_len(rest.as_bytes())]
}
