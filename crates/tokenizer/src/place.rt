//! The characters at places of a text.

ghost use Rattle.std.specs.Prelude.{◌≡◌, ◌+◌, ◌<◌, ◌==◌, [], ◌∷◌, false, length, IfSome, IsTrue};
ghost use Rattle.std.specs.List.{list_any};
ghost use Rattle.std.specs.Str.{chars, IsCharBoundary};
ghost use Rattle.tokenizer.specs.Whole.{has_cr, piece};

// The ASCII character at a place; none at the end, or where another stands.
pub(crate) fn ascii_at(text: &str, place: usize) -> Option<char>
    requires { IsCharBoundary text.now place }
    ensures within { IfSome result (λ _. place < length text.now) }
    ensures boundary { IfSome result (λ _. IsCharBoundary text.now (place + 1)) }
    ensures read { IfSome result (λ c. piece text.now place (place + 1) ≡ c ∷ []) }
{
    let bytes = text.as_bytes();
    if place < bytes.len() && bytes[place] < 128 {
        Some(bytes[place] as char)
    } else {
        None
    }
}

// The place behind the character at a place, if it is of this kind.
pub(crate) fn past(text: &str, from: usize, kind: char) -> Option<usize>
    requires { IsCharBoundary text.now from }
    ensures boundary { IfSome result (λ to. IsCharBoundary text.now to) }
    ensures onward { IfSome result (λ to. from < to) }
    ensures next { IfSome result (λ to. to ≡ from + 1) }
    ensures read { IfSome result (λ to. piece text.now from to ≡ kind ∷ []) }
{
    let Some(c) = ascii_at(text, from) else {
        return None;
    };
    if c == kind { Some(from + 1) } else { None }
}

fn has_cr_byte(bytes: &[u8]) -> bool
    ensures { result ≡ list_any (λ x. x == 13) bytes.now }
{
    bytes.contains(&b'\r')
}

pub(crate) fn lacks_cr(text: &str) -> bool
    ensures { IsTrue result → has_cr (chars text.now) ≡ false }
{
    !has_cr_byte(text.as_bytes())
}
