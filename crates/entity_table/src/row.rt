//! One named character reference.

ghost use Rattle.std.specs.Prelude.{◌≡◌, ◌++◌, [], ◌∷◌, true, drop, string_bytes, IsTrue};
ghost use Rattle.standard.specs.Entities.{ends_in_semicolon as ends_in, is_front};
ghost use Rattle.entity_table.specs.Matches.{IsMatch};
ghost use Rattle.entity_table.specs.Parts.{is_below, is_up_to};
ghost use Rattle.entity_table.specs.View.{entity_in};

/// The one or two characters that a name stands for.
#[derive(Clone, Copy, PartialEq, Eq)]
pub struct Characters {
    pub first: char,
    pub second: Option<char>,
}

/// What was found: a name's length in characters, `&` and `;` counted, whether it ends in `;`, and
/// what it stands for.
#[derive(Clone, Copy, PartialEq, Eq)]
pub struct Match {
    pub length: usize,
    pub ends_in_semicolon: bool,
    pub characters: Characters,
}

/// A name, which begins with `&`, and its characters.
#[derive(Drop)]
pub(crate) struct Row {
    pub(crate) name: String,
    pub(crate) characters: Characters,
}

pub(crate) fn ends_in_semicolon(name: &[u8]) -> bool
    ensures { result ≡ ends_in name.now }
{
    name.last() == Some(&b';')
}

/// The row as a match.
pub(crate) fn as_match(row: &Row) -> Match
    ensures { IsMatch (entity_in row.now) result }
{
    let name = row.name.as_bytes();
    Match {
        length: name.len(),
        ends_in_semicolon: ends_in_semicolon(name),
        characters: row.characters,
    }
}

/// Whether the name ends at `depth` or goes on there below `c`.
pub(crate) fn goes_below(row: &Row, depth: usize, c: char) -> bool
    ensures { result ≡ is_below c (drop depth (string_bytes row.now.name)) }
{
    match row.name.as_bytes().get(depth) {
        Some(next) => char::from(*next) < c,
        None => true,
    }
}

/// Whether the name ends at `depth` or goes on there up to `c`.
pub(crate) fn goes_up_to(row: &Row, depth: usize, c: char) -> bool
    ensures { result ≡ is_up_to c (drop depth (string_bytes row.now.name)) }
{
    match row.name.as_bytes().get(depth) {
        Some(next) => char::from(*next) <= c,
        None => true,
    }
}

/// Whether the name begins with a text and goes on behind it with `c`.
pub(crate) fn goes_on(row: &Row, text: &str, c: char) -> bool
    ensures { IsTrue result → is_front (text.now ++ c ∷ []) (string_bytes row.now.name) ≡ true }
{
    let depth = text.len();
    row.name.as_bytes().starts_with(text.as_bytes())
        && !goes_below(row, depth, c)
        && goes_up_to(row, depth, c)
}
