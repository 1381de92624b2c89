//! The longest name that a text begins with, found while the text comes character by character.

ghost use Rattle.std.specs.Prelude.{◌≡◌, ℕ, List, [], ◌∷◌, ◌++◌, ◌+◌, ◌<◌, ◌≤◌, true, false};
ghost use Rattle.std.specs.Prelude.{length, IsTrue, ◌↔◌};
ghost use Rattle.std.specs.List.Sorted.{IsPartitionedBy, IsPartitionPoint};
ghost use Rattle.entity_table.specs.Order.{AreInOrder};
ghost use Rattle.entity_table.specs.Parts.{IsPart, is_below, is_up_to, rests, row_names};

use crate::row::{Match, Row, as_match, goes_below, goes_up_to};
use crate::table::Table;

/// The rows from `low` up to `high`.
#[derive(Clone, Copy)]
pub(crate) struct Part {
    pub(crate) low: usize,
    pub(crate) high: usize,
}

/// Where a text stands among the names of a table, while it is held: the part of the names that
/// begin with it, its length, and the longest name that it begins with.
#[derive(Clone, Copy)]
pub struct Cursor {
    part: Part,
    depth: usize,
    best: Option<Match>,
}

/// What a character makes of the text that is held.
#[derive(Clone, Copy, PartialEq, Eq)]
pub enum Step {
    /// Some name begins with the text.
    More,
    /// No name begins with it. The match is the longest name that the text before the character
    /// begins with.
    Stop(Option<Match>),
}

/// How many rows, from the first on, end at `depth` or go on there below `c`.
fn count_below(rows: &[Row], depth: usize, c: char) -> usize
    ensures bound { result ≤ length rows.now }
    ensures place { IsPartitionedBy (is_below c) (rests depth rows.now)
        → IsPartitionPoint (λ y. is_below c y ≡ true) (λ y. is_below c y ≡ false)
        (rests depth rows.now) result }
{
    rows.partition_point(|row| goes_below(row, depth, c))
}

/// How many rows, from the first on, end at `depth` or go on there up to `c`.
fn count_up_to(rows: &[Row], depth: usize, c: char) -> usize
    ensures bound { result ≤ length rows.now }
    ensures place { IsPartitionedBy (is_up_to c) (rests depth rows.now)
        → IsPartitionPoint (λ y. is_up_to c y ≡ true) (λ y. is_up_to c y ≡ false)
        (rests depth rows.now) result }
{
    rows.partition_point(|row| goes_up_to(row, depth, c))
}

/// Whether the first and the last row go on with `c` at `depth`, so that all do, as they are in
/// order.
fn all_go_on(rows: &[Row], depth: usize, c: char) -> bool
    ensures some { IsTrue result → 0 < length rows.now }
    ensures below { IsTrue result → IsPartitionedBy (is_below c) (rests depth rows.now)
        → IsPartitionPoint (λ y. is_below c y ≡ true) (λ y. is_below c y ≡ false)
        (rests depth rows.now) 0 }
    ensures up_to { IsTrue result → IsPartitionedBy (is_up_to c) (rests depth rows.now)
        → IsPartitionPoint (λ y. is_up_to c y ≡ true) (λ y. is_up_to c y ≡ false)
        (rests depth rows.now) (length rows.now) }
{
    if rows.is_empty() {
        return false;
    }
    let first = &rows[0];
    let last = &rows[rows.len() - 1];
    !goes_below(first, depth, c) && goes_up_to(last, depth, c)
}

/// The rows of the part that go on with `c` at `depth`.
fn narrow(rows: &[Row], part: Part, depth: usize, c: char) -> Part
    ensures ends { result.low ≤ result.high }
    ensures fits { result.high ≤ length rows.now }
    ensures inside { result.low < result.high → part.low < part.high }
    ensures part { (text : List ℕ) → AreInOrder (row_names rows.now)
        → (part.low < part.high → depth ≡ length text)
        → IsPart (row_names rows.now) text part.low part.high
        → IsPart (row_names rows.now) (text ++ c ∷ []) result.low result.high }
{
    let Some(within) = rows.get(part.low..part.high) else {
        return Part { low: 0, high: 0 };
    };
    if all_go_on(within, depth, c) {
        return part;
    }
    let below = count_below(within, depth, c);
    let up_to = count_up_to(within, depth, c);
    if below < up_to {
        Part {
            low: part.low + below,
            high: part.low + up_to,
        }
    } else {
        Part { low: 0, high: 0 }
    }
}

impl Cursor {
    ghost use Rattle.standard.specs.Entities.{Entities, begins_some, longest};
    ghost use Rattle.entity_table.specs.Held.{Holds, StopTells};
    ghost use Rattle.entity_table.specs.Matches.{Tells};
    ghost use Rattle.std.specs.Str.{chars};

    /// A cursor over the table that holds the empty text.
    pub fn new(table: &Table) -> Cursor
        ensures { Holds table.now result [] }
    {
        Cursor {
            part: Part {
                low: 0,
                high: table.rows().len(),
            },
            depth: 0,
            best: None,
        }
    }

    /// A cursor over the table that holds this text.
    pub fn over(table: &Table, text: &str) -> Cursor
        ensures { Holds table.now result (chars text.now) }
    {
        let mut cursor = Cursor::new(table);
        for c in text.chars() {
            let _ = cursor.push(table, c);
        }
        cursor
    }

    /// Holds one more character. The time doesn't depend on the text, and grows with the logarithm
    /// of the table's size.
    pub fn push(&mut self, table: &Table, c: char) -> Step
        ensures holds { (text : List ℕ) → Holds table.now self.old text
            → Holds table.now self.new (text ++ c ∷ []) }
        ensures more { (text : List ℕ) → Holds table.now self.old text
            → ((result ≡ Step.More) ↔ IsTrue (begins_some (text ++ c ∷ []) table.now)) }
        ensures stop { (text : List ℕ) → Holds table.now self.old text
            → StopTells (longest text table.now) result }
    {
        let rows = table.rows();
        let part = narrow(rows, self.part, self.depth, c);
        self.part = part;
        self.depth = self.depth.saturating_add(1);
        if part.low == part.high {
            return Step::Stop(self.best);
        }
        let first = &rows[part.low];
        if first.name.as_bytes().len() == self.depth {
            self.best = Some(as_match(first));
        }
        Step::More
    }

    /// The longest name that the text begins with.
    pub fn best(&self) -> Option<Match>
        ensures { (es : Entities) (text : List ℕ) → Holds es self.now text
            → Tells (longest text es) result }
    {
        self.best
    }
}
