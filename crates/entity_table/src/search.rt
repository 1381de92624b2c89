//! The row of a name.

ghost use Rattle.std.specs.Prelude.{◌≡◌, ◌<◌, ◌≤◌, ◌≢◌, true, false, length, EachIndex, IfSome};
ghost use Rattle.std.specs.Prelude.{IsTrue};
ghost use Rattle.std.specs.List.Sorted.{IsPartitionedBy, IsPartitionPoint};
ghost use Rattle.entity_table.specs.Order.{AreInOrder, precedes};
ghost use Rattle.entity_table.specs.Parts.{name_at, row_names};

use crate::row::Row;

// How many names, from the first on, are below this one.
fn count_below(rows: &[Row], name: &str) -> usize
    ensures bound { result ≤ length rows.now }
    ensures place { IsPartitionedBy (precedes name.now) (row_names rows.now)
        → IsPartitionPoint (λ n. precedes name.now n ≡ true) (λ n. precedes name.now n ≡ false)
        (row_names rows.now) result }
{
    rows.partition_point(|row| row.name.as_str().cmp(name).is_lt())
}

// Whether the row at a place has this name.
fn is_at(rows: &[Row], place: usize, name: &str) -> bool
    ensures within { IsTrue result → place < length rows.now }
    ensures named { IsTrue result → name_at (row_names rows.now) place ≡ name.now }
    ensures other { result ≡ false → place < length rows.now
        → name_at (row_names rows.now) place ≢ name.now }
{
    match rows.get(place) {
        Some(row) => row.name.as_str() == name,
        None => false,
    }
}

/// The place of the row with this name: the one that is guessed, or else the one that a binary
/// search finds.
pub(crate) fn place_of(rows: &[Row], guess: usize, name: &str) -> Option<usize>
    ensures within { IfSome result (λ place. place < length rows.now) }
    ensures named { IfSome result (λ place. name_at (row_names rows.now) place ≡ name.now) }
    ensures none { AreInOrder (row_names rows.now) → result ≡ None
        → EachIndex (row_names rows.now) (λ k. name_at (row_names rows.now) k ≢ name.now) }
{
    if is_at(rows, guess, name) {
        return Some(guess);
    }
    let place = count_below(rows, name);
    if is_at(rows, place, name) {
        Some(place)
    } else {
        None
    }
}
