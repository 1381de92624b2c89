//! Where a name may stand among the rows, guessed from its bytes or from those of its front. A
//! guess is looked at before it is used, and a wrong one costs time alone: so no contract speaks of
//! them.

use crate::row::Row;
use std::alloc::{AllocError, Global};

// How many sums are told apart: some four for each name of the standard, and for each front of one.
const NAME_SUMS: usize = 8192;

const FRONT_SUMS: usize = 32768;

// The sum of a text with one more byte, or with an ASCII character.
fn sum_with(sum: usize, number: usize) -> usize {
    sum.wrapping_mul(5).wrapping_add(number)
}

// A number in which all bytes of a text have a part.
fn sum_of(text: &str) -> usize {
    let mut sum = 0_usize;
    for byte in text.as_bytes() {
        sum = sum_with(sum, usize::from(*byte));
    }
    sum
}

// Notes a row for a sum.
fn note(rows: &mut [usize], sum: usize, place: usize) {
    if let Some(guess) = rows.get_mut(sum) {
        *guess = place;
    }
}

// Notes a row for each front of its name.
fn note_fronts(rows: &mut [usize], name: &str, place: usize) {
    let mut sum = 0_usize;
    for byte in name.as_bytes() {
        sum = sum_with(sum, usize::from(*byte));
        note(rows, sum % FRONT_SUMS, place);
    }
}

/// For each sum the last row whose name, or a front of it, has it, and the first row where none
/// has.
#[derive(Drop)]
pub(crate) struct Guesses {
    names: Vec<usize>,
    fronts: Vec<usize>,
}

// The row that was noted for a sum.
fn noted(rows: &[usize], sum: usize) -> usize {
    match rows.get(sum) {
        Some(guess) => *guess,
        None => 0,
    }
}

impl Guesses {
    /// The guesses for these rows.
    pub(crate) fn new(alloc: Global, rows: &[Row]) -> Result<Guesses, AllocError> {
        let mut names = vec![in alloc; 0_usize; NAME_SUMS]?;
        let mut fronts = vec![in alloc; 0_usize; FRONT_SUMS]?;
        for (place, row) in rows.iter().enumerate() {
            let name = row.name.as_str();
            note(names.as_mut_slice(), sum_of(name) % NAME_SUMS, place);
            note_fronts(fronts.as_mut_slice(), name, place);
        }
        Ok(Guesses { names, fronts })
    }

    /// The row at which a name may stand.
    pub(crate) fn row_of(&self, name: &str) -> usize {
        noted(self.names.as_slice(), sum_of(name) % NAME_SUMS)
    }

    /// The row of a name that may begin with a text and a character behind it.
    pub(crate) fn row_of_front(&self, text: &str, c: char) -> usize {
        let sum = sum_with(sum_of(text), u32::from(c) as usize);
        noted(self.fronts.as_slice(), sum % FRONT_SUMS)
    }
}
