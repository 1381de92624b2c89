//! A table as bytes that are read quickly: writing them, and reading them.

ghost use Rattle.std.specs.Prelude.{◌≡◌, ◌++◌, ◌<◌, ◌^◌, [], ◌∷◌, Some, None, IfOk, IfErr, OnOk};
ghost use Rattle.std.specs.Prelude.{IfSome, MatchOption, option_map, string_bytes};
ghost use Rattle.std.specs.Char.{IsScalar};
ghost use Rattle.entity_table.specs.Order.{AreNames};
ghost use Rattle.entity_table.specs.Parts.{row_names};
ghost use Rattle.entity_table.specs.Prepared.{take_bytes, take_number, characters_at};
ghost use Rattle.entity_table.specs.Prepared.{take_characters, take_entity, take_above};
ghost use Rattle.entity_table.specs.Prepared.{entities_above, take_count, loaded};
ghost use Rattle.entity_table.specs.View.{characters_in, entity_in, entity_read, rows_in};
ghost use Rattle.entity_table.specs.Written.{number_bytes, number_of as number_in};
ghost use Rattle.entity_table.specs.Written.{characters_bytes, row_bytes, IsCharacter, IsWritable};

use crate::read::is_name;
use crate::row::{Characters, Row};
use crate::table::TableFault;
use html_types::NoMemory;
use std::alloc::{AllocError, Global};
use std::str::from_utf8;

// The first byte, with which no file begins.
const FORM: u8 = 1;

// The number of no character: one more than the last.
const NO_CHARACTER: u32 = 0x11_0000;

// A name and its characters, and the bytes behind them.
#[derive(Clone, Copy)]
pub(crate) struct Entry<'a> {
    pub(crate) name: &'a str,
    pub(crate) characters: Characters,
    pub(crate) behind: &'a [u8],
}

// So many bytes, and those behind them.
#[tactic(auto, unfolding(crate::specs::Prepared::take_bytes))]
fn front(bytes: &[u8], count: usize) -> Option<(&[u8], &[u8])>
    ensures { option_map (λ p. (p.0.now, p.1.now)) result ≡ take_bytes count bytes.now }
{
    if bytes.len() < count {
        return None;
    }
    let (front, behind) = bytes.split_at(count);
    Some((front, behind))
}

// A number, and the bytes behind it.
#[tactic(auto, unfolding(crate::specs::Prepared::take_number, crate::specs::Prepared::take_bytes))]
fn number(bytes: &[u8]) -> Option<(u32, &[u8])>
    ensures { option_map (λ p. (p.0, p.1.now)) result ≡ take_number bytes.now }
{
    let (four, behind) = bytes.split_first_chunk::<4>()?;
    Some((u32::from_le_bytes(*four), behind))
}

// The characters of those numbers.
fn characters_at(first: u32, second: u32) -> Option<Characters>
    ensures { option_map characters_in result ≡ characters_at first second }
{
    let first = char::from_u32(first)?;
    if second == NO_CHARACTER {
        return Some(Characters {
            first,
            second: None,
        });
    }
    Some(Characters {
        first,
        second: Some(char::from_u32(second)?),
    })
}

// One or two characters, and the bytes behind them.
#[tactic(auto, unfolding(crate::specs::Prepared::take_characters))]
fn characters(bytes: &[u8]) -> Option<(Characters, &[u8])>
    ensures { option_map (λ p. (characters_in p.0, p.1.now)) result ≡ take_characters bytes.now }
{
    let (first, others) = number(bytes)?;
    let (second, behind) = number(others)?;
    let characters = characters_at(first, second)?;
    Some((characters, behind))
}

// A name and its characters, and the bytes behind them.
#[tactic(auto, unfolding(crate::specs::Prepared::take_entity))]
fn entry_at(bytes: &[u8]) -> Option<Entry<'_>>
    ensures { option_map (λ e. (entity_read e, e.behind.now)) result ≡ take_entity bytes.now }
{
    let (size, named) = number(bytes)?;
    let (name, points) = front(named, size as usize)?;
    let (characters, behind) = characters(points)?;
    if !is_name(name) {
        return None;
    }
    match from_utf8(name) {
        Ok(name) => Some(Entry {
            name,
            characters,
            behind,
        }),
        Err(_) => None,
    }
}

// The row of an entry.
fn row(alloc: Global, entry: Entry<'_>) -> Result<Row, AllocError>
    ensures { IfOk result (λ r. entity_in r ≡ entity_read entry.entry) }
{
    let name = String::from_str(alloc, entry.name)?;
    Ok(Row {
        name,
        characters: entry.characters,
    })
}

// An entry whose name is above the one before it.
#[tactic(auto, unfolding(crate::specs::Prepared::take_above))]
fn entry_above<'a>(before: &[u8], bytes: &'a [u8]) -> Option<Entry<'a>>
    ensures { option_map (λ e. (entity_read e, e.behind.now)) result
        ≡ take_above before.now bytes.now }
{
    let entry = entry_at(bytes)?;
    if before.cmp(entry.name.as_bytes()).is_lt() {
        Some(entry)
    } else {
        None
    }
}

// So many rows, and nothing behind them.
fn rows_above(alloc: Global, count: u32, bytes: &[u8]) -> Result<Vec<Row>, TableFault>
    ensures rows { IfOk result (λ v. entities_above [] count bytes.now ≡ Some (rows_in v.items)) }
    ensures no_rows { result ≡ Err TableFault.NotTable → entities_above [] count bytes.now ≡ None }
    ensures names { IfOk result (λ v. AreNames (row_names v.items)) }
{
    let mut rows = Vec::new(alloc);
    let mut left = count;
    let mut before: &[u8] = &[];
    let mut rest = bytes;
    while left > 0 {
        let entry = entry_above(before, rest).ok_or(TableFault::NotTable)?;
        let row = row(alloc, entry)?;
        rows.push(row)?;
        before = entry.name.as_bytes();
        rest = entry.behind;
        left -= 1;
    }
    if rest.is_empty() {
        Ok(rows)
    } else {
        Err(TableFault::NotTable)
    }
}

// The number of the names, and the bytes behind it.
#[tactic(auto, unfolding(crate::specs::Prepared::take_count))]
fn counted(bytes: &[u8]) -> Option<(u32, &[u8])>
    ensures { option_map (λ p. (p.0, p.1.now)) result ≡ take_count bytes.now }
{
    let (form, behind) = bytes.split_first()?;
    if *form == FORM { number(behind) } else { None }
}

/// The rows that prepared bytes list, in the order of their names.
#[tactic(auto, unfolding(crate::specs::Prepared::loaded))]
pub(crate) fn rows(alloc: Global, bytes: &[u8]) -> Result<Vec<Row>, TableFault>
    ensures rows { IfOk result (λ v. loaded bytes.now ≡ Some (rows_in v.items)) }
    ensures no_rows { result ≡ Err TableFault.NotTable → loaded bytes.now ≡ None }
    ensures names { IfOk result (λ v. AreNames (row_names v.items)) }
{
    let (count, behind) = counted(bytes).ok_or(TableFault::NotTable)?;
    rows_above(alloc, count, behind)
}

// Adds a number; one that four bytes don't hold is want of memory.
#[tactic(auto, unfolding(crate::specs::Written::number_bytes))]
fn put_number(bytes: &mut Vec<u8>, number: usize) -> Result<(), NoMemory>
    ensures added { OnOk result (bytes.new.items ≡ bytes.old.items ++ number_bytes number) }
    ensures small { OnOk result (number < 2 ^ 32) }
{
    let short = u32::try_from(number).map_err(|_| NoMemory)?;
    bytes.extend_from_slice(&short.to_le_bytes())?;
    Ok(())
}

// The number of a character, or that of none.
fn number_of(character: Option<char>) -> u32
    ensures number { result ≡ number_in character }
    ensures is { IsCharacter character }
{
    match character {
        Some(c) => u32::from(c),
        None => NO_CHARACTER,
    }
}

// Adds the numbers of one or two characters.
#[tactic(auto, unfolding(crate::specs::Written::characters_bytes))]
fn put_characters(bytes: &mut Vec<u8>, characters: Characters) -> Result<(), NoMemory>
    ensures added { OnOk result
        (bytes.new.items ≡ bytes.old.items ++ characters_bytes characters) }
    ensures first { IsScalar characters.first }
    ensures second { IsCharacter characters.second }
{
    let second = number_of(characters.second);
    put_number(bytes, u32::from(characters.first) as usize)?;
    put_number(bytes, second as usize)
}

// Adds a row.
#[tactic(auto, unfolding(crate::specs::Written::row_bytes))]
fn put_row(bytes: &mut Vec<u8>, row: &Row) -> Result<(), NoMemory>
    ensures added { OnOk result (bytes.new.items ≡ bytes.old.items ++ row_bytes row.now) }
    ensures writable { OnOk result (IsWritable row.now) }
{
    let name = row.name.as_bytes();
    put_number(bytes, name.len())?;
    bytes.extend_from_slice(name)?;
    put_characters(bytes, row.characters)
}

/// The bytes of these rows.
pub(crate) fn bytes(alloc: Global, rows: &[Row]) -> Result<Vec<u8>, NoMemory>
    ensures { AreNames (row_names rows.now)
        → IfOk result (λ bytes. loaded bytes.items ≡ Some (rows_in rows.now)) }
{
    let mut bytes = Vec::new(alloc);
    bytes.push(FORM)?;
    put_number(&mut bytes, rows.len())?;
    for row in rows {
        put_row(&mut bytes, row)?;
    }
    Ok(bytes)
}
