//! Reading the file of named character references.

ghost use Rattle.std.specs.Prelude.{◌≡◌, Some, None, IfOk, IfErr, option_map};
ghost use Rattle.std.specs.Prelude.{string_bytes};
ghost use Rattle.standard.specs.Entities.{is_name as is_named, code_point as code_in};
ghost use Rattle.standard.specs.Entities.{inner as inside, one_or_two as one_or_two_of};
ghost use Rattle.standard.specs.Entities.{characters_of, entity_of, entities_in, entities_of};
ghost use Rattle.std.specs.Prelude.{IsUtf8};
ghost use Rattle.std.specs.List.{list_all};
ghost use Rattle.std.specs.Char.{is_ascii_alphanumeric};
ghost use Rattle.serde_json.specs.Find.{as_object};
ghost use Rattle.serde_json.specs.Read.{read};
ghost use Rattle.serde_json.specs.View.{view, items_view, members_view};
ghost use Rattle.entity_table.specs.Order.{AreNames};
ghost use Rattle.entity_table.specs.Parts.{row_names};
ghost use Rattle.entity_table.specs.View.{characters_in, entity_in, rows_in};

use crate::row::{Characters, Row, ends_in_semicolon};
use crate::table::TableFault;
use serde_json::{Map, Value};
use std::alloc::Global;

fn inner(key: &[u8]) -> &[u8]
    ensures { result.now ≡ inside key.now }
{
    let end = if ends_in_semicolon(key) {
        key.len() - 1
    } else {
        key.len()
    };
    key.get(1..end).unwrap_or(&[])
}

fn all_alphanumeric(text: &[u8]) -> bool
    ensures { result ≡ list_all is_ascii_alphanumeric text.now }
{
    text.iter().all(|c| c.is_ascii_alphanumeric())
}

/// Whether it is spelt as a name.
pub(crate) fn is_name(key: &[u8]) -> bool
    ensures { result ≡ is_named key.now }
{
    let inner = inner(key);
    key.first() == Some(&b'&') && !inner.is_empty() && all_alphanumeric(inner)
}

fn code_point(value: &Value) -> Option<char>
    ensures { result ≡ code_in (view value.now) }
{
    char::from_u32(u32::try_from(value.as_u64()?).ok()?)
}

fn one_or_two(points: &[Value]) -> Option<Characters>
    ensures { option_map characters_in result ≡ one_or_two_of (items_view points.now) }
{
    match points {
        [] => None,
        [first] => Some(Characters {
            first: code_point(first)?,
            second: None,
        }),
        [first, second] => Some(Characters {
            first: code_point(first)?,
            second: Some(code_point(second)?),
        }),
        _ => None,
    }
}

fn characters(value: &Value) -> Option<Characters>
    ensures { option_map characters_in result ≡ characters_of (view value.now) }
{
    one_or_two(value.get("codepoints")?.as_array()?)
}

fn row(name: String, value: &Value) -> Option<Row>
    ensures { option_map entity_in result ≡ entity_of (string_bytes name) (view value.now) }
{
    if !is_name(name.as_bytes()) {
        return None;
    }
    let characters = characters(value)?;
    Some(Row { name, characters })
}

fn rows_of(alloc: Global, members: Map<String, Value>) -> Result<Vec<Row>, TableFault>
    ensures rows { IfOk result
        (λ v. entities_in (members_view members.entries) ≡ Some (rows_in v.items)) }
    ensures no_rows { result ≡ Err TableFault.NotTable
        → entities_in (members_view members.entries) ≡ None }
    ensures names { IfOk result (λ v. AreNames (row_names v.items)) }
{
    let mut rows = Vec::new(alloc);
    for (name, value) in members {
        let row = row(name, &value).ok_or(TableFault::NotTable)?;
        rows.push(row)?;
    }
    Ok(rows)
}

fn members_of(value: Value) -> Option<Map<String, Value>>
    ensures { option_map (λ m. members_view m.entries) result ≡ as_object (view value) }
{
    if let Value::Object(members) = value {
        Some(members)
    } else {
        None
    }
}

fn json(alloc: Global, bytes: &[u8]) -> Result<Value, TableFault>
    ensures value { IfOk result (λ v. IsUtf8 bytes.now × (read bytes.now ≡ Some (view v))) }
    ensures no_value { result ≡ Err TableFault.NotTable → IsUtf8 bytes.now → read bytes.now ≡ None }
{
    match Value::from_slice(alloc, bytes) {
        Ok(value) => Ok(value),
        Err(error) => if error.is_memory() {
            Err(TableFault::NoMemory)
        } else {
            Err(TableFault::NotTable)
        },
    }
}

/// The rows of the table that the file lists, in the order of their names.
pub(crate) fn rows(alloc: Global, bytes: &[u8]) -> Result<Vec<Row>, TableFault>
    ensures rows { IfOk result (λ v. entities_of bytes.now ≡ Some (rows_in v.items)) }
    ensures no_rows { result ≡ Err TableFault.NotTable → entities_of bytes.now ≡ None }
    ensures names { IfOk result (λ v. AreNames (row_names v.items)) }
{
    let value = json(alloc, bytes)?;
    let members = members_of(value).ok_or(TableFault::NotTable)?;
    rows_of(alloc, members)
}
