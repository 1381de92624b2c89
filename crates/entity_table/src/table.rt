//! The table of all named character references.

ghost use Rattle.std.specs.Prelude.{◌≡◌, ℕ, List, [], ◌∷◌, ◌++◌, true, false, Some, None, IfOk};
ghost use Rattle.std.specs.Prelude.{IfErr, IfSome, IsTrue};
ghost use Rattle.std.specs.Str.{chars};
ghost use Rattle.standard.specs.Entities.{begins_some, entities_of, is_name, longest};
ghost use Rattle.entity_table.specs.Matches.{Tells};
ghost use Rattle.entity_table.specs.Order.{AreNames, entity_named};
ghost use Rattle.entity_table.specs.Parts.{row_names};
ghost use Rattle.entity_table.specs.Prepared.{loaded};
ghost use Rattle.entity_table.specs.View.{rows_in};

use crate::guess::Guesses;
use crate::row::{Match, Row, as_match, goes_on};
use crate::search::place_of;
use crate::{prepared, read};
use html_types::NoMemory;
use std::alloc::{AllocError, AllocFailed, Global};
use std::marker::Model;
use std::sync::Arc;

/// Why a file is no table.
#[derive(Clone, Copy, Debug, PartialEq, Eq)]
pub enum TableFault {
    /// The file isn't JSON, or isn't of the shape.
    NotTable,
    NoMemory,
}

impl From<AllocError> for TableFault {
    ghost use Rattle.std.specs.Prelude.{◌≡◌};
    ghost use Rattle.entity_table.specs.declared.table.TableFault.TheVariants as fault;

    ghost from_gives = { λ _ e. e ≡ fault.NoMemory };

    fn from(_error: AllocError) -> TableFault {
        TableFault::NoMemory
    }
}

impl<T: Drop> From<AllocFailed<T>> for TableFault {
    ghost use Rattle.std.specs.Prelude.{◌≡◌};
    ghost use Rattle.entity_table.specs.declared.table.TableFault.TheVariants as fault;

    ghost from_gives = { λ _ e. e ≡ fault.NoMemory };

    fn from(_error: AllocFailed<T>) -> TableFault {
        TableFault::NoMemory
    }
}

// The rows in the order of their names, and where a name may stand among them.
#[derive(Drop)]
struct Names {
    rows: Vec<Row>,
    guesses: Guesses,
}

/// The named character references, read once and shared since.
#[derive(Drop)]
pub struct Table {
    names: Arc<Names, Global>,
}

impl Model for Table {
    ghost use Rattle.std.specs.Arc.{arc_value};
    ghost use Rattle.standard.specs.Entities.{Entities};
    ghost use Rattle.entity_table.specs.Order.{AreNames};
    ghost use Rattle.entity_table.specs.Parts.{row_names};
    ghost use Rattle.entity_table.specs.View.{rows_in};

    ghost Value = { Entities };

    ghost view = { λ t. rows_in (arc_value t.names).rows.items };

    ghost invariant = { λ t. AreNames (row_names (arc_value t.names).rows.items) };
}

impl Table {
    /// The table that a file lists: an object whose keys are the names, each `&`, one or more ASCII
    /// letters and digits and perhaps `;`, and whose values are objects with `codepoints`, a list
    /// of one or two Unicode scalar values. Other members are ignored, and of equal keys the last
    /// counts.
    pub fn read(alloc: Global, bytes: &[u8]) -> Result<Table, TableFault>
        ensures table { IfOk result (λ t. entities_of bytes.now ≡ Some t) }
        ensures no_table { result ≡ Err TableFault.NotTable → entities_of bytes.now ≡ None }
    {
        let rows = read::rows(alloc, bytes)?;
        Table::of(alloc, rows)
    }

    /// The table that prepared bytes list, which takes a small part of the time in which `read`
    /// reads a file.
    pub fn load(alloc: Global, bytes: &[u8]) -> Result<Table, TableFault>
        ensures table { IfOk result (λ t. loaded bytes.now ≡ Some t) }
        ensures no_table { result ≡ Err TableFault.NotTable → loaded bytes.now ≡ None }
    {
        let rows = prepared::rows(alloc, bytes)?;
        Table::of(alloc, rows)
    }

    /// The bytes that `load` reads.
    pub fn prepare(&self, alloc: Global) -> Result<Vec<u8>, NoMemory>
        ensures { IfOk result (λ bytes. loaded bytes.items ≡ Some self.now) }
    {
        prepared::bytes(alloc, self.rows())
    }

    // The table of these rows.
    fn of(alloc: Global, rows: Vec<Row>) -> Result<Table, TableFault>
        requires { AreNames (row_names rows.items) }
        ensures table { IfOk result (λ t. t ≡ rows_in rows.items) }
        ensures no_table { IfErr result (λ fault. fault ≡ TableFault.NoMemory) }
    {
        let guesses = Guesses::new(alloc, rows.as_slice())?;
        let names = Arc::new(alloc, Names { rows, guesses })?;
        Ok(Table { names })
    }

    /// All rows, in the order of their names.
    pub(crate) fn rows(&self) -> &[Row]
        ensures rows { rows_in result.now ≡ self.now }
        ensures names { AreNames (row_names result.now) }
    {
        self.names.rows.as_slice()
    }

    /// What a name stands for, its `&` counted and its `;` if it has one; none where the text isn't
    /// a name of the table, or goes on behind one.
    pub fn find(&self, name: &str) -> Option<Match>
        ensures found { Tells (entity_named (chars name.now) self.now) result }
        // A text that is a name begins with no longer one.
        ensures longest { IfSome result (λ m. Tells (longest (chars name.now) self.now) (Some m)) }
        ensures named { IfSome result (λ _. is_name (chars name.now) ≡ true) }
    {
        let rows = self.rows();
        match place_of(rows, self.names.guesses.row_of(name), name) {
            Some(place) => Some(as_match(&rows[place])),
            None => None,
        }
    }

    /// Whether some name begins with a text and a character behind it. Where the answer is no, some
    /// name may begin so all the same, and a cursor tells.
    pub fn goes_on(&self, text: &str, c: char) -> bool
        ensures { IsTrue result → IsTrue (begins_some (chars text.now ++ c ∷ []) self.now) }
    {
        let rows = self.rows();
        match rows.get(self.names.guesses.row_of_front(text, c)) {
            Some(row) => goes_on(row, text, c),
            None => false,
        }
    }

    /// No name goes on behind a `;`.
    pub fn names_end_at_semicolons(&self)
        ensures { (text : List ℕ) (c : ℕ) → begins_some (text ++ 59 ∷ c ∷ []) self.now ≡ false }
    {
        let _rows = self.rows();
    }

    /// Another owner of the same table.
    pub fn copy(&self) -> Result<Table, NoMemory>
        ensures { IfOk result (λ t. t ≡ self.now) }
    {
        let names = Arc::try_clone(&self.names)?;
        Ok(Table { names })
    }
}
