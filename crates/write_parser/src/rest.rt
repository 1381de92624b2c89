//! Written text that isn't parsed yet.

ghost use Rattle.std.specs.Prelude.{◌≡◌, ◌↔◌, ◌++◌, [], IsTrue, OnOk, IfOk};
ghost use Rattle.std.specs.Str.{chars, IsCharBoundary};
ghost use Rattle.doc_changes.specs.Logs.{with_more};
ghost use Rattle.write_parser.specs.Made.{of_text};
ghost use Rattle.write_parser.specs.Parsing.{IsServed, TextParsed, RestParsed};

use doc_changes::Log;
use entity_table::Table;
use html_types::{NoMemory, Stop};
use op_exec::Doc;
use parse_machine::{Machine, Ran};
use std::alloc::Global;
use std::marker::Model;
use text_store::Ops;

/// A text whose front may be used: a contract sees the characters behind that.
#[derive(Drop)]
pub(crate) struct Rest {
    string: String,
    used: usize,
}

impl Model for Rest {
    ghost use Rattle.std.specs.Prelude.{List, ℕ, string_bytes, drop};
    ghost use Rattle.std.specs.Str.{chars, IsCharBoundary};

    ghost Value = { List ℕ };

    ghost view = { λ r. chars (drop r.used (string_bytes r.string)) };

    ghost invariant = { λ r. IsCharBoundary (string_bytes r.string) r.used };
}

/// Parses a text up to the first stop, and does the operations.
pub(crate) fn parse_text(
    alloc: Global,
    table: &Table,
    machine: &mut Machine,
    doc: &mut Doc,
    log: &mut Log,
    text: &str,
) -> Result<Ran, NoMemory>
    requires { IsServed machine.old doc.old }
    ensures parsed { IfOk result
        (λ ran. TextParsed table.now machine.old doc.old text.now machine.new doc.new ran) }
    ensures logged { OnOk result (log.new ≡ with_more
        (of_text table.now machine.old (chars text.now)) log.old) }
{
    let mut ops = Ops::new(alloc);
    let ran = machine.run(alloc, table, text, &mut ops)?;
    log.apply_all(doc, ops)?;
    Ok(ran)
}

impl Rest {
    /// No text, which takes no memory.
    pub fn new(alloc: Global) -> Rest
        ensures { result ≡ [] }
    {
        Rest {
            string: String::new(alloc),
            used: 0,
        }
    }

    /// Whether all is used.
    pub fn is_empty(&self) -> bool
        ensures { IsTrue result ↔ (self.now ≡ []) }
    {
        self.as_str().is_empty()
    }

    /// What isn't used.
    pub fn as_str(&self) -> &str
        ensures { chars result.now ≡ self.now }
    {
        &self.string[self.used..]
    }

    /// Adds text at the end.
    pub fn push_str(&mut self, text: &str) -> Result<(), NoMemory>
        ensures { OnOk result (self.new ≡ self.old ++ chars text.now) }
    {
        self.string.push_str(text)?;
        Ok(())
    }

    /// Puts another text in front.
    pub fn put_front(&mut self, mut front: Rest) -> Result<(), NoMemory>
        ensures { OnOk result (self.new ≡ front ++ self.old) }
    {
        if front.is_empty() {
            return Ok(());
        }
        front.push_str(self.as_str())?;
        *self = front;
        Ok(())
    }

    /// Parses it up to the first stop, and does the operations: what was parsed is used.
    pub fn parse(
        &mut self,
        alloc: Global,
        table: &Table,
        machine: &mut Machine,
        doc: &mut Doc,
        log: &mut Log,
    ) -> Result<Stop, NoMemory>
        requires { IsServed machine.old doc.old }
        ensures parsed { IfOk result
            (λ stop. RestParsed table.now machine.old doc.old self.old machine.new doc.new self.new
            stop) }
        ensures logged { OnOk result (log.new ≡ with_more
            (of_text table.now machine.old self.old) log.old) }
    {
        let ran = parse_text(alloc, table, machine, doc, log, &self.string[self.used..])?;
        self.used += ran.used;
        Ok(ran.stop)
    }
}
