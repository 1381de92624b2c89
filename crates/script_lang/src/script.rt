//! What a script's text says.

ghost use Rattle.std.specs.Prelude.{◌≡◌, ◌∷◌, ◌++◌, [], OnOk, OnErr};

use html_types::NoMemory;
use serial::Statement;
use std::alloc::Global;
use std::marker::Model;

/// The statements of a script's text, in order: a contract sees the list of them.
#[derive(Drop)]
pub struct Script {
    statements: Vec<Statement>,
}

impl Model for Script {
    ghost use Rattle.std.specs.Prelude.{List};
    ghost use Rattle.serial.specs.declared.script.Statement.{Statement};

    ghost Value = { List Statement };

    ghost view = { λ s. s.statements.items };
}

impl Script {
    /// No statements, which take no memory.
    pub(crate) fn new(alloc: Global) -> Script
        ensures { result ≡ [] }
    {
        Script {
            statements: Vec::new(alloc),
        }
    }

    /// Adds a statement at the end.
    pub(crate) fn push(&mut self, statement: Statement) -> Result<(), NoMemory>
        ensures ok { OnOk result (self.new ≡ self.old ++ statement ∷ []) }
        ensures err { OnErr result (self.new ≡ self.old) }
    {
        self.statements.push(statement)?;
        Ok(())
    }

    /// The statements as a slice.
    pub fn as_slice(&self) -> &[Statement]
        ensures { result.now ≡ self.now }
    {
        self.statements.as_slice()
    }
}
