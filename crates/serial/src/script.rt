//! The statements of scripts, and the lines that a parse gives.

ghost use Rattle.std.specs.Prelude.{◌≡◌, ◌∷◌, ◌++◌, [], OnOk, OnErr};

use html_types::{NoMemory, Text};
use std::alloc::Global;
use std::marker::Model;

/// A statement of a script. A text in it is the value of its JSON string.
#[derive(Drop)]
pub enum Statement {
    /// `document.write("V");`
    Write(Text),
    /// `document.writeln("V");`
    WriteLine(Text),
    /// `document.getElementById("V").remove();`
    Remove(Text),
    /// `document.getElementById("V").append(document.getElementById("W"));`: the second element
    /// comes last among the first one's children.
    Append(Text, Text),
    /// `document.getElementById("V").innerHTML = "W";`: the element's children (a template's: its
    /// contents' children) are taken out, and those of the fragment of W with it as context
    /// (13.4 #parsing-html-fragments) put there. None of the fragment's scripts is ever executed.
    SetInner(Text, Text),
    /// `console.log(document.getElementById("V").outerHTML);`
    LogById(Text),
    /// `console.log(document.documentElement.outerHTML);`
    LogRoot,
}

/// A line that a script gives. The number is that of the executing script, counted from 1.
#[derive(Drop)]
pub enum Line {
    Log(u64, Text),
    Throw(u64),
    Syntax(u64),
    Miss(Text),
}

/// Lines in order: a contract sees the list of them.
#[derive(Drop)]
pub struct Lines {
    list: Vec<Line>,
}

impl Model for Lines {
    ghost use Rattle.std.specs.Prelude.{List};
    ghost use Rattle.serial.specs.declared.script.Line.{Line};

    ghost Value = { List Line };

    ghost view = { λ l. l.list.items };
}

impl Lines {
    /// No lines, which take no memory.
    pub fn new(alloc: Global) -> Lines
        ensures { result ≡ [] }
    {
        Lines {
            list: Vec::new(alloc),
        }
    }

    /// Adds a line at the end.
    pub fn push(&mut self, line: Line) -> Result<(), NoMemory>
        ensures ok { OnOk result (self.new ≡ self.old ++ line ∷ []) }
        ensures err { OnErr result (self.new ≡ self.old) }
    {
        self.list.push(line)?;
        Ok(())
    }

    /// The lines as a slice.
    pub fn as_slice(&self) -> &[Line]
        ensures { result.now ≡ self.now }
    {
        self.list.as_slice()
    }
}
