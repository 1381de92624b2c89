//! What is written of a page.

use html_types::{NoMemory, Text};
use op_exec::Doc;
use serial::{Line, Lines};
use serialiser::document;
use std::alloc::Global;

/// What is written of a page.
#[derive(Drop)]
pub struct Written {
    /// The lines of its scripts, without their numbers.
    pub lines: String,
    /// Its tree.
    pub tree: Text,
}

fn word_of(line: &Line) -> &'static str {
    match line {
        Line::Log(_, _) => "log ",
        Line::Throw(_) => "throw",
        Line::Syntax(_) => "syntax",
        Line::Miss(_) => "miss ",
    }
}

fn text_of(line: &Line) -> &str {
    match line {
        Line::Log(_, text) | Line::Miss(text) => text.as_str(),
        Line::Throw(_) | Line::Syntax(_) => "",
    }
}

fn lines_of(alloc: Global, lines: &Lines) -> Result<String, NoMemory> {
    let mut told = String::new(alloc);
    for line in lines.as_slice() {
        told.push_str(word_of(line))?;
        told.push_str(text_of(line))?;
        told.push('\n')?;
    }
    Ok(told)
}

impl Written {
    /// What is written of that document and those lines.
    pub fn new(alloc: Global, doc: &Doc, lines: &Lines) -> Result<Written, NoMemory> {
        let lines = lines_of(alloc, lines)?;
        let tree = document(alloc, doc.tree())?;
        Ok(Written { lines, tree })
    }

    /// Whether these lines and this tree are written.
    pub fn is(&self, lines: &str, tree: &str) -> bool {
        self.lines.as_str() == lines && self.tree.is(tree)
    }
}
