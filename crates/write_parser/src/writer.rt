//! The writer.

ghost use Rattle.std.specs.Prelude.{◌≡◌, ◌≢◌, ◌<◌, ◌≤◌, ◌+◌, true, false, [], ◌∷◌, None, IfOk};
ghost use Rattle.std.specs.Prelude.{OnOk, OnErr, IsErr, IsTrue};
ghost use Rattle.std.specs.Str.{chars};
ghost use Rattle.standard.specs.Act.{acts, is_bound, AreOpsBound};
ghost use Rattle.doc_changes.specs.declared.change.Change.TheVariants as change;
ghost use Rattle.doc_changes.specs.Logs.{with_more};
ghost use Rattle.serial.specs.Statements.{statements};
ghost use Rattle.core_definitions.specs.Desk.{renewed};
ghost use Rattle.moment_laws.specs.Served.{AreBelow};
ghost use Rattle.write_parser.specs.Parsing.{IsServed};
ghost use Rattle.write_parser.specs.Made.{of_text, of_ending, at_view, Made, MadeAtTag, MadeUnless};
ghost use Rattle.write_parser.specs.Made.{LogsBy};
ghost use Rattle.write_parser.specs.Writing.{first_view, Parses, Finishes, AtTag, LeadsTo, HasRun};
ghost use Rattle.write_parser.specs.Writing.{HasMissed, Feeds, left_to_do};

use crate::left::Left;
use crate::live::Live;
use doc_changes::Log;
use entity_table::Table;
use html_types::{Ending, NoMemory, NodeId};
use op_exec::Doc;
use parse_machine::{End, Machine, Ran};
use serial::{Line, Lines};
use std::alloc::Global;
use std::marker::Model;
use std::mem;
use text_store::Ops;

/// A parser and its document, the scripts that run between the characters of a page, and the text
/// that they wrote. A contract sees it as a view, which stands for a moment of the serial parse.
///
/// After want of memory it is spent: each call that takes memory then answers want of memory.
#[derive(Drop)]
pub struct Writer {
    live: Live,
    spent: bool,
}

impl Model for Writer {
    ghost use Rattle.std.specs.Prelude.{◌≡◌, false};
    ghost use Rattle.write_parser.specs.Writing.{View};

    ghost Value = { View };

    ghost use Rattle.write_parser.specs.Parsing.{IsServed};
    ghost use Rattle.write_parser.specs.Steps.{view_of};

    ghost view = { λ w. view_of w.live w.spent };

    ghost invariant = { λ w. w.spent ≡ false → IsServed w.live.machine w.live.doc };
}

impl Writer {
    /// At the beginning of a page, with an empty document. The elements that it makes have the ids
    /// of that realm.
    pub fn new(alloc: Global, realm: u32) -> Result<Writer, NoMemory>
        ensures { IfOk result (λ w. w ≡ first_view realm) }
    {
        let live = Live::new(alloc, realm)?;
        Ok(Writer { live, spent: false })
    }

    /// The document.
    pub fn doc(&self) -> &Doc
        ensures { result.now ≡ self.now.doc }
    {
        &self.live.doc
    }

    /// How many scripts were executed.
    pub fn executed(&self) -> u64
        ensures { result ≡ self.now.executed }
    {
        self.live.executed
    }

    /// How many characters scripts wrote.
    pub fn written(&self) -> u64
        ensures { result ≡ self.now.written }
    {
        self.live.written as u64
    }

    /// The lines that scripts gave since lines were last taken.
    pub fn lines(&self) -> &Lines
        ensures { result.now ≡ self.now.lines }
    {
        &self.live.lines
    }

    /// Takes the lines that scripts gave since lines were last taken.
    pub fn take_lines(&mut self) -> Lines
        ensures lines { result ≡ self.old.lines }
        ensures others { self.new ≡ record self.old { lines = [] } }
    {
        let none = Lines::new(self.live.alloc);
        mem::replace(&mut self.live.lines, none)
    }

    /// Parses a text of the page up to the first stop, and does the operations.
    pub fn parse(&mut self, log: &mut Log, table: &Table, text: &str) -> Result<Ran, NoMemory>
        ensures spent { self.old.spent ≡ true → IsErr result }
        ensures kept { OnOk result (self.new.spent ≡ false) }
        ensures err { OnErr result (self.new.spent ≡ true) }
        ensures parsed { IfOk result (λ ran. Parses table.now self.old self.new text.now ran) }
        ensures logged { OnOk result (log.new ≡ with_more
            (of_text table.now self.old.parser (chars text.now)) log.old) }
    {
        if self.spent {
            return Err(NoMemory);
        }
        self.spent = true;
        let ran = self.live.parse(log, table, text)?;
        self.spent = false;
        Ok(ran)
    }

    /// Takes the page's ending, and does the operations. Where it refuses the page, nothing
    /// changes.
    pub fn finish(&mut self, log: &mut Log, table: &Table, ending: Ending) -> Result<End, NoMemory>
        ensures spent { self.old.spent ≡ true → IsErr result }
        ensures kept { OnOk result (self.new.spent ≡ false) }
        ensures err { OnErr result (self.new.spent ≡ true) }
        ensures finished { IfOk result (λ end. Finishes table.now ending self.old self.new end) }
        ensures logged { OnOk result (log.new ≡ with_more
            (of_ending table.now ending self.old.parser) log.old) }
    {
        if self.spent {
            return Err(NoMemory);
        }
        self.spent = true;
        let end = self.live.finish(log, table, ending)?;
        self.spent = false;
        Ok(end)
    }

    /// The script whose end tag the page's characters have just ended
    /// (13.2.6.4.8 #parsing-main-incdata): it is prepared on the tree as it is, and then runs, is
    /// awaited, or does nothing.
    pub fn end_tag(&mut self, log: &mut Log, table: &Table, id: NodeId) -> Result<(), NoMemory>
        requires bound { IsTrue (is_bound self.old.doc.bound id) }
        requires none_awaited { self.old.pending ≡ None }
        requires not_refused { self.old.halted ≡ None }
        ensures spent { self.old.spent ≡ true → IsErr result }
        ensures kept { OnOk result (self.new.spent ≡ false) }
        ensures err { OnErr result (self.new.spent ≡ true) }
        // From that end tag the parse leads to a moment for which the writer then stands, and to no
        // settled one before that.
        ensures leads { OnOk result (LeadsTo table.now (AtTag id self.old) self.new) }
        // What is left to do grows by one at most: the script may be awaited.
        ensures one_more { OnOk result (left_to_do self.new ≤ left_to_do self.old + 1) }
        // The log gains the changes that the parse makes from there.
        ensures logged { OnOk result (LogsBy (λ more. MadeAtTag table.now id
            (at_view self.old) more (at_view self.new)) log.old log.new) }
    {
        if self.spent {
            return Err(NoMemory);
        }
        self.spent = true;
        self.live.end_tag(log, table, id)?;
        self.spent = false;
        Ok(())
    }

    /// Runs the text of a script: of the script that is awaited, which is awaited no more, or of an
    /// inline script whose end tag was met. Once the page is refused, nothing changes.
    pub fn run_script(&mut self, log: &mut Log, table: &Table, text: &str) -> Result<(), NoMemory>
        ensures spent { self.old.spent ≡ true → IsErr result }
        ensures kept { OnOk result (self.new.spent ≡ false) }
        ensures err { OnErr result (self.new.spent ≡ true) }
        ensures run { OnOk result
            (HasRun table.now self.old.halted self.old self.new (statements (chars text.now))) }
        // What is left to do doesn't grow, and is less where a script was awaited.
        ensures no_more { OnOk result (left_to_do self.new ≤ left_to_do self.old) }
        ensures less { OnOk result
            (self.old.halted ≡ None → self.old.pending ≢ None
            → left_to_do self.new < left_to_do self.old) }
        ensures logged { OnOk result (LogsBy (λ more. MadeUnless self.old.halted table.now
            (statements (chars text.now)) (at_view self.old) more (at_view self.new)) log.old
            log.new) }
    {
        if self.spent {
            return Err(NoMemory);
        }
        if self.live.halted.is_some() {
            return Ok(());
        }
        self.spent = true;
        self.live.run_text(log, table, text)?;
        self.spent = false;
        Ok(())
    }

    /// The script that is awaited is missing: that gives a line, and it is awaited no more. Once
    /// the page is refused, nothing changes.
    pub fn miss(&mut self) -> Result<(), NoMemory>
        ensures spent { self.old.spent ≡ true → IsErr result }
        ensures kept { OnOk result (self.new.spent ≡ false) }
        ensures err { OnErr result (self.new.spent ≡ true) }
        ensures missed { OnOk result
            (HasMissed self.old.halted self.old.pending self.old self.new) }
        // What is left to do doesn't grow, and is less where a script was awaited.
        ensures no_more { OnOk result (left_to_do self.new ≤ left_to_do self.old) }
        ensures less { OnOk result
            (self.old.halted ≡ None → self.old.pending ≢ None
            → left_to_do self.new < left_to_do self.old) }
    {
        if self.spent {
            return Err(NoMemory);
        }
        if self.live.halted.is_some() {
            return Ok(());
        }
        self.spent = true;
        self.live.miss()?;
        self.spent = false;
        Ok(())
    }

    /// Parses what was written at level 0 and isn't used, and runs the scripts in it, until all is
    /// used, a script is awaited, or the page is refused. Where a script is awaited, or the page is
    /// refused, it answers that, and nothing changes.
    pub fn feed_left(&mut self, log: &mut Log, table: &Table) -> Result<Left, NoMemory>
        ensures spent { self.old.spent ≡ true → IsErr result }
        ensures kept { OnOk result (self.new.spent ≡ false) }
        ensures err { OnErr result (self.new.spent ≡ true) }
        ensures feeds { IfOk result (λ left. Feeds table.now self.old self.new left) }
        ensures no_more { OnOk result (left_to_do self.new ≤ left_to_do self.old) }
        ensures logged { OnOk result (LogsBy (λ more. Made table.now
            (at_view self.old) more (at_view self.new)) log.old log.new) }
    {
        if self.spent {
            return Err(NoMemory);
        }
        self.spent = true;
        self.live.feed(log, table)?;
        let left = self.live.left()?;
        self.spent = false;
        Ok(left)
    }
}

// What was made of the page's text ahead of the document.
impl Writer {
    /// The parser.
    pub fn machine(&self) -> &Machine
        ensures { result.now ≡ self.now.parser }
    {
        &self.live.machine
    }

    /// Shares what the parser's copies can share, so that the next are cheap.
    pub fn share(&mut self) -> Result<(), NoMemory>
        ensures { self.new ≡ self.old }
    {
        self.live.machine.share(self.live.alloc)
    }

    /// Does operations that were made of a text ahead of the document. The parser then stands in
    /// the state `end`, behind that text.
    pub fn execute(&mut self, log: &mut Log, ops: Ops, end: Machine) -> Result<(), NoMemory>
        requires bound { AreOpsBound (is_bound self.old.doc.bound) ops }
        requires served { IsServed end (acts self.old.doc ops) }
        ensures spent { self.old.spent ≡ true → IsErr result }
        ensures kept { OnOk result (self.new.spent ≡ false) }
        ensures err { OnErr result (self.new.spent ≡ true) }
        ensures executed { OnOk result
            (self.new ≡ record self.old { parser = end; doc = acts self.old.doc ops }) }
        ensures logged { OnOk result (log.new ≡ with_more (change.Did ops ∷ []) log.old) }
    {
        if self.spent {
            return Err(NoMemory);
        }
        self.spent = true;
        log.apply_all(&mut self.live.doc, ops)?;
        self.live.machine = end;
        self.spent = false;
        Ok(())
    }

    /// The elements that are made from now on have the ids of that realm, from its first on. No
    /// element has an id of it yet, nor of a later one. It takes no memory.
    pub fn renew(&mut self, realm: u32)
        requires below { AreBelow realm (is_bound self.old.doc.bound) }
        ensures { self.new ≡ record self.old { parser = renewed realm self.old.parser } }
    {
        self.live.machine.renew(realm);
    }

    /// Puts the parser into another state, as one that was held while a script ran. It takes no
    /// memory.
    pub fn load(&mut self, machine: Machine)
        requires served { IsServed machine self.old.doc }
        ensures { self.new ≡ record self.old { parser = machine } }
    {
        self.live.machine = machine;
    }
}
