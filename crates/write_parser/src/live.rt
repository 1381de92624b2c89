//! The parser, the document and what scripts wrote, while memory lasts.

ghost use Rattle.std.specs.Prelude.{◌≡◌, ◌++◌, ◌<◌, ◌≤◌, length, suc, false, [], None, Some, IfOk};
ghost use Rattle.std.specs.Prelude.{OnOk, IsTrue, IsFalse};
ghost use Rattle.std.specs.Option.{ForSome};
ghost use Rattle.std.specs.Str.{chars};
ghost use Rattle.standard.specs.Act.{is_bound};
ghost use Rattle.standard.specs.Tree.{find_id, appended};
ghost use Rattle.standard.specs.Entities.{Entities};
ghost use Rattle.standard.specs.Fragment.{inner_set};
ghost use Rattle.serial.specs.Serial.{with_line_feed};
ghost use Rattle.serial.specs.Statements.{statements};
ghost use Rattle.standard_laws.specs.Frames.{Waits};
ghost use Rattle.doc_changes.specs.Logs.{with_more};
ghost use Rattle.write_parser.specs.Parsing.{IsServed, TextParsed, EndParsed};
ghost use Rattle.write_parser.specs.Made.{of_text, of_ending, of_removal, of_move, of_setting};
ghost use Rattle.write_parser.specs.Made.{of_statement, EndsScript, MadeAtTag, MadeByText, LogsBy};
ghost use Rattle.write_parser.specs.Steps.{at_of, LogsMade, frames_at, view_of, IsGoing, IsFirst};
ghost use Rattle.write_parser.specs.Steps.{Begins, Prepares, Continues, HasWritten, HasRemoved};
ghost use Rattle.write_parser.specs.Steps.{HasAppended, HasSet, HasRead, DoesMost, Does, Steps};
ghost use Rattle.write_parser.specs.Steps.{RunsOn, ParsesOn, Moves, frames_of, with_begun, Nests};
ghost use Rattle.write_parser.specs.Steps.{EndsTag, RunsText, Misses, FeedsOn, IsFed, Fed};
ghost use Rattle.write_parser.specs.Writing.{LeftIs};

use crate::left::Left;
use crate::nesting::{Begun, Nesting};
use crate::rest::{Rest, parse_text};
use doc_changes::{Fragment, Log};
use entity_table::Table;
use html_types::{Ending, NoMemory, NodeId, Stop, Text, Why};
use op_exec::{Doc, Put, ScriptKind};
use parse_machine::{End, Machine, Ran, parse_fragment};
use serial::{Line, Lines, Statement};
use std::alloc::Global;
use std::mem;
use text_store::Ops;

/// The most characters that the scripts of a page write.
const WRITE_LIMIT: usize = 1_048_576;

/// How the scripts that were begun go on.
#[derive(Clone, Copy, PartialEq, Eq)]
pub(crate) enum Progress {
    On,
    /// No script is left, or the page is refused.
    Over,
}

/// What a statement did.
#[derive(Clone, Copy, PartialEq, Eq)]
pub(crate) enum Did {
    All,
    /// An element that it names isn't there, or can't be moved so.
    Nothing,
}

/// What a writer holds.
#[derive(Drop)]
pub(crate) struct Live {
    pub alloc: Global,
    pub machine: Machine,
    pub doc: Doc,
    pub written: usize,
    pub executed: u64,
    pub lines: Lines,
    pub rest: Rest,
    pub pending: Option<Text>,
    pub halted: Option<Why>,
}

// One script more. A page has fewer of them than it has characters, and those that are written.
fn one_more(executed: u64) -> Result<u64, NoMemory>
    ensures { IfOk result (λ n. n ≡ suc executed) }
{
    executed.checked_add(1).ok_or(NoMemory)
}

// The parser, and the text of a page.
impl Live {
    /// At the beginning of a page, with an empty document.
    pub fn new(alloc: Global, realm: u32) -> Result<Live, NoMemory>
        ensures { IfOk result (λ live. IsFirst realm live) }
    {
        let doc = Doc::new(alloc)?;
        Ok(Live {
            alloc,
            machine: Machine::new(alloc, realm),
            doc,
            written: 0,
            executed: 0,
            lines: Lines::new(alloc),
            rest: Rest::new(alloc),
            pending: None,
            halted: None,
        })
    }

    /// Parses a text up to the first stop, and does the operations.
    pub fn parse(&mut self, log: &mut Log, table: &Table, text: &str) -> Result<Ran, NoMemory>
        requires { IsServed self.old.machine self.old.doc }
        ensures parsed { IfOk result
            (λ ran. TextParsed table.now self.old.machine self.old.doc text.now self.new.machine
            self.new.doc ran) }
        ensures others { OnOk result
            (self.new ≡ record self.old { machine = self.new.machine; doc = self.new.doc }) }
        ensures logged { OnOk result (log.new ≡ with_more
            (of_text table.now self.old.machine (chars text.now)) log.old) }
    {
        parse_text(
            self.alloc,
            table,
            &mut self.machine,
            &mut self.doc,
            log,
            text,
        )
    }

    /// Takes the page's ending, and does the operations. Where it refuses the page, nothing
    /// changes.
    pub fn finish(&mut self, log: &mut Log, table: &Table, ending: Ending) -> Result<End, NoMemory>
        requires { IsServed self.old.machine self.old.doc }
        ensures parsed { IfOk result
            (λ end. EndParsed table.now ending self.old.machine self.old.doc self.new.machine
            self.new.doc end) }
        ensures others { OnOk result
            (self.new ≡ record self.old { machine = self.new.machine; doc = self.new.doc }) }
        ensures logged { OnOk result (log.new ≡ with_more
            (of_ending table.now ending self.old.machine) log.old) }
    {
        let mut ops = Ops::new(self.alloc);
        let end = self.machine.finish(self.alloc, table, ending, &mut ops)?;
        log.apply_all(&mut self.doc, ops)?;
        Ok(end)
    }

    // Whether the parser goes on in written text: it does unless a script is pending.
    fn goes_on(&self, rest: &Rest) -> bool
        ensures goes { IsTrue result → Continues self.now.pending rest.now }
        ensures waits { IsFalse result → Waits self.now.pending rest.now }
    {
        self.pending.is_none() && !rest.is_empty()
    }
}

// How a script begins.
impl Live {
    // The text of a script, one level up. A text that isn't in the language gives a line, and
    // nothing runs.
    fn begin(&mut self, text: &str) -> Result<Option<Begun>, NoMemory>
        ensures { IfOk result (λ begun. Begins (chars text.now) self.old begun self.new) }
    {
        let script = script_lang::read(self.alloc, text)?;
        self.executed = one_more(self.executed)?;
        match script {
            None => {
                self.lines.push(Line::Syntax(self.executed))?;
                Ok(None)
            }
            Some(script) => Ok(Some(Begun {
                number: self.executed,
                script,
                done: 0,
                rest: Rest::new(self.alloc),
            })),
        }
    }

    // Prepares the script whose end tag was met (4.12.1.1 #script-processing-model).
    fn prepare(&mut self, id: NodeId) -> Result<Option<Begun>, NoMemory>
        requires { IsTrue (is_bound self.old.doc.bound id) }
        ensures { IfOk result (λ begun. Prepares id self.old begun self.new) }
    {
        match self.doc.script_kind(id) {
            ScriptKind::Still => Ok(None),
            ScriptKind::External => {
                self.pending = self.doc.script_src(id)?;
                Ok(None)
            }
            ScriptKind::Inline => {
                let text = self.doc.script_text(id)?;
                self.begin(text.as_str())
            }
        }
    }
}

// Statements.
impl Live {
    // `document.write()` (8.4.3 #document.write()): the text stands just before the insertion
    // point, unless it is too long.
    fn write(&mut self, text: &Text, rest: &mut Rest) -> Result<Did, NoMemory>
        ensures { IfOk result (λ did. HasWritten self.old rest.old text.now self.new rest.new did) }
    {
        let written = self.written.saturating_add(text.len());
        if written > WRITE_LIMIT {
            self.halted = Some(Why::Writes);
            return Ok(Did::All);
        }
        self.written = written;
        rest.push_str(text.as_str())?;
        Ok(Did::All)
    }

    // `document.writeln()`: one write of the text and a line feed.
    fn write_line(&mut self, text: &Text, rest: &mut Rest) -> Result<Did, NoMemory>
        ensures { IfOk result
            (λ did. HasWritten self.old rest.old (with_line_feed text.now) self.new rest.new did) }
    {
        let mut line = text.copy(self.alloc)?;
        line.push('\n')?;
        self.write(&line, rest)
    }

    // Takes the element with that id out of its parent.
    fn remove(&mut self, log: &mut Log, id: &Text) -> Result<Did, NoMemory>
        ensures does { IfOk result
            (λ did. HasRemoved (find_id self.old.doc.tree id.now) self.old self.new did) }
        ensures logged { OnOk result (log.new ≡ with_more
            (of_removal (find_id self.old.doc.tree id.now)) log.old) }
    {
        match self.doc.find_id(id.as_str()) {
            None => Ok(Did::Nothing),
            Some(node) => {
                log.remove(&mut self.doc, node)?;
                Ok(Did::All)
            }
        }
    }

    // Puts the second element last among the first one's children (DOM 4.2.6 #interface-parentnode,
    // append).
    fn append(&mut self, log: &mut Log, first: &Text, second: &Text) -> Result<Did, NoMemory>
        ensures does { IfOk result
            (λ did. HasAppended
            (appended self.old.doc.tree (find_id self.old.doc.tree first.now)
            (find_id self.old.doc.tree second.now)) self.old self.new did) }
        ensures logged { OnOk result (log.new ≡ with_more (of_move self.old.doc.tree
            (find_id self.old.doc.tree first.now) (find_id self.old.doc.tree second.now)) log.old) }
    {
        let Some(first) = self.doc.find_id(first.as_str()) else {
            return Ok(Did::Nothing);
        };
        let Some(second) = self.doc.find_id(second.as_str()) else {
            return Ok(Did::Nothing);
        };
        match log.move_last(&mut self.doc, first, second)? {
            Put::Done => Ok(Did::All),
            Put::Impossible => Ok(Did::Nothing),
        }
    }

    // Takes the children of that element out, and puts the fragment of that text there
    // (13.4 #parsing-html-fragments). A fragment that is too deep refuses the page, and changes
    // nothing else.
    fn fill(
        &mut self,
        log: &mut Log,
        table: &Table,
        target: usize,
        text: &Text,
    ) -> Result<Did, NoMemory>
        requires { target < length self.old.doc.tree }
        ensures does { IfOk result
            (λ did. HasSet
            (inner_set table.now self.old.machine.open_state.quirks self.old.doc.tree (Some target)
            text.now) self.old self.new did) }
        ensures logged { OnOk result (log.new ≡ with_more (of_setting table.now
            self.old.machine.open_state.quirks self.old.doc.tree (Some target) text.now) log.old) }
    {
        let context = self.doc.context_of(target, self.machine.is_quirky())?;
        let form = context.form;
        let fragment = parse_fragment(self.alloc, table, context, text.as_str())?;
        match fragment {
            None => {
                self.halted = Some(Why::Depth);
                Ok(Did::All)
            }
            Some(ops) => {
                log.fill(&mut self.doc, target, Fragment::new(form, ops))?;
                Ok(Did::All)
            }
        }
    }

    // The same with the element that has that id, if one has.
    fn set_inner(
        &mut self,
        log: &mut Log,
        table: &Table,
        id: &Text,
        text: &Text,
    ) -> Result<Did, NoMemory>
        ensures does { IfOk result
            (λ did. HasSet
            (inner_set table.now self.old.machine.open_state.quirks self.old.doc.tree
            (find_id self.old.doc.tree id.now) text.now) self.old self.new did) }
        ensures logged { OnOk result (log.new ≡ with_more (of_setting table.now
            self.old.machine.open_state.quirks self.old.doc.tree
            (find_id self.old.doc.tree id.now) text.now) log.old) }
    {
        match self.doc.find_id(id.as_str()) {
            None => Ok(Did::Nothing),
            Some(target) => self.fill(log, table, target, text),
        }
    }

    // The script of that number reads the element.
    fn read(&mut self, number: u64, node: Option<usize>) -> Result<Did, NoMemory>
        requires { ForSome node (λ n. n < length self.old.doc.tree) }
        ensures { IfOk result (λ did. HasRead number node self.old self.new did) }
    {
        match node {
            None => Ok(Did::Nothing),
            Some(node) => {
                let text = serialiser::outer(self.alloc, self.doc.tree(), node)?;
                self.lines.push(Line::Log(number, text))?;
                Ok(Did::All)
            }
        }
    }

    // Does a statement of the script of that number, which wrote `rest`.
    fn try_statement(
        &mut self,
        log: &mut Log,
        table: &Table,
        number: u64,
        statement: &Statement,
        rest: &mut Rest,
    ) -> Result<Did, NoMemory>
        requires going { IsGoing self.old }
        requires waits { Waits self.old.pending rest.old }
        ensures does { IfOk result
            (λ did. DoesMost table.now number statement.now self.old rest.old self.new rest.new
            did) }
        ensures logged { OnOk result (log.new ≡ with_more (of_statement table.now
            self.old.machine.open_state.quirks self.old.doc.tree statement.now) log.old) }
    {
        match statement {
            Statement::Write(text) => self.write(text, rest),
            Statement::WriteLine(text) => self.write_line(text, rest),
            Statement::Remove(id) => self.remove(log, id),
            Statement::Append(first, second) => self.append(log, first, second),
            Statement::SetInner(id, text) => self.set_inner(log, table, id, text),
            Statement::LogById(id) => {
                let node = self.doc.find_id(id.as_str());
                self.read(number, node)
            }
            Statement::LogRoot => {
                let node = self.doc.root();
                self.read(number, node)
            }
        }
    }

    // The same. Where an element of its isn't there, or can't be moved so, that gives a line.
    fn run_statement(
        &mut self,
        log: &mut Log,
        table: &Table,
        number: u64,
        statement: &Statement,
        rest: &mut Rest,
    ) -> Result<Did, NoMemory>
        requires going { IsGoing self.old }
        requires waits { Waits self.old.pending rest.old }
        ensures does { IfOk result
            (λ did. Does table.now number statement.now self.old rest.old self.new rest.new did) }
        ensures logged { OnOk result (log.new ≡ with_more (of_statement table.now
            self.old.machine.open_state.quirks self.old.doc.tree statement.now) log.old) }
    {
        let did = self.try_statement(log, table, number, statement, rest)?;
        if did == Did::Nothing {
            self.lines.push(Line::Throw(number))?;
        }
        Ok(did)
    }
}

// Nested scripts.
impl Live {
    // The innermost script ends: what it wrote and isn't parsed stands before what the script
    // around it wrote, or at level 0.
    fn end_script(&mut self, nesting: &mut Nesting) -> Result<Progress, NoMemory>
        requires going { IsGoing self.old }
        requires waits { Waits self.old.pending nesting.old.top.rest }
        requires ended { length nesting.old.top.script ≤ nesting.old.top.done }
        ensures steps { IfOk result
            (λ turn. (es : Entities) → Steps es self.old nesting.old self.new nesting.new turn) }
        ensures ends { IfOk result (λ turn. EndsScript (at_of self.old (frames_of nesting.old))
            (at_of self.new (frames_at turn nesting.new))) }
    {
        let rest = mem::replace(&mut nesting.top.rest, Rest::new(self.alloc));
        match nesting.below.pop() {
            None => {
                self.rest.put_front(rest)?;
                Ok(Progress::Over)
            }
            Some(around) => {
                nesting.top = around;
                nesting.top.rest.put_front(rest)?;
                Ok(Progress::On)
            }
        }
    }

    // The next statement of the innermost script, or its end.
    fn step(
        &mut self,
        log: &mut Log,
        table: &Table,
        nesting: &mut Nesting,
    ) -> Result<Progress, NoMemory>
        requires going { IsGoing self.old }
        requires waits { Waits self.old.pending nesting.old.top.rest }
        ensures does { IfOk result
            (λ turn. Steps table.now self.old nesting.old self.new nesting.new turn) }
        ensures logged { IfOk result (λ turn. LogsMade table.now self.old (frames_of nesting.old)
            self.new (frames_at turn nesting.new) log.old log.new) }
    {
        let statements = nesting.top.script.as_slice();
        let Some(statement) = statements.get(nesting.top.done) else {
            return self.end_script(nesting);
        };
        match self.run_statement(
            log,
            table,
            nesting.top.number,
            statement,
            &mut nesting.top.rest,
        )? {
            Did::All => nesting.top.done += 1,
            Did::Nothing => nesting.top.done = statements.len(),
        }
        if self.halted.is_some() {
            return Ok(Progress::Over);
        }
        Ok(Progress::On)
    }

    // Runs statements up to a text that is to be parsed, or to the end.
    fn run_statements(
        &mut self,
        log: &mut Log,
        table: &Table,
        nesting: &mut Nesting,
    ) -> Result<Progress, NoMemory>
        requires { IsGoing self.old }
        ensures does { IfOk result
            (λ turn. RunsOn table.now self.old nesting.old self.new nesting.new turn) }
        ensures logged { IfOk result (λ turn. LogsMade table.now self.old (frames_of nesting.old)
            self.new (frames_at turn nesting.new) log.old log.new) }
    {
        'steps: while !self.goes_on(&nesting.top.rest) {
            if self.step(log, table, nesting)? == Progress::Over {
                return Ok(Progress::Over);
            }
        }
        Ok(Progress::On)
    }

    // A script more inside those that were begun, if its end tag began it.
    fn nest(&mut self, id: NodeId, nesting: &mut Nesting) -> Result<(), NoMemory>
        requires { IsTrue (is_bound self.old.doc.bound id) }
        ensures { OnOk result (Nests id self.old nesting.old self.new nesting.new) }
    {
        if let Some(begun) = self.prepare(id)? {
            let around = mem::replace(&mut nesting.top, begun);
            nesting.below.push(around)?;
        }
        Ok(())
    }

    // Parses what the innermost script wrote up to a stop.
    fn parse_written(
        &mut self,
        log: &mut Log,
        table: &Table,
        nesting: &mut Nesting,
    ) -> Result<Progress, NoMemory>
        requires going { IsGoing self.old }
        requires goes { Continues self.old.pending nesting.old.top.rest }
        ensures does { IfOk result
            (λ turn. ParsesOn table.now self.old nesting.old self.new nesting.new turn) }
        ensures logged { IfOk result (λ turn. LogsMade table.now self.old (frames_of nesting.old)
            self.new (frames_at turn nesting.new) log.old log.new) }
    {
        let rest = &mut nesting.top.rest;
        match rest.parse(self.alloc, table, &mut self.machine, &mut self.doc, log)? {
            Stop::InputEnd => Ok(Progress::On),
            Stop::Script(id) => {
                self.nest(id, nesting)?;
                Ok(Progress::On)
            }
            Stop::Deep => {
                self.halted = Some(Why::Depth);
                Ok(Progress::Over)
            }
        }
    }

    // Runs the scripts that were begun to their end, and those that they write.
    fn run(&mut self, log: &mut Log, table: &Table, nesting: &mut Nesting) -> Result<(), NoMemory>
        requires { IsGoing self.old }
        ensures does { OnOk result (Moves table.now self.old (frames_of nesting.old) self.new []) }
        ensures logged { OnOk result (LogsMade table.now self.old (frames_of nesting.old)
            self.new [] log.old log.new) }
    {
        'texts: loop {
            if self.run_statements(log, table, nesting)? == Progress::Over {
                return Ok(());
            }
            if self.parse_written(log, table, nesting)? == Progress::Over {
                return Ok(());
            }
        }
    }

    // Runs a script to its end, if one was begun.
    fn run_begun(
        &mut self,
        log: &mut Log,
        table: &Table,
        begun: Option<Begun>,
    ) -> Result<(), NoMemory>
        requires { IsGoing self.old }
        ensures does { OnOk result (Moves table.now self.old (with_begun begun []) self.new []) }
        ensures logged { OnOk result (LogsMade table.now self.old (with_begun begun [])
            self.new [] log.old log.new) }
    {
        let Some(top) = begun else {
            return Ok(());
        };
        let mut nesting = Nesting {
            top,
            below: Vec::new(self.alloc),
        };
        self.run(log, table, &mut nesting)
    }
}

// Level 0.
impl Live {
    /// The script whose end tag was met.
    pub fn end_tag(&mut self, log: &mut Log, table: &Table, id: NodeId) -> Result<(), NoMemory>
        requires going { IsGoing self.old }
        requires bound { IsTrue (is_bound self.old.doc.bound id) }
        ensures does { OnOk result (EndsTag table.now id self.old self.new) }
        ensures logged { OnOk result (LogsBy (λ more. MadeAtTag table.now id
            (at_of self.old []) more (at_of self.new [])) log.old log.new) }
    {
        let begun = self.prepare(id)?;
        self.run_begun(log, table, begun)
    }

    /// Runs a script's text; no script is awaited then.
    pub fn run_text(&mut self, log: &mut Log, table: &Table, text: &str) -> Result<(), NoMemory>
        requires { IsGoing self.old }
        ensures does { OnOk result (RunsText table.now (chars text.now) self.old self.new) }
        ensures logged { OnOk result (LogsBy (λ more. MadeByText table.now
            (statements (chars text.now)) (at_of self.old []) more (at_of self.new [])) log.old
            log.new) }
    {
        self.pending = None;
        let begun = self.begin(text)?;
        self.run_begun(log, table, begun)
    }

    // Parses written text up to a stop, and runs the script whose end tag it stops at.
    fn feed_once(&mut self, log: &mut Log, table: &Table) -> Result<(), NoMemory>
        requires going { IsGoing self.old }
        requires goes { Continues self.old.pending self.old.rest }
        ensures does { OnOk result (FeedsOn table.now self.old self.new) }
        ensures logged { OnOk result (LogsMade table.now self.old [] self.new [] log.old log.new) }
    {
        match self
            .rest
            .parse(self.alloc, table, &mut self.machine, &mut self.doc, log)?
        {
            Stop::InputEnd => Ok(()),
            Stop::Script(id) => self.end_tag(log, table, id),
            Stop::Deep => {
                self.halted = Some(Why::Depth);
                Ok(())
            }
        }
    }

    // Whether the parser goes on in written text at level 0.
    fn feeds(&self) -> bool
        ensures going { IsTrue result → self.now.halted ≡ None }
        ensures goes { IsTrue result → Continues self.now.pending self.now.rest }
        ensures fed { IsFalse result → IsFed self.now }
    {
        self.halted.is_none() && self.goes_on(&self.rest)
    }

    /// Parses written text and runs its scripts, until all is used, a script is awaited, or the
    /// page is refused.
    pub fn feed(&mut self, log: &mut Log, table: &Table) -> Result<(), NoMemory>
        requires { IsServed self.old.machine self.old.doc }
        ensures does { OnOk result (Fed table.now self.old self.new) }
        ensures logged { OnOk result (LogsMade table.now self.old [] self.new [] log.old log.new) }
    {
        'scripts: while self.feeds() {
            self.feed_once(log, table)?;
        }
        Ok(())
    }

    /// The script that is awaited, if one is, is missing.
    pub fn miss(&mut self) -> Result<(), NoMemory>
        ensures { OnOk result (Misses self.old.pending self.old self.new) }
    {
        if let Some(name) = self.pending.take() {
            self.lines.push(Line::Miss(name))?;
        }
        Ok(())
    }

    /// What is left.
    pub fn left(&self) -> Result<Left, NoMemory>
        requires { IsFed self.now }
        ensures { IfOk result (λ left. LeftIs (view_of self.now false) left) }
    {
        if let Some(why) = self.halted {
            return Ok(Left::Refused(why));
        }
        match &self.pending {
            Some(name) => Ok(Left::Awaits(name.copy(self.alloc)?)),
            None => Ok(Left::Empty),
        }
    }
}
