//! The machine: its state, and what a caller asks of it. Tokens are processed in `process.rt`; what
//! is taken of a text at once stands in `text_runs.rt`.

ghost use Rattle.std.specs.Prelude.{◌≡◌, ◌↔◌, ◌==◌, ◌≢◌, ◌&&◌, ◌<◌, length, drop, if◌then◌else◌};
ghost use Rattle.std.specs.Prelude.{IfOk, IfSome, IsTrue};
ghost use Rattle.std.specs.Str.{chars, IsCharBoundary};
ghost use Rattle.standard.specs.Parser.{new_parser, took, after_ops, take_character};
ghost use Rattle.standard.specs.Parser.{finish as finished, parse, AreSame, after_all};
ghost use Rattle.parse_machine.specs.Runs.{Takes};
ghost use Rattle.core_definitions.specs.Batches.{end_batch, result_at};
ghost use Rattle.standard.specs.Through.{after_those, read_through, whole};
ghost use Rattle.standard.specs.Fragment.{fragment_parser};
ghost use Rattle.parse_machine.specs.Through.{came_to, from_stop};
ghost use Rattle.parse_machine.specs.Machine.{RanAs, EndsAs, stops as stops_at};
ghost use Rattle.parse_machine.specs.Ends.{result_of};

use crate::end::End;
use crate::fragment::reading_in;
use crate::process::{end_and_build, read_and_build};
use crate::weight::is_light_state;
use builder_state::Builder;
use entity_table::Table;
use html_types::{Context, Ending, Finish, NoMemory, NodeId, Stop, Why, char_at};
use std::alloc::Global;
use std::marker::Model;
use text_store::Ops;
use tokenizer::Tokenizer;

/// A parser: contracts see the tokenizer's state, whether the last character was a CR, and the open
/// state.
#[derive(Drop)]
pub struct Machine {
    pub(crate) tokenizer: Tokenizer,
    pub(crate) after_cr: bool,
    pub(crate) builder: Builder,
}

impl Model for Machine {
    ghost use Rattle.std.specs.Prelude.{◌≡◌, []};
    ghost use Rattle.standard.specs.Parser.{Parser, parser};

    ghost Value = { Parser };

    ghost view = { λ m. parser m.tokenizer.state m.after_cr m.builder };

    // No token waits between two characters.
    ghost invariant = { λ m. m.tokenizer.tokens ≡ [] };
}

/// Why the machine stopped in a text, and how many bytes of it were used.
#[derive(Clone, Copy)]
pub struct Ran {
    pub stop: Stop,
    pub used: usize,
}

// The parser stops before the text is used.
fn stops(stop: Stop) -> bool
    ensures { result ≡ stops_at stop }
{
    !matches!(&stop, Stop::InputEnd)
}

// A line feed behind a CR is skipped.
fn skips(after_cr: bool, c: char) -> bool
    ensures { result ≡ (after_cr && (c == 10)) }
{
    after_cr && c == '\n'
}

// A CR is a line feed.
fn line_feed_for_cr(c: char) -> char
    ensures { result ≡ (if c == 13 then 10 else c) }
{
    if c == '\r' { '\n' } else { c }
}

// The answer where the end of the input came to that.
fn page_end(finish: Finish) -> End
    ensures { result_of result ≡ result_at finish }
{
    match finish {
        Finish::Finished => End::Finished,
        Finish::Deep => End::Refused(Why::Depth),
    }
}

impl Machine {
    /// The parser at the beginning of a page. Its elements are of that realm. It takes no memory.
    pub fn new(alloc: Global, realm: u32) -> Machine
        ensures { result ≡ new_parser realm }
    {
        Machine {
            tokenizer: Tokenizer::new(alloc),
            after_cr: false,
            builder: Builder::new(alloc, realm),
        }
    }

    /// The parser at the beginning of a fragment with that context (13.4 #parsing-html-fragments).
    /// Its elements are of that realm. The caller makes its root, an html element, under the
    /// realm's first id and, where the context is in a form, a form element under its second.
    #[tactic(auto, unfolding(standard::specs::Fragment::fragment_parser))]
    pub fn fragment(alloc: Global, context: Context, realm: u32) -> Result<Machine, NoMemory>
        ensures { IfOk result (λ m. m ≡ fragment_parser context realm) }
    {
        let mut tokenizer = Tokenizer::new(alloc);
        tokenizer.load(reading_in(&context.name));
        let builder = Builder::fragment(alloc, context, realm)?;
        Ok(Machine {
            tokenizer,
            after_cr: false,
            builder,
        })
    }

    /// Whether the document is in quirks mode.
    pub fn is_quirky(&self) -> bool
        ensures { result ≡ self.now.open_state.quirks }
    {
        self.builder.is_quirky()
    }

    // Takes one character.
    #[inline(never)]
    fn take(
        &mut self,
        alloc: Global,
        table: &Table,
        c: char,
        ops: &mut Ops,
    ) -> Result<Stop, NoMemory>
        ensures { IfOk result
            (λ stop. after_ops ops.old (take_character table.now self.old c)
            ≡ took ops.new self.new stop) }
    {
        if skips(self.after_cr, c) {
            self.after_cr = false;
            return Ok(Stop::InputEnd);
        }
        self.after_cr = c == '\r';
        let read = line_feed_for_cr(c);
        match read_and_build(
            alloc,
            table,
            &mut self.tokenizer,
            &mut self.builder,
            read,
            ops,
        ) {
            Ok(stop) => Ok(stop),
            Err(error) => {
                self.tokenizer.clear(alloc);
                Err(error)
            }
        }
    }

    // Takes a tag, or else one character, and says what it took; none at the end of the text.
    fn take_one(
        &mut self,
        alloc: Global,
        table: &Table,
        text: &str,
        from: usize,
        ops: &mut Ops,
    ) -> Result<Option<Ran>, NoMemory>
        requires { IsCharBoundary text.now from }
        ensures boundary { IfOk result (λ o. IfSome o (λ ran. IsCharBoundary text.now ran.used)) }
        ensures onward { IfOk result (λ o. IfSome o (λ ran. from < ran.used)) }
        ensures parsed { IfOk result
            (λ o. IfSome o
            (λ ran. Takes table.now text.now from ran self.old ops.old self.new ops.new)) }
        ensures end { IfOk result (λ o. o ≡ None → from ≡ length text.now) }
        ensures none { IfOk result (λ o. o ≡ None → self.new ≡ self.old) }
        ensures none_added { IfOk result (λ o. o ≡ None → ops.new ≡ ops.old) }
    {
        let Some((c, behind)) = char_at(text, from) else {
            return Ok(None);
        };
        match self.take_tag(alloc, table, text, from, c, ops)? {
            Some(ran) => Ok(Some(ran)),
            None => {
                let stop = self.take(alloc, table, c, ops)?;
                Ok(Some(Ran { stop, used: behind }))
            }
        }
    }

    // Takes references, and then a tag or else one character, and says what it took; none at the
    // end of the text.
    fn take_next(
        &mut self,
        alloc: Global,
        table: &Table,
        text: &str,
        from: usize,
        ops: &mut Ops,
    ) -> Result<Option<Ran>, NoMemory>
        requires { IsCharBoundary text.now from }
        ensures boundary { IfOk result (λ o. IfSome o (λ ran. IsCharBoundary text.now ran.used)) }
        ensures onward { IfOk result (λ o. IfSome o (λ ran. from < ran.used)) }
        ensures parsed { IfOk result
            (λ o. IfSome o
            (λ ran. Takes table.now text.now from ran self.old ops.old self.new ops.new)) }
        ensures end { IfOk result (λ o. o ≡ None → from ≡ length text.now) }
        ensures none { IfOk result (λ o. o ≡ None → self.new ≡ self.old) }
        ensures none_added { IfOk result (λ o. o ≡ None → ops.new ≡ ops.old) }
    {
        let start = self.take_references(alloc, table, text, from, ops)?;
        self.take_one(alloc, table, text, start, ops)
    }

    /// Takes the characters of a text, up to the first stop, with the named character references of
    /// `table`. Operations are added at the end of `ops`. Where it answers want of memory, the
    /// machine and the operations only keep their types.
    pub fn run(
        &mut self,
        alloc: Global,
        table: &Table,
        text: &str,
        ops: &mut Ops,
    ) -> Result<Ran, NoMemory>
        ensures boundary { IfOk result (λ ran. IsCharBoundary text.now ran.used) }
        // The operations, the next state, the characters used and the stop are those of the parse
        // of the text.
        ensures parsed { IfOk result
            (λ ran. RanAs (parse table.now self.old (chars text.now)) ops.old self.new ops.new ran
            text.now) }
    {
        let mut used = 0;
        'pieces: loop {
            // In one place, so that it comes to stand in line.
            let read = self.take_run(text, used, ops)?;
            let Some(ran) = self.take_next(alloc, table, text, read, ops)? else {
                return Ok(Ran {
                    stop: Stop::InputEnd,
                    used: read,
                });
            };
            if stops(ran.stop) {
                return Ok(ran);
            }
            used = ran.used;
        }
    }

    // Takes the characters of a text up to the first stop, which is behind a character.
    fn run_to_stop(
        &mut self,
        alloc: Global,
        table: &Table,
        text: &str,
        ops: &mut Ops,
    ) -> Result<Ran, NoMemory>
        ensures boundary { IfOk result (λ ran. IsCharBoundary text.now ran.used) }
        ensures onward { IfOk result
            (λ ran. ran.stop ≢ Stop.InputEnd → length (drop ran.used text.now) < length text.now) }
        ensures through { IfOk result
            (λ ran. after_those ops.old (read_through table.now self.old (chars text.now))
            ≡ from_stop table.now self.new ops.new (chars (drop ran.used text.now)) ran.stop) }
    {
        let ran = self.run(alloc, table, text, ops)?;
        Ok(ran)
    }

    /// Reads a text through: at the end tag of a script nothing runs, and the parser goes on
    /// behind it. Operations are added at the end of `ops`. False at a push that would open
    /// element 513, behind which nothing is read. Where it answers want of memory, the machine
    /// and the operations only keep their types.
    pub fn read_through(
        &mut self,
        alloc: Global,
        table: &Table,
        text: &str,
        ops: &mut Ops,
    ) -> Result<bool, NoMemory>
        // The operations and the state are those of the text that is read through.
        ensures { IfOk result
            (λ goes_on. after_those ops.old (read_through table.now self.old (chars text.now))
            ≡ came_to self.new ops.new goes_on) }
    {
        let mut rest = text;
        'texts: loop {
            let ran = self.run_to_stop(alloc, table, rest, ops)?;
            match ran.stop {
                Stop::InputEnd => return Ok(true),
                Stop::Deep => return Ok(false),
                Stop::Script(_) => rest = &rest[ran.used..],
            }
        }
    }

    /// Reads a text through that is the whole input, and takes the end of the input: the
    /// operations, or none at a push that would open element 513. Where it answers want of
    /// memory, the machine only keeps its type.
    pub fn parse_whole(
        &mut self,
        alloc: Global,
        table: &Table,
        text: &str,
    ) -> Result<Option<Ops>, NoMemory>
        ensures { IfOk result (λ ops. ops ≡ whole table.now self.old (chars text.now)) }
    {
        let mut ops = Ops::new(alloc);
        let goes_on = self.read_through(alloc, table, text, &mut ops)?;
        if !goes_on {
            return Ok(None);
        }
        let finish = self.end_input(alloc, table, &mut ops)?;
        match finish {
            Finish::Finished => Ok(Some(ops)),
            Finish::Deep => Ok(None),
        }
    }

    // Takes the end of the input.
    fn end_input(&mut self, alloc: Global, table: &Table, ops: &mut Ops) -> Result<Finish, NoMemory>
        ensures { IfOk result
            (λ finish. after_all ops.old (finished table.now self.old)
            ≡ record { ops = ops.new; parser = self.new; finish = finish }) }
    {
        match end_and_build(alloc, table, &mut self.tokenizer, &mut self.builder, ops) {
            Ok(finish) => Ok(finish),
            Err(error) => {
                self.tokenizer.clear(alloc);
                Err(error)
            }
        }
    }

    /// Takes the page's ending, with the named character references of `table`. At the end of the
    /// file the last tokens are processed, and operations are added at the end of `ops`. Any other
    /// ending refuses the page, and the machine and the operations stay as they are. Where it
    /// answers want of memory, the machine and the operations only keep their types.
    pub fn finish(
        &mut self,
        alloc: Global,
        table: &Table,
        ending: Ending,
        ops: &mut Ops,
    ) -> Result<End, NoMemory>
        // The operations, the next state and the answer are those of the ending.
        ensures { IfOk result
            (λ end. EndsAs (end_batch table.now self.old ending) ops.old self.new ops.new end) }
    {
        match ending {
            Ending::End => {
                let finish = self.end_input(alloc, table, ops)?;
                Ok(page_end(finish))
            }
            Ending::Bad => Ok(End::Refused(Why::BadUtf8)),
            Ending::Long => Ok(End::Refused(Why::Page)),
            Ending::Fault => Ok(End::Refused(Why::Fault)),
        }
    }

    /// Whether a copy takes little time. It is a hint: no contract speaks of it.
    pub fn is_light(&self) -> bool {
        is_light_state(self.tokenizer.state()) && self.builder.is_light()
    }

    /// Shares the entries of the tree construction's lists, so that the next copies are cheap.
    pub fn share(&mut self, alloc: Global) -> Result<(), NoMemory>
        ensures { self.new ≡ self.old }
    {
        self.builder.share(alloc)
    }

    /// A copy.
    pub fn copy(&self, alloc: Global) -> Result<Machine, NoMemory>
        ensures { IfOk result (λ m. m ≡ self.now) }
    {
        let tokenizer = self.tokenizer.copy(alloc)?;
        let builder = self.builder.copy(alloc)?;
        Ok(Machine {
            tokenizer,
            after_cr: self.after_cr,
            builder,
        })
    }

    /// Whether two are the same: all but the realm and the number of the next id.
    pub fn same(&self, other: &Machine) -> bool
        ensures { IsTrue result ↔ AreSame self.now other.now }
    {
        self.tokenizer.same(&other.tokenizer)
            && self.after_cr == other.after_cr
            && self.builder.same(&other.builder)
    }

    /// The id of the next element that is made.
    pub fn next_id(&self) -> NodeId
        ensures { result ≡ self.now.open_state.next }
    {
        self.builder.next_id()
    }

    /// The elements that are made from now on have the ids of that realm, from its first on.
    pub fn renew(&mut self, realm: u32)
        ensures { self.new
            ≡ record self.old
            { open_state = record self.old.open_state { next = record { realm = realm; n = 0 } } } }
    {
        self.builder.renew(realm);
    }
}
