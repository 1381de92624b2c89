//! What the document's side holds, while memory lasts, and its events.

ghost use Rattle.std.specs.Prelude.{◌≡◌, ◌<◌, ◌++◌, ◌∷◌, [], false, None, Some, IfOk, OnOk, OnErr};
ghost use Rattle.std.specs.Prelude.{IsTrue, not, length, string_bytes};
ghost use Rattle.std.specs.Str.{chars};
ghost use Rattle.core_definitions.specs.declared.event.Event.TheVariants as event;
ghost use Rattle.core_definitions.specs.Batches.{answer};
ghost use Rattle.core_definitions.specs.Core.{joined};
ghost use Rattle.core_definitions.specs.Desk.{is_done, has_arrived, can_send, can_do, wants_reply};
ghost use Rattle.core_definitions.specs.Desk.{sends, takes};
ghost use Rattle.core_definitions.specs.Settling.{is_empty as has_none};
ghost use Rattle.speculation.specs.Asking.{page_limit};
ghost use Rattle.doc_changes.specs.Logs.{with_more};
ghost use Rattle.write_parser.specs.Made.{at_view, Made, MadeAtTag, LogsBy};
ghost use Rattle.core_steps.specs.Changing.{of_first, MadeByFile, ReachesView, MadeFirst, MadeIn};
ghost use Rattle.core_steps.specs.Changing.{LogsDo};
ghost use Rattle.core_steps.specs.Fetches.{fetched_of};
ghost use Rattle.core_steps.specs.States.{standing_told};
ghost use Rattle.core_steps.specs.Tallies.{AreInHand, IsTallyOf};
ghost use Rattle.std.specs.Prelude.{◌+◌, ◌≤◌, suc};
ghost use Rattle.standard.specs.Act.{is_bound};
ghost use Rattle.core_definitions.specs.declared.verdict.Verdict.TheVariants as verdict;
ghost use Rattle.moment_laws.specs.Served.{AreBelow, IsRoomy};
ghost use Rattle.core_steps.specs.Acting.{ended, IsFront, UsedUp, free_hand, behind_first};
ghost use Rattle.core_steps.specs.Acting.{at_stage, Executed, MeetsTag, runs_there, RunsBatch};
ghost use Rattle.core_steps.specs.Acting.{JudgedAs, Judged, Settled, RunsTagged, met, RunsFetched};
ghost use Rattle.core_steps.specs.Acting.{ActsBy};
ghost use Rattle.core_steps.specs.Sides.{IsFree, IsHolding, IsTagged, IsWaiting, IsPlaced};
ghost use Rattle.core_steps.specs.Sides.{first_shown, standing_of, lines_given, with_piece};
ghost use Rattle.core_steps.specs.Sides.{with_ending, journaled, with_fetch, IsRequestFor};
ghost use Rattle.core_steps.specs.Sides.{sent_before, DoesShow, left_to_do, hand_of, desk_of};
ghost use Rattle.core_steps.specs.Sides.{shown_of, AreAhead, IsSound};

use crate::fetch::Fetch;
use crate::file::{is_lawful, text_of};
use crate::journal::Journal;
use crate::stage::Stage;
use crate::state::State;
use crate::tally::{Tally, count_nodes};
use core_definitions::{Event, Verdict};
use doc_changes::Log;
use entity_table::Table;
use html_types::{Ending, NoMemory, NodeId, Stop, Text, Why};
use op_exec::ScriptKind;
use page_pieces::{Ledger, Piece, SharedText};
use parse_machine::{End, Machine};
use serial::Lines;
use speculation::{Batch, Batches, BoxedMachine, Halt, InForce, Reply, Request, Said, decide};
use std::alloc::Global;
use std::mem;
use std::snapshot::Snapshot;
use write_parser::{Left, Writer};

/// The epoch, the next realm of ids, and two places in the page: of what is left of the piece in
/// hand, and of the pieces to be sent.
#[derive(Drop)]
pub(crate) struct Counts {
    pub epoch: u64,
    pub realm: u32,
    pub place: u64,
    pub sent_to: u64,
}

/// Which of its own events are enabled: to send, to do, and to take.
#[derive(Clone, Copy)]
pub(crate) struct Could {
    pub send: bool,
    pub act: bool,
    pub take: bool,
}

/// What the document's side holds.
#[derive(Drop)]
pub(crate) struct Side {
    pub alloc: Global,
    pub table: Table,
    pub writer: Writer,
    // The lines that were taken, which are held no more.
    pub given: Vec<Snapshot<Lines>>,
    pub ledger: Ledger,
    pub stage: Stage,
    // The batches in hand, where a reply had them. Where there are none, what is left of the piece
    // in hand is parsed as it is executed.
    pub ready: Batches,
    pub begins: Option<Machine>,
    pub counts: Counts,
    pub journal: Journal,
}

// Puts a value in a place, and lets the one go that was there. An assignment has the function
// that it stands in spell out all parts of what it lets go, which takes minutes of its proof; here
// they are those of the type, once.
fn put<T: Drop>(place: &mut T, value: T)
    ensures { place.new ≡ value }
{
    *place = value;
}

// Lets a value go, for the same reason.
fn let_go<T: Drop>(_value: T) {}

// The state that a request carries, where it does.
fn boxed(alloc: Global, machine: Option<Machine>) -> Result<Option<BoxedMachine>, NoMemory>
    ensures { IfOk result (λ begins. begins ≡ machine) }
{
    match machine {
        None => Ok(None),
        Some(machine) => Ok(Some(BoxedMachine::new(alloc, machine)?)),
    }
}

// What is handed in, and what is known of it.
impl Side {
    /// Before any event, with no pieces. So many requests are sent ahead at most.
    pub fn new(alloc: Global, table: &Table, ahead: usize) -> Result<Side, NoMemory>
        ensures first { IfOk result (λ s. shown_of s false ≡ first_shown table.now ahead) }
        ensures sound { IfOk result (λ s. IsSound s) }
    {
        let table = table.copy()?;
        let Ok(writer) = Writer::new(alloc, 0) else {
            let_go(table);
            return Err(NoMemory);
        };
        let Ok(ledger) = Ledger::new(alloc, ahead) else {
            let_go(table);
            let_go(writer);
            return Err(NoMemory);
        };
        Ok(Side {
            alloc,
            table,
            writer,
            given: Vec::new(alloc),
            ledger,
            stage: Stage::Free,
            ready: Batches::new(alloc),
            begins: Some(Machine::new(alloc, 0)),
            counts: Counts {
                epoch: 1,
                realm: 1,
                place: 0,
                sent_to: 0,
            },
            journal: Journal::new(alloc),
        })
    }

    /// Adds a piece of the page's text, behind all others.
    pub fn piece(&mut self, text: String) -> Result<(), NoMemory>
        requires sound { IsSound self.old }
        requires no_ending { self.old.journal.ending ≡ None }
        requires within { length (joined self.old.journal.pieces)
            + length (chars (string_bytes text)) ≤ page_limit }
        ensures sound { OnOk result (IsSound self.new) }
        ensures shown { OnOk result
            (shown_of self.new false
            ≡ with_piece (chars (string_bytes text)) (shown_of self.old false)) }
        ensures journal { OnErr result (self.new.journal ≡ self.old.journal) }
        ensures stage { OnErr result (self.new.stage ≡ self.old.stage) }
    {
        let text = SharedText::of(self.alloc, text)?;
        let read = Snapshot::of(&text);
        self.ledger.add(Piece::new(text, None))?;
        self.journal.add_piece(read)
    }

    /// Adds the page's ending, behind all pieces.
    pub fn end(&mut self, ending: Ending) -> Result<(), NoMemory>
        requires sound { IsSound self.old }
        requires no_ending { self.old.journal.ending ≡ None }
        ensures sound { OnOk result (IsSound self.new) }
        ensures shown { OnOk result
            (shown_of self.new false ≡ with_ending ending (shown_of self.old false)) }
        ensures journal { OnErr result (self.new.journal ≡ self.old.journal) }
        ensures stage { OnErr result (self.new.stage ≡ self.old.stage) }
    {
        let text = SharedText::empty(self.alloc)?;
        self.ledger.add(Piece::new(text, Some(ending)))?;
        self.journal.set_ending(ending);
        Ok(())
    }

    /// Whether the parse is over.
    fn is_done(&self) -> bool
        ensures { result ≡ is_done (desk_of self.now).phase }
    {
        matches!(&self.stage, Stage::Done(_, _))
    }

    /// Whether a piece may be sent.
    pub fn can_send(&self) -> bool
        ensures { result ≡ can_send self.now.ledger.ahead (desk_of self.now) }
    {
        !self.is_done() && self.ledger.can_keep()
    }

    // Whether the script of that name has arrived.
    fn has_arrived(&self, name: &Text) -> bool
        ensures { result ≡ has_arrived name.now (desk_of self.now) }
    {
        !is_lawful(name.as_str()) || self.journal.find(name.as_str()).is_some()
    }

    /// Whether a batch is in hand, or a script that can run on.
    pub fn can_do(&self) -> bool
        ensures { result ≡ can_do (desk_of self.now) }
    {
        match &self.stage {
            Stage::Free => !self.ledger.left().is_blank(),
            Stage::Tagged(_, _) => true,
            Stage::Waits(name, _) => self.has_arrived(name),
            Stage::Done(_, _) => false,
        }
    }

    /// Whether nothing is in hand, and a reply is to come.
    pub fn wants_reply(&self) -> bool
        ensures { result ≡ wants_reply (desk_of self.now) }
    {
        match &self.stage {
            Stage::Free => self.ledger.left().is_blank() && self.ledger.outstanding() > 0,
            _ => false,
        }
    }

    /// Which of its own events are enabled.
    pub fn could(&self) -> Could
        ensures send { result.send ≡ can_send self.now.ledger.ahead (desk_of self.now) }
        ensures act { result.act ≡ can_do (desk_of self.now) }
        ensures take { result.take ≡ wants_reply (desk_of self.now) }
    {
        Could {
            send: self.can_send(),
            act: self.can_do(),
            take: self.wants_reply(),
        }
    }

    /// Where it stands.
    pub fn status(&self) -> State<'_>
        ensures { standing_told result ≡ standing_of (desk_of self.now) }
    {
        match &self.stage {
            Stage::Waits(name, _) => {
                if self.has_arrived(name) {
                    State::Running
                } else {
                    State::Awaits(name)
                }
            }
            Stage::Done(end, _) => State::Over(*end),
            _ => State::Running,
        }
    }
}

// The events but Do.
impl Side {
    /// Sends the first of the pieces to be sent.
    pub fn send(&mut self) -> Result<Request, NoMemory>
        requires sound { IsSound self.old }
        requires can { IsTrue (can_send self.old.ledger.ahead (desk_of self.old)) }
        ensures sound { OnOk result (IsSound self.new) }
        ensures request { IfOk result
            (λ r. IsRequestFor self.old.ledger.to_send (desk_of self.old) r.request) }
        ensures from { IfOk result (λ r. r.from ≡ sent_before (shown_of self.old false)) }
        ensures shown { OnOk result
            (shown_of self.new false
            ≡ journaled event.Send (sends (desk_of self.old)) (shown_of self.old false)) }
        ensures journal { OnErr result (self.new.journal ≡ self.old.journal) }
        ensures stage { OnErr result (self.new.stage ≡ self.old.stage) }
    {
        let from = self.counts.sent_to;
        let piece = self.ledger.keep()?;
        self.counts.sent_to = from + piece.text().count() as u64;
        let number = self.ledger.sent() as u64;
        let begins = boxed(self.alloc, self.begins.take())?;
        self.journal.add_event(Event::Send)?;
        Ok(Request::new(self.counts.epoch, number, begins, piece, from))
    }

    // Whether a reply is the one called for: to the piece in hand, from where the parser stands.
    fn is_called_for(&self, said: &Said) -> bool
        ensures { IsTrue result → (said.now.start ≡ Some self.now.writer.parser)
            × (said.now.piece ≡ self.now.ledger.left) }
    {
        said.epoch() == self.counts.epoch
            && said.number() == (self.ledger.sent() - self.ledger.outstanding()) as u64
            && said.from() == self.counts.place
            && said.is_of(self.ledger.left())
            && said.begins_at(self.writer.machine())
    }

    // The batches of a reply, where it is the one called for.
    fn batches_of<E: InForce>(&self, reply: Reply<E>) -> Batches
        ensures { AreAhead result
            (answer E.entities (Some self.now.writer.parser) self.now.ledger.left).batches }
    {
        let said = reply.said;
        if !self.is_called_for(&said) {
            return Batches::new(self.alloc);
        }
        said.into_batches()
    }

    /// Takes a reply. It is dropped where an epoch that has ended sent the request; else what was
    /// made of the piece is in hand.
    pub fn take<E: InForce>(&mut self, reply: Reply<E>) -> Result<(), NoMemory>
        requires entities { self.old.table ≡ E.entities }
        requires sound { IsSound self.old }
        requires wanted { IsTrue (wants_reply (desk_of self.old)) }
        ensures sound { OnOk result (IsSound self.new) }
        ensures shown { OnOk result
            (shown_of self.new false
            ≡ journaled event.Take (takes self.old.table (desk_of self.old))
            (shown_of self.old false)) }
        ensures journal { OnErr result (self.new.journal ≡ self.old.journal) }
        ensures stage { OnErr result (self.new.stage ≡ self.old.stage) }
    {
        // A reply to a request of an epoch that has ended isn't the one called for.
        let _current = self.ledger.took();
        let batches = self.batches_of(reply);
        put(&mut self.ready, batches);
        self.journal.add_event(Event::Take)
    }

    /// The fetch of the script of that name has returned.
    pub fn arrive(&mut self, name: Text, fetch: Fetch) -> Result<(), NoMemory>
        requires sound { IsSound self.old }
        ensures sound { OnOk result (IsSound self.new) }
        ensures shown { OnOk result
            (shown_of self.new false
            ≡ with_fetch name (fetched_of fetch) (shown_of self.old false)) }
        ensures journal { OnErr result (self.new.journal ≡ self.old.journal) }
        ensures stage { OnErr result (self.new.stage ≡ self.old.stage) }
    {
        self.journal.add_fetch(name, fetch)
    }

    /// The lines that scripts gave since lines were last taken.
    pub fn lines(&self) -> &Lines
        ensures { result.now ≡ self.now.writer.lines }
    {
        self.writer.lines()
    }

    // How many scripts are in hand, or were where the page was refused.
    fn in_hand(&self) -> u64
        ensures { AreInHand (desk_of self.now).phase result }
    {
        match &self.stage {
            Stage::Free => 0,
            Stage::Tagged(_, _) => 1,
            Stage::Waits(_, _) => 1,
            Stage::Done(End::Finished, _) => 0,
            Stage::Done(End::Refused(_), in_hand) => u64::from(*in_hand),
        }
    }

    /// What it comes to in numbers. Each script of the page that was in hand took a realm of ids,
    /// and each that failed one more and an epoch. A script that is in hand is neither kept nor
    /// failed.
    pub fn tally(&self) -> Tally
        ensures { IsTallyOf (desk_of self.now) result }
    {
        let Counts { epoch, realm, .. } = &self.counts;
        let failed = epoch.saturating_sub(1);
        Tally {
            scripts: self.writer.executed(),
            kept: u64::from(*realm)
                .saturating_sub(*epoch)
                .saturating_sub(failed)
                .saturating_sub(self.in_hand()),
            failed,
            nodes: count_nodes(self.writer.doc().tree()),
            written: self.writer.written(),
        }
    }

    /// Takes the lines that scripts gave since lines were last taken.
    pub fn take_lines(&mut self) -> Result<Lines, NoMemory>
        requires { IsSound self.old }
        ensures lines { IfOk result (λ lines. self.old.writer.lines ≡ lines) }
        ensures taken { IfOk result
            (λ lines. shown_of self.new false
            ≡ record (shown_of self.old false)
            { given = lines_given self.old.given.items ++ lines }) }
        ensures sound { IsSound self.new }
        ensures err { OnErr result (shown_of self.new false ≡ shown_of self.old false) }
    {
        self.given.reserve(1)?;
        let lines = self.writer.take_lines();
        self.given.push_reserved(Snapshot::of(&lines));
        Ok(lines)
    }
}

// Do, with no script in hand.
impl Side {
    // Executes the first batch in hand.
    fn execute_batch(&mut self, log: &mut Log) -> Result<Halt, NoMemory>
        requires sound { IsSound self.old }
        requires free { self.old.stage ≡ Stage.Free }
        requires some { has_none (free_hand self.old) ≡ false }
        ensures executed { IfOk result (λ halt. Executed self.old halt self.new) }
        ensures journal { self.new.journal ≡ self.old.journal }
        ensures logged { OnOk result (log.new ≡ with_more (of_first (free_hand self.old)) log.old) }
    {
        match self.ready.pop() {
            Some(batch) => self.execute_ready(log, batch),
            None => self.parse_left(log),
        }
    }

    // Executes a batch that was made ahead. Where it holds no machine its text is parsed here.
    fn execute_ready(&mut self, log: &mut Log, batch: Batch) -> Result<Halt, NoMemory>
        requires going { self.old.writer.spent ≡ false }
        requires free { IsFree self.old.counts.realm self.old.writer }
        requires first { free_hand self.old ≡ batch ∷ self.old.ready }
        requires placed { IsPlaced self.old.counts.place self.old.counts.sent_to self.old.ledger
            self.old.journal }
        ensures executed { IfOk result (λ halt. Executed self.old halt self.new) }
        ensures journal { self.new.journal ≡ self.old.journal }
        ensures logged { OnOk result (log.new ≡ with_more (of_first (free_hand self.old)) log.old) }
    {
        let halt = batch.halt();
        let used = batch.text().as_str().len();
        let (ops, after) = batch.into_parts();
        match after.into_machine() {
            None => self.parse_left(log),
            Some(machine) => {
                self.writer.execute(log, ops, machine)?;
                self.use_up(used);
                Ok(halt)
            }
        }
    }

    // So many bytes of the piece in hand are executed.
    fn use_up(&mut self, bytes: usize)
        requires front { IsFront bytes self.old.ledger.left.text }
        requires placed { IsPlaced self.old.counts.place self.old.counts.sent_to self.old.ledger
            self.old.journal }
        ensures { UsedUp bytes self.old self.new }
    {
        let left = self.ledger.left().text();
        // That what is left is UTF-8 is known of its str.
        let _read = left.as_str();
        let characters = left.count_front(bytes);
        self.ledger.used(bytes);
        self.counts.place += characters as u64;
    }

    // Parses what is left of the piece in hand up to the first stop, and does the operations.
    fn parse_left(&mut self, log: &mut Log) -> Result<Halt, NoMemory>
        requires going { self.old.writer.spent ≡ false }
        requires free { IsFree self.old.counts.realm self.old.writer }
        requires some { has_none (free_hand self.old) ≡ false }
        requires ahead { AreAhead self.old.ready (behind_first (free_hand self.old)) }
        requires placed { IsPlaced self.old.counts.place self.old.counts.sent_to self.old.ledger
            self.old.journal }
        ensures executed { IfOk result (λ halt. Executed self.old halt self.new) }
        ensures journal { self.new.journal ≡ self.old.journal }
        ensures logged { OnOk result (log.new ≡ with_more (of_first (free_hand self.old)) log.old) }
    {
        if self.ledger.left().text().is_empty() {
            return self.parse_ending(log);
        }
        let text = self.ledger.left().text().as_str();
        let before = self.counts.place;
        let ran = self.writer.parse(log, &self.table, text)?;
        self.use_up(ran.used);
        self.journal
            .count_parsed(self.counts.place.saturating_sub(before));
        Ok(Halt::At(ran.stop))
    }

    // Takes the page's ending, which the piece in hand carries.
    fn parse_ending(&mut self, log: &mut Log) -> Result<Halt, NoMemory>
        requires going { self.old.writer.spent ≡ false }
        requires free { IsFree self.old.counts.realm self.old.writer }
        requires some { has_none (free_hand self.old) ≡ false }
        requires ends { self.old.ledger.left.text ≡ [] }
        requires ahead { AreAhead self.old.ready (behind_first (free_hand self.old)) }
        requires placed { IsPlaced self.old.counts.place self.old.counts.sent_to self.old.ledger
            self.old.journal }
        ensures executed { IfOk result (λ halt. Executed self.old halt self.new) }
        ensures journal { self.new.journal ≡ self.old.journal }
        ensures logged { OnOk result (log.new ≡ with_more (of_first (free_hand self.old)) log.old) }
    {
        match self.ledger.left().ending() {
            Some(ending) => {
                let end = self.writer.finish(log, &self.table, ending)?;
                Ok(Halt::Over(end))
            }
            None => Err(NoMemory),
        }
    }

    // The parse is over, perhaps with a script in hand.
    fn end_parse(&mut self, end: End, in_hand: bool)
        ensures { self.new ≡ ended end in_hand self.old }
    {
        put(&mut self.ready, Batches::new(self.alloc));
        self.set_stage(Stage::Done(end, in_hand));
    }

    // A realm that no element's id has, and the next behind it.
    fn new_realm(&mut self) -> Result<u32, NoMemory>
        ensures realm { IfOk result (λ realm. realm ≡ self.old.counts.realm) }
        ensures next { OnOk result
            (self.new
            ≡ record self.old
            { counts = record self.old.counts { realm = suc self.old.counts.realm } }) }
        ensures err { OnErr result (self.new ≡ self.old) }
    {
        let realm = self.counts.realm;
        self.counts.realm = realm.checked_add(1).ok_or(NoMemory)?;
        Ok(realm)
    }

    // This is in hand from here on.
    fn set_stage(&mut self, stage: Stage)
        ensures { self.new ≡ at_stage stage self.old }
    {
        put(&mut self.stage, stage);
    }

    // The end tag of a script was met. One that runs is in hand from here on, and what it writes
    // has ids of its own.
    fn meet_end_tag(&mut self, id: NodeId) -> Result<(), NoMemory>
        requires bound { IsTrue (is_bound self.old.writer.doc.bound id) }
        requires room { IsRoomy self.old.counts.realm self.old.writer.parser self.old.writer.doc }
        ensures met { OnOk result (MeetsTag (runs_there id self.old) id self.old self.new) }
        ensures journal { self.new.journal ≡ self.old.journal }
    {
        if self.writer.doc().script_kind(id) == ScriptKind::Still {
            return Ok(());
        }
        self.writer.share()?;
        let held = self.writer.machine().copy(self.alloc)?;
        let realm = self.new_realm()?;
        self.writer.renew(realm);
        self.set_stage(Stage::Tagged(id, held));
        Ok(())
    }

    // Executes a batch, and does what its end asks for.
    fn run_batch(&mut self, log: &mut Log) -> Result<(), NoMemory>
        requires sound { IsSound self.old }
        requires free { self.old.stage ≡ Stage.Free }
        requires some { has_none (free_hand self.old) ≡ false }
        ensures runs { OnOk result (RunsBatch self.old self.new) }
        ensures journal { self.new.journal ≡ self.old.journal }
        ensures logged { OnOk result (LogsBy (λ more. MadeFirst (free_hand self.old)
            self.old.writer more self.new.writer) log.old log.new) }
    {
        match self.execute_batch(log)? {
            Halt::At(Stop::InputEnd) => {}
            Halt::At(Stop::Script(id)) => self.meet_end_tag(id)?,
            Halt::At(Stop::Deep) => self.end_parse(End::Refused(Why::Depth), false),
            Halt::Over(end) => self.end_parse(end, false),
        }
        Ok(())
    }
}

// Do, with a script in hand.
impl Side {
    // Runs the script whose end tag was met.
    fn run_tagged(&mut self, log: &mut Log, id: NodeId, held: Machine) -> Result<(), NoMemory>
        requires { IsTagged self.old.counts.realm held self.old.writer
            (is_bound self.old.writer.doc.bound id) }
        ensures runs { OnOk result (RunsTagged id held self.old self.new) }
        ensures journal { self.new.journal ≡ self.old.journal }
        ensures logged { OnOk result
            (LogsBy (λ more. ReachesView (MadeAtTag self.old.table id (at_view self.old.writer))
            more self.new.writer) log.old log.new) }
    {
        self.writer.end_tag(log, &self.table, id)?;
        self.settle(log, held)
    }

    // Runs the script that was awaited.
    fn run_awaited(&mut self, log: &mut Log, name: &Text, held: Machine) -> Result<(), NoMemory>
        requires { IsWaiting self.old.counts.realm name.now held self.old.writer }
        ensures runs { OnOk result
            (RunsFetched (met self.old name.now) name.now held self.old self.new) }
        ensures journal { self.new.journal ≡ self.old.journal }
        ensures logged { OnOk result
            (LogsBy (λ more. ReachesView (MadeByFile (met self.old name.now) self.old.table
            (at_view self.old.writer))
            more self.new.writer) log.old log.new) }
    {
        match self.journal.find(name.as_str()) {
            // A name that isn't lawful is missing.
            None | Some(Fetch::Missing) => {
                self.writer.miss()?;
                self.settle(log, held)
            }
            Some(Fetch::Got(bytes)) => {
                let text = text_of(self.alloc, bytes.as_slice())?;
                self.writer.run_script(log, &self.table, text.as_str())?;
                self.settle(log, held)
            }
            Some(Fetch::Faulted) => {
                self.end_parse(End::Refused(Why::Fault), true);
                Ok(())
            }
        }
    }

    // Parses what was written, until it is used, a script is awaited, or the page is refused.
    fn settle(&mut self, log: &mut Log, held: Machine) -> Result<(), NoMemory>
        requires { self.old.writer.halted ≡ None
            → IsHolding self.old.counts.realm held self.old.writer }
        ensures settled { OnOk result (Settled held self.old self.new) }
        ensures journal { self.new.journal ≡ self.old.journal }
        ensures logged { OnOk result
            (LogsBy (λ more. ReachesView (Made self.old.table (at_view self.old.writer))
            more self.new.writer) log.old log.new) }
    {
        match self.writer.feed_left(log, &self.table)? {
            Left::Empty => self.judge(held)?,
            Left::Awaits(name) => self.set_stage(Stage::Waits(name, held)),
            Left::Refused(why) => self.end_parse(End::Refused(why), true),
        }
        Ok(())
    }

    // The script has ended, and all that was written is used: what was made ahead of it is kept or
    // thrown away.
    fn judge(&mut self, held: Machine) -> Result<(), NoMemory>
        requires { IsHolding self.old.counts.realm held self.old.writer }
        ensures judged { OnOk result (Judged held self.old self.new) }
        ensures journal { self.new.journal ≡ self.old.journal }
    {
        match decide(&held, self.writer.machine()) {
            Verdict::Keep => {
                self.writer.load(held);
                self.set_stage(Stage::Free);
                Ok(())
            }
            Verdict::Rewind => self.rewind(),
        }
    }

    // The epoch ends: what isn't executed of the pieces that were sent is sent again.
    fn rewind(&mut self) -> Result<(), NoMemory>
        requires { AreBelow self.old.counts.realm (is_bound self.old.writer.doc.bound) }
        ensures rewound { OnOk result
            (JudgedAs verdict.Rewind self.old.writer.parser self.old self.new) }
        ensures journal { self.new.journal ≡ self.old.journal }
    {
        let epoch = self.counts.epoch.checked_add(1).ok_or(NoMemory)?;
        let realm = self.new_realm()?;
        self.writer.renew(realm);
        self.writer.share()?;
        self.ledger.rewind(self.alloc)?;
        let begins = self.writer.machine().copy(self.alloc)?;
        self.begin_epoch(epoch, begins);
        Ok(())
    }

    // An epoch begins with nothing in hand, and from there.
    fn begin_epoch(&mut self, epoch: u64, begins: Machine)
        ensures { self.new
            ≡ record self.old {
              ready = [];
              begins = Some begins;
              stage = Stage.Free;
              counts = record self.old.counts { epoch = epoch; sent_to = self.old.counts.place };
            } }
    {
        put(&mut self.ready, Batches::new(self.alloc));
        put(&mut self.begins, Some(begins));
        self.set_stage(Stage::Free);
        self.counts.epoch = epoch;
        self.counts.sent_to = self.counts.place;
    }

    // Do by what is in hand.
    fn act_in(&mut self, log: &mut Log, stage: Stage) -> Result<(), NoMemory>
        requires free { self.old.stage ≡ Stage.Free }
        requires sound { IsSound (at_stage stage self.old) }
        requires can { IsTrue (can_do (desk_of (at_stage stage self.old))) }
        ensures acts { OnOk result (ActsBy stage self.old self.new) }
        ensures journal { self.new.journal ≡ self.old.journal }
        ensures logged { OnOk result (LogsBy (λ more. MadeIn stage self.old more self.new)
            log.old log.new) }
    {
        match stage {
            Stage::Free => self.run_batch(log),
            Stage::Tagged(id, held) => self.run_tagged(log, id, held),
            Stage::Waits(name, held) => self.run_awaited(log, &name, held),
            Stage::Done(_, _) => Ok(()),
        }
    }

    /// Executes a batch, or runs the script that is in hand, until it ends or a script is awaited.
    pub fn act(&mut self, log: &mut Log) -> Result<(), NoMemory>
        requires sound { IsSound self.old }
        requires can { IsTrue (can_do (desk_of self.old)) }
        ensures sound { OnOk result (IsSound self.new) }
        ensures does { OnOk result
            (DoesShow self.old.table self.old.journal.fetches (desk_of self.old)
            (desk_of self.new)) }
        ensures others { OnOk result
            (shown_of self.new false
            ≡ journaled event.Do (desk_of self.new) (shown_of self.old false)) }
        ensures less { OnOk result (left_to_do (desk_of self.new) < left_to_do (desk_of self.old)) }
        ensures journal { OnErr result (self.new.journal ≡ self.old.journal) }
        ensures logged { OnOk result (LogsDo self.old.table self.old.journal.fetches
            (desk_of self.old) (desk_of self.new) log.old log.new) }
    {
        let stage = mem::replace(&mut self.stage, Stage::Free);
        self.act_in(log, stage)?;
        self.journal.add_event(Event::Do)
    }
}
