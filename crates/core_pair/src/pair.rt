//! The pair of both sides.

ghost use Rattle.std.specs.Prelude.{◌≡◌, ◌≢◌, ◌↔◌, ◌≤◌, ◌<◌, ◌++◌, ℕ, List, false, true, length};
ghost use Rattle.std.specs.Prelude.{IfOk, OnOk, OnErr, IsErr, IsTrue};
ghost use Rattle.core_definitions.specs.declared.event.Event.TheVariants as event;
ghost use Rattle.core_definitions.specs.Core.{joined, enabled};
ghost use Rattle.core_laws.specs.CoreLaws.{IsIdle};
ghost use Rattle.speculation.specs.Asking.{page_limit};
ghost use Rattle.core_steps.specs.Sides.{running, awaiting};
ghost use Rattle.core_steps.specs.States.{standing_told};
ghost use Rattle.core_pair.specs.Interleaving.{standing_of_core, Awaits, IsReached};
ghost use Rattle.core_pair.specs.Interleaving.{AlwaysStandsFor, EndsAsSerial, EndsInEach};
ghost use Rattle.core_pair.specs.Interleaving.{LinesBegin, EndStays, CreditIsKept};
ghost use Rattle.core_pair.specs.Interleaving.{BoundedWhereItStands, BoundedByTheParse};
ghost use Rattle.core_pair.specs.Nearer.{IsNearer};
ghost use Rattle.core_definitions.specs.Desk.{can_arrive};
ghost use Rattle.core_steps.specs.Fetches.{fetched_of};
ghost use Rattle.core_pair.specs.Pairs.{setup_of, first_paired, StepsShown, stepped, is_busy};
ghost use Rattle.core_pair.specs.Pairs.{brought};

use crate::both::{Both, Could};
use crate::setup::Setup;
use core_steps::{Event, Fetch, Journal, State};
use html_types::{NoMemory, Text};
use op_exec::Doc;
use serial::Lines;
use speculation::InForce;
use std::alloc::Global;
use std::marker::Model;
use std::snapshot::Snapshot;

/// The core: both sides, and the requests and replies that are under way. A contract sees the core
/// of the definitions, with the document side's journal, what the pair was given, and the events so
/// far. Of a parse that is over it sees result, document and lines, and what is kept of the pieces.
///
/// After an event that answered want of memory it answers that to every later one, and shows what
/// it did before that event; what is enabled and where it stands it tells as before it too.
#[derive(Drop)]
pub struct Pair<E: InForce> {
    both: Both<E>,
    before: Snapshot<Both<E>>,
    // What was enabled before the event that was taken last.
    could: Could,
    spent: bool,
}

impl<E: InForce> Model for Pair<E> {
    ghost use Rattle.core_pair.specs.Pairs.{Paired, paired_of, IsKept};

    ghost Value = { Paired };

    ghost view = { λ p. paired_of p.both p.before.value p.spent };

    ghost invariant = { λ p. IsKept E.entities p.both p.before.value p.could p.spent };
}

impl<E: InForce> Pair<E> {
    /// Before any event: nothing is sent, the first epoch goes on, and no file of a script has
    /// arrived.
    pub fn new(alloc: Global, setup: Setup<'_>) -> Result<Pair<E>, NoMemory>
        requires entities { setup.table.now ≡ E.entities }
        requires some { 0 < setup.ahead }
        requires few { setup.ahead ≤ 64 }
        requires within { length (joined setup.pieces.items) ≤ page_limit }
        ensures { IfOk result
            (λ p. p ≡ first_paired setup.entry.table.now setup.entry.scripts
            setup.entry.pieces.items setup.entry.ending setup.entry.ahead) }
    {
        let both = Both::new(alloc, setup)?;
        let before = Snapshot::of(&both);
        let could = both.could();
        Ok(Pair {
            both,
            before,
            could,
            spent: false,
        })
    }

    // Which events are enabled besides those that the document's side tells of.
    fn could(&self) -> Could
        ensures pick { result.pick ≡ enabled (setup_of self.now) event.Pick self.now.core }
        ensures give { result.give ≡ enabled (setup_of self.now) event.Give self.now.core }
        ensures takes { result.take ≡ enabled (setup_of self.now) event.Take self.now.core }
    {
        if self.spent {
            return self.could;
        }
        self.both.could()
    }

    // Whether the document's side can send.
    fn can_send(&self) -> bool
        ensures { result ≡ enabled (setup_of self.now) event.Send self.now.core }
    {
        self.both.can_send()
    }

    /// Whether the event is enabled.
    pub fn enabled(&self, event: &Event) -> bool
        ensures { result ≡ enabled (setup_of self.now) event.now self.now.core }
    {
        let could = self.could();
        match event {
            Event::Send => self.can_send(),
            Event::Pick => could.pick,
            Event::Give => could.give,
            Event::Take => could.take,
            Event::Do => self.both.can_do(),
            Event::Arrive(name) => self.both.can_arrive(name),
        }
    }

    /// Takes an event, which is to be enabled.
    pub fn step(&mut self, event: Event) -> Result<(), NoMemory>
        requires { IsTrue (enabled (setup_of self.old) event self.old.core) }
        ensures spent { self.old.spent ≡ true → IsErr result }
        ensures steps { OnOk result
            (StepsShown (setup_of self.old) event self.old.core self.new.core) }
        ensures others { OnOk result (self.new ≡ stepped event self.new.core self.old) }
        ensures setup { OnOk result (setup_of self.new ≡ setup_of self.old) }
        ensures stands_for { OnOk result (AlwaysStandsFor self.new) }
        ensures stays { OnOk result (EndStays self.old.core self.new.core) }
        ensures nearer { OnOk result (IsNearer event self.old.core self.new.core) }
        ensures err { OnErr result (self.new ≡ record self.old { spent = true }) }
    {
        if self.spent {
            return Err(NoMemory);
        }
        self.before = Snapshot::of(&self.both);
        self.could = self.both.could();
        self.spent = true;
        self.both.step(event)?;
        self.spent = false;
        Ok(())
    }

    /// Sets what comes of fetching the script of that name, which hasn't arrived. Of what was set
    /// for one name the last counts.
    pub fn bring(&mut self, name: Text, fetch: Fetch) -> Result<(), NoMemory>
        requires { IsTrue (can_arrive name self.old.core.desk) }
        ensures ok { OnOk result (self.new ≡ brought name (fetched_of fetch) self.old) }
        ensures stands_for { OnOk result (AlwaysStandsFor self.new) }
        ensures err { OnErr result (self.new ≡ self.old) }
    {
        if self.spent {
            return Err(NoMemory);
        }
        self.both.bring(name, fetch)
    }

    // Whether an event is enabled that needs no script.
    fn is_busy(&self) -> bool
        ensures { result ≡ is_busy (setup_of self.now) self.now.core }
    {
        let could = self.could();
        self.can_send() || could.pick || could.give
    }

    /// Where it stands.
    pub fn status(&self) -> State<'_>
        ensures told { standing_told result ≡ standing_of_core (setup_of self.now) self.now.core }
        ensures never_stuck { IsIdle (setup_of self.now) self.now.core
            → standing_told result ≢ running }
        ensures awaits { (name : List ℕ)
            → (standing_told result ≡ awaiting name) ↔ Awaits name self.now }
        ensures ends { EndsAsSerial self.now }
    {
        let busy = self.is_busy();
        self.both.status(busy)
    }

    /// What holds of it whatever events were taken, and in whatever order.
    pub fn every_interleaving(&self)
        ensures reached { IsReached self.now }
        ensures stands_for { AlwaysStandsFor self.now }
        ensures ends { EndsAsSerial self.now }
        ensures in_each { EndsInEach self.now }
        ensures lines { LinesBegin self.now }
        ensures credit { CreditIsKept self.now }
        ensures so_far { BoundedWhereItStands self.now }
        ensures in_all { BoundedByTheParse self.now }
    {
        let _both = &self.both;
    }

    /// The lines that scripts gave since lines were last taken.
    pub fn take_lines(&mut self) -> Result<Lines, NoMemory>
        ensures spent { self.old.spent ≡ true → IsErr result }
        ensures lines { IfOk result
            (λ lines. self.old.core.desk.own.side.lines ≡ self.old.given ++ lines) }
        ensures taken { IfOk result
            (λ lines. self.new ≡ record self.old { given = self.old.given ++ lines }) }
        ensures err { OnErr result (self.new ≡ self.old) }
    {
        if self.spent {
            return Err(NoMemory);
        }
        self.both.take_lines()
    }

    /// The document. After want of memory it is perhaps executed in part.
    pub fn doc(&self) -> &Doc
        ensures { self.now.spent ≡ false → result.now ≡ self.now.core.desk.own.side.doc }
    {
        self.both.doc.doc()
    }

    /// The document side's journal.
    pub fn journal(&self) -> &Journal
        ensures { result.now ≡ self.now.journal }
    {
        self.both.doc.journal()
    }
}
