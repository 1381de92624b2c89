//! Both sides and what is under way between them, while memory lasts.

ghost use Rattle.std.specs.Prelude.{◌≡◌, ◌≤◌, ◌<◌, ◌+◌, ◌++◌, None, Some, false, length, is_some};
ghost use Rattle.std.specs.Prelude.{OnOk, OnErr, IfOk, IsTrue};
ghost use Rattle.std.specs.Str.{chars};
ghost use Rattle.core_definitions.specs.declared.event.Event.TheVariants as event;
ghost use Rattle.core_definitions.specs.Core.{joined, enabled};
ghost use Rattle.core_definitions.specs.Desk.{can_send, can_do, can_arrive, wants_reply};
ghost use Rattle.core_definitions.specs.Settling.{is_empty as has_none};
ghost use Rattle.speculation.specs.Asking.{page_limit};
ghost use Rattle.core_steps.specs.States.{standing_told};
ghost use Rattle.core_steps.specs.Fetches.{names_of, fetched_of};
ghost use Rattle.core_steps.specs.Sides.{first_shown, standing_of, with_ending};
ghost use Rattle.core_pair.specs.Interleaving.{unless_busy};
ghost use Rattle.core_pair.specs.Nearer.{IsNearer, LeavesLess};
ghost use Rattle.core_pair.specs.Pairs.{setup_of, first_paired, with_pieces, StepsShown, stepped};
ghost use Rattle.core_pair.specs.Pairs.{IsApplicable, Applied, IsRun, brought};

use crate::scripts::Scripts;
use crate::setup::Setup;
use core_steps::{DocSide, Event, Fetch, State, WorkSide, is_lawful};
use doc_changes::Log;
use entity_table::Table;
use html_types::{Ending, NoMemory, Text};
use serial::Lines;
use speculation::{InForce, Reply, Request};
use std::alloc::Global;
use std::collections::VecDeque;
use std::marker::Model;
use std::snapshot::Snapshot;

/// Which events are enabled besides those that the document's side tells of.
#[derive(Clone, Copy)]
pub(crate) struct Could {
    pub pick: bool,
    pub give: bool,
    pub take: bool,
}

/// Both sides, and the requests and replies that are under way, each in order.
#[derive(Drop)]
pub(crate) struct Both<E: InForce> {
    pub alloc: Global,
    pub table: Table,
    pub doc: DocSide,
    pub requests: VecDeque<Request>,
    pub work: WorkSide,
    pub replies: VecDeque<Reply<E>>,
    pub scripts: Scripts,
    pub ending: Ending,
    // The events so far, which are held no more.
    pub events: Vec<Snapshot<Event>>,
}

impl<E: InForce> Model for Both<E> {
    ghost use Rattle.std.specs.Prelude.{◌≡◌, map};
    ghost use Rattle.core_pair.specs.Pairs.{Paired, told_of, events_of};

    ghost Value = { Paired };

    ghost view = { λ b. told_of b.doc (map (λ r. r.request) b.requests.items) b.work
        (map (λ r. r.said.reply) b.replies.items) b.scripts b.ending (events_of b.events.items) };

    ghost invariant = { λ b. b.table ≡ b.doc.entities };
}

// Hands in the page's pieces.
fn hand_in(alloc: Global, doc: &mut DocSide, pieces: &[Text]) -> Result<(), NoMemory>
    requires no_ending { doc.old.journal.ending ≡ None }
    requires within { length (joined doc.old.journal.pieces)
        + length (joined pieces.now) ≤ page_limit }
    ensures { OnOk result (doc.new ≡ with_pieces pieces.now doc.old) }
{
    let mut rest = pieces;
    'pieces: while let Some((first, behind)) = rest.split_first() {
        let text = String::from_str(alloc, first.as_str())?;
        doc.piece(text)?;
        rest = behind;
    }
    Ok(())
}

// Hands in the page's pieces, and how it ends.
fn hand_in_page(
    alloc: Global,
    doc: &mut DocSide,
    pieces: &[Text],
    ending: Ending,
) -> Result<(), NoMemory>
    requires no_ending { doc.old.journal.ending ≡ None }
    requires within { length (joined doc.old.journal.pieces) + length (joined pieces.now)
        ≤ page_limit }
    ensures { OnOk result (doc.new ≡ with_ending ending (with_pieces pieces.now doc.old)) }
{
    hand_in(alloc, doc, pieces)?;
    doc.end(ending)?;
    Ok(())
}

// Lets a value go. Where a document's side ends in the function that has it, the proof of that
// function spells out all of its parts, which takes minutes; here they are those of its type,
// once.
fn let_go<T: Drop>(_value: T) {}

// The document's side before any event, with all of the page handed in.
fn first_side(
    alloc: Global,
    table: &Table,
    pieces: &[Text],
    ending: Ending,
    ahead: usize,
) -> Result<DocSide, NoMemory>
    requires some { 0 < ahead }
    requires few { ahead ≤ 64 }
    requires within { length (joined pieces.now) ≤ page_limit }
    ensures { IfOk result (λ d.
        d ≡ with_ending ending (with_pieces pieces.now (first_shown table.now ahead))) }
{
    let mut doc = DocSide::new(alloc, table, ahead)?;
    match hand_in_page(alloc, &mut doc, pieces, ending) {
        Ok(()) => Ok(doc),
        Err(NoMemory) => {
            let_go(doc);
            Err(NoMemory)
        }
    }
}

impl<E: InForce> Both<E> {
    /// Before any event.
    pub fn new(alloc: Global, setup: Setup<'_>) -> Result<Both<E>, NoMemory>
        requires some { 0 < setup.ahead }
        requires few { setup.ahead ≤ 64 }
        requires within { length (joined setup.pieces.items) ≤ page_limit }
        ensures { IfOk result
            (λ b. b ≡ first_paired setup.entry.table.now setup.entry.scripts
            setup.entry.pieces.items setup.entry.ending setup.entry.ahead) }
    {
        let Setup {
            table,
            pieces,
            ending,
            scripts,
            ahead,
        } = setup;
        let table = table.copy()?;
        let doc = first_side(alloc, &table, pieces.as_slice(), ending, ahead)?;
        Ok(Both {
            alloc,
            table,
            doc,
            requests: VecDeque::new(alloc),
            work: WorkSide::new(alloc),
            replies: VecDeque::new(alloc),
            scripts,
            ending,
            events: Vec::new(alloc),
        })
    }

    /// Whether the document's side knows of no fetch of that script, which has a lawful name.
    pub fn can_arrive(&self, name: &Text) -> bool
        requires arrived { self.now.core.desk.arrived ≡ names_of self.now.journal.fetches }
        ensures { result ≡ can_arrive name.now self.now.core.desk }
    {
        is_lawful(name.as_str()) && self.doc.journal().find(name.as_str()).is_none()
    }

    /// Whether the document's side can send.
    pub fn can_send(&self) -> bool
        ensures { result ≡ can_send self.now.ahead self.now.core.desk }
    {
        self.doc.can_send()
    }

    /// Whether the document's side has a batch in hand, or a script that can run on.
    pub fn can_do(&self) -> bool
        ensures { result ≡ can_do self.now.core.desk }
    {
        self.doc.can_do()
    }

    // Whether a request is to be picked, and the parser's side has none in hand.
    fn can_pick(&self) -> bool
        ensures { result ≡ enabled (setup_of self.now) event.Pick self.now.core }
    {
        self.work.can_pick() && !self.requests.is_empty()
    }

    // Whether the parser's side has a request in hand.
    fn can_give(&self) -> bool
        ensures { result ≡ enabled (setup_of self.now) event.Give self.now.core }
    {
        !self.work.can_pick()
    }

    // Whether a reply is to be taken, and nothing is in hand.
    fn can_take(&self) -> bool
        requires run { IsRun E.entities self.now }
        ensures { result ≡ enabled (setup_of self.now) event.Take self.now.core }
    {
        self.doc.wants_reply() && !self.replies.is_empty()
    }

    /// Which events are enabled besides those that the document's side tells of.
    pub fn could(&self) -> Could
        requires run { IsRun E.entities self.now }
        ensures pick { result.pick ≡ enabled (setup_of self.now) event.Pick self.now.core }
        ensures give { result.give ≡ enabled (setup_of self.now) event.Give self.now.core }
        ensures takes { result.take ≡ enabled (setup_of self.now) event.Take self.now.core }
    {
        Could {
            pick: self.can_pick(),
            give: self.can_give(),
            take: self.can_take(),
        }
    }

    /// Where it stands, where events are enabled that need no script, or not.
    pub fn status(&self, busy: bool) -> State<'_>
        ensures { standing_told result ≡ unless_busy busy (standing_of self.now.core.desk) }
    {
        match self.doc.status() {
            State::Awaits(_) if busy => State::Running,
            state => state,
        }
    }
}

// What it gives.
impl<E: InForce> Both<E> {
    /// The lines that scripts gave since lines were last taken.
    pub fn take_lines(&mut self) -> Result<Lines, NoMemory>
        ensures lines { IfOk result
            (λ lines. self.old.core.desk.own.side.lines ≡ self.old.given ++ lines) }
        ensures taken { IfOk result
            (λ lines. self.new ≡ record self.old { given = self.old.given ++ lines }) }
        ensures err { OnErr result (self.new ≡ self.old) }
    {
        self.doc.take_lines()
    }
}

// What it is given on the way.
impl<E: InForce> Both<E> {
    /// Sets what comes of fetching the script of that name.
    pub fn bring(&mut self, name: Text, fetch: Fetch) -> Result<(), NoMemory>
        ensures ok { OnOk result (self.new ≡ brought name (fetched_of fetch) self.old) }
        ensures err { OnErr result (self.new ≡ self.old) }
    {
        self.scripts.bring(name, fetch)
    }
}

// The events.
impl<E: InForce> Both<E> {
    // The document's side sends a piece.
    fn send(&mut self) -> Result<(), NoMemory>
        requires { IsTrue (can_send self.old.ahead self.old.core.desk) }
        ensures applied { OnOk result (Applied event.Send self.old self.new) }
        ensures journal { OnErr result (self.new.journal ≡ self.old.journal) }
        ensures desk { OnErr result (self.new.core.desk ≡ self.old.core.desk) }
        ensures ahead { OnErr result (self.new.ahead ≡ self.old.ahead) }
    {
        self.requests.reserve(1)?;
        let request = self.doc.send()?;
        self.requests.push_back_reserved(request);
        Ok(())
    }

    // The parser's side takes the request that stands first.
    fn pick(&mut self)
        requires { self.old.core.work.hand ≡ None }
        ensures { Applied event.Pick self.old self.new }
    {
        if let Some(request) = self.requests.pop_front() {
            self.work.pick(request);
        }
    }

    // The parser's side gives the reply to it.
    fn give(&mut self) -> Result<(), NoMemory>
        requires entities { self.old.entities ≡ E.entities }
        requires full { IsTrue (is_some self.old.core.work.hand) }
        ensures applied { OnOk result (Applied event.Give self.old self.new) }
        ensures journal { OnErr result (self.new.journal ≡ self.old.journal) }
        ensures desk { OnErr result (self.new.core.desk ≡ self.old.core.desk) }
        ensures ahead { OnErr result (self.new.ahead ≡ self.old.ahead) }
    {
        let reply = self.work.give::<E>(&self.table)?;
        self.replies.push_back(reply)?;
        Ok(())
    }

    // The document's side takes the reply that stands first.
    fn take(&mut self) -> Result<(), NoMemory>
        requires entities { self.old.entities ≡ E.entities }
        requires wanted { IsTrue (wants_reply self.old.core.desk) }
        ensures applied { OnOk result (Applied event.Take self.old self.new) }
        ensures journal { OnErr result (self.new.journal ≡ self.old.journal) }
        ensures desk { OnErr result (self.new.core.desk ≡ self.old.core.desk) }
        ensures ahead { OnErr result (self.new.ahead ≡ self.old.ahead) }
    {
        let Some(reply) = self.replies.pop_front() else {
            return Err(NoMemory);
        };
        self.doc.take(reply)?;
        Ok(())
    }

    // The document's side executes a batch, or runs the script that is in hand.
    fn act(&mut self) -> Result<(), NoMemory>
        requires { IsTrue (can_do self.old.core.desk) }
        ensures applied { OnOk result (Applied event.Do self.old self.new) }
        ensures less { OnOk result (LeavesLess event.Do self.old.core self.new.core) }
        ensures journal { OnErr result (self.new.journal ≡ self.old.journal) }
        ensures desk { OnErr result (self.new.core.desk ≡ self.old.core.desk) }
        ensures ahead { OnErr result (self.new.ahead ≡ self.old.ahead) }
    {
        let mut unwanted = Log::new(self.alloc, false);
        self.doc.act(&mut unwanted)?;
        Ok(())
    }

    // The fetch of the script of that name has returned.
    fn arrive(&mut self, name: Text) -> Result<(), NoMemory>
        requires { IsTrue (can_arrive name self.old.core.desk) }
        ensures applied { OnOk result (Applied (event.Arrive name) self.old self.new) }
        ensures journal { OnErr result (self.new.journal ≡ self.old.journal) }
        ensures desk { OnErr result (self.new.core.desk ≡ self.old.core.desk) }
        ensures ahead { OnErr result (self.new.ahead ≡ self.old.ahead) }
    {
        let fetch = self.scripts.fetch(self.alloc, name.as_str())?;
        self.doc.arrive(name, fetch)
    }

    // What the event makes of both sides.
    fn apply(&mut self, event: Event) -> Result<(), NoMemory>
        requires { IsApplicable E.entities event self.old }
        ensures applied { OnOk result (Applied event self.old self.new) }
        ensures less { OnOk result (LeavesLess event self.old.core self.new.core) }
        ensures journal { OnErr result (self.new.journal ≡ self.old.journal) }
        ensures desk { OnErr result (self.new.core.desk ≡ self.old.core.desk) }
        ensures ahead { OnErr result (self.new.ahead ≡ self.old.ahead) }
    {
        match event {
            Event::Send => self.send(),
            Event::Pick => {
                self.pick();
                Ok(())
            }
            Event::Give => self.give(),
            Event::Take => self.take(),
            Event::Do => self.act(),
            Event::Arrive(name) => self.arrive(name),
        }
    }

    /// Takes an event.
    pub fn step(&mut self, event: Event) -> Result<(), NoMemory>
        requires run { IsRun E.entities self.old }
        requires can { IsTrue (enabled (setup_of self.old) event self.old.core) }
        ensures run { OnOk result (IsRun E.entities self.new) }
        ensures steps { OnOk result
            (StepsShown (setup_of self.old) event self.old.core self.new.core) }
        ensures others { OnOk result (self.new ≡ stepped event self.new.core self.old) }
        ensures nearer { OnOk result (IsNearer event self.old.core self.new.core) }
        ensures journal { OnErr result (self.new.journal ≡ self.old.journal) }
        ensures desk { OnErr result (self.new.core.desk ≡ self.old.core.desk) }
        ensures ahead { OnErr result (self.new.ahead ≡ self.old.ahead) }
    {
        let taken = Snapshot::of(&event);
        self.events.push(taken)?;
        self.apply(event)?;
        Ok(())
    }
}
