//! The document's side.

ghost use Rattle.std.specs.Prelude.{◌≡◌, ◌<◌, ◌≤◌, ◌+◌, ◌++◌, ℕ, List, length, true, false, None};
ghost use Rattle.std.specs.Prelude.{IfOk, OnOk, OnErr, IsErr, IsTrue, string_bytes};
ghost use Rattle.std.specs.Str.{chars};
ghost use Rattle.core_definitions.specs.declared.event.Event.TheVariants as event;
ghost use Rattle.core_definitions.specs.Core.{joined};
ghost use Rattle.core_definitions.specs.Desk.{can_send, can_do, wants_reply, can_arrive, sends};
ghost use Rattle.core_definitions.specs.Desk.{takes};
ghost use Rattle.speculation.specs.Asking.{page_limit};
ghost use Rattle.core_steps.specs.Changing.{LogsDo};
ghost use Rattle.core_steps.specs.Fetches.{fetched_of};
ghost use Rattle.core_steps.specs.Sides.{first_shown, with_piece, with_ending, journaled};
ghost use Rattle.core_steps.specs.Sides.{with_fetch, IsRequestFor, sent_before, DoesShow, awaiting};
ghost use Rattle.core_steps.specs.Sides.{standing_of, left_to_do, IsReplayed};
ghost use Rattle.core_steps.specs.States.{standing_told};
ghost use Rattle.core_steps.specs.Tallies.{IsTallyOf};

use crate::fetch::Fetch;
use crate::journal::Journal;
use crate::side::{Could, Side};
use crate::state::State;
use crate::tally::Tally;
use doc_changes::Log;
use entity_table::Table;
use html_types::{Ending, NoMemory, Text};
use op_exec::Doc;
use serial::Lines;
use speculation::{InForce, Reply, Request};
use std::alloc::Global;
use std::marker::Model;
use std::snapshot::Snapshot;

/// The document's side of the core: it sends the page's text out piece by piece, takes what was
/// made of each, executes it in order, runs the scripts that it meets, and decides behind each
/// whether what was made ahead is kept. A contract sees the desk of the definitions, with the
/// journal that replays to it.
///
/// After an event that answered want of memory it answers that to every later one, its desk and
/// journal being as before that event; where it stands and which events are enabled it tells as
/// before it too.
#[derive(Drop)]
pub struct DocSide {
    side: Side,
    before: Snapshot<Side>,
    // What was enabled before the event that was taken last.
    could: Could,
    spent: bool,
}

impl Model for DocSide {
    ghost use Rattle.std.specs.Prelude.{if◌then◌else◌};
    ghost use Rattle.core_steps.specs.Sides.{Shown, shown_of, IsKept};

    ghost Value = { Shown };

    ghost view = { λ d. shown_of (if d.spent then d.before.value else d.side) d.spent };

    ghost invariant = { λ d. IsKept d.side d.before.value d.could d.spent
        (shown_of (if d.spent then d.before.value else d.side) d.spent) };
}

impl DocSide {
    /// Before any event, with no pieces. So many requests are sent ahead at most.
    pub fn new(alloc: Global, table: &Table, ahead: usize) -> Result<DocSide, NoMemory>
        requires some { 0 < ahead }
        requires few { ahead ≤ 64 }
        ensures { IfOk result (λ d. d ≡ first_shown table.now ahead) }
    {
        let side = Side::new(alloc, table, ahead)?;
        let before = Snapshot::of(&side);
        let could = side.could();
        Ok(DocSide {
            side,
            before,
            could,
            spent: false,
        })
    }

    /// Hands in the page's next piece.
    pub fn piece(&mut self, text: String) -> Result<(), NoMemory>
        requires no_ending { self.old.journal.ending ≡ None }
        requires within { length (joined self.old.journal.pieces)
            + length (chars (string_bytes text)) ≤ page_limit }
        ensures spent { self.old.spent ≡ true → IsErr result }
        ensures ok { OnOk result (self.new ≡ with_piece (chars (string_bytes text)) self.old) }
        ensures err { OnErr result (self.new ≡ record self.old { spent = true }) }
    {
        if self.spent {
            return Err(NoMemory);
        }
        self.before = Snapshot::of(&self.side);
        self.could = self.side.could();
        self.spent = true;
        self.side.piece(text)?;
        self.spent = false;
        Ok(())
    }

    /// Hands in the page's ending, behind all its pieces.
    pub fn end(&mut self, ending: Ending) -> Result<(), NoMemory>
        requires { self.old.journal.ending ≡ None }
        ensures spent { self.old.spent ≡ true → IsErr result }
        ensures ok { OnOk result (self.new ≡ with_ending ending self.old) }
        ensures err { OnErr result (self.new ≡ record self.old { spent = true }) }
    {
        if self.spent {
            return Err(NoMemory);
        }
        self.before = Snapshot::of(&self.side);
        self.could = self.side.could();
        self.spent = true;
        self.side.end(ending)?;
        self.spent = false;
        Ok(())
    }

    /// The epoch in which requests are sent now. After want of memory it tells nothing.
    pub fn epoch(&self) -> u64
        ensures { self.now.spent ≡ false → result ≡ self.now.desk.epoch }
    {
        self.side.counts.epoch
    }

    /// Whether credit is left and a piece is to be sent.
    pub fn can_send(&self) -> bool
        ensures { result ≡ can_send self.now.ahead self.now.desk }
    {
        if self.spent {
            return self.could.send;
        }
        self.side.can_send()
    }

    /// Whether a batch is in hand, or a script that can run on.
    pub fn can_do(&self) -> bool
        ensures { result ≡ can_do self.now.desk }
    {
        if self.spent {
            return self.could.act;
        }
        self.side.can_do()
    }

    /// Whether nothing is in hand, and a reply is to come.
    pub fn wants_reply(&self) -> bool
        ensures { result ≡ wants_reply self.now.desk }
    {
        if self.spent {
            return self.could.take;
        }
        self.side.wants_reply()
    }

    /// Sends the first of the pieces to be sent.
    pub fn send(&mut self) -> Result<Request, NoMemory>
        requires can { IsTrue (can_send self.old.ahead self.old.desk) }
        ensures spent { self.old.spent ≡ true → IsErr result }
        ensures request { IfOk result
            (λ r. IsRequestFor self.old.desk.to_send self.old.desk r.request) }
        ensures from { IfOk result (λ r. r.from ≡ sent_before self.old) }
        ensures sent { OnOk result
            (self.new ≡ journaled event.Send (sends self.old.desk) self.old) }
        ensures err { OnErr result (self.new ≡ record self.old { spent = true }) }
    {
        if self.spent {
            return Err(NoMemory);
        }
        self.before = Snapshot::of(&self.side);
        self.could = self.side.could();
        self.spent = true;
        let request = self.side.send()?;
        self.spent = false;
        Ok(request)
    }

    /// Takes a reply. Whatever it says, the desk takes the answer that is called for; or, where the
    /// request was of an epoch that has ended, drops it.
    pub fn take<E: InForce>(&mut self, reply: Reply<E>) -> Result<(), NoMemory>
        requires entities { self.old.entities ≡ E.entities }
        requires wanted { IsTrue (wants_reply self.old.desk) }
        ensures spent { self.old.spent ≡ true → IsErr result }
        ensures took { OnOk result
            (self.new ≡ journaled event.Take (takes self.old.entities self.old.desk) self.old) }
        ensures err { OnErr result (self.new ≡ record self.old { spent = true }) }
    {
        if self.spent {
            return Err(NoMemory);
        }
        self.before = Snapshot::of(&self.side);
        self.could = self.side.could();
        self.spent = true;
        self.side.take(reply)?;
        self.spent = false;
        Ok(())
    }

    /// Executes a batch, or runs the script that is in hand, until it ends or a script is awaited.
    /// The log gains the changes that it made.
    pub fn act(&mut self, log: &mut Log) -> Result<(), NoMemory>
        requires can { IsTrue (can_do self.old.desk) }
        ensures spent { self.old.spent ≡ true → IsErr result }
        ensures does { OnOk result
            (DoesShow self.old.entities self.old.journal.fetches self.old.desk self.new.desk) }
        ensures others { OnOk result (self.new ≡ journaled event.Do self.new.desk self.old) }
        ensures less { OnOk result (left_to_do self.new.desk < left_to_do self.old.desk) }
        ensures logged { OnOk result (LogsDo self.old.entities self.old.journal.fetches
            self.old.desk self.new.desk log.old log.new) }
        ensures err { OnErr result (self.new ≡ record self.old { spent = true }) }
    {
        if self.spent {
            return Err(NoMemory);
        }
        self.before = Snapshot::of(&self.side);
        self.could = self.side.could();
        self.spent = true;
        self.side.act(log)?;
        self.spent = false;
        Ok(())
    }

    /// The fetch of the script of that name has returned.
    pub fn arrive(&mut self, name: Text, fetch: Fetch) -> Result<(), NoMemory>
        requires { IsTrue (can_arrive name self.old.desk) }
        ensures spent { self.old.spent ≡ true → IsErr result }
        ensures arrived { OnOk result (self.new ≡ with_fetch name (fetched_of fetch) self.old) }
        ensures err { OnErr result (self.new ≡ record self.old { spent = true }) }
    {
        if self.spent {
            return Err(NoMemory);
        }
        self.before = Snapshot::of(&self.side);
        self.could = self.side.could();
        self.spent = true;
        self.side.arrive(name, fetch)?;
        self.spent = false;
        Ok(())
    }

    /// Where it stands.
    pub fn status(&self) -> State<'_>
        ensures standing { standing_told result ≡ standing_of self.now.desk }
        // A script that is awaited may arrive.
        ensures awaited { (name : List ℕ) → awaiting name ≡ standing_told result
            → IsTrue (can_arrive name self.now.desk) }
    {
        if self.spent {
            return self.stood();
        }
        self.side.status()
    }

    // Where it stood before the event that was refused. Only Do changes what is in hand where it is
    // refused.
    fn stood(&self) -> State<'_>
        requires { self.now.spent ≡ true }
        ensures { standing_told result ≡ standing_of self.now.desk }
    {
        if self.could.act {
            return State::Running;
        }
        self.side.status()
    }

    /// The lines that scripts gave since lines were last taken. After want of memory it tells
    /// nothing.
    pub fn lines(&self) -> &Lines
        ensures { self.now.spent ≡ false
            → self.now.desk.own.side.lines ≡ self.now.given ++ result.now }
    {
        self.side.lines()
    }

    /// Takes the lines that scripts gave since lines were last taken.
    pub fn take_lines(&mut self) -> Result<Lines, NoMemory>
        ensures spent { self.old.spent ≡ true → IsErr result }
        ensures lines { IfOk result
            (λ lines. self.old.desk.own.side.lines ≡ self.old.given ++ lines) }
        ensures taken { IfOk result
            (λ lines. self.new ≡ record self.old { given = self.old.given ++ lines }) }
        ensures err { OnErr result (self.new ≡ self.old) }
    {
        if self.spent {
            return Err(NoMemory);
        }
        let lines = self.side.take_lines()?;
        Ok(lines)
    }

    /// The document. After want of memory it is perhaps executed in part.
    pub fn doc(&self) -> &Doc
        ensures { self.now.spent ≡ false → result.now ≡ self.now.desk.own.side.doc }
    {
        self.side.writer.doc()
    }

    /// What it comes to in numbers. After want of memory it tells nothing. The tree is walked.
    pub fn tally(&self) -> Tally
        ensures { self.now.spent ≡ false → IsTallyOf self.now.desk result }
    {
        self.side.tally()
    }

    /// The journal, whose events replay to what is shown.
    pub fn journal(&self) -> &Journal
        ensures journal { result.now ≡ self.now.journal }
        ensures replayed { IsReplayed self.now }
    {
        &self.side.journal
    }
}
