// A page is parsed: its document's side takes turns with the parser's side, which is in this thread
// or in one of its own.
ghost use Rattle.std.specs.Prelude.{◌≡◌, ◌<◌, ◌≤◌, [], length, suc, nat_lt, ◌&&◌, is_none, false};
ghost use Rattle.std.specs.Prelude.{true, IfOk, IfSome, IfNone, OnOk, OnErr, IsErrOf, IsTrue};
ghost use Rattle.std.specs.String.{string_bytes};
ghost use Rattle.outside.specs.Outside.{Rose, KeepsOthers};
ghost use Rattle.core_definitions.specs.declared.event.Event.TheVariants as event;
ghost use Rattle.core_definitions.specs.Desk.{done, is_done, can_do, wants_reply, takes};
ghost use Rattle.core_steps.specs.Fetches.{names_of};
ghost use Rattle.core_steps.specs.Sides.{first_shown, journaled, IsReplayed, awaiting, standing_of};
ghost use Rattle.page_turns.specs.declared.page.Failure.TheVariants as failures;
ghost use Rattle.parse_machine.specs.Ends.{result_of};
ghost use Rattle.page_turns.specs.Pages.{IsUnread};
ghost use Rattle.page_turns.specs.Cuts.{IsCut};
ghost use Rattle.core_steps.specs.Changing.{LogsDo};
ghost use Rattle.page_turns.specs.Along.{Stays, MayDo, Goes};
ghost use Rattle.page_turns.specs.Scripts.{folder_with, Met};
ghost use Rattle.page_turns.specs.Early.{FailsToBring};
ghost use Rattle.page_turns.specs.Messages.{TakesOne, TakesLast, TakenSoFar, MayTakeMore, TellsOn};
ghost use Rattle.page_turns.specs.Watched.{ungrown, HasTold, AllPassed, Follows};
ghost use Rattle.page_turns.specs.Turns.{no_load, under_way, StaysRead, RunsOn, RunsInPart};
ghost use Rattle.page_turns.specs.Turns.{Arrives, Brings, BeginsTheAwaited, GivesUp, RunsOut};

use crate::counterpart::Counterpart;
use crate::job::Job;
use crate::output::write_lines;
use crate::prefetch::{Early, Prefetch};
use crate::reader::PageReader;
use crate::scripts::fetch_script;
use crate::watch::Watch;
use core_steps::{DocSide, End, State};
use doc_changes::Log;
use html_types::{NoMemory, Text};
use outside::{Failed, Outside, Port, Sink};
use speculation::{InForce, Reply};
use std::alloc::{AllocError, Global};

/// Why a call that was going on gave up.
#[derive(Clone, Copy, PartialEq, Eq)]
pub enum Failure {
    /// Memory ran out.
    Memory,
    /// The sink failed.
    Write,
}

impl From<AllocError> for Failure {
    ghost from_gives = { λ _ e. e ≡ failures.Memory };

    fn from(_error: AllocError) -> Failure {
        Failure::Memory
    }
}

impl From<NoMemory> for Failure {
    ghost from_gives = { λ _ e. e ≡ failures.Memory };

    fn from(_error: NoMemory) -> Failure {
        Failure::Memory
    }
}

impl From<Failed> for Failure {
    ghost from_gives = { λ _ e. e ≡ failures.Write };

    fn from(_error: Failed) -> Failure {
        Failure::Write
    }
}

/// The most bytes of a page.
pub const PAGE_LIMIT: usize = 1_073_741_824;

// What the parse came to, where it is over.
fn outcome_of(doc: &DocSide) -> Option<End>
    ensures over { IfSome result (λ o. doc.now.desk.phase ≡ done (result_of o)) }
    ensures on { IfNone result (is_done doc.now.desk.phase ≡ false) }
{
    match doc.status() {
        State::Over(end) => Some(end),
        _ => None,
    }
}

// Whether the page is read on, where nothing of it is to be sent: credit is left, and its ending
// wasn't read.
fn may_read<E: InForce, L: Counterpart<E>>(doc: &DocSide, lanes: &L, ahead: usize) -> bool
    requires { under_way (L.load lanes.now) ≤ 64 }
    ensures may { result
        ≡ (nat_lt (under_way (L.load lanes.now)) ahead && is_none doc.now.journal.ending) }
    ensures replayed { IsReplayed doc.now }
{
    let open = doc.journal().ending().is_none();
    lanes.has_room(ahead) && open
}

// Tells those who fetch early of a reply that isn't dropped.
fn hear<E: InForce, P: Prefetch<E>>(early: &mut P, reply: &Reply<E>, doc: &DocSide)
    ensures given { P.given early.new ≡ P.given early.old }
    ensures crew { P.crew early.new ≡ P.crew early.old }
    ensures to_come { P.to_come early.new ≤ P.to_come early.old }
{
    if reply.said.epoch() == doc.epoch() {
        early.hear(reply, doc.journal());
    }
}

// Takes the reply that is given next. The scripts of one that isn't dropped may be fetched from
// then on.
fn take_reply<E: InForce, L: Counterpart<E>, P: Prefetch<E>>(
    doc: &mut DocSide,
    lanes: &mut L,
    early: &mut P,
) -> Result<(), NoMemory>
    requires entities { doc.old.entities ≡ E.entities }
    requires wanted { IsTrue (wants_reply doc.old.desk) }
    requires stands { 0 < (L.load lanes.old).replies }
    ensures took { OnOk result
        (doc.new ≡ journaled event.Take (takes doc.old.entities doc.old.desk) doc.old) }
    ensures load { OnOk result
        (L.load lanes.old
        ≡ record (L.load lanes.new) { replies = suc (L.load lanes.new).replies }) }
    ensures stays { OnErr result (Stays doc.old doc.new) }
    ensures put { L.put lanes.new ≡ L.put lanes.old }
    ensures reply { OnOk result (TakesOne (L.taken lanes.old) (L.taken lanes.new)) }
    ensures tells { OnOk result (TellsOn E.entities (L.put lanes.old) (L.put lanes.new)
        (L.taken lanes.old) (L.taken lanes.new) (L.ordered lanes.old) (L.ordered lanes.new)) }
    ensures last { OnErr result (TakesLast (L.taken lanes.old) (L.taken lanes.new)) }
    ensures given { P.given early.new ≡ P.given early.old }
    ensures crew { P.crew early.new ≡ P.crew early.old }
    ensures to_come { P.to_come early.new ≤ P.to_come early.old }
{
    let reply = lanes.take()?;
    hear::<E, P>(early, &reply, doc);
    doc.take(reply)
}

// Executes a batch, or runs the script that is in hand, and writes the lines that it gave.
fn do_and_write<K: Sink>(
    alloc: Global,
    out: &mut K,
    doc: &mut DocSide,
    log: &mut Log,
) -> Result<(), Failure>
    requires can { IsTrue (can_do doc.old.desk) }
    requires lines { doc.old.desk.own.side.lines ≡ doc.old.given }
    ensures ok { OnOk result (RunsOn (K.taken out.old) (K.taken out.new) doc.old doc.new) }
    ensures err { OnErr result (RunsInPart (K.taken out.old) (K.taken out.new) doc.old doc.new) }
    ensures stays { OnErr result (StaysRead doc.old doc.new) }
    ensures did { MayDo doc.old doc.new }
    ensures write { IsErrOf result Failure.Write → Rose (K.faults out.old) (K.faults out.new) }
    ensures faults { K.faults out.old ≤ K.faults out.new }
    ensures logged { OnOk result (LogsDo doc.old.entities doc.old.journal.fetches
        doc.old.desk doc.new.desk log.old log.new) }
{
    doc.act(log)?;
    let lines = doc.take_lines()?;
    write_lines(alloc, out, lines.as_slice())
}

// The same, and then tells who watches what the document did. Of a Do whose lines weren't written
// nothing is told.
fn run_on<K: Sink, W: Watch>(
    alloc: Global,
    out: &mut K,
    doc: &mut DocSide,
    watch: &mut W,
) -> Result<(), Failure>
    requires can { IsTrue (can_do doc.old.desk) }
    requires lines { doc.old.desk.own.side.lines ≡ doc.old.given }
    ensures ok { OnOk result (RunsOn (K.taken out.old) (K.taken out.new) doc.old doc.new) }
    ensures err { OnErr result (RunsInPart (K.taken out.old) (K.taken out.new) doc.old doc.new) }
    ensures stays { OnErr result (StaysRead doc.old doc.new) }
    ensures did { MayDo doc.old doc.new }
    ensures write { IsErrOf result Failure.Write → Rose (K.faults out.old) (K.faults out.new) }
    ensures faults { K.faults out.old ≤ K.faults out.new }
    ensures watches { W.watches watch.new ≡ W.watches watch.old }
    ensures watched { IsTrue (W.watches watch.old) → OnOk result (IsReplayed doc.old
        → Follows doc.old (W.doc watch.old) (W.shown watch.old)
        → Follows doc.new (W.doc watch.new) (W.shown watch.new)) }
    ensures untold { OnErr result (W.doc watch.new ≡ W.doc watch.old) }
    ensures unshown { OnErr result (W.shown watch.new ≡ W.shown watch.old) }
    ensures count { W.count watch.new ≡ W.count watch.old }
{
    let mut log = Log::new(alloc, watch.wants());
    do_and_write(alloc, out, doc, &mut log)?;
    // What the journal replays to is known from here on.
    let _journal = doc.journal();
    watch.did(log.take())?;
    Ok(())
}

// The name of the script that is awaited.
fn awaited_name(alloc: Global, doc: &DocSide) -> Result<Text, NoMemory>
    requires { (name : _) × (standing_of doc.now.desk ≡ awaiting name) }
    ensures { IfOk result (λ name. standing_of doc.now.desk ≡ awaiting name) }
{
    match doc.status() {
        State::Awaits(name) => name.copy(alloc),
        _ => unreachable!(),
    }
}

// Fetches the script of that name, which is awaited, from its file.
fn fetch_named<F: Outside>(
    alloc: Global,
    dir: &str,
    files: &mut F,
    doc: &mut DocSide,
    name: Text,
) -> Result<(), NoMemory>
    requires awaits { standing_of doc.old.desk ≡ awaiting name }
    ensures arrives { OnOk result
        ((given : Met)
        → Arrives (folder_with dir.now given) (F.seen files.old) (F.seen files.new) doc.old
        doc.new) }
    ensures stays { OnErr result (Stays doc.old doc.new) }
    ensures begins { BeginsTheAwaited dir.now (F.seen files.old) (F.seen files.new) doc.old.desk }
    ensures others { KeepsOthers Port.Script (F.seen files.old) (F.seen files.new) }
{
    let fetch = fetch_script(alloc, files, dir, name.as_str())?;
    doc.arrive(name, fetch)
}

// Goes on where a script is awaited: takes an answer of the one who was asked for it, where one is
// to come, and what comes early has arrived; or else fetches it from its file.
fn fetch_awaited<E: InForce, F: Outside, P: Prefetch<E>>(
    alloc: Global,
    dir: &str,
    files: &mut F,
    doc: &mut DocSide,
    early: &mut P,
) -> Result<(), NoMemory>
    requires awaits { (name : _) × (standing_of doc.old.desk ≡ awaiting name) }
    requires arrived { doc.old.desk.arrived ≡ names_of doc.old.journal.fetches }
    ensures brings { OnOk result
        (Brings (folder_with dir.now (P.given early.new)) (F.seen files.old) (F.seen files.new)
        (P.given early.old) (P.to_come early.old) (P.to_come early.new) doc.old doc.new) }
    ensures fails { OnErr result
        (FailsToBring doc.old.journal.fetches (P.given early.old) (P.given early.new)
        (F.seen files.old) (F.seen files.new)) }
    ensures crew { P.crew early.new ≡ P.crew early.old }
    ensures stays { OnErr result (Stays doc.old doc.new) }
    ensures begins { BeginsTheAwaited dir.now (F.seen files.old) (F.seen files.new) doc.old.desk }
    ensures others { KeepsOthers Port.Script (F.seen files.old) (F.seen files.new) }
{
    let name = awaited_name(alloc, doc)?;
    match early.next(name.as_str(), doc.journal())? {
        Early::Unasked => fetch_named(alloc, dir, files, doc, name),
        Early::Nothing => Ok(()),
        Early::Came(other, fetch) => doc.arrive(other, fetch),
    }
}

// Takes turns until the parse is over: Send and reading on come first, then the events of the
// parser's side, then Take, then Do, and where nothing else can be done a script is brought.
pub(crate) fn take_turns<
    E: InForce,
    L: Counterpart<E>,
    P: Prefetch<E>,
    F: Outside,
    K: Sink,
    W: Watch,
>(
    alloc: Global,
    job: &Job<'_>,
    files: &mut F,
    out: &mut K,
    doc: &mut DocSide,
    lanes: &mut L,
    early: &mut P,
    reader: &mut PageReader,
    room: &mut [u8],
    watch: &mut W,
) -> Result<End, Failure>
    requires room { 0 < length room.old }
    requires table { job.now.table.now ≡ E.entities }
    requires first { doc.old ≡ first_shown job.now.table.now job.now.ahead }
    requires load { L.load lanes.old ≡ no_load }
    requires put { IfSome (L.put lanes.old) (λ asks. asks ≡ []) }
    requires taken { IfSome (L.taken lanes.old) (λ messages. messages ≡ []) }
    requires given { P.given early.old ≡ [] }
    requires reader { IsUnread reader.old }
    requires some { 0 < job.now.ahead }
    requires few { job.now.ahead ≤ 64 }
    requires watch { (W.doc watch.old ≡ ungrown) × (W.shown watch.old ≡ []) }
    ensures ok { IfOk result
        (λ o. RunsOut job.now.table.now job.now.ahead
        (folder_with (string_bytes job.now.dir) (P.given early.new))
        (F.seen files.old) (F.seen files.new) (K.taken out.old) (K.taken out.new) doc.new o) }
    ensures err { OnErr result
        (GivesUp job.now.table.now job.now.ahead
        (folder_with (string_bytes job.now.dir) (P.given early.new))
        (F.seen files.old) (F.seen files.new) (K.taken out.old) (K.taken out.new) doc.new) }
    ensures cut { OnOk result (IsCut (length room.old) false (F.seen files.old) (F.seen files.new)
        doc.new.journal.pieces) }
    ensures cut_short { OnErr result
        (IsCut (length room.old) true (F.seen files.old) (F.seen files.new)
        doc.new.journal.pieces) }
    ensures write_cut { IsErrOf result Failure.Write → IsCut (length room.old) false
        (F.seen files.old) (F.seen files.new) doc.new.journal.pieces }
    ensures goes { Goes (P.given early.new) (L.put lanes.new) doc.new }
    ensures taken { OnOk result (TakenSoFar (L.taken lanes.new) doc.new.journal.events) }
    ensures write_taken { IsErrOf result Failure.Write
        → TakenSoFar (L.taken lanes.new) doc.new.journal.events }
    ensures more_taken { MayTakeMore (L.taken lanes.new) doc.new.journal.events }
    ensures tells { OnOk result (TellsOn E.entities (L.put lanes.old) (L.put lanes.new)
        (L.taken lanes.old) (L.taken lanes.new) (L.ordered lanes.old) (L.ordered lanes.new)) }
    ensures crew { P.crew early.new ≡ P.crew early.old }
    ensures write { IsErrOf result Failure.Write → Rose (K.faults out.old) (K.faults out.new) }
    ensures faults { K.faults out.old ≤ K.faults out.new }
    ensures watched { IsTrue (W.watches watch.old)
        → OnOk result (Follows doc.new (W.doc watch.new) (W.shown watch.new)) }
    ensures passed { IsTrue (W.watches watch.old) → AllPassed doc.new (W.shown watch.new) }
    ensures told { IsTrue (W.watches watch.old) → OnErr result (HasTold doc.new (W.doc watch.new)) }
    ensures count { W.count watch.new ≡ W.count watch.old }
{
    'turns: loop {
        if let Some(outcome) = outcome_of(doc) {
            return Ok(outcome);
        }
        let may_read = may_read::<E, L>(doc, lanes, job.ahead);
        if doc.can_send() {
            let request = doc.send()?;
            lanes.ask(request)?;
        } else if may_read {
            reader.read_on(alloc, files, doc, room)?;
        } else if lanes.answer(job.table)? {
            continue;
        } else if doc.wants_reply() {
            take_reply::<E, L, P>(doc, lanes, early)?;
        } else if doc.can_do() {
            run_on(alloc, out, doc, watch)?;
        } else {
            fetch_awaited::<E, F, P>(alloc, job.dir.as_str(), files, doc, early)?;
        }
    }
}
