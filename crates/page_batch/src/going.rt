// A page's two sides, on their way.
ghost use Rattle.std.specs.Prelude.{◌≡◌, ◌≤◌, ◌<◌, [], IfOk, OnOk};
ghost use Rattle.std.specs.Bool.{OnTrue, OnFalse};
ghost use Rattle.core_definitions.specs.Desk.{done};
ghost use Rattle.core_steps.specs.Fetches.{fetched_of};
ghost use Rattle.core_steps.specs.Sides.{left_to_do};
ghost use Rattle.parse_machine.specs.Ends.{result_of};
ghost use Rattle.page_batch.specs.Going.{StepTaken, SamePage, Nears, Receives, GoesBy, IsGoing};
ghost use Rattle.page_batch.specs.Going.{IsFirst, StopsAt, TurnEnds, Settled, used_of};

use crate::output::{end_number, push_lines};
use crate::pieces::pieces_of;
use crate::read::PageBytes;
use crate::table::ScriptTable;
use core_pair::{Event, Fetch, Journal, Pair, Scripts, Setup, State};
use entity_table::Table;
use html_types::{NoMemory, Text};
use page_turns::{End, show_outcome};
use speculation::InForce;
use std::alloc::Global;
use std::snapshot::Snapshot;

// So many requests are sent ahead at most.
const AHEAD: usize = 8;

/// What is written of a page between its path and its number, that number, and what it was parsed
/// with.
#[derive(Drop)]
pub(crate) struct Part {
    pub number: u8,
    pub text: Vec<u8>,
    // The journal of its parse, where there was one.
    pub journal: Option<Snapshot<Journal>>,
}

/// A page that awaits a script which isn't in the table: both sides, the text of the lines so far,
/// and the script's name.
#[derive(Drop)]
pub(crate) struct Going<E: InForce> {
    pub pair: Pair<E>,
    pub text: Vec<u8>,
    pub awaits: Text,
}

/// Why a page goes no further.
#[derive(Drop)]
pub(crate) enum Stop {
    /// Its parse is over.
    Over(End),
    /// It awaits the script of that name, which isn't in the table.
    Awaits(Text),
}

/// How far a page went.
#[derive(Drop)]
pub(crate) enum Turn {
    /// It may go on.
    Went,
    Stopped(Stop),
}

/// Both sides of the page, before any event. The bytes are given back first.
pub(crate) fn begin<E: InForce>(
    alloc: Global,
    entities: &Table,
    page: PageBytes,
) -> Result<Pair<E>, NoMemory>
    requires { entities.now ≡ E.entities }
    ensures { IfOk result (λ pair. IsFirst E.entities page pair) }
{
    let (pieces, ending) = pieces_of(alloc, &page)?;
    drop(page);
    let setup = Setup {
        table: entities,
        pieces,
        ending,
        scripts: Scripts::new(alloc),
        ahead: AHEAD,
    };
    Pair::new(alloc, setup)
}

// Takes the event where it is enabled, and says whether it is.
fn try_step<E: InForce>(pair: &mut Pair<E>, event: Event) -> Result<bool, NoMemory>
    ensures taken { IfOk result (λ took. OnTrue took (StepTaken event pair.old pair.new)) }
    ensures refused { IfOk result (λ took. OnFalse took (pair.new ≡ pair.old)) }
{
    if !pair.enabled(&event) {
        return Ok(false);
    }
    pair.step(event)?;
    Ok(true)
}

// Takes one event of those before a Do, and says whether one is enabled.
fn answer<E: InForce>(pair: &mut Pair<E>) -> Result<bool, NoMemory>
    ensures taken { IfOk result (λ took. OnTrue took (Nears pair.old pair.new)) }
    ensures refused { IfOk result (λ took. OnFalse took (pair.new ≡ pair.old)) }
{
    if try_step(pair, Event::Send)? {
        return Ok(true);
    }
    if try_step(pair, Event::Pick)? {
        return Ok(true);
    }
    if try_step(pair, Event::Give)? {
        return Ok(true);
    }
    try_step(pair, Event::Take)
}

// Sends, parses and takes until none of it is enabled.
fn settle<E: InForce>(pair: &mut Pair<E>) -> Result<(), NoMemory>
    ensures same { OnOk result (SamePage pair.old pair.new) }
    ensures left { OnOk result (left_to_do pair.new.core.desk ≤ left_to_do pair.old.core.desk) }
{
    'answers: while answer(pair)? {}
    Ok(())
}

// Takes the lines that scripts gave.
fn take_lines<E: InForce>(
    alloc: Global,
    pair: &mut Pair<E>,
    text: &mut Vec<u8>,
) -> Result<(), NoMemory>
    ensures goes { OnOk result (GoesBy [] pair.old pair.new text.old.items text.new.items) }
    ensures all { OnOk result (pair.new.core.desk.own.side.lines ≡ pair.new.given) }
    ensures core { OnOk result (pair.new.core ≡ pair.old.core) }
{
    let lines = pair.take_lines()?;
    push_lines(alloc, text, lines.as_slice())
}

// Executes a batch, or runs the script in hand on, where that is enabled, and says whether it is.
fn act<E: InForce>(alloc: Global, pair: &mut Pair<E>, text: &mut Vec<u8>) -> Result<bool, NoMemory>
    ensures taken { IfOk result (λ took. OnTrue took
        (GoesBy [] pair.old pair.new text.old.items text.new.items
        × (left_to_do pair.new.core.desk < left_to_do pair.old.core.desk))) }
    ensures refused { IfOk result (λ took. OnFalse took ((pair.new ≡ pair.old)
        × (text.new.items ≡ text.old.items))) }
{
    if !try_step(pair, Event::Do)? {
        return Ok(false);
    }
    take_lines(alloc, pair, text)?;
    Ok(true)
}

// The file of the script of that name arrives.
fn receive<E: InForce>(
    alloc: Global,
    pair: &mut Pair<E>,
    name: Text,
    fetch: Fetch,
) -> Result<(), NoMemory>
    ensures { OnOk result (Receives name (fetched_of fetch) pair.old pair.new) }
{
    let arrival = Event::Arrive(name.copy(alloc)?);
    // A script that is awaited may arrive.
    if !pair.enabled(&arrival) {
        return Err(NoMemory);
    }
    pair.bring(name, fetch)?;
    pair.step(arrival)
}

// The script is awaited: it arrives and runs, where the table has it.
fn run_awaited<E: InForce>(
    alloc: Global,
    table: &ScriptTable,
    pair: &mut Pair<E>,
    text: &mut Vec<u8>,
    name: Text,
) -> Result<Turn, NoMemory>
    ensures goes { OnOk result (GoesBy table.now pair.old pair.new text.old.items text.new.items) }
    ensures ends { IfOk result (λ turn. TurnEnds table.now pair.old pair.new turn) }
{
    let Some(fetch) = table.find(name.as_str()) else {
        return Ok(Turn::Stopped(Stop::Awaits(name)));
    };
    let fetch = fetch.copy(alloc)?;
    receive(alloc, pair, name, fetch)?;
    // Its file is there, so it runs.
    if act(alloc, pair, text)? {
        Ok(Turn::Went)
    } else {
        Err(NoMemory)
    }
}

// Goes on as far as one batch or script.
fn take_turn<E: InForce>(
    alloc: Global,
    table: &ScriptTable,
    pair: &mut Pair<E>,
    text: &mut Vec<u8>,
) -> Result<Turn, NoMemory>
    ensures goes { OnOk result (GoesBy table.now pair.old pair.new text.old.items text.new.items) }
    ensures ends { IfOk result (λ turn. TurnEnds table.now pair.old pair.new turn) }
{
    settle(pair)?;
    if act(alloc, pair, text)? {
        return Ok(Turn::Went);
    }
    let name = match pair.status() {
        State::Over(end) => return Ok(Turn::Stopped(Stop::Over(end))),
        State::Awaits(name) => name.copy(alloc)?,
        // No event is enabled, so it isn't running.
        State::Running => return Err(NoMemory),
    };
    run_awaited(alloc, table, pair, text, name)
}

/// Goes on until the parse is over, or a script is awaited that isn't in the table.
pub(crate) fn run_on<E: InForce>(
    alloc: Global,
    table: &ScriptTable,
    pair: &mut Pair<E>,
    text: &mut Vec<u8>,
) -> Result<Stop, NoMemory>
    ensures goes { OnOk result (GoesBy table.now pair.old pair.new text.old.items text.new.items) }
    ensures ends { IfOk result (λ stop. StopsAt table.now pair.new stop) }
{
    'turns: loop {
        match take_turn(alloc, table, pair, text)? {
            Turn::Went => {}
            Turn::Stopped(stop) => return Ok(stop),
        }
    }
}

/// Lets a value go. Where a pair or a page of a batch ends in the function that has it, the proof
/// of that function spells out all of its parts, which takes minutes; here they are those of its
/// type, once.
pub(crate) fn let_go<T: Drop>(_value: T) {}

// What is written of it, while its two sides are there.
fn part_from<E: InForce>(
    alloc: Global,
    pair: &mut Pair<E>,
    text: Vec<u8>,
    outcome: End,
) -> Result<Part, NoMemory>
    requires { pair.old.core.desk.phase ≡ done (result_of outcome) }
    ensures settled { IfOk result (λ part. (read : _) → IsGoing E.entities read pair.old text.items
        → Settled E.entities read pair.old.journal.fetches part.number part.text.items) }
    ensures used { IfOk result (λ part. used_of part.journal ≡ pair.old.journal.fetches) }
{
    let mut text = text;
    take_lines(alloc, pair, &mut text)?;
    pair.every_interleaving();
    let last = show_outcome(alloc, pair.doc(), outcome, false)?;
    text.extend_from_slice(&last)?;
    Ok(Part {
        number: end_number(outcome),
        text,
        journal: Some(Snapshot::of(pair.journal())),
    })
}

/// What is written of a page whose parse is over.
pub(crate) fn part_of<E: InForce>(
    alloc: Global,
    pair: Pair<E>,
    text: Vec<u8>,
    outcome: End,
) -> Result<Part, NoMemory>
    requires { pair.core.desk.phase ≡ done (result_of outcome) }
    ensures settled { IfOk result (λ part. (read : _) → IsGoing E.entities read pair text.items
        → Settled E.entities read pair.journal.fetches part.number part.text.items) }
    ensures used { IfOk result (λ part. used_of part.journal ≡ pair.journal.fetches) }
{
    let mut pair = pair;
    let part = part_from(alloc, &mut pair, text, outcome);
    let_go(pair);
    part
}
