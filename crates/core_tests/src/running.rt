//! Pages that both sides of the core run, event by event.

ghost use Rattle.std.specs.Prelude.{◌≡◌, ◌<◌, ◌≤◌, length, IsTrue};
ghost use Rattle.core_definitions.specs.Core.{joined};
ghost use Rattle.speculation.specs.Asking.{page_limit};

use crate::events::{KINDS, Kind, event_of};
use crate::written::Written;
use core_pair::{End, Event, Fetch, Pair, Scripts, Setup, State};
use entity_table::{Table, TableFault};
use html_types::{Ending, NoMemory, Text, Why};
use speculation::InForce;
use std::alloc::Global;
use std::marker::Brand;
use std::mem;

const ENTITIES: &str = "{\"&amp;\":{\"codepoints\":[38]}}";

// The script of the name `a`; no other is there.
const SCRIPT: &str = "document.write(\"Q\");";

// More events than a page of the tests has.
const MANY: u32 = 10_000;

/// A page, and how it is sent.
#[derive(Clone, Copy)]
pub struct Page<'a> {
    pub text: &'a str,
    /// The characters of a piece.
    pub cut: usize,
    /// The most requests that are sent ahead of their replies: 1 to 64.
    pub ahead: usize,
    pub ending: Ending,
}

/// What came of a page.
#[derive(Drop)]
pub struct Told {
    pub written: Written,
    /// The events that were taken, and how many of them weren't the order's.
    pub events: u64,
    pub others: u64,
    /// The requests that were sent, and the replies that were dropped.
    pub sent: u64,
    pub dropped: u64,
    /// The pieces of the page.
    pub pieces: u64,
    pub done: bool,
    /// Why the page is refused, where it is.
    pub refused: Option<Why>,
}

fn read_table(alloc: Global, entities: &str) -> Result<Table, TableFault> {
    Table::read(alloc, entities.as_bytes())
}

/// The entities in force.
pub fn entities(alloc: Global) -> Result<Table, TableFault> {
    read_table(alloc, ENTITIES)
}

fn script_file(alloc: Global) -> Result<Fetch, NoMemory> {
    let script = Vec::from_slice(alloc, SCRIPT.as_bytes())?;
    Ok(Fetch::Got(script))
}

// Its file is another at first: the right one is brought on the way.
fn script_files(alloc: Global) -> Result<Scripts, NoMemory> {
    let mut scripts = Scripts::new(alloc);
    scripts.add(Text::from_str(alloc, "a")?, Fetch::Missing)?;
    Ok(scripts)
}

fn cut_page(alloc: Global, page: Page<'_>) -> Result<Vec<Text>, NoMemory> {
    let mut pieces = Vec::new(alloc);
    let mut piece = Text::new(alloc);
    for c in page.text.chars() {
        piece.push(c)?;
        if piece.len() >= page.cut {
            pieces.push(mem::replace(&mut piece, Text::new(alloc)))?;
        }
    }
    if !piece.is_empty() {
        pieces.push(piece)?;
    }
    Ok(pieces)
}

// Whether the pieces are those of a small page.
fn is_short(pieces: &[Text]) -> bool
    ensures { IsTrue result → length (joined pieces.now) ≤ page_limit }
{
    let mut total = 0;
    let mut rest = pieces;
    'pieces: while let Some((first, behind)) = rest.split_first() {
        let len = first.len();
        if len > 10_000 || total > 10_000 {
            return false;
        }
        total += len;
        rest = behind;
    }
    true
}

// Takes the event where it is enabled, and says whether it is.
fn step<E: InForce>(pair: &mut Pair<E>, event: Event) -> Result<bool, NoMemory> {
    if !pair.enabled(&event) {
        return Ok(false);
    }
    pair.step(event)?;
    Ok(true)
}

// Brings what comes of the script, where it hasn't arrived.
fn bring<E: InForce>(alloc: Global, pair: &mut Pair<E>, fetch: Fetch) -> Result<(), NoMemory> {
    let name = Text::from_str(alloc, "a")?;
    let arrives = Event::Arrive(name.copy(alloc)?);
    if !pair.enabled(&arrives) {
        return Ok(());
    }
    pair.bring(name, fetch)
}

// Before each event something else is brought, and before the script arrives its file.
fn bring_before<E: InForce>(alloc: Global, pair: &mut Pair<E>, kind: Kind) -> Result<(), NoMemory> {
    match kind {
        Kind::Arrive => bring(alloc, pair, script_file(alloc)?),
        Kind::Take => bring(alloc, pair, Fetch::Missing),
        _ => bring(alloc, pair, Fetch::Faulted),
    }
}

fn can_do<E: InForce>(pair: &Pair<E>) -> bool {
    pair.enabled(&Event::Do)
}

fn is_done<E: InForce>(pair: &Pair<E>) -> bool {
    matches!(pair.status(), State::Over(End::Finished))
}

fn why_refused<E: InForce>(pair: &Pair<E>) -> Option<Why> {
    match pair.status() {
        State::Over(End::Refused(why)) => Some(why),
        _ => None,
    }
}

fn count_pieces<E: InForce>(pair: &Pair<E>) -> u64 {
    pair.journal().piece_count() as u64
}

fn written_of<E: InForce>(alloc: Global, pair: &mut Pair<E>) -> Result<Written, NoMemory> {
    let lines = pair.take_lines()?;
    Written::new(alloc, pair.doc(), &lines)
}

// What was counted so far.
#[derive(Clone, Copy)]
struct Counts {
    events: u64,
    others: u64,
    sent: u64,
    dropped: u64,
}

// What the pair promises is long, and nothing behind it needs that: so it is made alone here.
fn pair_of<E: InForce>(alloc: Global, setup: Setup<'_>) -> Result<Pair<E>, NoMemory>
    requires entities { setup.table.now ≡ E.entities }
    requires some { 0 < setup.ahead }
    requires few { setup.ahead ≤ 64 }
    requires within { length (joined setup.pieces.items) ≤ page_limit }
{
    Pair::new(alloc, setup)
}

// Both sides before any event, where the page is short.
fn begin_page<E: InForce>(
    alloc: Global,
    table: &Table,
    page: Page<'_>,
    pieces: Vec<Text>,
    scripts: Scripts,
) -> Result<Pair<E>, NoMemory>
    requires { table.now ≡ E.entities }
{
    if page.ahead == 0 || page.ahead > 64 || !is_short(pieces.as_slice()) {
        return Err(NoMemory);
    }
    let setup = Setup {
        table,
        pieces,
        ending: page.ending,
        scripts,
        ahead: page.ahead,
    };
    pair_of::<E>(alloc, setup)
}

// The pieces and the scripts are made, and then both sides.
fn begin<E: InForce>(alloc: Global, table: &Table, page: Page<'_>) -> Result<Pair<E>, NoMemory>
    requires { table.now ≡ E.entities }
{
    let pieces = cut_page(alloc, page)?;
    let scripts = script_files(alloc)?;
    begin_page::<E>(alloc, table, page, pieces, scripts)
}

impl Counts {
    fn count<E: InForce>(&mut self, kind: Kind, pair: &Pair<E>) {
        self.events = self.events.saturating_add(1);
        match kind {
            Kind::Send => self.sent = self.sent.saturating_add(1),
            // Behind a reply that wasn't dropped there is something to do.
            Kind::Take if !can_do(pair) => self.dropped = self.dropped.saturating_add(1),
            _ => {}
        }
    }
}

// Takes an event of that kind where it is enabled, and says whether it is.
fn take<E: InForce>(
    alloc: Global,
    pair: &mut Pair<E>,
    counts: &mut Counts,
    kind: Kind,
) -> Result<bool, NoMemory> {
    bring_before(alloc, pair, kind)?;
    let event = event_of(alloc, kind)?;
    let taken = step(pair, event)?;
    if taken {
        counts.count(kind, pair);
    }
    Ok(taken)
}

// Takes the first event that is enabled, and says whether any is.
fn take_first<E: InForce>(
    alloc: Global,
    pair: &mut Pair<E>,
    counts: &mut Counts,
) -> Result<bool, NoMemory> {
    for kind in &KINDS {
        if take(alloc, pair, counts, *kind)? {
            counts.others = counts.others.saturating_add(1);
            return Ok(true);
        }
    }
    Ok(false)
}

// Takes the events of `order` over and over, in the place of one that isn't enabled the first that
// is, until none is.
fn take_all<E: InForce>(
    alloc: Global,
    pair: &mut Pair<E>,
    counts: &mut Counts,
    order: &[Kind],
) -> Result<(), NoMemory> {
    let mut rest = order;
    for _ in 0..MANY {
        let (kind, behind) = rest.split_first().unwrap_or((&Kind::Send, order));
        rest = behind;
        if !take(alloc, pair, counts, *kind)? && !take_first(alloc, pair, counts)? {
            break;
        }
    }
    Ok(())
}

fn tell<E: InForce>(alloc: Global, pair: &mut Pair<E>, counts: Counts) -> Result<Told, NoMemory> {
    let written = written_of(alloc, pair)?;
    Ok(Told {
        written,
        events: counts.events,
        others: counts.others,
        sent: counts.sent,
        dropped: counts.dropped,
        pieces: count_pieces(pair),
        done: is_done(pair),
        refused: why_refused(pair),
    })
}

fn run_pair<E: InForce>(
    alloc: Global,
    pair: &mut Pair<E>,
    order: &[Kind],
) -> Result<Told, NoMemory> {
    let mut counts = Counts {
        events: 0,
        others: 0,
        sent: 0,
        dropped: 0,
    };
    take_all(alloc, pair, &mut counts, order)?;
    tell(alloc, pair, counts)
}

// Lets a value go. Where both sides end in the function that has them, its proof spells out all of
// their parts; here they are those of the type, once.
fn let_go<T: Drop>(_value: T) {}

fn run_in_force<E: InForce>(
    alloc: Global,
    table: &Table,
    page: Page<'_>,
    order: &[Kind],
) -> Result<Told, NoMemory>
    requires { table.now ≡ E.entities }
{
    let mut pair = begin::<E>(alloc, table, page)?;
    let told = run_pair(alloc, &mut pair, order);
    let_go(pair);
    told
}

/// Runs a page until no event is enabled, each time taking the next event of `order`, behind whose
/// last the first comes again, or where that one isn't enabled the first that is. `NoMemory` also
/// where the page is long, or no such number of requests may be ahead.
pub fn run(alloc: Global, table: &Table, page: Page<'_>, order: &[Kind]) -> Result<Told, NoMemory> {
    run_in_force::<Brand>(alloc, table, page, order)
}
