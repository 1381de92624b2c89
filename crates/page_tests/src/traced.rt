//! A page that is run in the calling thread, its steps noted.

ghost use Rattle.std.specs.Prelude.{◌≡◌, ◌<◌, ◌≤◌, [], None, IfOk, IfSome, length};
ghost use Rattle.core_steps.specs.Sides.{first_shown};
ghost use Rattle.page_turns.specs.Turns.{no_load};

use crate::calls::{let_go, path_of};
use crate::exchange::{Noted, Notes, note_all};
use crate::trace::{Row, rows_of};
use core_steps::{DocSide, Fetch};
use entity_table::{Table, TableFault};
use html_types::NoMemory;
use outside::{Failed, Outside, Port, Sink};
use page_runner::ENTITIES_LIMIT;
use page_turns::{
    Counterpart, End, Failure, InPlace, Job, Nobody, Unwatched, parse_page, read_whole,
};
use speculation::InForce;
use std::alloc::{AllocError, Global};
use std::marker::Brand;

/// Why there is no trace.
#[derive(Clone, Copy, Debug)]
pub enum Untraced {
    NoMemory,
    /// There is no such page, or no entities file that is one.
    Unread,
}

impl From<AllocError> for Untraced {
    fn from(_error: AllocError) -> Untraced {
        Untraced::NoMemory
    }
}

impl From<NoMemory> for Untraced {
    fn from(_error: NoMemory) -> Untraced {
        Untraced::NoMemory
    }
}

/// A sink that takes everything and keeps nothing.
#[derive(Drop)]
struct Nowhere {
    is_clean: bool,
}

impl Sink for Nowhere {
    ghost taken = { λ _. None };

    ghost faults = { λ _. 0 };

    ghost clean = { λ sink. sink.is_clean };

    fn write(&mut self, bytes: &[u8]) -> Result<usize, Failed> {
        self.is_clean = false;
        Ok(bytes.len())
    }

    fn finish(&mut self) -> Result<(), Failed> {
        self.is_clean = true;
        Ok(())
    }
}

/// The paths of a page, of its scripts' folder and of the entities file.
#[derive(Clone, Copy)]
pub struct Paths<'a> {
    pub page: &'a str,
    pub dir: &'a str,
    pub entities: &'a str,
}

// The entities file. What its reading promises is long.
fn fetch<F: Outside>(alloc: Global, files: &mut F, path: &str) -> Result<Fetch, NoMemory> {
    read_whole(alloc, files, Port::Entities, path, ENTITIES_LIMIT)
}

fn read_table<F: Outside>(alloc: Global, files: &mut F, path: &str) -> Result<Table, Untraced> {
    let Fetch::Got(bytes) = fetch(alloc, files, path)? else {
        return Err(Untraced::Unread);
    };
    match Table::read(alloc, &bytes) {
        Ok(table) => Ok(table),
        Err(TableFault::NotTable) => Err(Untraced::Unread),
        Err(TableFault::NoMemory) => Err(Untraced::NoMemory),
    }
}

// What a run begins with: room for a read, and the document's side.
fn begin_run(alloc: Global, job: &Job<'_>) -> Result<(Vec<u8>, DocSide), NoMemory>
    requires piece { 0 < job.now.piece }
    requires some { 0 < job.now.ahead }
    requires few { job.now.ahead ≤ 64 }
    ensures room { IfOk result (λ begun. 0 < length begun.0.items) }
    ensures side { IfOk result (λ begun. begun.1 ≡ first_shown job.now.table.now job.now.ahead) }
{
    let room = vec![in alloc; 0u8; job.piece]?;
    let side = DocSide::new(alloc, job.table, job.ahead)?;
    Ok((room, side))
}

// The parse alone: what it promises is long, and nothing behind it needs that.
fn parse<E: InForce, L: Counterpart<E>, F: Outside>(
    alloc: Global,
    job: &Job<'_>,
    files: &mut F,
    side: &mut DocSide,
    lanes: &mut L,
    room: &mut [u8],
) -> Result<End, Failure>
    requires table { job.now.table.now ≡ E.entities }
    requires first { side.old ≡ first_shown job.now.table.now job.now.ahead }
    requires load { L.load lanes.old ≡ no_load }
    requires put { IfSome (L.put lanes.old) (λ asks. asks ≡ []) }
    requires taken { IfSome (L.taken lanes.old) (λ messages. messages ≡ []) }
    requires room { 0 < length room.old }
    requires some { 0 < job.now.ahead }
    requires few { job.now.ahead ≤ 64 }
{
    let mut out = Nowhere { is_clean: true };
    let mut nobody = Nobody;
    let mut unwatched = Unwatched;
    parse_page::<E, L, Nobody, F, Nowhere, Unwatched>(
        alloc,
        job,
        files,
        &mut out,
        side,
        lanes,
        &mut nobody,
        room,
        &mut unwatched,
    )
}

// What was done and noted, as rows.
fn rows_in(alloc: Global, side: &DocSide, notes: &Notes) -> Result<Vec<Row>, Untraced> {
    let steps = notes.passed()?;
    Ok(rows_of(alloc, side.journal().events(), steps)?)
}

// The page that was begun, as rows. Nothing is dropped here: what the parse promises is long.
fn rows_of_parse<E: InForce, L: Counterpart<E> + Drop, F: Outside>(
    alloc: Global,
    job: &Job<'_>,
    files: &mut F,
    side: &mut DocSide,
    noted: &mut Noted<L>,
    room: &mut [u8],
) -> Result<Vec<Row>, Untraced>
    requires table { job.now.table.now ≡ E.entities }
    requires first { side.old ≡ first_shown job.now.table.now job.now.ahead }
    requires load { L.load noted.old.counterpart ≡ no_load }
    requires put { IfSome (L.put noted.old.counterpart) (λ asks. asks ≡ []) }
    requires taken { IfSome (L.taken noted.old.counterpart) (λ messages. messages ≡ []) }
    requires room { 0 < length room.old }
    requires some { 0 < job.now.ahead }
    requires few { job.now.ahead ≤ 64 }
{
    match parse::<E, Noted<L>, F>(alloc, job, files, side, noted, room) {
        Err(Failure::Memory) | Err(Failure::Write) => Err(Untraced::NoMemory),
        Ok(_) => rows_in(alloc, side, &noted.notes),
    }
}

// The same, with what a run begins with.
fn run_noted<E: InForce, L: Counterpart<E> + Drop, F: Outside>(
    alloc: Global,
    job: &Job<'_>,
    files: &mut F,
    mut noted: Noted<L>,
    mut side: DocSide,
    mut room: Vec<u8>,
) -> Result<Vec<Row>, Untraced>
    requires table { job.now.table.now ≡ E.entities }
    requires first { side ≡ first_shown job.now.table.now job.now.ahead }
    requires load { L.load noted.counterpart ≡ no_load }
    requires put { IfSome (L.put noted.counterpart) (λ asks. asks ≡ []) }
    requires taken { IfSome (L.taken noted.counterpart) (λ messages. messages ≡ []) }
    requires room { 0 < length room.items }
    requires some { 0 < job.now.ahead }
    requires few { job.now.ahead ≤ 64 }
{
    let rows = rows_of_parse::<E, L, F>(alloc, job, files, &mut side, &mut noted, &mut room);
    let_go(side);
    rows
}

// Runs the page that was begun, with this counterpart. Its lines go nowhere.
fn run_with<E: InForce, L: Counterpart<E> + Drop, F: Outside>(
    alloc: Global,
    job: &Job<'_>,
    files: &mut F,
    lanes: L,
) -> Result<Vec<Row>, Untraced>
    requires table { job.now.table.now ≡ E.entities }
    requires load { L.load lanes ≡ no_load }
    requires put { IfSome (L.put lanes) (λ asks. asks ≡ []) }
    requires taken { IfSome (L.taken lanes) (λ messages. messages ≡ []) }
    requires piece { 0 < job.now.piece }
    requires some { 0 < job.now.ahead }
    requires few { job.now.ahead ≤ 64 }
{
    let (room, side) = begin_run(alloc, job)?;
    let noted = note_all::<E, L>(alloc, lanes);
    run_noted::<E, L, F>(alloc, job, files, noted, side, room)
}

// The parser's side is in this thread.
fn run_begun<E: InForce, F: Outside>(
    alloc: Global,
    job: &Job<'_>,
    files: &mut F,
) -> Result<Vec<Row>, Untraced>
    requires table { job.now.table.now ≡ E.entities }
    requires piece { 0 < job.now.piece }
    requires some { 0 < job.now.ahead }
    requires few { job.now.ahead ≤ 64 }
{
    run_with::<E, InPlace<E>, F>(alloc, job, files, InPlace::<E>::new(alloc))
}

// The same, the table's entities being in force.
fn run_by_table<F: Outside>(
    alloc: Global,
    job: &Job<'_>,
    files: &mut F,
) -> Result<Vec<Row>, Untraced>
    requires piece { 0 < job.now.piece }
    requires some { 0 < job.now.ahead }
    requires few { job.now.ahead ≤ 64 }
{
    run_begun::<Brand, F>(alloc, job, files)
}

// Whether there is that page, which is begun. What a begin promises is long.
fn is_begun<F: Outside>(files: &mut F, path: &str) -> bool {
    files.begin(Port::Page, path) == Ok(true)
}

fn job_of<'a>(page: String, dir: String, table: &'a Table, piece: usize, ahead: usize) -> Job<'a>
    ensures piece { result.piece ≡ piece }
    ensures ahead { result.ahead ≡ ahead }
{
    Job {
        page,
        dir,
        table,
        piece,
        ahead,
        dump: false,
        preload: 0,
    }
}

/// The rows of a run over these files, with reads of so many bytes and so many requests ahead at
/// most.
pub fn trace<F: Outside>(
    alloc: Global,
    files: &mut F,
    paths: Paths<'_>,
    piece: usize,
    ahead: usize,
) -> Result<Vec<Row>, Untraced>
    requires piece { 0 < piece }
    requires some { 0 < ahead }
    requires few { ahead ≤ 64 }
{
    let table = read_table(alloc, files, paths.entities)?;
    if !is_begun(files, paths.page) {
        return Err(Untraced::Unread);
    }
    let page = path_of(alloc, paths.page)?;
    let dir = path_of(alloc, paths.dir)?;
    let job = job_of(page, dir, &table, piece, ahead);
    run_by_table(alloc, &job, files)
}
