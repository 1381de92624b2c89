// A list is run window by window, so that memory doesn't grow with the list.
ghost use Rattle.std.specs.Prelude.{◌≡◌, ◌<◌, ◌≤◌, [], map, length, IfOk, OnOk, OnErr, IsErrOf};
ghost use Rattle.std.specs.Prelude.{IsTrue, false};
ghost use Rattle.page_batch.specs.declared.windows.TheConstants.{MOST_BYTES};
ghost use Rattle.std.specs.List.{AllByRecursion};
ghost use Rattle.std.specs.String.{string_bytes};
ghost use Rattle.outside.specs.Outside.{Rose};
ghost use Rattle.page_batch.specs.Windows.{files_in, IsNew, ReadsFront, ReadsInPart, WritesAll};
ghost use Rattle.page_batch.specs.Windows.{WritesInPart, EndsWindow, CountsFaults};
ghost use Rattle.page_batch.specs.Batches.{GivesAll, GivesInPart};

use crate::going::let_go;
use crate::output::write_part;
use crate::read::{PageFile, read_page};
use crate::rounds::run_rounds;
use crate::slot::Slot;
use crate::table::ScriptTable;
use entity_table::Table;
use html_types::NoMemory;
use outside::{Outside, Sink};
use page_turns::Failure;
use speculation::InForce;
use std::alloc::Global;
use std::thread::Threads;

// A window has so many pages at most.
const MOST_PAGES: usize = 1024;

// It takes no further page, once its pages have so many bytes.
const MOST_BYTES: usize = 67_108_864;

// The bytes of a page that are held.
fn size_of(file: &PageFile) -> usize {
    match file {
        PageFile::Read(page) => page.bytes.len(),
        _ => 0,
    }
}

// Whether a window of so many pages, with room for so many bytes, takes no further one.
fn is_full(pages: usize, room: usize) -> bool
    ensures { pages ≡ 0 → room ≡ MOST_BYTES → result ≡ false }
{
    pages >= MOST_PAGES || room == 0
}

// Reads the pages of a window: one at least, where there are any.
fn fill_window<E: InForce, F: Outside>(
    alloc: Global,
    files: &mut F,
    paths: &[String],
    slots: &mut Vec<Slot<E>>,
) -> Result<(), NoMemory>
    requires { slots.old.items ≡ [] }
    ensures read { OnOk result (ReadsFront (map string_bytes paths.now) (files_in slots.new.items)
        (F.seen files.old) (F.seen files.new)) }
    ensures fits { OnOk result (length slots.new.items ≤ length paths.now) }
    ensures some { OnOk result (0 < length paths.now → 0 < length slots.new.items) }
    ensures unused { OnOk result (AllByRecursion IsNew slots.new.items) }
    ensures spent { OnErr result (ReadsInPart (map string_bytes paths.now) (F.seen files.old)
        (F.seen files.new)) }
{
    let mut rest = paths;
    let mut room = MOST_BYTES;
    'pages: loop {
        let Some((path, behind)) = rest.split_first() else {
            return Ok(());
        };
        if is_full(slots.len(), room) {
            return Ok(());
        }
        let file = read_page(alloc, files, path.as_str())?;
        room = room.saturating_sub(size_of(&file));
        slots.push(Slot::new(alloc, file))?;
        rest = behind;
    }
}

// The pages of a window.
fn read_window<E: InForce, F: Outside>(
    alloc: Global,
    files: &mut F,
    paths: &[String],
) -> Result<Vec<Slot<E>>, NoMemory>
    ensures read { IfOk result (λ slots. ReadsFront (map string_bytes paths.now)
        (files_in slots.items) (F.seen files.old) (F.seen files.new)) }
    ensures fits { IfOk result (λ slots. length slots.items ≤ length paths.now) }
    ensures some { IfOk result (λ slots. 0 < length paths.now → 0 < length slots.items) }
    ensures unused { IfOk result (λ slots. AllByRecursion IsNew slots.items) }
    ensures spent { OnErr result (ReadsInPart (map string_bytes paths.now) (F.seen files.old)
        (F.seen files.new)) }
{
    let mut slots = Vec::new(alloc);
    match fill_window(alloc, files, paths, &mut slots) {
        Ok(()) => Ok(slots),
        Err(NoMemory) => {
            let_go(slots);
            Err(NoMemory)
        }
    }
}

// Writes the parts of a window's pages, in order.
fn write_window<E: InForce, K: Sink>(
    alloc: Global,
    out: &mut K,
    paths: &[String],
    slots: &[Slot<E>],
) -> Result<(), Failure>
    requires { length paths.now ≡ length slots.now }
    ensures written { OnOk result (WritesAll E.entities (map string_bytes paths.now) slots.now
        (K.taken out.old) (K.taken out.new)) }
    ensures front { OnErr result (WritesInPart E.entities (map string_bytes paths.now) slots.now
        (K.taken out.old) (K.taken out.new)) }
    ensures faults { CountsFaults result (K.faults out.old) (K.faults out.new) }
{
    for at in 0..slots.len() {
        let Some(part) = slots[at].part() else {
            return Err(Failure::Memory);
        };
        write_part(
            alloc,
            out,
            paths[at].as_str(),
            part.number,
            part.text.as_slice(),
        )?;
    }
    Ok(())
}

// Runs the pages of a window that were read, and writes their parts, and says how many they are.
fn run_slots<R: Threads + Sync, E: InForce + Send, F: Outside, K: Sink>(
    rt: &R,
    alloc: Global,
    entities: &Table,
    dir: &str,
    paths: &[String],
    files: &mut F,
    out: &mut K,
    table: &mut ScriptTable,
    slots: &mut [Slot<E>],
) -> Result<usize, Failure>
    requires entities { entities.now ≡ E.entities }
    requires fits { length slots.old ≤ length paths.now }
    ensures count { IfOk result (λ n. n ≡ length slots.old) }
    ensures ends { (before : _)
        → ReadsFront (map string_bytes paths.now) (files_in slots.old) before (F.seen files.old)
        → AllByRecursion IsNew slots.old
        → EndsWindow result E.entities dir.now (map string_bytes paths.now)
        before (F.seen files.new)
        table.old table.new (K.taken out.old) (K.taken out.new) }
    ensures faults { CountsFaults result (K.faults out.old) (K.faults out.new) }
{
    let count = slots.len();
    run_rounds(rt, alloc, entities, dir, files, table, slots)?;
    write_window(alloc, out, &paths[..count], slots)?;
    Ok(count)
}

// Reads the pages of a window, runs them and writes their parts, and says how many they are.
fn run_window<R: Threads + Sync, E: InForce + Send, F: Outside, K: Sink>(
    rt: &R,
    alloc: Global,
    entities: &Table,
    dir: &str,
    paths: &[String],
    files: &mut F,
    out: &mut K,
    table: &mut ScriptTable,
) -> Result<usize, Failure>
    requires { entities.now ≡ E.entities }
    ensures fits { IfOk result (λ n. n ≤ length paths.now) }
    ensures some { IfOk result (λ n. 0 < length paths.now → 0 < n) }
    ensures ends { EndsWindow result E.entities dir.now (map string_bytes paths.now)
        (F.seen files.old) (F.seen files.new)
        table.old table.new (K.taken out.old) (K.taken out.new) }
    ensures faults { CountsFaults result (K.faults out.old) (K.faults out.new) }
{
    let mut slots: Vec<Slot<E>> = read_window(alloc, files, paths)?;
    let ran = run_slots(
        rt,
        alloc,
        entities,
        dir,
        paths,
        files,
        out,
        table,
        slots.as_mut_slice(),
    );
    let_go(slots);
    ran
}

/// Runs the pages of the list: each is read, they are parsed side by side, with scripts that are
/// fetched once each, and their parts are written in the list's order. Then the sink is finished.
pub fn run_list<R: Threads + Sync, E: InForce + Send, F: Outside, K: Sink>(
    rt: &R,
    alloc: Global,
    entities: &Table,
    dir: &str,
    paths: &[String],
    files: &mut F,
    out: &mut K,
) -> Result<(), Failure>
    requires { entities.now ≡ E.entities }
    ensures all { OnOk result (GivesAll entities.now dir.now (map string_bytes paths.now)
        (F.seen files.old) (F.seen files.new)
        (K.taken out.old) (K.taken out.new)) }
    ensures in_part { OnErr result (GivesInPart entities.now dir.now (map string_bytes paths.now)
        (F.seen files.old) (F.seen files.new)
        (K.taken out.old) (K.taken out.new)) }
    ensures clean { OnOk result (IsTrue (K.clean out.new)) }
    ensures write { IsErrOf result Failure.Write → Rose (K.faults out.old) (K.faults out.new) }
{
    let mut table = ScriptTable::new(alloc);
    let mut rest = paths;
    'windows: while !rest.is_empty() {
        let count = run_window::<R, E, F, K>(
            rt, alloc, entities, dir, rest, files, out, &mut table,
        )?;
        rest = &rest[count..];
    }
    out.finish()?;
    Ok(())
}
