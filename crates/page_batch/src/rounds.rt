// The pages of a window go on in rounds, side by side; between these the scripts that they await
// are fetched.
ghost use Rattle.std.specs.Prelude.{◌≡◌, IfOk, OnOk, None, false};
ghost use Rattle.std.specs.Bool.{OnFalse};
ghost use Rattle.page_batch.specs.Slots.{GoesOn};
ghost use Rattle.page_batch.specs.Rounds.{GoOnEach, RunsAll, NoneAwaits, LeavesFetched};

use crate::slot::Slot;
use crate::table::ScriptTable;
use core_steps::is_lawful;
use entity_table::Table;
use html_types::{NoMemory, Text};
use outside::Outside;
use page_turns::fetch_script;
use rayon::prelude::*;
use speculation::InForce;
use std::alloc::Global;
use std::thread::Threads;

// Each page goes on as far as the table lets it, in as many threads as there are processors.
fn run_round<R: Threads + Sync, E: InForce + Send>(
    rt: &R,
    alloc: Global,
    entities: &Table,
    table: &ScriptTable,
    slots: &mut [Slot<E>],
)
    requires { entities.now ≡ E.entities }
    ensures { GoOnEach table.now slots.old slots.new }
{
    par_for_each_mut(
        rt,
        slots,
        |_place: usize, slot: &mut Slot<E>|
            requires { entities.now ≡ E.entities }
            ensures { GoesOn table.entry.now slot.old slot.new }
        { slot.go_on(alloc, entities, table) },
    );
}

// Fetches the script of that name, where it isn't in the table.
fn fetch_new<F: Outside>(
    alloc: Global,
    dir: &str,
    files: &mut F,
    table: &mut ScriptTable,
    name: &Text,
) -> Result<(), NoMemory>
    ensures { LeavesFetched result dir.now (F.seen files.old) (F.seen files.new)
        table.old table.new }
{
    if table.find(name.as_str()).is_some() {
        return Ok(());
    }
    // A script that is awaited has a lawful name.
    if !is_lawful(name.as_str()) {
        return Err(NoMemory);
    }
    let fetch = fetch_script(alloc, files, dir, name.as_str())?;
    table.add(name.copy(alloc)?, fetch)
}

// Fetches what the page awaits, where it awaits a script, and says whether it or a page before it
// does.
fn fetch_for<E: InForce, F: Outside>(
    alloc: Global,
    dir: &str,
    files: &mut F,
    table: &mut ScriptTable,
    slot: &Slot<E>,
    waits: bool,
) -> Result<bool, NoMemory>
    ensures fetches { LeavesFetched result dir.now (F.seen files.old) (F.seen files.new)
        table.old table.new }
    ensures none { IfOk result (λ one. OnFalse one ((waits ≡ false) × (slot.now.awaits ≡ None))) }
{
    let Some(name) = slot.awaited() else {
        return Ok(waits);
    };
    fetch_new(alloc, dir, files, table, name)?;
    Ok(true)
}

// Fetches what the pages await, each script once, and says whether one awaits any.
fn fetch_awaited<E: InForce, F: Outside>(
    alloc: Global,
    dir: &str,
    files: &mut F,
    table: &mut ScriptTable,
    slots: &[Slot<E>],
) -> Result<bool, NoMemory>
    ensures fetches { LeavesFetched result dir.now (F.seen files.old) (F.seen files.new)
        table.old table.new }
    ensures none { IfOk result (λ waits. OnFalse waits (NoneAwaits slots.now)) }
{
    let mut waits = false;
    for slot in slots {
        let here = fetch_for(alloc, dir, files, table, slot, waits)?;
        waits = here;
    }
    Ok(waits)
}

/// Rounds, until no page awaits a script.
pub(crate) fn run_rounds<R: Threads + Sync, E: InForce + Send, F: Outside>(
    rt: &R,
    alloc: Global,
    entities: &Table,
    dir: &str,
    files: &mut F,
    table: &mut ScriptTable,
    slots: &mut [Slot<E>],
) -> Result<(), NoMemory>
    requires { entities.now ≡ E.entities }
    ensures ran { OnOk result (RunsAll table.old table.new slots.old slots.new) }
    ensures none { OnOk result (NoneAwaits slots.new) }
    ensures fetches { LeavesFetched result dir.now (F.seen files.old) (F.seen files.new)
        table.old table.new }
{
    // Each round but the last has a page's script arrive, so there are never so many.
    for _ in 0..u64::MAX {
        run_round(rt, alloc, entities, table, slots);
        if !fetch_awaited(alloc, dir, files, table, slots)? {
            return Ok(());
        }
    }
    Err(NoMemory)
}
