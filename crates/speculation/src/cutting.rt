//! How a piece is cut into batches.

ghost use Rattle.std.specs.Prelude.{◌≡◌, ◌↔◌, ◌++◌, Some, None, length, drop, if◌then◌else◌, IfOk};
ghost use Rattle.std.specs.Prelude.{OnOk, IsTrue};
ghost use Rattle.html_types.specs.declared.instruction.Stop.TheVariants as stop;
ghost use Rattle.standard.specs.Parser.{parse};
ghost use Rattle.core_definitions.specs.Batches.{at, cut, end_batch, answer};
ghost use Rattle.speculation.specs.Halting.{first_batch};

use crate::batch::{Batch, Batches, Halt};
use crate::checkpoint::Checkpoint;
use entity_table::Table;
use html_types::{Ending, NoMemory, Stop};
use page_pieces::{Piece, SharedText};
use parse_machine::Machine;
use std::alloc::Global;
use std::snapshot::Snapshot;
use text_store::Ops;

// The batch up to the first stop in a text, which is taken off the text. Room is made for so many
// operations at once.
fn next_batch(
    alloc: Global,
    table: &Table,
    machine: &mut Machine,
    text: &mut SharedText,
    room: usize,
) -> Result<Batch, NoMemory>
    ensures batch { IfOk result (λ b. b ≡ first_batch table.now machine.old text.old) }
    ensures machine { OnOk result (machine.new ≡ (parse table.now machine.old text.old).parser) }
    ensures rest { OnOk result
        (text.new ≡ drop (parse table.now machine.old text.old).used text.old) }
{
    let start = Snapshot::of(machine);
    let mut ops = Ops::with_capacity(alloc, room)?;
    let ran = machine.run(alloc, table, text.as_str(), &mut ops)?;
    machine.share(alloc)?;
    let after = Checkpoint::of(alloc, machine)?;
    let used = text.split_front(ran.used)?;
    Ok(Batch {
        start,
        text: used,
        ops,
        after,
        halt: Halt::At(ran.stop),
    })
}

// Whether it ends at a refusal of its text.
fn is_deep(batch: &Batch) -> bool
    ensures { IsTrue result ↔ (batch.now.halt ≡ at stop.Deep) }
{
    batch.halt() == Halt::At(Stop::Deep)
}

// Cuts a text behind each end tag of a script and at a refusal, and says whether the parser goes on
// behind it.
fn cut_text(
    alloc: Global,
    table: &Table,
    machine: &mut Machine,
    text: SharedText,
    batches: &mut Batches,
) -> Result<bool, NoMemory>
    ensures batches { OnOk result
        (batches.new ≡ batches.old ++ (cut (length text) table.now machine.old text).batches) }
    ensures machine { IfOk result
        (λ goes_on. (cut (length text) table.now machine.old text).parser
        ≡ (if goes_on then Some machine.new else None)) }
{
    let mut rest = text;
    'cuts: while !rest.is_empty() {
        let batch = next_batch(alloc, table, machine, &mut rest, batches.room())?;
        let deep = is_deep(&batch);
        batches.push(batch)?;
        if deep {
            return Ok(false);
        }
    }
    Ok(true)
}

// The batch that carries the page's ending.
fn last_batch(
    alloc: Global,
    table: &Table,
    machine: &mut Machine,
    ending: Ending,
) -> Result<Batch, NoMemory>
    ensures { IfOk result (λ b. b ≡ end_batch table.now machine.old ending) }
{
    let start = Snapshot::of(machine);
    let text = SharedText::empty(alloc)?;
    let mut ops = Ops::new(alloc);
    let end = machine.finish(alloc, table, ending, &mut ops)?;
    machine.share(alloc)?;
    let after = Checkpoint::of(alloc, machine)?;
    Ok(Batch {
        start,
        text,
        ops,
        after,
        halt: Halt::Over(end),
    })
}

// What a machine makes of a piece. Says whether it goes on behind it.
pub(crate) fn parse_piece(
    alloc: Global,
    table: &Table,
    machine: &mut Machine,
    piece: &Piece,
    batches: &mut Batches,
) -> Result<bool, NoMemory>
    ensures batches { OnOk result
        (batches.new ≡ batches.old ++ (answer table.now (Some machine.old) piece.now).batches) }
    ensures machine { IfOk result
        (λ goes_on. (answer table.now (Some machine.old) piece.now).parser
        ≡ (if goes_on then Some machine.new else None)) }
{
    let text = piece.text().copy()?;
    if !cut_text(alloc, table, machine, text, batches)? {
        return Ok(false);
    }
    match piece.ending() {
        None => Ok(true),
        Some(ending) => {
            let batch = last_batch(alloc, table, machine, ending)?;
            batches.push(batch)?;
            Ok(false)
        }
    }
}
