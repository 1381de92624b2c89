//! What the parser's side makes of a long text. Contracts see an operation a character; that it
//! makes one of them all is only tested here.

ghost use Rattle.std.specs.Prelude.{◌≡◌};

use crate::running::entities;
use entity_table::Table;
use html_types::{NoMemory, Text};
use page_pieces::{Piece, SharedText};
use speculation::{Batch, Batches, InForce, Reply, Request, Worker};
use std::alloc::Global;
use std::marker::Brand;
use std::test::Fail;

fn paragraph(alloc: Global, characters: usize) -> Result<Text, NoMemory> {
    let mut text = Text::from_str(alloc, "<p>")?;
    for _ in 0..characters {
        text.push('x')?;
    }
    Ok(text)
}

// The first request of a page that isn't long.
fn first_request(alloc: Global, text: &Text) -> Result<Request, NoMemory> {
    let length = text.len();
    if length > 4096 {
        return Err(NoMemory);
    }
    let string = String::from_str(alloc, text.as_str())?;
    let whole = SharedText::of(alloc, string)?;
    let piece = Piece::new(whole, None);
    Ok(Request::new(1, 1, None, piece, 0))
}

// What an answer promises is long, and nothing behind it needs that.
fn answer<E: InForce>(
    alloc: Global,
    table: &Table,
    mut worker: Worker,
    request: Request,
) -> Result<Reply<E>, NoMemory>
    requires { table.now ≡ E.entities }
{
    worker.answer::<E>(alloc, table, request)
}

fn worker() -> Worker {
    Worker::new()
}

fn batches_in_force<E: InForce>(
    alloc: Global,
    table: &Table,
    request: Request,
) -> Result<Batches, NoMemory>
    requires { table.now ≡ E.entities }
{
    let reply = answer::<E>(alloc, table, worker(), request)?;
    Ok(reply.said.into_batches())
}

fn batches_of(alloc: Global, table: &Table, request: Request) -> Result<Batches, NoMemory> {
    batches_in_force::<Brand>(alloc, table, request)
}

// What a paragraph of so many characters comes to.
fn paragraph_batches(alloc: Global, table: &Table, characters: usize) -> Result<Batches, NoMemory> {
    let text = paragraph(alloc, characters)?;
    let request = first_request(alloc, &text)?;
    batches_of(alloc, table, request)
}

fn operations_in(batch: Batch) -> usize {
    let (operations, _after) = batch.into_parts();
    operations.stored()
}

// How many batches there are, and how many operations the first has.
fn counts_of(mut batches: Batches) -> (usize, usize) {
    let all = batches.len();
    match batches.pop() {
        Some(batch) => (all, operations_in(batch)),
        None => (all, 0),
    }
}

#[test]
fn a_long_text_is_one_operation(rt: HostRuntime) -> Result<(), Fail> {
    let alloc = rt.alloc();
    let table = entities(alloc)?;
    let (batches, operations) = counts_of(paragraph_batches(alloc, &table, 4000)?);
    assert_eq!(rt; batches, 1);
    // One that makes and one that puts html, head, body and p each, and the text.
    assert_eq!(rt; operations, 9);
    Ok(())
}
