//! The parser's side answers two requests in order, in a thread of its own and over the same lanes
//! in this one. The batches that are expected were read off the page.

ghost use Rattle.std.specs.Prelude.{◌≡◌};
ghost use Rattle.parser_thread.specs.Running.{IsRunning};

use crate::counting::no_entities;
use entity_table::Table;
use html_types::{Ending, NoMemory, Text};
use outside::Gate;
use page_pieces::{Piece, SharedText};
use parser_thread::{FromParser, ParserThread, start, start_here};
use speculation::{InForce, Request};
use std::alloc::Global;
use std::marker::Brand;
use std::sync::atomic::{AtomicU64, Ordering};
use std::sync::{Arc, Wait};
use std::test::Fail;
use std::thread::Threads;

// The number of the reply of which it was told last.
#[derive(Drop)]
struct LastGiven(AtomicU64);

impl Gate for LastGiven {
    fn given(&self, number: u64) {
        self.0.store(number, Ordering::SeqCst);
    }
}

// Two requests, the first and the second of a page.
#[derive(Drop)]
struct TwoRequests {
    first: Request,
    second: Request,
}

// A request of a short text.
fn request_of(
    alloc: Global,
    number: u64,
    text: &Text,
    ending: Option<Ending>,
) -> Result<Request, NoMemory> {
    let length = text.len();
    if length > 100 {
        return Err(NoMemory);
    }
    let string = String::from_str(alloc, text.as_str())?;
    let whole = SharedText::of(alloc, string)?;
    let piece = Piece::new(whole, ending);
    Ok(Request::new(1, number, None, piece, 0))
}

fn two_requests(alloc: Global) -> Result<TwoRequests, NoMemory> {
    let before = Text::from_str(alloc, "<p>a<script>x</script>b<script>y</scr")?;
    let behind = Text::from_str(alloc, "ipt>c")?;
    let first = request_of(alloc, 1, &before, None)?;
    let second = request_of(alloc, 2, &behind, Some(Ending::End))?;
    Ok(TwoRequests { first, second })
}

// How many batches a reply has.
fn batches_in<E: InForce>(message: FromParser<E>) -> Option<usize> {
    match message {
        FromParser::Answer(reply) => Some(reply.said.into_batches().len()),
        FromParser::NoMemory => None,
    }
}

// Each call alone: what it promises is long, and what stands behind it needs one fact of that.
fn send<R: Wait, E: InForce>(rt: &R, running: &mut ParserThread<E, LastGiven>, request: Request)
    requires { IsRunning E.InForce running.old }
    ensures { IsRunning E.InForce running.new }
{
    running.send(rt, request);
}

// How many batches the next reply has.
fn take<R: Wait, E: InForce>(rt: &R, running: &mut ParserThread<E, LastGiven>) -> Option<usize>
    requires { IsRunning E.InForce running.old }
    ensures { IsRunning E.InForce running.new }
{
    batches_in(running.take(rt))
}

fn finish<R: Threads + Wait, E: InForce>(rt: &R, running: ParserThread<E, LastGiven>)
    requires { IsRunning E.InForce running }
{
    let _lanes = running.finish(rt);
}

// How many batches both replies have.
fn both<R: Threads + Wait + Sync, E: InForce>(
    rt: &R,
    mut running: ParserThread<E, LastGiven>,
    requests: TwoRequests,
) -> (Option<usize>, Option<usize>)
    requires { IsRunning E.InForce running }
{
    send(rt, &mut running, requests.first);
    send(rt, &mut running, requests.second);
    let one = take(rt, &mut running);
    let two = take(rt, &mut running);
    finish(rt, running);
    (one, two)
}

// In a thread of its own.
fn there<R: Threads + Wait + Copy + Send + Sync + 'static, E: InForce + Send + 'static>(
    rt: &R,
    alloc: Global,
    table: &Table,
    gate: &Arc<LastGiven, Global>,
    requests: TwoRequests,
) -> Result<(Option<usize>, Option<usize>), NoMemory>
    requires { table.now ≡ E.entities }
{
    let running = start::<R, E, LastGiven>(rt, alloc, table, 2, gate)?;
    Ok(both(rt, running, requests))
}

// In this thread.
fn here<R: Threads + Wait + Sync, E: InForce>(
    rt: &R,
    alloc: Global,
    table: &Table,
    gate: &Arc<LastGiven, Global>,
    requests: TwoRequests,
) -> Result<(Option<usize>, Option<usize>), NoMemory>
    requires { table.now ≡ E.entities }
{
    let running = start_here::<E, LastGiven>(alloc, table, 2, gate)?;
    Ok(both(rt, running, requests))
}

// The same, the table's entities being in force.
fn there_by_table<R: Threads + Wait + Copy + Send + Sync + 'static>(
    rt: &R,
    alloc: Global,
    table: &Table,
    gate: &Arc<LastGiven, Global>,
    requests: TwoRequests,
) -> Result<(Option<usize>, Option<usize>), NoMemory> {
    there::<R, Brand>(rt, alloc, table, gate, requests)
}

fn here_by_table<R: Threads + Wait + Sync>(
    rt: &R,
    alloc: Global,
    table: &Table,
    gate: &Arc<LastGiven, Global>,
    requests: TwoRequests,
) -> Result<(Option<usize>, Option<usize>), NoMemory> {
    here::<R, Brand>(rt, alloc, table, gate, requests)
}

#[test]
fn a_thread_answers_in_order(rt: HostRuntime) -> Result<(), Fail> {
    let alloc = rt.alloc();
    let table = no_entities(alloc)?;
    let gate = Arc::new(alloc, LastGiven(AtomicU64::new(0)))?;
    let requests = two_requests(alloc)?;
    let seen = there_by_table(&rt, alloc, &table, &gate, requests)?;
    assert_eq!(rt; seen.0, Some(2));
    assert_eq!(rt; seen.1, Some(3));
    assert_eq!(rt; gate.0.load(Ordering::SeqCst), 2);
    Ok(())
}

#[test]
fn the_same_lanes_serve_in_one_thread(rt: HostRuntime) -> Result<(), Fail> {
    let alloc = rt.alloc();
    let table = no_entities(alloc)?;
    let gate = Arc::new(alloc, LastGiven(AtomicU64::new(0)))?;
    let requests = two_requests(alloc)?;
    let seen = here_by_table(&rt, alloc, &table, &gate, requests)?;
    assert_eq!(rt; seen.0, Some(2));
    assert_eq!(rt; seen.1, Some(3));
    assert_eq!(rt; gate.0.load(Ordering::SeqCst), 2);
    Ok(())
}
