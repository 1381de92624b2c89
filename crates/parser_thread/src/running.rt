//! The parser's side at work, as the document's side sees it.

ghost use Rattle.std.specs.Prelude.{◌≡◌, ◌≤◌, ◌+◌, ◌∷◌, ◌++◌, [], IfOk};
ghost use mathlib.Core.List.{IsPrefix};
ghost use Rattle.parser_thread.specs.declared.messages.ToParser.TheVariants as message;
ghost use Rattle.parser_thread.specs.Answers.{Worked};
ghost use Rattle.parser_thread.specs.Running.{IsRunning};

use crate::messages::{FromParser, ToParser};
use crate::seat::{Outfit, ParserLanes, Seat, take_seat};
use crate::side::{Ends, ParserSide};
use entity_table::Table;
use html_types::NoMemory;
use op_queue::{Met, Put, Take, lane, meet};
use outside::Gate;
use speculation::{InForce, Request};
use std::alloc::Global;
use std::sync::atomic::AtomicU64;
use std::sync::{Arc, Wait};
use std::thread::Threads;

/// What was put into both lanes and taken from them.
#[derive(Drop)]
pub struct Lanes<E: InForce> {
    pub asked: Met<ToParser>,
    pub answers: Met<FromParser<E>>,
}

/// The parser's side at work in its thread, and the document's ends of both lanes. Where no thread
/// could be made it works in this thread, after each request. It isn't let go: `finish` ends it.
pub struct ParserThread<E: InForce, G> {
    pub ask: Put<ToParser>,
    pub replies: Take<FromParser<E>>,
    pub(crate) seat: Seat<E>,
    pub(crate) table: Table,
    pub(crate) gate: Arc<G, Global>,
    pub(crate) alloc: Global,
}

// What both sides begin with.
pub(crate) struct Beginning<E: InForce, G> {
    pub(crate) ask: Put<ToParser>,
    pub(crate) replies: Take<FromParser<E>>,
    pub(crate) table: Table,
    pub(crate) gate: Arc<G, Global>,
    pub(crate) refused: Arc<AtomicU64, Global>,
    pub(crate) outfit: Outfit<E, G>,
}

// Takes all the memory that a start needs.
pub(crate) fn begin<E: InForce, G: Gate + Drop>(
    alloc: Global,
    table: &Table,
    ahead: usize,
    gate: &Arc<G, Global>,
) -> Result<Beginning<E, G>, NoMemory>
    requires table { table.now ≡ E.entities }
    requires ahead { ahead ≤ 64 }
    ensures table { IfOk result (λ b. (b.table ≡ E.entities) × (b.outfit.table ≡ E.entities)) }
    ensures asked { IfOk result
        (λ b. (b.ask.put ≡ []) × (b.outfit.lanes.asked.taken ≡ [])
        × (b.outfit.lanes.asked.lane ≡ b.ask.lane)) }
    ensures answers { IfOk result
        (λ b. (b.replies.taken ≡ []) × (b.outfit.lanes.answers.put ≡ [])
        × (b.outfit.lanes.answers.lane ≡ b.replies.lane)) }
    ensures room { IfOk result (λ b. (b.ask.room ≡ ahead + 1) × (b.replies.room ≡ ahead + 1)) }
{
    let (ask, asked) = lane(alloc, ahead + 1)?;
    let (answers, replies) = lane(alloc, ahead + 1)?;
    let own_table = table.copy()?;
    let their_table = table.copy()?;
    let own_gate = Arc::try_clone(gate)?;
    let their_gate = Arc::try_clone(gate)?;
    let refused = Arc::new(alloc, AtomicU64::new(0))?;
    let told = Arc::try_clone(&refused)?;
    Ok(Beginning {
        ask,
        replies,
        table: own_table,
        gate: own_gate,
        refused,
        outfit: Outfit {
            lanes: ParserLanes { asked, answers },
            table: their_table,
            gate: their_gate,
            refused: told,
        },
    })
}

/// Starts the parser's side, with the named character references of `table`, which are those in
/// force. `ahead` is how many requests are at most sent whose replies weren't taken. Each lane
/// holds one more: so many replies, or so many requests and the word to stop. All memory that it
/// needs itself is taken here.
pub fn start<
    R: Threads + Wait + Copy + Send + Sync + 'static,
    E: InForce + Send + 'static,
    G: Gate + Drop + Send + Sync + 'static,
>(
    rt: &R,
    alloc: Global,
    table: &Table,
    ahead: usize,
    gate: &Arc<G, Global>,
) -> Result<ParserThread<E, G>, NoMemory>
    requires table { table.now ≡ E.entities }
    requires ahead { ahead ≤ 64 }
    ensures running { IfOk result (λ t. IsRunning E.InForce t) }
    ensures asked { IfOk result (λ t. t.ask.put ≡ []) }
    ensures taken { IfOk result (λ t. t.replies.taken ≡ []) }
    ensures room { IfOk result (λ t. (t.ask.room ≡ ahead + 1) × (t.replies.room ≡ ahead + 1)) }
{
    let Beginning {
        ask,
        replies,
        table,
        gate,
        refused,
        outfit,
    } = begin::<E, G>(alloc, table, ahead, gate)?;
    let seat = take_seat(rt, alloc, outfit, &*refused);
    Ok(ParserThread {
        ask,
        replies,
        seat,
        table,
        gate,
        alloc,
    })
}

/// The same with the parser's side in the calling thread, as where no thread can be made.
pub fn start_here<E: InForce, G: Gate + Drop>(
    alloc: Global,
    table: &Table,
    ahead: usize,
    gate: &Arc<G, Global>,
) -> Result<ParserThread<E, G>, NoMemory>
    requires table { table.now ≡ E.entities }
    requires ahead { ahead ≤ 64 }
    ensures running { IfOk result (λ t. IsRunning E.InForce t) }
    ensures asked { IfOk result (λ t. t.ask.put ≡ []) }
    ensures taken { IfOk result (λ t. t.replies.taken ≡ []) }
    ensures room { IfOk result (λ t. (t.ask.room ≡ ahead + 1) × (t.replies.room ≡ ahead + 1)) }
{
    let Beginning {
        ask,
        replies,
        table,
        gate,
        refused: _refused,
        outfit,
    } = begin::<E, G>(alloc, table, ahead, gate)?;
    let Outfit {
        lanes,
        table: _table,
        gate: _gate,
        refused: _told,
    } = outfit;
    let ParserLanes { asked, answers } = lanes;
    Ok(ParserThread {
        ask,
        replies,
        seat: Seat::Here(ParserSide::new(asked, answers)),
        table,
        gate,
        alloc,
    })
}

impl<E: InForce, G: Gate + Drop> ParserThread<E, G> {
    /// Sends a request.
    pub fn send<R: Wait>(&mut self, rt: &R, request: Request)
        requires { IsRunning E.InForce self.old }
        ensures running { IsRunning E.InForce self.new }
        ensures asked { self.new.ask.put ≡ self.old.ask.put ++ message.Ask request ∷ [] }
        ensures taken { self.new.replies.taken ≡ self.old.replies.taken }
        ensures room { (self.new.ask.room ≡ self.old.ask.room)
            × (self.new.replies.room ≡ self.old.replies.room) }
    {
        self.ask.put(rt, ToParser::Ask(request));
        self.seat.step(rt, self.alloc, &self.table, &*self.gate);
    }

    /// Takes what is given next, waiting until it is there. It comes for each request sent, up to
    /// want of memory.
    pub fn take<R: Wait>(&mut self, rt: &R) -> FromParser<E>
        requires { IsRunning E.InForce self.old }
        ensures running { IsRunning E.InForce self.new }
        ensures asked { self.new.ask.put ≡ self.old.ask.put }
        ensures taken { self.new.replies.taken ≡ self.old.replies.taken ++ result ∷ [] }
        ensures room { (self.new.ask.room ≡ self.old.ask.room)
            × (self.new.replies.room ≡ self.old.replies.room) }
    {
        self.replies.take(rt)
    }

    /// Tells the parser's side to stop, waits until it has, and gives back what went through both
    /// lanes.
    pub fn finish<R: Threads + Wait>(self, rt: &R) -> Lanes<E>
        requires { IsRunning E.InForce self }
        // What was sent, and then the word to stop.
        ensures asked { result.asked.put ≡ self.ask.put ++ message.Stop ∷ [] }
        ensures taken { result.answers.taken ≡ self.replies.taken }
        // The requests taken are the first of those sent, and the replies taken the first of those
        // given.
        ensures asked_in_order { IsPrefix result.asked.taken result.asked.put }
        ensures answers_in_order { IsPrefix result.answers.taken result.answers.put }
        // Each request taken is answered once, in order, the last perhaps by want of memory.
        ensures worked { Worked E.InForce result.asked.taken result.answers.put }
    {
        let ParserThread {
            mut ask,
            replies,
            seat,
            table,
            gate,
            alloc,
        } = self;
        ask.put(rt, ToParser::Stop);
        let Ends { asked, answers } = seat.leave(rt, alloc, &table, &*gate);
        Lanes {
            asked: meet(ask.end(), asked),
            answers: meet(answers, replies.end()),
        }
    }
}
