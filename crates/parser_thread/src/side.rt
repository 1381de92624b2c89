//! The parser's side: its steps over its ends of the two lanes.

ghost use Rattle.std.specs.Prelude.{◌≡◌, [], false, IsTrue};
ghost use Rattle.parser_thread.specs.Answers.{Serving, Worked, HasGiven};
ghost use Rattle.parser_thread.specs.Sides.{Stands};

use crate::messages::{FromParser, ToParser};
use entity_table::Table;
use op_queue::{Put, PutEnd, Take, TakeEnd};
use outside::Gate;
use speculation::{InForce, Worker};
use std::alloc::Global;
use std::sync::Wait;
use std::thread::Threads;

/// The parser's side, with its ends of both lanes.
#[derive(Drop)]
pub(crate) struct ParserSide<E: InForce> {
    pub(crate) worker: Worker,
    pub(crate) asked: Take<ToParser>,
    pub(crate) answers: Put<FromParser<E>>,
    // False behind the last message.
    pub(crate) goes_on: bool,
}

/// The ends of both lanes, once the parser's side takes and puts no more.
#[derive(Drop)]
pub struct Ends<E: InForce> {
    pub asked: TakeEnd<ToParser>,
    pub answers: PutEnd<FromParser<E>>,
}

// Tells the gate of the reply that was given last.
fn tell<E: InForce, G: Gate>(gate: &G, answers: &Put<FromParser<E>>, number: u64)
    requires { HasGiven E.InForce number answers.now.put }
{
    let _given = answers;
    gate.given(number);
}

impl<E: InForce> ParserSide<E> {
    /// At the beginning of a page.
    pub(crate) fn new(asked: Take<ToParser>, answers: Put<FromParser<E>>) -> ParserSide<E>
        requires { (asked.taken ≡ []) × (answers.put ≡ []) }
        ensures asked { result.asked ≡ asked }
        ensures answers { result.answers ≡ answers }
        ensures stands { Stands E.InForce result }
    {
        ParserSide {
            worker: Worker::new(),
            asked,
            answers,
            goes_on: true,
        }
    }

    // Takes one message, and answers it. False where it was the last.
    fn serve<R: Wait, G: Gate>(&mut self, rt: &R, alloc: Global, table: &Table, gate: &G) -> bool
        requires table { table.now ≡ E.entities }
        requires serving { Serving E.InForce self.old.worker self.old.asked.taken
            self.old.answers.put }
        ensures asked { self.new.asked.lane ≡ self.old.asked.lane }
        ensures answers { self.new.answers.lane ≡ self.old.answers.lane }
        ensures goes_on { IsTrue result
            → Serving E.InForce self.new.worker self.new.asked.taken self.new.answers.put }
        ensures last { result ≡ false → Worked E.InForce self.new.asked.taken self.new.answers.put }
    {
        match self.asked.take(rt) {
            ToParser::Stop => false,
            ToParser::Ask(request) => {
                let number = request.number();
                match self.worker.answer::<E>(alloc, table, request) {
                    Ok(reply) => {
                        self.answers.put(rt, FromParser::Answer(reply));
                        tell(gate, &self.answers, number);
                        true
                    }
                    Err(_) => {
                        self.answers.put(rt, FromParser::NoMemory);
                        false
                    }
                }
            }
        }
    }

    /// Takes one message, and answers it. Nothing where it has ended.
    pub(crate) fn step<R: Wait, G: Gate>(&mut self, rt: &R, alloc: Global, table: &Table, gate: &G)
        requires table { table.now ≡ E.entities }
        requires stands { Stands E.InForce self.old }
        ensures asked { self.new.asked.lane ≡ self.old.asked.lane }
        ensures answers { self.new.answers.lane ≡ self.old.answers.lane }
        ensures stands { Stands E.InForce self.new }
    {
        if self.goes_on {
            self.goes_on = self.serve(rt, alloc, table, gate);
        }
    }

    /// Answers up to the last message.
    pub(crate) fn finish<R: Wait, G: Gate>(
        mut self,
        rt: &R,
        alloc: Global,
        table: &Table,
        gate: &G,
    ) -> Ends<E>
        requires table { table.now ≡ E.entities }
        requires stands { Stands E.InForce self }
        ensures asked { result.asked.lane ≡ self.asked.lane }
        ensures answers { result.answers.lane ≡ self.answers.lane }
        ensures worked { Worked E.InForce result.asked.taken result.answers.put }
    {
        for _ in rt.forever() {
            if !self.goes_on {
                return self.end();
            }
            self.step(rt, alloc, table, gate);
        }
        unreachable!()
    }

    // Takes and puts no more.
    fn end(self) -> Ends<E>
        ensures asked { (result.asked.lane ≡ self.asked.lane)
            × (result.asked.taken ≡ self.asked.taken) }
        ensures answers { (result.answers.lane ≡ self.answers.lane)
            × (result.answers.put ≡ self.answers.put) }
    {
        let ParserSide {
            worker: _worker,
            asked,
            answers,
            goes_on: _goes_on,
        } = self;
        Ends {
            asked: asked.end(),
            answers: answers.end(),
        }
    }
}

/// Answers all requests of a page.
pub(crate) fn answer_all<R: Wait, E: InForce, G: Gate>(
    rt: &R,
    alloc: Global,
    table: &Table,
    asked: Take<ToParser>,
    answers: Put<FromParser<E>>,
    gate: &G,
) -> Ends<E>
    requires table { table.now ≡ E.entities }
    requires first { (asked.taken ≡ []) × (answers.put ≡ []) }
    ensures asked { result.asked.lane ≡ asked.lane }
    ensures answers { result.answers.lane ≡ answers.lane }
    ensures worked { Worked E.InForce result.asked.taken result.answers.put }
{
    ParserSide::new(asked, answers).finish(rt, alloc, table, gate)
}

/// What the parser's thread does, from the beginning of a page on: it takes requests until it is
/// told to stop, and answers each once, in order, with the named character references of `table`,
/// which are those in force. The gate is told the number of each reply once it is given. Where
/// memory runs out over a request it says so in place of the reply, and ends. Its ends of the lanes
/// come back in every case.
pub fn work<R: Threads + Wait + Sync, E: InForce, G: Gate + Sync>(
    rt: &R,
    alloc: Global,
    table: &Table,
    asked: Take<ToParser>,
    answers: Put<FromParser<E>>,
    gate: &G,
) -> Ends<E>
    requires table { table.now ≡ E.entities }
    requires first { (asked.taken ≡ []) × (answers.put ≡ []) }
    ensures asked { result.asked.lane ≡ asked.lane }
    ensures answers { result.answers.lane ≡ answers.lane }
    // Each request taken is answered once, in order, the last perhaps by want of memory; and it
    // ended at the word to stop, or said that memory ran out.
    ensures worked { Worked E.InForce result.asked.taken result.answers.put }
{
    answer_all(rt, alloc, table, asked, answers, gate)
}
