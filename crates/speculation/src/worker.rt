//! The parser's side.

ghost use Rattle.std.specs.Prelude.{◌≡◌, ◌++◌, Some, None, if◌then◌else◌, IfOk, OnOk};
ghost use Rattle.core_definitions.specs.Batches.{answer};
ghost use Rattle.core_definitions.specs.Core.{first_work, started, answer_to, reply_to};

use crate::batch::Batches;
use crate::boxed::BoxedMachine;
use crate::checkpoint::Checkpoint;
use crate::cutting::parse_piece;
use crate::in_force::InForce;
use crate::reply::{Reply, Said};
use crate::request::Request;
use entity_table::Table;
use html_types::NoMemory;
use page_pieces::Piece;
use parse_machine::Machine;
use std::alloc::Global;
use std::marker::{Model, PhantomData};

/// The parser's side: a contract sees the state in which its last answer ended, none behind a
/// refusal and behind the page's ending.
#[derive(Drop)]
pub struct Worker {
    // Nothing was answered yet.
    first: bool,
    machine: Option<BoxedMachine>,
    // For so many operations the next batch has room.
    room: usize,
}

impl Model for Worker {
    ghost use Rattle.std.specs.Prelude.{Option, if◌then◌else◌};
    ghost use Rattle.core_definitions.specs.Core.{first_work};
    ghost use Rattle.standard.specs.Parser.{Parser};

    ghost Value = { Option Parser };

    ghost view = { λ w. if w.first then first_work.parser else w.machine };
}

// A parse of a piece: where it began, its batches, and where it ended.
#[derive(Drop)]
pub(crate) struct Parse {
    start: Option<Checkpoint>,
    batches: Batches,
    machine: Option<BoxedMachine>,
}

// Parses a piece from where a machine stands. Gives that state, and says whether the machine goes
// on behind the piece.
fn parse_on(
    alloc: Global,
    table: &Table,
    machine: &mut Machine,
    piece: &Piece,
    batches: &mut Batches,
) -> Result<(Checkpoint, bool), NoMemory>
    ensures start { IfOk result (λ r. r.0 ≡ machine.old) }
    ensures batches { OnOk result
        (batches.new ≡ batches.old ++ (answer table.now (Some machine.old) piece.now).batches) }
    ensures machine { IfOk result
        (λ r. (answer table.now (Some machine.old) piece.now).parser
        ≡ (if r.1 then Some machine.new else None)) }
{
    machine.share(alloc)?;
    let start = Checkpoint::of(alloc, machine)?;
    let goes_on = parse_piece(alloc, table, machine, piece, batches)?;
    Ok((start, goes_on))
}

// Parses a piece, where there is a state to parse it from. The first batch has room for so many
// operations.
fn parse_from(
    alloc: Global,
    table: &Table,
    machine: Option<BoxedMachine>,
    piece: &Piece,
    room: usize,
) -> Result<Parse, NoMemory>
    ensures start { IfOk result (λ p. p.start ≡ machine) }
    ensures batches { IfOk result (λ p. p.batches ≡ (answer table.now machine piece.now).batches) }
    ensures machine { IfOk result (λ p. p.machine ≡ (answer table.now machine piece.now).parser) }
{
    let mut batches = Batches::with_room(alloc, room);
    match machine {
        None => Ok(Parse {
            start: None,
            batches,
            machine: None,
        }),
        Some(machine) => {
            let mut machine = machine;
            let (start, goes_on) = parse_on(
                alloc,
                table,
                &mut machine.machine,
                piece,
                &mut batches,
            )?;
            if !goes_on {
                return Ok(Parse {
                    start: Some(start),
                    batches,
                    machine: None,
                });
            }
            Ok(Parse {
                start: Some(start),
                batches,
                machine: Some(machine),
            })
        }
    }
}

impl Worker {
    /// At the beginning of a page. It takes no memory.
    pub fn new() -> Worker
        ensures { result ≡ first_work.parser }
    {
        Worker {
            first: true,
            machine: None,
            room: 0,
        }
    }

    // The state in which the last answer ended.
    fn last(&mut self, alloc: Global) -> Result<Option<BoxedMachine>, NoMemory>
        ensures { IfOk result (λ last. last ≡ self.old) }
    {
        if self.first {
            let machine = BoxedMachine::new(alloc, Machine::new(alloc, 0))?;
            return Ok(Some(machine));
        }
        Ok(self.machine.take())
    }

    // The state that a request carries, or else the last.
    fn start_of(
        &mut self,
        alloc: Global,
        carried: Option<BoxedMachine>,
    ) -> Result<Option<BoxedMachine>, NoMemory>
        ensures { IfOk result (λ start. start ≡ started carried self.old) }
    {
        match carried {
            None => self.last(alloc),
            Some(machine) => Ok(Some(machine)),
        }
    }

    /// The answer to a request, with the named character references of `table`, which are those in
    /// force. Where it answers want of memory, the worker only keeps its type.
    pub fn answer<E: InForce>(
        &mut self,
        alloc: Global,
        table: &Table,
        request: Request,
    ) -> Result<Reply<E>, NoMemory>
        requires { table.now ≡ E.entities }
        // Its epoch and number are the request's, and its batches are those of the whole piece,
        // from the state that the request carries, or else from where the last answer ended.
        ensures reply { IfOk result
            (λ r. r.said.reply
            ≡ reply_to request.request (answer_to E.entities self.old request.request).batches) }
        ensures start { IfOk result (λ r. r.said.start ≡ started request.request.start self.old) }
        ensures piece { IfOk result (λ r. r.said.piece ≡ request.request.piece) }
        ensures from { IfOk result (λ r. r.said.from ≡ request.from) }
        // The worker stands where the answer ends.
        ensures machine { OnOk result
            (self.new ≡ (answer_to E.entities self.old request.request).parser) }
    {
        let Request {
            epoch,
            number,
            start,
            piece,
            from,
        } = request;
        let machine = self.start_of(alloc, start)?;
        let parse = parse_from(alloc, table, machine, &piece, self.room)?;
        self.first = false;
        self.machine = parse.machine;
        self.room = parse.batches.room();
        Ok(Reply {
            said: Said {
                epoch,
                number,
                start: parse.start,
                piece,
                from,
                batches: parse.batches,
            },
            of: PhantomData,
        })
    }
}
