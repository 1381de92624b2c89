// The parser's side in the calling thread.
ghost use Rattle.std.specs.Prelude.{◌≡◌, [], Some, true};
ghost use Rattle.page_turns.specs.Turns.{no_load};

use crate::counterpart::Counterpart;
use core_steps::WorkSide;
use entity_table::Table;
use html_types::NoMemory;
use speculation::{InForce, Reply, Request, Said};
use std::alloc::Global;
use std::collections::VecDeque;
use std::marker::Model;
use std::snapshot::Snapshot;

/// The parser's side in the calling thread: the requests that it hasn't picked and the replies that
/// weren't taken, in order. A contract sees how many they are, and, as long as memory lasts, which
/// requests were put and which replies were taken, and that these are the replies to the first of
/// those, each once, in order, by this one parser's side.
#[derive(Drop)]
pub struct InPlace<E: InForce> {
    work: WorkSide,
    requests: VecDeque<Request>,
    replies: VecDeque<Reply<E>>,
    // What went through, which only contracts see.
    asked: Vec<Snapshot<Request>>,
    taken: Vec<Snapshot<Said>>,
    tells_asked: bool,
    tells_taken: bool,
    // Memory ran out.
    spent: bool,
}

impl<E: InForce> Model for InPlace<E> {
    ghost use Rattle.std.specs.Prelude.{◌≡◌, ◌++◌, false, not, length, map};
    ghost use Rattle.page_turns.specs.Turns.{in_hand};
    ghost use Rattle.page_turns.specs.InPlaces.{Place, asked_in, taken_in, replies_in, told_of};
    ghost use Rattle.page_turns.specs.InPlaces.{IsAnswering};

    ghost Value = { Place };

    ghost view = { λ l. record {
      load = record {
        requests = length l.requests.items;
        hand = in_hand l.work.hand;
        replies = length l.replies.items;
      };
      asked = told_of l.tells_asked (asked_in l.asked.items);
      taken = told_of l.tells_taken (taken_in l.taken.items);
      ordered = not l.spent;
    } };

    // The replies given, those that were taken and those that stand, are the answers to the first
    // requests that were put.
    ghost invariant = { λ l. l.spent ≡ false → IsAnswering E.entities (asked_in l.asked.items)
        (taken_in l.taken.items ++ replies_in l.replies.items) l.work l.requests.items };
}

impl<E: InForce> InPlace<E> {
    /// With nothing under way. It takes no memory.
    pub fn new(alloc: Global) -> InPlace<E>
        ensures load { result.load ≡ no_load }
        ensures asked { result.asked ≡ Some [] }
        ensures taken { result.taken ≡ Some [] }
        ensures ordered { result.ordered ≡ true }
    {
        InPlace {
            work: WorkSide::new(alloc),
            requests: VecDeque::new(alloc),
            replies: VecDeque::new(alloc),
            asked: Vec::new(alloc),
            taken: Vec::new(alloc),
            tells_asked: true,
            tells_taken: true,
            spent: false,
        }
    }
}

impl<E: InForce> Counterpart<E> for InPlace<E> {
    ghost load = { λ l. l.load };

    ghost put = { λ l. l.asked };

    ghost taken = { λ l. l.taken };

    ghost ordered = { λ l. l.ordered };

    fn has_room(&self, ahead: usize) -> bool {
        let hand = if self.work.can_pick() { 0 } else { 1 };
        self.requests.len() + hand + self.replies.len() < ahead
    }

    fn ask(&mut self, request: Request) -> Result<(), NoMemory> {
        let asked = Snapshot::of(&request);
        let spent = self.spent;
        self.spent = true;
        if self.asked.push(asked).is_err() {
            self.tells_asked = false;
            return Err(NoMemory);
        }
        self.requests.push_back(request)?;
        self.spent = spent;
        Ok(())
    }

    // Picks a request, or gives the reply to the one that was picked.
    fn answer(&mut self, table: &Table) -> Result<bool, NoMemory> {
        if !self.work.can_pick() {
            let spent = self.spent;
            self.spent = true;
            let reply = self.work.give(table)?;
            self.replies.push_back(reply)?;
            self.spent = spent;
            return Ok(true);
        }
        match self.requests.pop_front() {
            None => Ok(false),
            Some(request) => {
                self.work.pick(request);
                Ok(true)
            }
        }
    }

    fn take(&mut self) -> Result<Reply<E>, NoMemory> {
        match self.replies.pop_front() {
            None => unreachable!(),
            Some(reply) => {
                let taken = Snapshot::of(&reply.said);
                if self.taken.push(taken).is_err() {
                    self.tells_taken = false;
                    self.spent = true;
                    return Err(NoMemory);
                }
                Ok(reply)
            }
        }
    }
}
