//! What passes between the two sides is noted.

ghost use Rattle.std.specs.Prelude.{◌≡◌, [], IfSome};
ghost use Rattle.page_turns.specs.Turns.{no_load};

use entity_table::Table;
use html_types::NoMemory;
use page_turns::Counterpart;
use speculation::{InForce, Reply, Request};
use std::alloc::Global;

/// What passes between the two sides.
#[derive(Clone, Copy, PartialEq, Eq)]
pub enum Step {
    /// A request is sent.
    Send,
    /// The parser's side takes it.
    Pick,
    /// The parser's side gives the reply.
    Give,
    /// The reply is taken.
    Take,
}

/// A request, by its numbers.
#[derive(Clone, Copy)]
pub struct Asked {
    /// From 1.
    pub number: u64,
    pub epoch: u64,
    /// So many characters of the page stand before its text.
    pub from: u64,
    /// The characters of its text.
    pub characters: u64,
}

/// A step over a request.
#[derive(Clone, Copy)]
pub struct Passed {
    pub step: Step,
    pub asked: Asked,
}

/// The steps so far, and how many requests each side is through with.
#[derive(Drop)]
pub struct Notes {
    passed: Vec<Passed>,
    asked: Vec<Asked>,
    picked: usize,
    given: usize,
    taken: usize,
    // Memory sufficed for all of them.
    is_whole: bool,
}

impl Notes {
    /// Nothing has passed.
    pub fn new(alloc: Global) -> Notes {
        Notes {
            passed: Vec::new(alloc),
            asked: Vec::new(alloc),
            picked: 0,
            given: 0,
            taken: 0,
            is_whole: true,
        }
    }

    /// The steps so far, where memory sufficed for all of them.
    pub fn passed(&self) -> Result<&[Passed], NoMemory> {
        if self.is_whole {
            Ok(self.passed.as_slice())
        } else {
            Err(NoMemory)
        }
    }

    fn note(&mut self, step: Step, asked: Asked) {
        if self.passed.push(Passed { step, asked }).is_err() {
            self.is_whole = false;
        }
    }

    fn send(&mut self, request: &Request) {
        let asked = Asked {
            number: request.number(),
            epoch: request.epoch(),
            from: request.from(),
            characters: request.piece().text().count() as u64,
        };
        if self.asked.push(asked).is_err() {
            self.is_whole = false;
        }
        self.note(Step::Send, asked);
    }

    // The step over the request at that place, which was sent.
    fn note_at(&mut self, step: Step, place: usize) {
        match self.asked.get(place) {
            Some(asked) => {
                let asked = *asked;
                self.note(step, asked);
            }
            None => self.is_whole = false,
        }
    }

    // The parser's side makes its steps by turns.
    fn answer(&mut self) {
        if self.given < self.picked {
            self.note_at(Step::Give, self.given);
            self.given = self.given.saturating_add(1);
        } else {
            self.note_at(Step::Pick, self.picked);
            self.picked = self.picked.saturating_add(1);
        }
    }

    fn take(&mut self) {
        self.note_at(Step::Take, self.taken);
        self.taken = self.taken.saturating_add(1);
    }
}

/// A counterpart of which is noted what passes.
#[derive(Drop)]
pub struct Noted<L: Drop> {
    pub counterpart: L,
    pub notes: Notes,
}

/// Notes what passes of this counterpart, which was just made.
pub fn note_all<E: InForce, L: Counterpart<E> + Drop>(alloc: Global, counterpart: L) -> Noted<L>
    requires load { L.load counterpart ≡ no_load }
    requires put { IfSome (L.put counterpart) (λ asks. asks ≡ []) }
    requires taken { IfSome (L.taken counterpart) (λ messages. messages ≡ []) }
    ensures load { L.load result.counterpart ≡ no_load }
    ensures put { IfSome (L.put result.counterpart) (λ asks. asks ≡ []) }
    ensures taken { IfSome (L.taken result.counterpart) (λ messages. messages ≡ []) }
{
    Noted {
        counterpart,
        notes: Notes::new(alloc),
    }
}

impl<E: InForce, L: Counterpart<E> + Drop> Counterpart<E> for Noted<L> {
    ghost load = { λ n. L.load n.counterpart };

    ghost put = { λ n. L.put n.counterpart };

    ghost taken = { λ n. L.taken n.counterpart };

    ghost ordered = { λ n. L.ordered n.counterpart };

    fn has_room(&self, ahead: usize) -> bool {
        self.counterpart.has_room(ahead)
    }

    fn ask(&mut self, request: Request) -> Result<(), NoMemory> {
        self.notes.send(&request);
        self.counterpart.ask(request)
    }

    fn answer(&mut self, table: &Table) -> Result<bool, NoMemory> {
        let some = self.counterpart.answer(table)?;
        if some {
            self.notes.answer();
        }
        Ok(some)
    }

    fn take(&mut self) -> Result<Reply<E>, NoMemory> {
        let reply = self.counterpart.take()?;
        self.notes.take();
        Ok(reply)
    }
}
