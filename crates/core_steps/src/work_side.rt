//! The parser's side.

ghost use Rattle.std.specs.Prelude.{◌≡◌, None, not, is_some, IfOk, OnOk, IsTrue};
ghost use Rattle.core_definitions.specs.Core.{first_work};
ghost use Rattle.core_steps.specs.Working.{IsGiven, IsBehind};

use entity_table::Table;
use html_types::NoMemory;
use speculation::{InForce, Reply, Request, Worker};
use std::alloc::Global;
use std::marker::Model;

/// The parser's side of the core: it picks a request, and gives the reply to it. A contract sees
/// the definitions' parser's side.
#[derive(Drop)]
pub struct WorkSide {
    alloc: Global,
    worker: Worker,
    hand: Option<Request>,
}

impl Model for WorkSide {
    ghost use Rattle.core_definitions.specs.Core as rules;
    ghost use Rattle.core_steps.specs.Working.{request_in};

    ghost Value = { rules.WorkSide };

    ghost view = { λ w. record { hand = request_in w.hand; parser = w.worker } };
}

impl WorkSide {
    /// Before any request. It takes no memory.
    pub fn new(alloc: Global) -> WorkSide
        ensures { result ≡ first_work }
    {
        WorkSide {
            alloc,
            worker: Worker::new(),
            hand: None,
        }
    }

    /// Whether its hand is empty.
    pub fn can_pick(&self) -> bool
        ensures { result ≡ not (is_some self.now.hand) }
    {
        self.hand.is_none()
    }

    /// Takes a request into its hand.
    pub fn pick(&mut self, request: Request)
        requires { self.old.hand ≡ None }
        ensures { self.new ≡ record self.old { hand = Some request.request } }
    {
        self.hand = Some(request);
    }

    /// Gives the reply to the request in its hand, with the named character references of `table`,
    /// which are those in force. Where it answers want of memory, it only keeps its type.
    pub fn give<E: InForce>(&mut self, table: &Table) -> Result<Reply<E>, NoMemory>
        requires table { table.now ≡ E.entities }
        requires full { IsTrue (is_some self.old.hand) }
        ensures reply { IfOk result (λ r. IsGiven E.entities self.old.parser self.old.hand r.said) }
        ensures behind { OnOk result (IsBehind E.entities self.old.hand self.old self.new) }
    {
        match self.hand.take() {
            None => Err(NoMemory),
            Some(request) => self.worker.answer(self.alloc, table, request),
        }
    }
}
