//! A state of the parser that is perhaps held.

ghost use Rattle.std.specs.Prelude.{◌≡◌, IfOk, IfSome, IsTrue};

use crate::boxed::BoxedMachine;
use html_types::NoMemory;
use parse_machine::Machine;
use std::alloc::Global;
use std::marker::Model;
use std::snapshot::Snapshot;

/// A state of the parser. It holds a machine only where copying one was cheap: a contract sees the
/// state in any case.
#[derive(Drop)]
pub struct Checkpoint {
    held: Option<BoxedMachine>,
    state: Snapshot<Machine>,
}

impl Model for Checkpoint {
    ghost use Rattle.std.specs.Prelude.{◌≡◌, IfSome};
    ghost use Rattle.standard.specs.Parser.{Parser};

    ghost Value = { Parser };

    ghost view = { λ c. c.state.value };

    ghost invariant = { λ c. IfSome c.held (λ m. m ≡ c.state.value) };
}

impl Checkpoint {
    /// The state of a machine. A copy is held where that is cheap.
    pub fn of(alloc: Global, machine: &Machine) -> Result<Checkpoint, NoMemory>
        ensures { IfOk result (λ c. c ≡ machine.now) }
    {
        let state = Snapshot::of(machine);
        if !machine.is_light() {
            return Ok(Checkpoint { held: None, state });
        }
        let copy = BoxedMachine::new(alloc, machine.copy(alloc)?)?;
        Ok(Checkpoint {
            held: Some(copy),
            state,
        })
    }

    /// The machine, where one is held.
    pub fn into_machine(self) -> Option<Machine>
        ensures { IfSome result (λ m. m ≡ self) }
    {
        let Checkpoint {
            held,
            state: _state,
        } = self;
        match held {
            Some(machine) => Some(machine.into_machine()),
            None => None,
        }
    }

    /// Whether a machine is held that is in the same state, the next id included. False tells
    /// nothing.
    pub fn is(&self, machine: &Machine) -> bool
        ensures { IsTrue result → self.now ≡ machine.now }
    {
        match &self.held {
            None => false,
            Some(held) => {
                let held = held.get();
                held.next_id() == machine.next_id() && held.same(machine)
            }
        }
    }
}
