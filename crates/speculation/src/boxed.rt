//! A machine that is moved as one word.

ghost use Rattle.std.specs.Prelude.{◌≡◌, IfOk};

use html_types::NoMemory;
use parse_machine::Machine;
use std::alloc::Global;
use std::marker::Model;

/// A machine in a place of its own, so that only its address is moved: a contract sees the
/// machine's state.
#[derive(Drop)]
pub struct BoxedMachine {
    pub(crate) machine: Box<Machine>,
}

impl Model for BoxedMachine {
    ghost use Rattle.standard.specs.Parser.{Parser};

    ghost Value = { Parser };

    ghost view = { λ b. b.machine.value };
}

impl BoxedMachine {
    /// That machine.
    pub fn new(alloc: Global, machine: Machine) -> Result<BoxedMachine, NoMemory>
        ensures { IfOk result (λ b. b ≡ machine) }
    {
        Ok(BoxedMachine {
            machine: Box::new(alloc, machine)?,
        })
    }

    /// The machine, to read.
    pub(crate) fn get(&self) -> &Machine
        ensures { result.now ≡ self.now }
    {
        &self.machine
    }

    /// The machine.
    pub fn into_machine(self) -> Machine
        ensures { result ≡ self }
    {
        let BoxedMachine { machine } = self;
        Box::into_inner(machine)
    }
}
