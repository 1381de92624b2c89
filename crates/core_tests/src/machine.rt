//! A parser's state is copied and held, with ample memory. The crates above call `Machine::run` and
//! `finish` and `Worker::answer`.

use html_types::{NoMemory, NodeId};
use parse_machine::Machine;
use speculation::{Checkpoint, Verdict, decide};
use std::alloc::Global;
use std::test::Fail;

// The calls, each alone: what they promise would be worked out behind them.
fn new_machine(alloc: Global, realm: u32) -> Machine {
    Machine::new(alloc, realm)
}

fn copy(alloc: Global, machine: &Machine) -> Result<Machine, NoMemory> {
    machine.copy(alloc)
}

fn renew(machine: &mut Machine, realm: u32) {
    machine.renew(realm);
}

fn same(machine: &Machine, other: &Machine) -> bool {
    machine.same(other)
}

fn held(alloc: Global, machine: &Machine) -> Result<Checkpoint, NoMemory> {
    Checkpoint::of(alloc, machine)
}

fn is_of(checkpoint: &Checkpoint, machine: &Machine) -> bool {
    checkpoint.is(machine)
}

fn let_go(checkpoint: Checkpoint) -> Option<Machine> {
    checkpoint.into_machine()
}

fn is_kept(made: &Machine, held: &Machine) -> bool {
    decide(made, held) == Verdict::Keep
}

#[test]
fn a_copy_is_the_same(rt: HostRuntime) -> Result<(), Fail> {
    let alloc = rt.alloc();
    let mut machine = new_machine(alloc, 3);
    let copied = copy(alloc, &machine)?;
    renew(&mut machine, 7);
    assert!(rt; same(&machine, &copied));
    assert!(rt; machine.next_id() == NodeId { realm: 7, n: 0 });
    Ok(())
}

#[test]
fn a_state_is_held_and_kept(rt: HostRuntime) -> Result<(), Fail> {
    let alloc = rt.alloc();
    let mut machine = new_machine(alloc, 3);
    let checkpoint = held(alloc, &machine)?;
    assert!(rt; is_of(&checkpoint, &machine));
    renew(&mut machine, 4);
    assert!(rt; !is_of(&checkpoint, &machine));
    let Some(again) = let_go(checkpoint) else {
        return Ok(());
    };
    assert!(rt; again.next_id() == NodeId { realm: 3, n: 0 });
    assert!(rt; is_kept(&again, &machine));
    Ok(())
}
