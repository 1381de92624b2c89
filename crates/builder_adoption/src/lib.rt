//! The adoption agency algorithm (13.2.6.4.7 #parsing-main-inbody).
#![tactic(auto)]

ghost use Rattle.std.specs.Prelude.{◌≡◌, Some, IfOk};
ghost use Rattle.standard.specs.Elements.{is_word};
ghost use Rattle.standard.specs.Stack.{current_id};
ghost use Rattle.standard.specs.Adoption.{turned, turn, turn_at, turns, adopted, is_plain};
ghost use Rattle.standard.specs.Adoption.{is_other as is_other_turn, adopt};
ghost use Rattle.builder_state.specs.Adopted.{is_other};

mod climb;
mod entries;
mod rebuild;
mod stack;

use crate::entries::{has_entry, tag_of};
use crate::rebuild::rebuild;
use crate::stack::{block_below, drop_through};
pub use builder_state::Adopted;
use builder_state::{Builder, entry_of, has_in_scope, has_open, take_entry_off};
use html_types::{NoMemory, NodeId, Open, Scope, Turn, Word};
use std::alloc::Global;
use tag_sets::is_the;
use text_store::Ops;

/// How many turns are taken at most.
const TURNS: u8 = 8;

/// A turn with the formatting element.
fn take_turn_at(
    alloc: Global,
    state: &mut Open,
    element: NodeId,
    ops: &mut Ops,
) -> Result<Turn, NoMemory>
    ensures { IfOk result
        (λ t. turned state.new ops.new t ≡ turn_at (Some element) state.old ops.old) }
{
    if !has_open(&state.stack, element) {
        take_entry_off(&mut state.formats, element)?;
        return Ok(Turn::Over);
    }
    if !has_in_scope(&state.stack, Scope::Default, element) {
        return Ok(Turn::Over);
    }
    let Some(tag) = tag_of(alloc, &state.formats, element)? else {
        return Ok(Turn::Over);
    };
    match block_below(&state.stack, element) {
        None => {
            drop_through(&mut state.stack, element);
            take_entry_off(&mut state.formats, element)?;
            Ok(Turn::Over)
        }
        Some(block) => rebuild(alloc, state, element, tag, block, ops),
    }
}

/// A turn: the formatting element is that of the latest entry of the name behind the last marker.
fn take_turn(alloc: Global, state: &mut Open, name: Word, ops: &mut Ops) -> Result<Turn, NoMemory>
    ensures { IfOk result
        (λ t. turned state.new ops.new t ≡ turn (is_word name) state.old ops.old) }
{
    match entry_of(&state.formats, name) {
        None => Ok(Turn::Other),
        Some(element) => take_turn_at(alloc, state, element, ops),
    }
}

/// At most eight turns.
#[tactic(auto, using(std::proofs::lemmas::Grind::common_steps, crate::proofs::Turns::turns_over, crate::proofs::Turns::turns_other))]
fn take_turns(alloc: Global, state: &mut Open, name: Word, ops: &mut Ops) -> Result<Turn, NoMemory>
    ensures { IfOk result
        (λ t. turned state.new ops.new t
        ≡ turns 8 (is_word name) (turned state.old ops.old Turn.More)) }
{
    let mut turn = Turn::More;
    let mut left = TURNS;
    while left > 0 {
        match turn {
            Turn::More => turn = take_turn(alloc, state, name, ops)?,
            Turn::Over => return Ok(Turn::Over),
            Turn::Other => return Ok(Turn::Other),
        }
        left -= 1;
    }
    Ok(turn)
}

/// Whether the current node has the name, and no entry.
fn is_plain(state: &Open, name: Word) -> bool
    ensures { result ≡ is_plain (is_word name) (current_id state.now.stack) state.now }
{
    match state.stack.latest() {
        None => false,
        Some(last) => is_the(name, &last.name) && !has_entry(&state.formats, last.id),
    }
}

/// What the turns come to.
fn after_turns(turn: Turn) -> Adopted
    ensures { is_other result ≡ is_other_turn turn }
{
    match turn {
        Turn::More | Turn::Over => Adopted::Done,
        Turn::Other => Adopted::Other,
    }
}

/// The algorithm on an open state.
#[tactic(auto, unfolding(standard::specs::Adoption::adopt))]
fn adopt_in(alloc: Global, state: &mut Open, name: Word, ops: &mut Ops) -> Result<Adopted, NoMemory>
    ensures { IfOk result
        (λ a. adopted state.new ops.new (is_other a) ≡ adopt name state.old ops.old) }
{
    if is_plain(state, name) {
        state.stack.pop();
        return Ok(Adopted::Done);
    }
    Ok(after_turns(take_turns(alloc, state, name, ops)?))
}

/// The adoption agency algorithm for an end tag of that name: adds the operations that it asks for.
/// Where it answers NoMemory, the builder and the operations only keep their type.
pub fn adopt(
    alloc: Global,
    builder: &mut Builder,
    name: Word,
    ops: &mut Ops,
) -> Result<Adopted, NoMemory>
    ensures { IfOk result
        (λ a. adopted builder.new ops.new (is_other a) ≡ adopt name builder.old ops.old) }
{
    if builder.close_latest(name) {
        return Ok(Adopted::Done);
    }
    let mut state = builder.take(alloc);
    let adopted = adopt_in(alloc, &mut state, name, ops)?;
    builder.put(state);
    Ok(adopted)
}
