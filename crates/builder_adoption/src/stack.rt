//! The stack of open elements, taken apart and put together again.

ghost use Rattle.std.specs.Prelude.{◌≡◌, ◌++◌, None, IfOk};
ghost use Rattle.standard.specs.Stack.{below, from_on, through, above, with_below, block_below};
ghost use Rattle.standard.specs.Stack.{place_for};

use builder_state::place_for_last;
use html_types::{Group, NoMemory, NodeId, OpenElement, Place, Stack};
use std::alloc::Global;
use tag_sets::is_any;

/// Takes the elements below one off, the current node first.
pub fn take_below(
    alloc: Global,
    stack: &mut Stack,
    id: NodeId,
) -> Result<Vec<OpenElement>, NoMemory>
    ensures taken { IfOk result (λ taken. taken.items ≡ below id stack.old) }
    ensures left { IfOk result (λ _. stack.new ≡ from_on id stack.old) }
{
    let mut taken = Vec::new(alloc);
    while let Some(last) = stack.take()? {
        if last.id.same(id) {
            stack.push(last)?;
            return Ok(taken);
        }
        taken.push(last)?;
    }
    Ok(taken)
}

/// Takes the elements down to one off, and that one too.
pub fn take_through(
    alloc: Global,
    stack: &mut Stack,
    id: NodeId,
) -> Result<Vec<OpenElement>, NoMemory>
    ensures taken { IfOk result (λ taken. taken.items ≡ through id stack.old) }
    ensures left { IfOk result (λ _. stack.new ≡ above id stack.old) }
{
    let mut taken = Vec::new(alloc);
    while let Some(last) = stack.take()? {
        let found = last.id.same(id);
        taken.push(last)?;
        if found {
            return Ok(taken);
        }
    }
    Ok(taken)
}

/// Puts elements on that were taken off.
pub fn put_back(stack: &mut Stack, mut taken: Vec<OpenElement>) -> Result<(), NoMemory>
    ensures { IfOk result (λ _. stack.new ≡ taken.items ++ stack.old) }
{
    while let Some(element) = taken.pop() {
        stack.push(element)?;
    }
    Ok(())
}

/// Pops until that element is popped.
pub fn drop_through(stack: &mut Stack, id: NodeId)
    ensures { stack.new ≡ above id stack.old }
{
    while let Some(last) = stack.latest() {
        let found = last.id.same(id);
        stack.pop();
        if found {
            return;
        }
    }
}

/// Puts an element just below another.
pub fn insert_below(
    alloc: Global,
    stack: &mut Stack,
    id: NodeId,
    element: OpenElement,
) -> Result<(), NoMemory>
    ensures { IfOk result (λ _. stack.new ≡ with_below id element stack.old) }
{
    let taken = take_below(alloc, stack, id)?;
    stack.push(element)?;
    put_back(stack, taken)
}

/// Of the special elements below one, the one that is closest to it.
pub fn block_below(stack: &Stack, id: NodeId) -> Option<NodeId>
    ensures { result ≡ block_below id None stack.now }
{
    let mut found = None;
    for element in stack.walk() {
        if element.id.same(id) {
            return found;
        }
        if is_any(Group::Special, &element.name) {
            found = Some(element.id);
        }
    }
    found
}

/// The appropriate place where the target is the element right above one.
pub fn place_above(stack: &Stack, foster: bool, id: NodeId) -> Place
    ensures { result ≡ place_for foster (above id stack.now) stack.now }
{
    let mut walk = stack.walk();
    while let Some(element) = walk.next() {
        if element.id.same(id) {
            return place_for_last(foster, walk, stack);
        }
    }
    Place::Page
}
