//! Walks over the stack of open elements (13.2.4.2 #the-stack-of-open-elements), from the current
//! node up.

ghost use Rattle.std.specs.Prelude.{◌≡◌, ◌≤◌, ◌<◌, length, reverse, remove, Some, IfOk};
ghost use Rattle.std.specs.Prelude.{MatchOption, option_map};
ghost use Rattle.standard.specs.Elements.{is_meant, is_one_of};
ghost use Rattle.standard.specs.Stack.{in_scope, on_stack, is_open, current_is, current_id, until};
ghost use Rattle.standard.specs.Stack.{pop_to, pop_to_root, implied, implied_thoroughly};
ghost use Rattle.standard.specs.Stack.{option_in_optgroup, close, item_found, close_item};
ghost use Rattle.standard.specs.Stack.{end_found, other_end, without_open, open_in_scope};
ghost use Rattle.standard.specs.Stack.{first_open, second_open};

use html_types::{Group, NoMemory, NodeId, OpenElement, Scope, Stack, Token, Who, Word};
use tag_sets::{ends, is_any, is_the, meant};

/// The current node.
pub fn current_node(stack: &Stack) -> Option<NodeId>
    ensures { result ≡ current_id stack.now }
{
    match stack.latest() {
        Some(last) => Some(last.id),
        None => None,
    }
}

/// Whether the current node is meant.
pub fn is_current(stack: &Stack, who: Who, token: &Token) -> bool
    ensures { result ≡ current_is (is_meant who token.now) stack.now }
{
    match stack.latest() {
        Some(last) => meant(who, token, &last.name),
        None => false,
    }
}

/// Whether one that is meant is in scope.
pub fn is_in_scope(stack: &Stack, scope: Scope, who: Who, token: &Token) -> bool
    ensures { result ≡ in_scope scope (is_meant who token.now) stack.now }
{
    for element in stack.walk() {
        if meant(who, token, &element.name) {
            return true;
        }
        if ends(scope, &element.name) {
            return false;
        }
    }
    false
}

/// Whether one that is meant is on the stack.
pub fn is_on_stack(stack: &Stack, who: Who, token: &Token) -> bool
    ensures { result ≡ on_stack (is_meant who token.now) stack.now }
{
    for element in stack.walk() {
        if meant(who, token, &element.name) {
            return true;
        }
    }
    false
}

/// Whether the current node is an option right below an optgroup.
pub fn is_option_in_optgroup(stack: &Stack) -> bool
    ensures { result ≡ option_in_optgroup stack.now }
{
    let mut walk = stack.walk();
    let Some(last) = walk.next() else {
        return false;
    };
    match walk.latest() {
        None => false,
        Some(above) => is_the(Word::Option, &last.name) && is_the(Word::Optgroup, &above.name),
    }
}

/// Whether the element of that id is on the stack.
#[inline(never)]
pub fn has_open(stack: &Stack, id: NodeId) -> bool
    ensures { result ≡ is_open id stack.now }
{
    for element in stack.walk() {
        if element.id.same(id) {
            return true;
        }
    }
    false
}

/// Whether the element of that id is in scope.
pub fn has_in_scope(stack: &Stack, scope: Scope, id: NodeId) -> bool
    ensures { result ≡ open_in_scope scope id stack.now }
{
    for element in stack.walk() {
        if element.id.same(id) {
            return true;
        }
        if ends(scope, &element.name) {
            return false;
        }
    }
    false
}

/// Pops until one that is meant is popped.
pub fn pop_until(stack: &mut Stack, who: Who, token: &Token)
    ensures left { stack.new ≡ until (is_meant who token.now) stack.old }
    ensures shorter { length stack.new ≤ length stack.old }
{
    while let Some(last) = stack.latest() {
        let found = meant(who, token, &last.name);
        stack.pop();
        if found {
            return;
        }
    }
}

/// Pops while the current node isn't in the group.
pub fn pop_back_to(stack: &mut Stack, group: Group)
    ensures left { stack.new ≡ pop_to (is_one_of group) stack.old }
    ensures shorter { length stack.new ≤ length stack.old }
{
    while let Some(last) = stack.latest() {
        if is_any(group, &last.name) {
            return;
        }
        stack.pop();
    }
}

/// Pops all but the first element.
#[tactic(auto, using(std::proofs::lemmas::Grind::common_steps, crate::proofs::Top::pop_to_root_few))]
pub fn pop_to_first(stack: &mut Stack)
    ensures left { stack.new ≡ pop_to_root stack.old }
    ensures shorter { length stack.new ≤ length stack.old }
{
    while stack.len() > 1 {
        stack.pop();
    }
}

/// Generates implied end tags (13.2.6.3 #closing-elements-that-have-implied-end-tags), but for
/// those that are meant.
pub fn pop_implied(stack: &mut Stack, but: Who, token: &Token)
    ensures left { stack.new ≡ implied (is_meant but token.now) stack.old }
    ensures shorter { length stack.new ≤ length stack.old }
{
    while let Some(last) = stack.latest() {
        if !is_any(Group::ClosedImplicitly, &last.name) || meant(but, token, &last.name) {
            return;
        }
        stack.pop();
    }
}

/// Generates all implied end tags thoroughly
/// (13.2.6.3 #closing-elements-that-have-implied-end-tags).
pub fn pop_implied_thoroughly(stack: &mut Stack)
    ensures left { stack.new ≡ implied_thoroughly stack.old }
    ensures shorter { length stack.new ≤ length stack.old }
{
    while let Some(last) = stack.latest() {
        if !is_any(Group::ClosedThoroughly, &last.name) {
            return;
        }
        stack.pop();
    }
}

/// Where one that is meant is in scope: implied end tags but for it, then popped until it is
/// popped.
pub fn close_in_scope(stack: &mut Stack, scope: Scope, who: Who, token: &Token)
    ensures left { stack.new ≡ close scope (is_meant who token.now) stack.old }
    ensures shorter { length stack.new ≤ length stack.old }
{
    if is_in_scope(stack, scope, who, token) {
        pop_implied(stack, who, token);
        pop_until(stack, who, token);
    }
}

fn finds_item(stack: &Stack, who: Who, token: &Token) -> bool
    ensures { result ≡ item_found (is_meant who token.now) stack.now }
{
    for element in stack.walk() {
        if meant(who, token, &element.name) {
            return true;
        }
        if is_any(Group::Special, &element.name) && !is_any(Group::PassedItems, &element.name) {
            return false;
        }
    }
    false
}

/// Closes a list item that is meant: it is sought up to a special element that is no address, div
/// or p.
pub fn close_found_item(stack: &mut Stack, who: Who, token: &Token)
    ensures left { stack.new ≡ close_item (is_meant who token.now) stack.old }
    ensures shorter { length stack.new ≤ length stack.old }
{
    if finds_item(stack, who, token) {
        pop_implied(stack, who, token);
        pop_until(stack, who, token);
    }
}

fn finds_end(stack: &Stack, token: &Token) -> bool
    ensures { result ≡ end_found (is_meant Who.Own token.now) stack.now }
{
    for element in stack.walk() {
        if meant(Who::Own, token, &element.name) {
            return true;
        }
        if is_any(Group::Special, &element.name) {
            return false;
        }
    }
    false
}

/// "Any other end tag" of "in body" (13.2.6.4.7 #parsing-main-inbody).
pub fn close_other_end(stack: &mut Stack, token: &Token)
    ensures left { stack.new ≡ other_end (is_meant Who.Own token.now) stack.old }
    ensures shorter { length stack.new ≤ length stack.old }
{
    if finds_end(stack, token) {
        pop_implied(stack, Who::Own, token);
        pop_until(stack, Who::Own, token);
    }
}

/// Where the element of that id stands, counted from the top.
fn place_of(stack: &Stack, id: NodeId) -> Option<usize>
    ensures { MatchOption result
        (without_open (Some id) stack.now ≡ stack.now)
        (λ i. (i < length stack.now)
        × (without_open (Some id) stack.now ≡ reverse (remove (reverse stack.now) i))) }
{
    let mut walk = stack.walk();
    while let Some(element) = walk.next() {
        if element.id.same(id) {
            return Some(walk.len());
        }
    }
    None
}

/// Takes the element of that id off the stack, wherever it stands there.
#[tactic(auto, using(std::proofs::lemmas::Grind::common_steps, crate::proofs::Fewer::one_fewer))]
pub fn take_off(stack: &mut Stack, id: NodeId) -> Result<(), NoMemory>
    ensures left { IfOk result (λ _. stack.new ≡ without_open (Some id) stack.old) }
    ensures shorter { length stack.new ≤ length stack.old }
{
    if let Some(place) = place_of(stack, id) {
        stack.take_out(place)?;
    }
    Ok(())
}

/// The first element of the stack.
#[tactic(auto, using(std::proofs::lemmas::Grind::common_steps, crate::proofs::Top::first_at, crate::proofs::Top::first_open_none))]
pub fn first_element(stack: &Stack) -> Option<&OpenElement>
    ensures { option_map (λ e. e.now) result ≡ first_open stack.now }
{
    if stack.len() > 0 {
        Some(stack.at(0))
    } else {
        None
    }
}

/// The second element of the stack.
#[tactic(auto, using(std::proofs::lemmas::Grind::common_steps, crate::proofs::Top::second_at, crate::proofs::Top::second_open_few))]
pub fn second_element(stack: &Stack) -> Option<&OpenElement>
    ensures { option_map (λ e. e.now) result ≡ second_open stack.now }
{
    if stack.len() > 1 {
        Some(stack.at(1))
    } else {
        None
    }
}
