//! The end of a form (13.2.6.4.7 #parsing-main-inbody).

ghost use Rattle.std.specs.Prelude.{◌≡◌, ◌≤◌, length, IfOk};
ghost use Rattle.standard.specs.Elements.{is_meant};
ghost use Rattle.standard.specs.Instructions.{on, form_closed, form_closed_in_template, end_form};

use crate::walks::{has_in_scope, is_in_scope, is_on_stack, pop_implied, pop_until, take_off};
use html_types::{NoMemory, NodeId, Open, Scope, Stack, Token, Who, Word};
use text_store::Ops;

/// Closes the form element that the pointer named, where it is in scope.
fn close_form(stack: &mut Stack, form: Option<NodeId>, token: &Token) -> Result<(), NoMemory>
    ensures left { IfOk result
        (λ _. stack.new ≡ form_closed (is_meant Who.Nobody token.now) form stack.old) }
    ensures shorter { length stack.new ≤ length stack.old }
{
    if let Some(id) = form {
        if has_in_scope(stack, Scope::Default, id) {
            pop_implied(stack, Who::Nobody, token);
            take_off(stack, id)?;
        }
    }
    Ok(())
}

/// Closes a form element within a template, where one is in scope.
fn close_form_in_template(stack: &mut Stack, token: &Token)
    ensures left { stack.new ≡ form_closed_in_template (is_meant Who.Nobody token.now) stack.old }
    ensures shorter { length stack.new ≤ length stack.old }
{
    if is_in_scope(stack, Scope::Default, Who::The(Word::Form), token) {
        pop_implied(stack, Who::Nobody, token);
        pop_until(stack, Who::The(Word::Form), token);
    }
}

/// The end tag `form` (13.2.6.4.7 #parsing-main-inbody).
pub fn end_form_element(state: &mut Open, token: &Token, ops: &Ops) -> Result<(), NoMemory>
    ensures done { IfOk result
        (λ _. on state.new ops.now ≡ end_form (is_meant Who.Nobody token.now) state.old ops.now) }
    ensures shorter { length state.new.stack ≤ length state.old.stack }
{
    if is_on_stack(&state.stack, Who::The(Word::Template), token) {
        close_form_in_template(&mut state.stack, token);
    } else {
        close_form(&mut state.stack, state.form, token)?;
        state.form = None;
    }
    Ok(())
}
