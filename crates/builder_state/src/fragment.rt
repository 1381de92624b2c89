//! How tree construction begins for a fragment (13.4 #parsing-html-fragments).

ghost use Rattle.std.specs.Prelude.{◌≡◌, ◌↔◌, ◌∷◌, [], IsTrue, IfOk, if◌then◌else◌, Some, None};
ghost use Rattle.standard.specs.Fragment.{form_id, root_element, modes_in, fragment_opening};

use crate::reset::mode_to_reset_to;
use html_types::{
    ActiveFormatting, Context, Mode, Modes, Name, NoMemory, NodeId, Open, OpenElement, Stack, Text,
    Word,
};
use std::alloc::Global;
use tag_sets::is_the;

/// The stack with the html element that is open at first, the first of its realm.
fn root_alone(alloc: Global, realm: u32) -> Result<Stack, NoMemory>
    ensures { IfOk result (λ stack. stack ≡ root_element realm ∷ []) }
{
    let mut stack = Stack::new(alloc);
    stack.push(OpenElement {
        id: NodeId { realm, n: 0 },
        name: Name::Known(Word::Html),
        html_point: false,
    })?;
    Ok(stack)
}

/// The template insertion modes, where the context has that name.
fn modes_in(alloc: Global, name: &Name) -> Result<Modes, NoMemory>
    ensures { IfOk result (λ modes. modes ≡ modes_in name.now) }
{
    let mut modes = Modes::new(alloc);
    if is_the(Word::Template, name) {
        modes.push(Mode::InTemplate)?;
    }
    Ok(modes)
}

/// The form element pointer: where the context is in a form, the second of the realm.
fn form_in(form: bool, realm: u32) -> Option<NodeId>
    ensures { result ≡ (if form then Some (form_id realm) else None) }
{
    if form {
        Some(NodeId { realm, n: 1 })
    } else {
        None
    }
}

/// The first id that the parser gives itself.
fn next_in(form: bool, realm: u32) -> NodeId
    ensures { result ≡ record { realm = realm; n = if form then 2 else 1 } }
{
    NodeId {
        realm,
        n: if form { 2 } else { 1 },
    }
}

/// The open state at the beginning of a fragment, whose ids are of that realm.
pub fn fragment_state(alloc: Global, context: Context, realm: u32) -> Result<Open, NoMemory>
    ensures { IfOk result (λ state. state ≡ fragment_opening context realm) }
{
    let stack = root_alone(alloc, realm)?;
    let template_modes = modes_in(alloc, &context.name)?;
    let Context {
        name,
        html_point,
        form,
        quirks,
    } = context;
    let standing = Some(OpenElement {
        id: NodeId { realm, n: 0 },
        name,
        html_point,
    });
    let mode = mode_to_reset_to(&standing, &stack, None, &template_modes);
    Ok(Open {
        stack,
        formats: ActiveFormatting::new(alloc),
        head: None,
        form: form_in(form, realm),
        mode,
        original: None,
        template_modes,
        pending_text: Text::new(alloc),
        frameset_ok: true,
        quirks,
        skip_line_feed: false,
        foster: false,
        next: next_in(form, realm),
        context: standing,
    })
}

/// A copy of the context, where there is one.
pub fn copy_context(context: &Option<OpenElement>) -> Result<Option<OpenElement>, NoMemory>
    ensures { IfOk result (λ copy. copy ≡ context.now) }
{
    match context {
        None => Ok(None),
        Some(element) => Ok(Some(OpenElement {
            id: element.id,
            name: element.name.copy()?,
            html_point: element.html_point,
        })),
    }
}

/// Whether two open elements are the same.
fn same_element(a: &OpenElement, b: &OpenElement) -> bool
    ensures { IsTrue result ↔ (a.now ≡ b.now) }
{
    a.id == b.id && a.html_point == b.html_point && a.name.same(&b.name)
}

/// Whether two contexts are the same.
pub fn same_context(a: &Option<OpenElement>, b: &Option<OpenElement>) -> bool
    ensures { IsTrue result ↔ (a.now ≡ b.now) }
{
    match (a, b) {
        (None, None) => true,
        (Some(a), Some(b)) => same_element(a, b),
        _ => false,
    }
}
