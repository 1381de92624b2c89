//! Insertions (13.2.6.1 #creating-and-inserting-nodes), and reconstructing the active formatting
//! elements (13.2.4.3 #the-list-of-active-formatting-elements).

ghost use Rattle.std.specs.Prelude.{◌≡◌, ◌<◌, ◌≤◌, ◌++◌, ◌∷◌, [], length, IfOk};
ghost use Rattle.html_types.specs.Operations.{later};
ghost use Rattle.html_types.specs.declared.word.Word.TheVariants as word;
ghost use Rattle.html_types.specs.declared.operation.Op.TheVariants as op;
ghost use Rattle.standard.specs.Foreign.{adjusted as adjusted_of};
ghost use Rattle.standard.specs.Stack.{first_open, second_open};
ghost use Rattle.standard.specs.Instructions.{on, config, made, pushed, insert_at, insert};
ghost use Rattle.standard.specs.Instructions.{insert_root, void, void_as, tag_of, named, for_tag};
ghost use Rattle.standard.specs.Instructions.{here, reopen, reconstruct, insert_foreign, insert_in};
ghost use Rattle.standard.specs.Instructions.{space_or_html, insert_text, insert_replacement};
ghost use Rattle.standard.specs.Instructions.{insert_comment, append_doctype, add_attributes};
ghost use Rattle.standard.specs.Instructions.{detach_second, push_head};

use crate::foreign::{adjusted, foreign_tag, opened, tag_in};
use crate::formatting::take_lost;
use crate::places::appropriate;
use crate::walks::{first_element, second_element};
use html_types::{
    Attributes, Flow, FormattingEntry, Name, Next, NoMemory, NodeId, Op, Open, OpenElement, Place,
    Space, Tag, Token, Word,
};
use std::alloc::Global;
use text_store::Ops;

/// How many elements may be open.
pub const LIMIT: usize = 512;

/// The appropriate place for inserting a node.
#[inline]
pub fn place_now(state: &Open) -> Place
    ensures { result ≡ here state.now }
{
    appropriate(state.foster, &state.stack)
}

/// Takes the next id. It answers NoMemory where none is left.
pub fn take_id(next: &mut NodeId) -> Result<NodeId, NoMemory>
    ensures id { IfOk result (λ id. id ≡ next.old) }
    ensures next { IfOk result (λ _. next.new ≡ later 1 next.old) }
{
    let id = *next;
    if id.n == u32::MAX {
        return Err(NoMemory);
    }
    *next = id.later(1);
    Ok(id)
}

/// Asks for an element at a place, and takes the next id for it.
#[inline]
fn make(state: &mut Open, place: Place, tag: &Tag, ops: &mut Ops) -> Result<NodeId, NoMemory>
    ensures id { IfOk result (λ id. id ≡ state.old.next) }
    ensures state { IfOk result
        (λ _. state.new ≡ record state.old { next = later 1 state.old.next }) }
    ensures ops { IfOk result (λ _. ops.new ≡ made place tag.now state.old ops.old) }
    ensures stack { state.new.stack ≡ state.old.stack }
{
    let id = take_id(&mut state.next)?;
    ops.push_make(id, &tag.name, &tag.attributes)?;
    ops.push_put(id, place)?;
    Ok(id)
}

/// Inserts an element for a tag at a place, and pushes it.
#[inline(never)]
fn insert_element(
    state: &mut Open,
    place: Place,
    tag: &Tag,
    ops: &mut Ops,
) -> Result<Flow, NoMemory>
    requires { length state.old.stack ≤ 512 }
    ensures done { IfOk result
        (λ flow. config state.new ops.new flow ≡ insert_at place tag.now state.old ops.old) }
    ensures bounded { length state.new.stack ≤ 512 }
{
    if state.stack.len() >= LIMIT {
        return Ok(Flow::Leave(Next::Deep));
    }
    push_made(state, place, tag, ops)?;
    Ok(Flow::On)
}

/// Makes an element for a tag at a place, and pushes it.
#[inline(always)]
pub fn push_made(state: &mut Open, place: Place, tag: &Tag, ops: &mut Ops) -> Result<(), NoMemory>
    requires { length state.old.stack < 512 }
    ensures state { IfOk result (λ _. state.new ≡ pushed tag.now state.old) }
    ensures ops { IfOk result (λ _. ops.new ≡ made place tag.now state.old ops.old) }
    ensures bounded { length state.new.stack ≤ 512 }
{
    let id = make(state, place, tag, ops)?;
    state.stack.push(opened(id, tag)?)?;
    Ok(())
}

/// Inserts an element for the token's tag at the appropriate place.
pub fn insert_for(state: &mut Open, token: &Token, ops: &mut Ops) -> Result<Flow, NoMemory>
    requires { length state.old.stack ≤ 512 }
    ensures done { IfOk result
        (λ flow. config state.new ops.new flow ≡ for_tag insert token.now state.old ops.old) }
    ensures bounded { length state.new.stack ≤ 512 }
{
    match token {
        Token::StartTag(tag) | Token::EndTag(tag) => {
            let place = place_now(state);
            insert_element(state, place, tag, ops)
        }
        _ => Ok(Flow::On),
    }
}

/// Inserts an element for the token's tag into the Document.
pub fn insert_root_for(state: &mut Open, token: &Token, ops: &mut Ops) -> Result<Flow, NoMemory>
    requires { length state.old.stack ≤ 512 }
    ensures done { IfOk result
        (λ flow. config state.new ops.new flow ≡ for_tag insert_root token.now state.old ops.old) }
    ensures bounded { length state.new.stack ≤ 512 }
{
    match token {
        Token::StartTag(tag) | Token::EndTag(tag) => {
            insert_element(state, Place::Page, tag, ops)
        }
        _ => Ok(Flow::On),
    }
}

/// A start tag of that name without attributes.
fn bare_tag(alloc: Global, word: Word) -> Tag
    ensures { result ≡ tag_of word }
{
    Tag {
        name: Name::Known(word),
        attributes: Attributes::new(alloc),
        self_closing: false,
    }
}

/// Inserts an element for a start tag of that name at the appropriate place.
pub fn insert_bare(
    alloc: Global,
    state: &mut Open,
    word: Word,
    ops: &mut Ops,
) -> Result<Flow, NoMemory>
    requires { length state.old.stack ≤ 512 }
    ensures done { IfOk result
        (λ flow. config state.new ops.new flow ≡ insert (tag_of word) state.old ops.old) }
    ensures bounded { length state.new.stack ≤ 512 }
{
    let place = place_now(state);
    insert_element(state, place, &bare_tag(alloc, word), ops)
}

/// Inserts an html element into the Document.
pub fn insert_bare_root(alloc: Global, state: &mut Open, ops: &mut Ops) -> Result<Flow, NoMemory>
    requires { length state.old.stack ≤ 512 }
    ensures done { IfOk result
        (λ flow. config state.new ops.new flow ≡ insert_root (tag_of word.Html) state.old ops.old) }
    ensures bounded { length state.new.stack ≤ 512 }
{
    insert_element(state, Place::Page, &bare_tag(alloc, Word::Html), ops)
}

/// Inserts an element for a tag at the appropriate place, and doesn't leave it on the stack.
fn insert_closed(state: &mut Open, tag: &Tag, ops: &mut Ops) -> Result<Flow, NoMemory>
    ensures done { IfOk result
        (λ flow. config state.new ops.new flow ≡ void tag.now state.old ops.old) }
    ensures stack { state.new.stack ≡ state.old.stack }
{
    if state.stack.len() >= LIMIT {
        return Ok(Flow::Leave(Next::Deep));
    }
    let place = place_now(state);
    let _ = make(state, place, tag, ops)?;
    Ok(Flow::On)
}

/// Inserts an element for the token's tag, and doesn't leave it on the stack.
pub fn insert_void(state: &mut Open, token: &Token, ops: &mut Ops) -> Result<Flow, NoMemory>
    ensures done { IfOk result
        (λ flow. config state.new ops.new flow ≡ for_tag void token.now state.old ops.old) }
    ensures stack { state.new.stack ≡ state.old.stack }
{
    match token {
        Token::StartTag(tag) | Token::EndTag(tag) => insert_closed(state, tag, ops),
        _ => Ok(Flow::On),
    }
}

/// The same for a start tag of that name without attributes.
pub fn insert_bare_void(
    alloc: Global,
    state: &mut Open,
    word: Word,
    ops: &mut Ops,
) -> Result<Flow, NoMemory>
    ensures done { IfOk result
        (λ flow. config state.new ops.new flow ≡ void (tag_of word) state.old ops.old) }
    ensures stack { state.new.stack ≡ state.old.stack }
{
    insert_closed(state, &bare_tag(alloc, word), ops)
}

/// The tag under another name.
fn renamed(alloc: Global, tag: &Tag, word: Word) -> Result<Tag, NoMemory>
    ensures { IfOk result (λ t. t ≡ named word tag.now) }
{
    let attributes = tag.attributes.copy(alloc)?;
    Ok(Tag {
        name: Name::Known(word),
        attributes,
        self_closing: tag.self_closing,
    })
}

/// The same for a start tag of that name with the token's attributes.
pub fn insert_void_as(
    alloc: Global,
    state: &mut Open,
    word: Word,
    token: &Token,
    ops: &mut Ops,
) -> Result<Flow, NoMemory>
    ensures done { IfOk result
        (λ flow. config state.new ops.new flow
        ≡ for_tag (void_as word) token.now state.old ops.old) }
    ensures stack { state.new.stack ≡ state.old.stack }
{
    match token {
        Token::StartTag(tag) | Token::EndTag(tag) => {
            let tag = renamed(alloc, tag, word)?;
            insert_closed(state, &tag, ops)
        }
        _ => Ok(Flow::On),
    }
}

/// Inserts a foreign element (13.2.6.1 #creating-and-inserting-nodes) for the token's tag in a
/// namespace, and pushes it.
pub fn insert_in(
    alloc: Global,
    state: &mut Open,
    space: Space,
    token: &Token,
    ops: &mut Ops,
) -> Result<Flow, NoMemory>
    requires { length state.old.stack ≤ 512 }
    ensures done { IfOk result
        (λ flow. config state.new ops.new flow
        ≡ for_tag (insert_in space) token.now state.old ops.old) }
    ensures bounded { length state.new.stack ≤ 512 }
{
    match token {
        Token::StartTag(tag) | Token::EndTag(tag) => {
            let tag = tag_in(alloc, space, tag)?;
            let place = place_now(state);
            insert_element(state, place, &tag, ops)
        }
        _ => Ok(Flow::On),
    }
}

/// The namespace of the adjusted current node.
fn adjusted_space(state: &Open) -> Space
    ensures { result ≡ space_or_html (adjusted_of state.now) }
{
    match adjusted(state) {
        None => Space::Html,
        Some(element) => element.name.space(),
    }
}

/// Inserts a foreign element for the token's tag in the namespace of the adjusted current node, and
/// pushes it.
pub fn insert_foreign(
    alloc: Global,
    state: &mut Open,
    token: &Token,
    ops: &mut Ops,
) -> Result<Flow, NoMemory>
    requires { length state.old.stack ≤ 512 }
    ensures done { IfOk result
        (λ flow. config state.new ops.new flow
        ≡ for_tag insert_foreign token.now state.old ops.old) }
    ensures bounded { length state.new.stack ≤ 512 }
{
    match token {
        Token::StartTag(tag) | Token::EndTag(tag) => {
            let tag = foreign_tag(alloc, adjusted_space(state), tag)?;
            let place = place_now(state);
            insert_element(state, place, &tag, ops)
        }
        _ => Ok(Flow::On),
    }
}

/// Opens an entry of the list again that was lost from the stack.
fn reopen_entry(state: &mut Open, tag: Tag, ops: &mut Ops) -> Result<Flow, NoMemory>
    requires { length state.old.stack ≤ 512 }
    ensures done { IfOk result
        (λ flow. config state.new ops.new flow ≡ reopen tag state.old ops.old) }
    ensures bounded { length state.new.stack ≤ 512 }
{
    if state.stack.len() >= LIMIT {
        return Ok(Flow::Leave(Next::Deep));
    }
    let place = place_now(state);
    let id = make(state, place, &tag, ops)?;
    state.stack.push(opened(id, &tag)?)?;
    state.formats.push(FormattingEntry::Element { id, tag })?;
    Ok(Flow::On)
}

/// Reconstructs the active formatting elements (13.2.4.3 #the-list-of-active-formatting-elements).
#[tactic(auto, using(std::proofs::lemmas::Grind::common_steps, crate::proofs::Runs::reopen_all_ended))]
pub fn reopen_lost(alloc: Global, state: &mut Open, ops: &mut Ops) -> Result<Flow, NoMemory>
    requires { length state.old.stack ≤ 512 }
    ensures done { IfOk result
        (λ flow. config state.new ops.new flow ≡ reconstruct state.old ops.old) }
    ensures bounded { length state.new.stack ≤ 512 }
{
    let mut tags = take_lost(alloc, &mut state.formats, &state.stack)?;
    while let Some(tag) = tags.pop() {
        match reopen_entry(state, tag, ops)? {
            Flow::On => {}
            left => return Ok(left),
        }
    }
    Ok(Flow::On)
}

/// Inserts the token's character at the appropriate place.
pub fn insert_character(
    alloc: Global,
    state: &Open,
    token: &Token,
    ops: &mut Ops,
) -> Result<(), NoMemory>
    ensures { IfOk result (λ _. on state.now ops.new ≡ insert_text token.now state.now ops.old) }
{
    match token {
        Token::Character(c) => {
            ops.push_character(alloc, place_now(state), *c)?;
        }
        _ => {}
    }
    Ok(())
}

/// Inserts U+FFFD at the appropriate place.
pub fn insert_replacement(alloc: Global, state: &Open, ops: &mut Ops) -> Result<(), NoMemory>
    ensures { IfOk result (λ _. on state.now ops.new ≡ insert_replacement state.now ops.old) }
{
    ops.push_character(alloc, place_now(state), '\u{fffd}')?;
    Ok(())
}

/// Inserts the token's comment at a place.
pub fn insert_note(
    alloc: Global,
    state: &Open,
    place: Place,
    token: &Token,
    ops: &mut Ops,
) -> Result<(), NoMemory>
    ensures { IfOk result
        (λ _. on state.now ops.new ≡ insert_comment place token.now state.now ops.old) }
{
    match token {
        Token::Comment(text) => {
            let text = text.copy(alloc)?;
            ops.push(Op::Comment { place, text })?;
        }
        _ => {}
    }
    Ok(())
}

/// Appends the token's doctype to the Document.
pub fn insert_doctype(
    alloc: Global,
    state: &Open,
    token: &Token,
    ops: &mut Ops,
) -> Result<(), NoMemory>
    ensures { IfOk result (λ _. on state.now ops.new ≡ append_doctype token.now state.now ops.old) }
{
    match token {
        Token::Doctype {
            name,
            force_quirks: _,
        } => {
            let name = name.copy(alloc)?;
            ops.push(Op::Doctype { name })?;
        }
        _ => {}
    }
    Ok(())
}

/// Adds the attributes of the token's tag to the first element of the stack, where it lacks them.
pub fn add_to_first(
    alloc: Global,
    state: &Open,
    token: &Token,
    ops: &mut Ops,
) -> Result<(), NoMemory>
    ensures { IfOk result
        (λ _. on state.now ops.new
        ≡ for_tag (add_attributes (first_open state.now.stack)) token.now state.now ops.old) }
{
    match token {
        Token::StartTag(tag) | Token::EndTag(tag) => match first_element(&state.stack) {
            Some(first) => add_to(alloc, first.id, tag, ops),
            None => Ok(()),
        },
        _ => Ok(()),
    }
}

/// Adds them to the second element of the stack.
pub fn add_to_second(
    alloc: Global,
    state: &Open,
    token: &Token,
    ops: &mut Ops,
) -> Result<(), NoMemory>
    ensures { IfOk result
        (λ _. on state.now ops.new
        ≡ for_tag (add_attributes (second_open state.now.stack)) token.now state.now ops.old) }
{
    match token {
        Token::StartTag(tag) | Token::EndTag(tag) => match second_element(&state.stack) {
            Some(second) => add_to(alloc, second.id, tag, ops),
            None => Ok(()),
        },
        _ => Ok(()),
    }
}

fn add_to(alloc: Global, node: NodeId, tag: &Tag, ops: &mut Ops) -> Result<(), NoMemory>
    ensures { IfOk result
        (λ _. ops.new ≡ ops.old ++ op.AddAttributes node tag.now.attributes ∷ []) }
{
    let attributes = tag.attributes.copy(alloc)?;
    ops.push(Op::AddAttributes { node, attributes })
}

/// Takes the second element of the stack out of its parent. It stays on the stack.
pub fn take_second_out(state: &Open, ops: &mut Ops) -> Result<(), NoMemory>
    ensures { IfOk result
        (λ _. on state.now ops.new
        ≡ detach_second (second_open state.now.stack) state.now ops.old) }
{
    match second_element(&state.stack) {
        Some(second) => ops.push(Op::Detach { node: second.id }),
        None => Ok(()),
    }
}

/// Pushes the node that the head element pointer names.
pub fn push_pointed_head(state: &mut Open, ops: &Ops) -> Result<Flow, NoMemory>
    requires { length state.old.stack ≤ 512 }
    ensures done { IfOk result
        (λ flow. config state.new ops.now flow ≡ push_head state.old.head state.old ops.now) }
    ensures bounded { length state.new.stack ≤ 512 }
{
    let Some(id) = state.head else {
        return Ok(Flow::On);
    };
    if state.stack.len() >= LIMIT {
        return Ok(Flow::Leave(Next::Deep));
    }
    let name = Name::Known(Word::Head);
    state.stack.push(OpenElement {
        id,
        name,
        html_point: false,
    })?;
    Ok(Flow::On)
}
