//! The pending table character tokens (13.2.6.4.10 #parsing-main-intabletext).

ghost use Rattle.std.specs.Prelude.{◌≡◌, ◌≤◌, ◌++◌, ◌∷◌, [], ◌&&◌, ◌||◌, length, IfOk};
ghost use Rattle.std.specs.Str.{chars};
ghost use Rattle.standard.specs.Instructions.{config, on, append_pending, all_space, texts, here};
ghost use Rattle.standard.specs.Instructions.{body_character, body_characters, insert_pending};
ghost use Rattle.standard.specs.WhiteSpace.{is_space as is_white_space};
ghost use Rattle.builder_state.specs.Texts.{keeps_ok as mode_keeps_ok, text_rules as rules_of_text};
ghost use Rattle.builder_state.specs.Texts.{behind_text};

use crate::foreign::text_rules;
use crate::insert::{place_now, reopen_lost};
use char_class::is_space;
use html_types::{Flow, Mode, NoMemory, Open, Place, Text, Token};
use std::alloc::Global;
use std::mem;
use text_store::Ops;

/// Adds the token's character to the pending ones.
pub fn keep_character(state: &mut Open, token: &Token, ops: &Ops) -> Result<(), NoMemory>
    ensures done { IfOk result
        (λ _. on state.new ops.now ≡ append_pending token.now state.old ops.now) }
    ensures stack { state.new.stack ≡ state.old.stack }
{
    match token {
        Token::Character(c) => state.pending_text.push(*c),
        _ => Ok(()),
    }
}

// A function of its own, since `all` can be handed none of another crate.
fn is_white(c: char) -> bool
    ensures { result ≡ is_white_space c }
{
    is_space(c)
}

/// Whether all characters are white space.
fn is_all_space(text: &str) -> bool
    ensures { result ≡ all_space (chars text.now) }
{
    text.chars().all(is_white)
}

/// Inserts characters at a place.
fn insert_characters(alloc: Global, place: Place, text: &str, ops: &mut Ops) -> Result<(), NoMemory>
    ensures { IfOk result (λ _. ops.new ≡ ops.old ++ texts place (chars text.now)) }
{
    for c in text.chars() {
        ops.push_character(alloc, place, c)?;
    }
    Ok(())
}

/// Inserts a character by the rules of "in body" (13.2.6.4.7 #parsing-main-inbody).
pub fn insert_body_character(
    alloc: Global,
    state: &mut Open,
    c: char,
    ops: &mut Ops,
) -> Result<Flow, NoMemory>
    requires { length state.old.stack ≤ 512 }
    ensures done { IfOk result
        (λ flow. config state.new ops.new flow ≡ body_character c state.old ops.old) }
    ensures bounded { length state.new.stack ≤ 512 }
{
    match reopen_lost(alloc, state, ops)? {
        Flow::On => {}
        left => return Ok(left),
    }
    ops.push_character(alloc, place_now(state), c)?;
    if !is_space(c) {
        state.frameset_ok = false;
    }
    Ok(Flow::On)
}

/// Inserts characters where there is nothing to reopen: by the rules of "in body", or as those of
/// "text", of "in select" and for foreign content do.
pub fn insert_body_text(state: &mut Open, text: &str, ops: &mut Ops) -> Result<(), NoMemory>
    ensures inserted { IfOk result
        (λ _. ops.new ≡ ops.old ++ texts (here state.old) (chars text.now)) }
    ensures done { IfOk result (λ _. state.new ≡ behind_text (chars text.now) state.old) }
    ensures stack { state.new.stack ≡ state.old.stack }
{
    ops.push_text(place_now(state), text)?;
    state.frameset_ok = stays_ok(state, text);
    Ok(())
}

/// Inserts a character in the same way.
pub fn insert_body_one(
    alloc: Global,
    state: &mut Open,
    c: char,
    ops: &mut Ops,
) -> Result<(), NoMemory>
    ensures inserted { IfOk result (λ _. ops.new ≡ ops.old ++ texts (here state.old) (c ∷ [])) }
    ensures done { IfOk result (λ _. state.new ≡ behind_text (c ∷ []) state.old) }
    ensures stack { state.new.stack ≡ state.old.stack }
{
    ops.push_character(alloc, place_now(state), c)?;
    state.frameset_ok = stays_ok_behind(state, c);
    Ok(())
}

/// Whether a character doesn't matter to a frameset, by these rules.
fn keeps_ok(rules: Mode) -> bool
    ensures { result ≡ mode_keeps_ok rules }
{
    matches!(
        &rules,
        Mode::InText | Mode::InSelect | Mode::InSelectInTable
    )
}

/// Whether a frameset may still replace the body behind a text.
fn stays_ok(state: &Open, text: &str) -> bool
    ensures { result
        ≡ ((mode_keeps_ok (rules_of_text state.now) || all_space (chars text.now))
        && state.now.frameset_ok) }
{
    state.frameset_ok && (keeps_ok(text_rules(state)) || is_all_space(text))
}

/// Whether it may behind a character.
fn stays_ok_behind(state: &Open, c: char) -> bool
    ensures { result
        ≡ ((mode_keeps_ok (rules_of_text state.now) || all_space (c ∷ []))
        && state.now.frameset_ok) }
{
    state.frameset_ok && (keeps_ok(text_rules(state)) || is_space(c))
}

/// Inserts characters by the rules of "in body", up to one at which an element more than 512 would
/// be open.
fn insert_body_characters(
    alloc: Global,
    state: &mut Open,
    text: &str,
    ops: &mut Ops,
) -> Result<Flow, NoMemory>
    requires { length state.old.stack ≤ 512 }
    ensures done { IfOk result
        (λ flow. config state.new ops.new flow
        ≡ body_characters (chars text.now) (on state.old ops.old)) }
    ensures bounded { length state.new.stack ≤ 512 }
{
    for c in text.chars() {
        match insert_body_character(alloc, state, c, ops)? {
            Flow::On => {}
            left => return Ok(left),
        }
    }
    Ok(Flow::On)
}

/// Inserts the pending characters: as they are where all are white space, else by the rules of "in
/// body" with foster parenting on. There are none then.
pub fn insert_pending_text(alloc: Global, state: &mut Open, ops: &mut Ops) -> Result<Flow, NoMemory>
    requires { length state.old.stack ≤ 512 }
    ensures done { IfOk result
        (λ flow. config state.new ops.new flow ≡ insert_pending state.old ops.old) }
    ensures bounded { length state.new.stack ≤ 512 }
{
    let text = mem::replace(&mut state.pending_text, Text::new(alloc));
    if is_all_space(text.as_str()) {
        insert_characters(alloc, place_now(state), text.as_str(), ops)?;
        return Ok(Flow::On);
    }
    state.foster = true;
    let flow = insert_body_characters(alloc, state, text.as_str(), ops)?;
    state.foster = false;
    Ok(flow)
}
