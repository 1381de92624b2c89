//! The instructions that pages have most, done at once: the rows that have no others make no
//! `Flow`.

ghost use Rattle.std.specs.Prelude.{◌≡◌, ◌≢◌, ◌≤◌, length, IfOk, if◌then◌else◌};
ghost use Rattle.standard.specs.Instructions.{config, on, step, run};
ghost use Rattle.standard.specs.Rules.{answer, answer_of, next_of};
ghost use Rattle.html_types.specs.declared.instruction.Instr.TheVariants as ins;
ghost use Rattle.builder_state.specs.AtOnce.{flow_behind};

use crate::checks::test_holds;
use crate::formatting::{clear_back, none_lost};
use crate::insert::{LIMIT, insert_note, place_now, push_made};
use crate::machine::{list_current, run_row};
use crate::walks::{
    close_found_item, close_in_scope, close_other_end, pop_back_to, pop_implied, pop_until,
};
use html_types::{Flow, FormattingEntry, Instr, Next, NoMemory, Open, Token, Who};
use std::alloc::Global;
use text_store::Ops;

/// What became of an instruction.
#[derive(Clone, Copy)]
pub(crate) enum AtOnce {
    /// It was done, and the row goes on.
    On,
    /// It was done, and the next instruction is left out.
    Skip,
    /// The token is to be processed once more.
    Reprocess,
    /// Nothing was done.
    Not,
}

/// The next instruction counts only where a test holds.
fn skip_unless(holds: bool) -> AtOnce
    ensures { result ≡ (if holds then AtOnce.On else AtOnce.Skip) }
{
    if holds { AtOnce::On } else { AtOnce::Skip }
}

/// The row goes on without a change where that is so.
fn on_if(so: bool) -> AtOnce
    ensures { result ≡ (if so then AtOnce.On else AtOnce.Not) }
{
    if so { AtOnce::On } else { AtOnce::Not }
}

/// Inserts an element for the token's tag at the appropriate place, where one more may be open.
fn insert_one(state: &mut Open, token: &Token, ops: &mut Ops) -> Result<AtOnce, NoMemory>
    requires { length state.old.stack ≤ 512 }
    ensures done { IfOk result
        (λ q. q ≢ AtOnce.Not
        → config state.new ops.new (flow_behind q) ≡ step ins.Insert token.now state.old ops.old) }
    ensures kept { IfOk result (λ q. q ≡ AtOnce.Not → state.new ≡ state.old) }
    ensures none_added { IfOk result (λ q. q ≡ AtOnce.Not → ops.new ≡ ops.old) }
    ensures bounded { length state.new.stack ≤ 512 }
{
    match token {
        Token::StartTag(tag) | Token::EndTag(tag) => {
            if state.stack.len() >= LIMIT {
                return Ok(AtOnce::Not);
            }
            let place = place_now(state);
            push_made(state, place, tag, ops)?;
            Ok(AtOnce::On)
        }
        _ => Ok(AtOnce::Not),
    }
}

/// One instruction, where it is one of those.
fn do_at_once(
    alloc: Global,
    state: &mut Open,
    instr: Instr,
    token: &Token,
    ops: &mut Ops,
) -> Result<AtOnce, NoMemory>
    requires { length state.old.stack ≤ 512 }
    ensures done { IfOk result
        (λ q. q ≢ AtOnce.Not
        → config state.new ops.new (flow_behind q) ≡ step instr token.now state.old ops.old) }
    ensures kept { IfOk result (λ q. q ≡ AtOnce.Not → state.new ≡ state.old) }
    ensures none_added { IfOk result (λ q. q ≡ AtOnce.Not → ops.new ≡ ops.old) }
    ensures bounded { length state.new.stack ≤ 512 }
{
    match instr {
        Instr::When(test) => return Ok(skip_unless(test_holds(state, test, token))),
        Instr::Unless(test) => return Ok(skip_unless(!test_holds(state, test, token))),
        Instr::Need(test) => return Ok(on_if(test_holds(state, test, token))),
        Instr::Reconstruct => return Ok(on_if(none_lost(&state.formats, &state.stack))),
        Instr::Insert => return insert_one(state, token, ops),
        Instr::Reprocess => return Ok(AtOnce::Reprocess),
        Instr::InsertComment => insert_note(alloc, state, place_now(state), token, ops)?,
        Instr::PushFormatting => list_current(alloc, state, token, ops)?,
        Instr::PushMarker => state.formats.push(FormattingEntry::Marker)?,
        Instr::Pop => {
            state.stack.pop();
        }
        Instr::PopUntil(who) => pop_until(&mut state.stack, who, token),
        Instr::ClearBackTo(group) => pop_back_to(&mut state.stack, group),
        Instr::GenerateImplied => pop_implied(&mut state.stack, Who::Nobody, token),
        Instr::Close(scope, who) => close_in_scope(&mut state.stack, scope, who, token),
        Instr::CloseItem(who) => close_found_item(&mut state.stack, who, token),
        Instr::AnyOtherEnd => close_other_end(&mut state.stack, token),
        Instr::ClearToMarker => clear_back(&mut state.formats),
        Instr::FramesetNotOk => state.frameset_ok = false,
        Instr::SwitchMode(mode) => state.mode = mode,
        _ => return Ok(AtOnce::Not),
    }
    Ok(AtOnce::On)
}

/// What a row asks of its caller.
pub fn asked(flow: Flow) -> Next
    ensures { result ≡ next_of flow }
{
    match flow {
        Flow::On | Flow::Skip => Next::Done,
        Flow::Leave(next) => next,
    }
}

/// The rest of a row, whatever its instructions are.
#[inline(never)]
fn answer_rest(
    alloc: Global,
    state: &mut Open,
    program: &[Instr],
    token: &Token,
    ops: &mut Ops,
) -> Result<Next, NoMemory>
    requires { length state.old.stack ≤ 512 }
    ensures done { IfOk result
        (λ next. answer state.new ops.new next
        ≡ answer_of (run token.now (on state.old ops.old) program.now)) }
    ensures bounded { length state.new.stack ≤ 512 }
{
    let flow = run_row(alloc, state, program, token, ops)?;
    Ok(asked(flow))
}

/// Does a row's instructions for a token, and says what is asked of the caller then.
#[tactic(auto, using(std::proofs::lemmas::Grind::common_steps, crate::proofs::Runs::run_left), unfolding(standard::specs::Instructions::run))]
pub fn answer_row(
    alloc: Global,
    state: &mut Open,
    program: &[Instr],
    token: &Token,
    ops: &mut Ops,
) -> Result<Next, NoMemory>
    requires { length state.old.stack ≤ 512 }
    ensures done { IfOk result
        (λ next. answer state.new ops.new next
        ≡ answer_of (run token.now (on state.old ops.old) program.now)) }
    ensures bounded { length state.new.stack ≤ 512 }
{
    let mut left = program;
    let mut skips = false;
    while let Some((instr, rest)) = left.split_first() {
        if skips {
            skips = false;
        } else {
            match do_at_once(alloc, state, *instr, token, ops)? {
                AtOnce::On => {}
                AtOnce::Skip => skips = true,
                AtOnce::Reprocess => return Ok(Next::Reprocess),
                AtOnce::Not => return answer_rest(alloc, state, left, token, ops),
            }
        }
        left = rest;
    }
    Ok(Next::Done)
}
