//! What each instruction of a row does, and the row as a whole.

ghost use Rattle.std.specs.Prelude.{◌≡◌, ◌≤◌, length, IsTrue, IfOk, None, Some, true};
ghost use Rattle.std.specs.Prelude.{if◌then◌else◌};
ghost use Rattle.html_types.specs.declared.instruction.Flow.TheVariants.{On, Skip, Leave};
ghost use Rattle.html_types.specs.declared.instruction.Next.TheVariants as next;
ghost use Rattle.standard.specs.Formatting.{entry_named, without_entry};
ghost use Rattle.standard.specs.Stack.{without_open};
ghost use Rattle.standard.specs.Reset.{reset_mode};
ghost use Rattle.standard.specs.Elements.{is_word};
ghost use Rattle.standard.specs.Instructions.{config, on, original_or, stop_at_script, for_tag};
ghost use Rattle.standard.specs.Instructions.{enlist, adopt_own, adopt_anchor, step, run};
ghost use Rattle.builder_state.specs.Kinds.{is_guard, goes_on, is_change};

use crate::checks::test_holds;
use crate::foreign_end::{break_out, end_foreign};
use crate::formatting::{clear_back, entry_of, take_entry_off};
use crate::forms::end_form_element;
use crate::insert::{
    add_to_first, add_to_second, insert_bare, insert_bare_root, insert_bare_void, insert_character,
    insert_doctype, insert_for, insert_foreign, insert_in, insert_note, insert_replacement,
    insert_root_for, insert_void, insert_void_as, place_now, push_pointed_head, reopen_lost,
    take_second_out,
};
use crate::likes::enter;
use crate::pending::{insert_pending_text, keep_character};
use crate::places::root_place;
use crate::reset::mode_to_reset_to;
use crate::walks::{
    close_found_item, close_in_scope, close_other_end, current_node, pop_back_to, pop_implied,
    pop_implied_thoroughly, pop_to_first, pop_until, take_off,
};
use html_types::{
    Flow, FormattingEntry, Instr, Mode, Name, Next, NoMemory, NodeId, Open, Place, Then, Token,
    Who, Word,
};
use std::alloc::Global;
use text_store::Ops;

/// Takes the head element pointer's node off the stack.
fn take_head_off(state: &mut Open) -> Result<(), NoMemory>
    ensures left { IfOk result
        (λ _. state.new
        ≡ record state.old { stack = without_open state.old.head state.old.stack }) }
    ensures shorter { length state.new.stack ≤ length state.old.stack }
{
    if let Some(id) = state.head {
        take_off(&mut state.stack, id)?;
    }
    Ok(())
}

/// The mode is the original mode again. (There always is one in the modes "text" and "in table
/// text": `open_state_is_proper` of `rule_laws`.)
fn restore(state: &mut Open)
    ensures { state.new
        ≡ record state.old { mode = original_or Mode.InBody state.old.original; original = None } }
{
    state.mode = state.original.unwrap_or(Mode::InBody);
    state.original = None;
}

/// Resets the insertion mode appropriately (13.2.4.1 #the-insertion-mode).
#[inline(never)]
fn reset(state: &mut Open)
    ensures { state.new
        ≡ record state.old {
          mode = reset_mode state.old.context state.old.stack state.old.head
              state.old.template_modes;
        } }
{
    state.mode = mode_to_reset_to(
        &state.context,
        &state.stack,
        state.head,
        &state.template_modes,
    );
}

/// The token goes by the rules of "in body", with foster parenting on.
fn foster(state: &mut Open) -> Flow
    ensures flag { state.new ≡ record state.old { foster = true } }
    ensures left { result ≡ Leave next.InBodyFostering }
{
    state.foster = true;
    Flow::Leave(Next::InBodyFostering)
}

/// Pops the current node, a script, at which the parser stops, but in a fragment
/// (13.4 #parsing-html-fragments).
fn stop_at(state: &mut Open, ops: &Ops) -> Flow
    ensures done { config state.new ops.now result
        ≡ stop_at_script state.old.stack state.old ops.now }
    ensures shorter { length state.new.stack ≤ length state.old.stack }
{
    match current_node(&state.stack) {
        None => Flow::Leave(Next::Done),
        Some(script) => {
            state.stack.pop();
            if state.context.is_some() {
                return Flow::Leave(Next::Done);
            }
            Flow::Leave(Next::Script(script))
        }
    }
}

/// The current node becomes an entry of the list of active formatting elements, with the token's
/// tag.
#[inline(never)]
pub fn list_current(
    alloc: Global,
    state: &mut Open,
    token: &Token,
    ops: &Ops,
) -> Result<(), NoMemory>
    ensures done { IfOk result
        (λ _. on state.new ops.now ≡ for_tag enlist token.now state.old ops.now) }
    ensures stack { state.new.stack ≡ state.old.stack }
{
    match token {
        Token::StartTag(tag) | Token::EndTag(tag) => {
            if let Some(id) = current_node(&state.stack) {
                enter(alloc, &mut state.formats, id, tag.copy(alloc)?)?;
            }
        }
        _ => {}
    }
    Ok(())
}

/// Takes an element off the list of active formatting elements and off the stack.
fn take_element_off(state: &mut Open, id: NodeId) -> Result<(), NoMemory>
    ensures left { IfOk result
        (λ _. state.new
        ≡ record state.old {
          stack = without_open (Some id) state.old.stack;
          formats = without_entry id state.old.formats;
        }) }
    ensures shorter { length state.new.stack ≤ length state.old.stack }
{
    take_off(&mut state.stack, id)?;
    take_entry_off(&mut state.formats, id)
}

/// The adoption agency algorithm (13.2.6.4.7 #parsing-main-inbody) for the token's name.
fn ask_adoption(state: &Open, token: &Token, ops: &Ops) -> Flow
    ensures { config state.now ops.now result ≡ for_tag adopt_own token.now state.now ops.now }
{
    match token {
        Token::StartTag(tag) | Token::EndTag(tag) => match &tag.name {
            Name::Known(word) => adoption(*word, Then::Nothing),
            Name::Other(_, _) => Flow::On,
        },
        _ => Flow::On,
    }
}

/// The same for `a`, where one is listed.
fn ask_anchor_adoption(state: &Open, ops: &Ops) -> Flow
    ensures { config state.now ops.now result
        ≡ adopt_anchor (entry_named (is_word Word.A) state.now.formats) state.now ops.now }
{
    match entry_of(&state.formats, Word::A) {
        None => Flow::On,
        Some(id) => adoption(Word::A, Then::Link(id)),
    }
}

/// The adoption agency algorithm is asked for.
fn adoption(name: Word, behind: Then) -> Flow
    ensures { result ≡ Leave (next.Adopt name behind) }
{
    Flow::Leave(Next::Adopt { name, then: behind })
}

/// The rest of the row counts only where a test holds.
fn need(holds: bool) -> Flow
    ensures { result ≡ (if holds then On else Leave next.Done) }
{
    if holds {
        Flow::On
    } else {
        Flow::Leave(Next::Done)
    }
}

/// The next instruction counts only where a test holds.
fn when(holds: bool) -> Flow
    ensures { result ≡ (if holds then On else Skip) }
{
    if holds { Flow::On } else { Flow::Skip }
}

/// An instruction that only asks a question.
fn guard(state: &Open, instr: Instr, token: &Token, ops: &Ops) -> Flow
    requires { IsTrue (is_guard instr) }
    ensures { config state.now ops.now result ≡ step instr token.now state.now ops.now }
{
    match instr {
        Instr::Need(test) => need(test_holds(state, test, token)),
        Instr::Forbid(test) => need(!test_holds(state, test, token)),
        Instr::When(test) => when(test_holds(state, test, token)),
        Instr::Unless(test) => when(!test_holds(state, test, token)),
        _ => Flow::On,
    }
}

/// An instruction that closes elements, or changes the list, a flag, a pointer or a mode. It takes
/// no memory.
fn change(state: &mut Open, instr: Instr, token: &Token, ops: &Ops)
    requires { IsTrue (is_change instr) }
    ensures done { on state.new ops.now ≡ step instr token.now state.old ops.now }
    ensures shorter { length state.new.stack ≤ length state.old.stack }
{
    match instr {
        Instr::Pop => {
            state.stack.pop();
        }
        Instr::PopUntil(who) => pop_until(&mut state.stack, who, token),
        Instr::ClearBackTo(group) => pop_back_to(&mut state.stack, group),
        Instr::PopToRoot => pop_to_first(&mut state.stack),
        Instr::GenerateImplied => pop_implied(&mut state.stack, Who::Nobody, token),
        Instr::GenerateImpliedThoroughly => pop_implied_thoroughly(&mut state.stack),
        Instr::GenerateImpliedBut(who) => pop_implied(&mut state.stack, who, token),
        Instr::Close(scope, who) => close_in_scope(&mut state.stack, scope, who, token),
        Instr::CloseItem(who) => close_found_item(&mut state.stack, who, token),
        Instr::AnyOtherEnd => close_other_end(&mut state.stack, token),
        Instr::ClearToMarker => clear_back(&mut state.formats),
        Instr::FramesetNotOk => state.frameset_ok = false,
        Instr::BecomeQuirky => state.quirks = true,
        Instr::SkipLineFeed => state.skip_line_feed = true,
        Instr::SetHeadPointer => state.head = current_node(&state.stack),
        Instr::SetFormPointer => state.form = current_node(&state.stack),
        Instr::SwitchMode(mode) => state.mode = mode,
        Instr::SaveMode => state.original = Some(state.mode),
        Instr::RestoreMode => restore(state),
        Instr::PopTemplateMode => {
            let _ = state.template_modes.pop();
        }
        Instr::ResetMode => reset(state),
        _ => {}
    }
}

/// An instruction behind which the row goes on, whatever the open state is.
fn exec_on(
    alloc: Global,
    state: &mut Open,
    instr: Instr,
    token: &Token,
    ops: &mut Ops,
) -> Result<(), NoMemory>
    requires { IsTrue (goes_on instr) }
    ensures done { IfOk result
        (λ _. on state.new ops.new ≡ step instr token.now state.old ops.old) }
    ensures shorter { length state.new.stack ≤ length state.old.stack }
{
    match instr {
        Instr::InsertText => insert_character(alloc, state, token, ops)?,
        Instr::InsertReplacement => insert_replacement(alloc, state, ops)?,
        Instr::InsertComment => insert_note(alloc, state, place_now(state), token, ops)?,
        Instr::CommentToPage => insert_note(alloc, state, Place::Page, token, ops)?,
        Instr::CommentToRoot => { insert_note(alloc, state, root_place(&state.stack), token, ops)? }
        Instr::AppendDoctype => insert_doctype(alloc, state, token, ops)?,
        Instr::AddToFirst => add_to_first(alloc, state, token, ops)?,
        Instr::AddToSecond => add_to_second(alloc, state, token, ops)?,
        Instr::DetachSecond => take_second_out(state, ops)?,
        Instr::PushFormatting => list_current(alloc, state, token, ops)?,
        Instr::PushMarker => state.formats.push(FormattingEntry::Marker)?,
        Instr::PushTemplateMode(mode) => state.template_modes.push(mode)?,
        Instr::AppendPending => keep_character(state, token, ops)?,
        Instr::TakeOff(id) => take_element_off(state, id)?,
        Instr::TakeHeadOff => take_head_off(state)?,
        Instr::EndForm => end_form_element(state, token, ops)?,
        _ => change(state, instr, token, ops),
    }
    Ok(())
}

/// One instruction.
fn exec(
    alloc: Global,
    state: &mut Open,
    instr: Instr,
    token: &Token,
    ops: &mut Ops,
) -> Result<Flow, NoMemory>
    requires { length state.old.stack ≤ 512 }
    ensures done { IfOk result
        (λ flow. config state.new ops.new flow ≡ step instr token.now state.old ops.old) }
    ensures bounded { length state.new.stack ≤ 512 }
{
    match instr {
        Instr::Need(_) | Instr::Forbid(_) | Instr::When(_) | Instr::Unless(_) => {
            Ok(guard(state, instr, token, ops))
        }
        Instr::Insert => insert_for(state, token, ops),
        Instr::InsertA(word) => insert_bare(alloc, state, word, ops),
        Instr::InsertRoot => insert_root_for(state, token, ops),
        Instr::InsertRootA => insert_bare_root(alloc, state, ops),
        Instr::InsertAndPop => insert_void(state, token, ops),
        Instr::InsertAndPopA(word) => insert_bare_void(alloc, state, word, ops),
        Instr::InsertAndPopAs(word) => insert_void_as(alloc, state, word, token, ops),
        Instr::InsertForeign => insert_foreign(alloc, state, token, ops),
        Instr::InsertIn(space) => insert_in(alloc, state, space, token, ops),
        Instr::Reconstruct => reopen_lost(alloc, state, ops),
        Instr::PushHead => push_pointed_head(state, ops),
        Instr::InsertPending => insert_pending_text(alloc, state, ops),
        Instr::BreakOut => Ok(break_out(state, ops)),
        Instr::ForeignEnd => Ok(end_foreign(state, token, ops)),
        Instr::Adopt => Ok(ask_adoption(state, token, ops)),
        Instr::AdoptAnchor => Ok(ask_anchor_adoption(state, ops)),
        Instr::AdoptNobr => Ok(adoption(Word::Nobr, Then::Nobr)),
        Instr::SwitchTokenizer(reading) => Ok(Flow::Leave(Next::SwitchTokenizer(reading))),
        Instr::UsingRules(mode) => Ok(Flow::Leave(Next::UsingRules(mode))),
        Instr::InBodyFostering => Ok(foster(state)),
        Instr::Reprocess => Ok(Flow::Leave(Next::Reprocess)),
        Instr::StopAtScript => Ok(stop_at(state, ops)),
        Instr::Finish => Ok(Flow::Leave(Next::Finished)),
        _ => {
            exec_on(alloc, state, instr, token, ops)?;
            Ok(Flow::On)
        }
    }
}

/// A row's instructions, one after another.
#[tactic(auto, using(std::proofs::lemmas::Grind::common_steps, crate::proofs::Runs::run_left), unfolding(standard::specs::Instructions::run))]
pub fn run_row(
    alloc: Global,
    state: &mut Open,
    program: &[Instr],
    token: &Token,
    ops: &mut Ops,
) -> Result<Flow, NoMemory>
    requires { length state.old.stack ≤ 512 }
    ensures done { IfOk result
        (λ flow. config state.new ops.new flow ≡ run token.now (on state.old ops.old) program.now) }
    ensures bounded { length state.new.stack ≤ 512 }
{
    let mut left = program;
    let mut flow = Flow::On;
    while let Some((instr, rest)) = left.split_first() {
        match flow {
            Flow::On => flow = exec(alloc, state, *instr, token, ops)?,
            Flow::Skip => flow = Flow::On,
            Flow::Leave(_) => return Ok(flow),
        }
        left = rest;
    }
    Ok(flow)
}
