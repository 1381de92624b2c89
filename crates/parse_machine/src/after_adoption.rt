//! What comes behind the adoption agency algorithm in "in body" (13.2.6.4.7 #parsing-main-inbody).

ghost use Rattle.std.specs.Prelude.{◌≡◌, IfOk, true, false};
ghost use Rattle.standard.specs.Instructions.{on, run};
ghost use Rattle.standard.specs.Rules.{answer, answer_of};
ghost use Rattle.standard.specs.RulesBody.{after_adopt as row_after};
ghost use Rattle.builder_state.specs.Adopted.{is_other};

use builder_state::{Adopted, Builder};
use html_types::instruction::Instr::*;
use html_types::{Next, NoMemory, Then, Token};
use std::alloc::Global;
use text_store::Ops;

/// The rest of the row.
fn go_on(
    alloc: Global,
    builder: &mut Builder,
    then: Then,
    token: &Token,
    ops: &mut Ops,
) -> Result<Next, NoMemory>
    ensures { IfOk result
        (λ next. answer builder.new ops.new next
        ≡ answer_of (run token.now (on builder.old ops.old) (row_after then false))) }
{
    match then {
        Then::Nothing => builder.answer_row(alloc, &[], token, ops),
        Then::Link(id) => builder.answer_row(
            alloc,
            &[TakeOff(id), Reconstruct, Insert, PushFormatting],
            token,
            ops,
        ),
        Then::Nobr => builder.answer_row(alloc, &[Reconstruct, Insert, PushFormatting], token, ops),
    }
}

/// The token goes by "any other end tag" first.
fn go_on_as_other(
    alloc: Global,
    builder: &mut Builder,
    then: Then,
    token: &Token,
    ops: &mut Ops,
) -> Result<Next, NoMemory>
    ensures { IfOk result
        (λ next. answer builder.new ops.new next
        ≡ answer_of (run token.now (on builder.old ops.old) (row_after then true))) }
{
    match then {
        Then::Nothing => builder.answer_row(alloc, &[AnyOtherEnd], token, ops),
        Then::Link(id) => builder.answer_row(
            alloc,
            &[
                AnyOtherEnd,
                TakeOff(id),
                Reconstruct,
                Insert,
                PushFormatting,
            ],
            token,
            ops,
        ),
        Then::Nobr => builder.answer_row(
            alloc,
            &[AnyOtherEnd, Reconstruct, Insert, PushFormatting],
            token,
            ops,
        ),
    }
}

/// The rest of a row behind the adoption agency algorithm, whose answer is given: adds the
/// operations that it asks for, and says what is asked of the caller. Where it answers NoMemory,
/// the builder and the operations only keep their type.
pub fn after_adopt(
    alloc: Global,
    builder: &mut Builder,
    then: Then,
    adopted: Adopted,
    token: &Token,
    ops: &mut Ops,
) -> Result<Next, NoMemory>
    ensures { IfOk result
        (λ next. answer builder.new ops.new next
        ≡ answer_of (run token.now (on builder.old ops.old) (row_after then (is_other adopted)))) }
{
    match adopted {
        Adopted::Done => go_on(alloc, builder, then, token, ops),
        Adopted::Other => go_on_as_other(alloc, builder, then, token, ops),
    }
}
