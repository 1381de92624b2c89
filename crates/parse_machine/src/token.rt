//! A token, by the rules of the mode and of those that it is then to go by
//! (13.2.6 #tree-construction).

ghost use Rattle.std.specs.Prelude.{◌≡◌, ◌==◌, ◌&&◌, false, IfOk};
ghost use Rattle.html_types.specs.declared.instruction.Mode.TheVariants as mode;
ghost use Rattle.html_types.specs.declared.token.Token.TheVariants as token;
ghost use Rattle.standard.specs.Rules.{rules_for, answer, adopting, by_rules, process, rounds};
ghost use Rattle.standard.specs.Rules.{is_line_feed as is_line_feed_in, construct as constructed};
ghost use Rattle.parse_machine.specs.Rounds.{rounded, round_of};

use crate::after_adoption::after_adopt;
use builder_adoption::adopt;
use builder_state::Builder;
use html_types::{Mode, Next, NoMemory, Then, Token, Word};
use insertion_modes::row;
use std::alloc::Global;
use text_store::Ops;

/// No token goes by more rules than this.
const ROUNDS: u32 = 8192;

fn is_line_feed(token: &Token) -> bool
    ensures { result ≡ is_line_feed_in token.now }
{
    matches!(token, Token::Character('\n'))
}

// The adoption agency algorithm (13.2.6.4.7 #parsing-main-inbody), and the rest of the row that
// asked for it.
#[tactic(auto, unfolding(standard::specs::Rules::adopting))]
#[inline(never)]
fn by_adoption(
    alloc: Global,
    builder: &mut Builder,
    name: Word,
    then: Then,
    token: &Token,
    ops: &mut Ops,
) -> Result<Next, NoMemory>
    ensures { IfOk result
        (λ n. answer builder.new ops.new n ≡ adopting name then token.now builder.old ops.old) }
{
    let adopted = adopt(alloc, builder, name, ops)?;
    after_adopt(alloc, builder, then, adopted, token, ops)
}

// By the rules of one mode, the adoption too.
#[tactic(auto, unfolding(standard::specs::Rules::by_mode))]
fn by_rules(
    alloc: Global,
    builder: &mut Builder,
    mode: Mode,
    token: &Token,
    ops: &mut Ops,
) -> Result<Next, NoMemory>
    ensures { IfOk result
        (λ n. answer builder.new ops.new n ≡ by_rules mode token.now builder.old ops.old) }
{
    match builder.answer_row(alloc, row(mode, token), token, ops)? {
        Next::Adopt { name, then } => by_adoption(alloc, builder, name, then, token, ops),
        next => Ok(next),
    }
}

// The rules that the token is to go by, or what comes next.
#[derive(Clone, Copy)]
pub(crate) enum Round {
    Once(Mode),
    Over(Next),
}

// By the rules of one mode, and what they ask for.
fn one_round(
    alloc: Global,
    builder: &mut Builder,
    mode: Mode,
    token: &Token,
    ops: &mut Ops,
) -> Result<Round, NoMemory>
    ensures { IfOk result
        (λ round. rounded builder.new ops.new round ≡ round_of mode token.now builder.old ops.old) }
{
    match by_rules(alloc, builder, mode, token, ops)? {
        Next::Reprocess => Ok(Round::Once(builder.rules_for(token))),
        Next::UsingRules(other) => Ok(Round::Once(other)),
        Next::InBodyFostering => Ok(Round::Once(Mode::InBody)),
        next => Ok(Round::Over(next)),
    }
}

// By the rules of a mode, and of those that the token is then to go by.
#[tactic(auto, using(std::proofs::lemmas::Grind::common_steps, crate::proofs::Rounds::rounds_turn))]
fn by_all_rules(
    alloc: Global,
    builder: &mut Builder,
    first: Mode,
    token: &Token,
    ops: &mut Ops,
) -> Result<Next, NoMemory>
    ensures { IfOk result
        (λ n. answer builder.new ops.new n ≡ process rounds first token.now builder.old ops.old) }
{
    let mut round = Round::Once(first);
    let mut left = ROUNDS;
    while left > 0 {
        match round {
            Round::Once(mode) => round = one_round(alloc, builder, mode, token, ops)?,
            Round::Over(next) => return Ok(next),
        }
        left -= 1;
    }
    match round {
        Round::Once(_) => Ok(Next::Reprocess),
        Round::Over(next) => Ok(next),
    }
}

// A character by the rules of "in body", as most of a page's are: what its row comes to, at once.
#[tactic(auto, using(std::proofs::lemmas::Grind::common_steps, crate::proofs::Characters::character_in_body))]
#[inline(never)]
fn by_body_row(
    alloc: Global,
    builder: &mut Builder,
    c: char,
    ops: &mut Ops,
) -> Result<Next, NoMemory>
    requires { (c == 0) ≡ false }
    ensures { IfOk result
        (λ n. answer builder.new ops.new n
        ≡ process rounds mode.InBody (token.Character c) builder.old ops.old) }
{
    let next = builder.insert_body_character(alloc, c, ops)?;
    Ok(next)
}

// By the rules of the insertion mode, or those for foreign content.
fn by_own_rules(
    alloc: Global,
    builder: &mut Builder,
    token: &Token,
    ops: &mut Ops,
) -> Result<Next, NoMemory>
    ensures { IfOk result
        (λ n. answer builder.new ops.new n
        ≡ process rounds (rules_for token.now builder.old) token.now builder.old ops.old) }
{
    match (builder.rules_for(token), token) {
        (Mode::InBody, Token::Character(c)) if *c != '\0' => by_body_row(alloc, builder, *c, ops),
        (rules, _) => by_all_rules(alloc, builder, rules, token, ops),
    }
}

// A line feed is left out where the token before asks for that.
fn is_left_out(skip: bool, token: &Token) -> bool
    ensures { result ≡ (skip && is_line_feed_in token.now) }
{
    skip && is_line_feed(token)
}

/// Processes a token. Operations are added at the end of `ops`.
/// Where it answers want of memory, the builder and the operations only keep their types.
#[tactic(auto, unfolding(standard::specs::Rules::construct))]
pub fn construct(
    alloc: Global,
    builder: &mut Builder,
    token: &Token,
    ops: &mut Ops,
) -> Result<Next, NoMemory>
    ensures { IfOk result
        (λ n. answer builder.new ops.new n ≡ constructed token.now builder.old ops.old) }
{
    let skip = builder.take_skip();
    let next = if is_left_out(skip, token) {
        Next::Done
    } else {
        by_own_rules(alloc, builder, token, ops)?
    };
    builder.stop_fostering();
    Ok(next)
}
