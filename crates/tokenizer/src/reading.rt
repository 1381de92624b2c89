//! One character, or the end of the input: a row, closed under reconsuming.

ghost use Rattle.std.specs.Prelude.{◌≡◌, ℕ, Bool, [], ◌∷◌, IfOk, IsTrue, MatchBool};
ghost use Rattle.tok_rows.specs.Steps.{Follows};
ghost use Rattle.standard.specs.Entities.{Entities};
ghost use Rattle.standard.specs.Step as steps;
ghost use Rattle.standard.specs.Tokenizer as rows;
ghost use Rattle.html_types.specs.declared.token.Token.TheVariants.{Character};
ghost use Rattle.tokenizer.specs.Adds.{Adds};

use entity_table::Table;
use html_types::{Class, NoMemory, TokState, Tokens};
use std::alloc::Global;
use tok_rows::Transition;

/// How often one character is read at most; no row asks for more.
pub const READINGS: u8 = 5;

/// One row of the table. `foreign` says that the adjusted current node isn't an HTML element.
fn row(
    alloc: Global,
    table: &Table,
    foreign: bool,
    state: TokState,
    class: Class,
    c: char,
    out: &mut Tokens,
) -> Result<Transition, NoMemory>
    ensures { IfOk result (Follows (rows.row table.now foreign state class c) out.old out.new) }
{
    match state {
        TokState::Text(text_state) => tok_text::step(alloc, text_state, class, c, out),
        TokState::Tag(tag_state) => tok_tags::step(alloc, tag_state, class, c, out),
        TokState::Mark(mark_state) => tok_marks::step(alloc, foreign, mark_state, class, c, out),
        TokState::Reference(reference_state) => {
            tok_refs::step(alloc, table, reference_state, class, c, out)
        }
    }
}

/// Reads a character, or the end, at most so many times, and gives the state that it leads to.
pub fn settle(
    alloc: Global,
    table: &Table,
    foreign: bool,
    readings: u8,
    state: TokState,
    class: Class,
    c: char,
    out: &mut Tokens,
) -> Result<TokState, NoMemory>
    ensures { IfOk result
        (Adds (rows.settle table.now foreign readings state class c) out.old out.new) }
{
    if readings == 0 {
        return Ok(state);
    }
    let next = row(alloc, table, foreign, state, class, c, out)?;
    if next.again {
        settle(
            alloc,
            table,
            foreign,
            readings - 1,
            next.state,
            class,
            c,
            out,
        )
    } else {
        Ok(next.state)
    }
}

/// Whether the state emits a character of this class as it is, and stays. Where the answer is no,
/// it may do so all the same.
pub fn is_plain(state: &TokState, class: Class) -> bool
    ensures { IsTrue result
        → (es : Entities) (foreign : Bool) (c : ℕ)
        → rows.row es foreign state.now class c ≡ steps.emit (Character c ∷ []) state.now }
{
    match state {
        TokState::Text(text_state) => tok_text::is_plain(text_state, class),
        TokState::Mark(mark_state) => tok_marks::is_plain(mark_state, class),
        _ => false,
    }
}

/// Does the row where it only adds a character to what the state holds, and says whether it did.
/// Where it says no, the state is as before, though the row may be of this kind all the same.
pub fn add_in_place(state: &mut TokState, class: Class, c: char) -> Result<bool, NoMemory>
    ensures { IfOk result
        (λ done. MatchBool done
        ((es : Entities) (foreign : Bool)
        → rows.row es foreign state.old class c ≡ steps.to state.new)
        (state.new ≡ state.old)) }
{
    match state {
        TokState::Tag(tag_state) => tok_tags::add_in_place(tag_state, class, c),
        TokState::Mark(mark_state) => tok_marks::add_in_place(mark_state, class, c),
        _ => Ok(false),
    }
}
