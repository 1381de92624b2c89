//! The rows of these states: what each does with a character of each class, or at the end of the
//! input.

ghost use Rattle.std.specs.Prelude.{IfOk};
ghost use Rattle.tok_rows.specs.Steps.{Follows};
ghost use Rattle.standard.specs.ReferenceStates as rows;

use crate::literal::literally;
use crate::named::named_row;
use crate::numeric::{decimal_row, hexadecimal_row, hexadecimal_start_row, numeric_row};
use entity_table::Table;
use html_types::{Class, NoMemory, ReferenceState, ReturnState, Text, TokState, Tokens};
use std::alloc::Global;
use tok_rows::next::{Transition, again, to};

/// One row: the next state, and the tokens that are emitted, added to `out`. After NoMemory `out`
/// holds any tokens.
pub fn step(
    alloc: Global,
    table: &Table,
    state: ReferenceState,
    class: Class,
    c: char,
    out: &mut Tokens,
) -> Result<Transition, NoMemory>
    ensures { IfOk result (Follows (rows.reference_row table.now state class c) out.old out.new) }
{
    match state {
        ReferenceState::Ampersand(back) => ampersand_row(alloc, back, class, c, out),
        ReferenceState::Named(back, held) => named_row(alloc, table, back, held, class, c, out),
        ReferenceState::Numeric(back) => numeric_row(back, class, c, out),
        ReferenceState::HexadecimalStart(back, x) => {
            hexadecimal_start_row(alloc, back, x, class, c, out)
        }
        ReferenceState::Hexadecimal(back, code) => hexadecimal_row(
            alloc, back, code, class, c, out,
        ),
        ReferenceState::Decimal(back, code) => decimal_row(alloc, back, code, class, c, out),
    }
}

/// 13.2.5.72 #character-reference-state Character reference state
#[tactic(auto, using(crate::proofs::Marks::mark))]
fn ampersand_row(
    alloc: Global,
    back: ReturnState,
    class: Class,
    c: char,
    out: &mut Tokens,
) -> Result<Transition, NoMemory>
    ensures { IfOk result (Follows (rows.ampersand_row back class c) out.old out.new) }
{
    match class {
        Class::Alpha | Class::Digit => {
            let mut held = Text::new(alloc);
            held.push('&')?;
            again(TokState::Reference(ReferenceState::Named(back, held)), out)
        }
        Class::Hash => to(TokState::Reference(ReferenceState::Numeric(back)), out),
        _ => literally(back, "&", out),
    }
}
