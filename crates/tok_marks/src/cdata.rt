//! The rows of CDATA sections.

ghost use Rattle.std.specs.Prelude.{◌≡◌, ◌∷◌, [], IfOk};
ghost use Rattle.standard.specs.CdataStates as rows;
ghost use Rattle.standard.specs.Step as steps;
ghost use Rattle.tok_rows.specs.Steps.{Follows};
ghost use Rattle.html_types.specs.declared.token.Token.TheVariants.{Character};

use html_types::{CdataState, Class, MarkState, NoMemory, TokState, Token, Tokens};
use tok_rows::next::{Transition, again, data_state, finish, to};

/// The row of a state of CDATA sections.
pub fn cdata_state_row(
    state: CdataState,
    class: Class,
    c: char,
    out: &mut Tokens,
) -> Result<Transition, NoMemory>
    ensures { IfOk result (Follows (rows.cdata_state_row state class c) out.old out.new) }
{
    match state {
        CdataState::Section => cdata_section_row(class, c, out),
        CdataState::Bracket => cdata_bracket_row(class, c, out),
        CdataState::End => cdata_end_row(class, c, out),
    }
}

/// Switches to a state of CDATA sections.
fn to_cdata(state: CdataState, out: &mut Tokens) -> Result<Transition, NoMemory>
    ensures { IfOk result (Follows (steps.to (rows.in_cdata state)) out.old out.new) }
{
    to(TokState::Mark(MarkState::Cdata(state)), out)
}

/// Emits a character, and switches to a state of CDATA sections.
fn emit_in_cdata(c: char, state: CdataState, out: &mut Tokens) -> Result<Transition, NoMemory>
    ensures { IfOk result
        (Follows (steps.emit (Character c ∷ []) (rows.in_cdata state)) out.old out.new) }
{
    out.push(Token::Character(c))?;
    to_cdata(state, out)
}

/// Reconsumes the character in the CDATA section state.
fn again_in_section(out: &mut Tokens) -> Result<Transition, NoMemory>
    ensures { IfOk result
        (Follows (steps.again (rows.in_cdata CdataState.Section)) out.old out.new) }
{
    again(TokState::Mark(MarkState::Cdata(CdataState::Section)), out)
}

/// 13.2.5.69 #cdata-section-state CDATA section state. NUL is emitted as it is.
fn cdata_section_row(class: Class, c: char, out: &mut Tokens) -> Result<Transition, NoMemory>
    ensures { IfOk result (Follows (rows.cdata_section_row class c) out.old out.new) }
{
    match class {
        Class::RightBracket => to_cdata(CdataState::Bracket, out),
        Class::InputEnd => finish(out),
        _ => emit_in_cdata(c, CdataState::Section, out),
    }
}

/// 13.2.5.70 #cdata-section-bracket-state CDATA section bracket state
fn cdata_bracket_row(class: Class, c: char, out: &mut Tokens) -> Result<Transition, NoMemory>
    ensures { IfOk result (Follows (rows.cdata_bracket_row class c) out.old out.new) }
{
    match class {
        Class::RightBracket => to_cdata(CdataState::End, out),
        _ => {
            out.push(Token::Character(']'))?;
            again_in_section(out)
        }
    }
}

/// 13.2.5.71 #cdata-section-end-state CDATA section end state
fn cdata_end_row(class: Class, c: char, out: &mut Tokens) -> Result<Transition, NoMemory>
    ensures { IfOk result (Follows (rows.cdata_end_row class c) out.old out.new) }
{
    match class {
        Class::RightBracket => emit_in_cdata(']', CdataState::End, out),
        Class::Greater => to(data_state(), out),
        _ => {
            out.push(Token::Character(']'))?;
            out.push(Token::Character(']'))?;
            again_in_section(out)
        }
    }
}
