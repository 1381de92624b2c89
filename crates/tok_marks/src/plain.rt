//! The row that most characters of a CDATA section meet, told without a step.

ghost use Rattle.std.specs.Prelude.{◌≡◌, ℕ, Bool, [], ◌∷◌, IsTrue};
ghost use Rattle.standard.specs.Step as steps;
ghost use Rattle.standard.specs.MarkStates as rows;
ghost use Rattle.html_types.specs.declared.token.Token.TheVariants.{Character};

use html_types::{CdataState, Class, MarkState};

/// Whether the state emits a character of this class as it is, and stays. Where the answer is no,
/// it may do so all the same.
pub fn is_plain(state: &MarkState, class: Class) -> bool
    ensures { IsTrue result
        → (foreign : Bool) (c : ℕ)
        → rows.mark_row foreign state.now class c
        ≡ steps.emit (Character c ∷ []) (steps.in_mark state.now) }
{
    match state {
        MarkState::Cdata(CdataState::Section) => match class {
            Class::RightBracket | Class::InputEnd => false,
            _ => true,
        },
        _ => false,
    }
}
