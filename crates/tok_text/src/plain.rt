//! The rows that most characters of a page meet, told without a step.

ghost use Rattle.std.specs.Prelude.{◌≡◌, ℕ, [], ◌∷◌, IsTrue};
ghost use Rattle.standard.specs.Step as steps;
ghost use Rattle.standard.specs.TextStates as rows;
ghost use Rattle.html_types.specs.declared.token.Token.TheVariants.{Character};

use html_types::{Class, TextState};

/// Whether the state emits a character of this class as it is, and stays. Where the answer is no,
/// it may do so all the same.
pub fn is_plain(state: &TextState, class: Class) -> bool
    ensures { IsTrue result
        → (c : ℕ)
        → rows.text_row state.now class c
        ≡ steps.emit (Character c ∷ []) (steps.in_text state.now) }
{
    match state {
        TextState::Data => match class {
            Class::Ampersand | Class::Less | Class::InputEnd => false,
            _ => true,
        },
        _ => false,
    }
}
