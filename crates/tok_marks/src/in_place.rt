//! The rows that only add a character to what the state holds, or drop it, done in place.

ghost use Rattle.std.specs.Prelude.{◌≡◌, Bool, IfOk, MatchBool};
ghost use Rattle.standard.specs.Step as steps;
ghost use Rattle.standard.specs.MarkStates as rows;
ghost use Rattle.standard.specs.DoctypeStates as doctypes;

use char_class::{name_char, shown};
use html_types::{Class, CommentState, DoctypeState, MarkState, NoMemory, Quote};

/// Does the row where it only adds a character to what the state holds, and says whether it did.
/// Where it says no, the state is as before, though the row may be of this kind all the same.
pub fn add_in_place(state: &mut MarkState, class: Class, c: char) -> Result<bool, NoMemory>
    ensures { IfOk result
        (λ done. MatchBool done
        ((foreign : Bool)
        → rows.mark_row foreign state.old class c ≡ steps.to (steps.in_mark state.new))
        (state.new ≡ state.old)) }
{
    match state {
        MarkState::Comment(CommentState::Inside(text)) => match class {
            Class::Less | Class::Hyphen | Class::InputEnd => Ok(false),
            _ => {
                text.push(shown(c))?;
                Ok(true)
            }
        },
        MarkState::BogusComment(text) => match class {
            Class::Greater | Class::InputEnd => Ok(false),
            _ => {
                text.push(shown(c))?;
                Ok(true)
            }
        },
        MarkState::Doctype(doctype) => add_in_doctype(doctype, class, c),
        _ => Ok(false),
    }
}

// The same of a doctype. Its identifiers are dropped.
fn add_in_doctype(state: &mut DoctypeState, class: Class, c: char) -> Result<bool, NoMemory>
    ensures { IfOk result
        (λ done. MatchBool done
        (doctypes.doctype_state_row state.old class c ≡ steps.to (doctypes.in_doctype state.new))
        (state.new ≡ state.old)) }
{
    match state {
        DoctypeState::Name(name) => match class {
            Class::Space | Class::Greater | Class::InputEnd => Ok(false),
            _ => {
                name.push(name_char(c))?;
                Ok(true)
            }
        },
        DoctypeState::PublicIdentifier(_, Quote::Double)
        | DoctypeState::SystemIdentifier(_, Quote::Double) => match class {
            Class::DoubleQuote | Class::Greater | Class::InputEnd => Ok(false),
            _ => Ok(true),
        },
        DoctypeState::PublicIdentifier(_, Quote::Single)
        | DoctypeState::SystemIdentifier(_, Quote::Single) => match class {
            Class::SingleQuote | Class::Greater | Class::InputEnd => Ok(false),
            _ => Ok(true),
        },
        DoctypeState::Bogus(..) => match class {
            Class::Greater | Class::InputEnd => Ok(false),
            _ => Ok(true),
        },
        _ => Ok(false),
    }
}
