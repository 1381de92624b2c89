//! The rows that only add a character to what the state holds, done in place.

ghost use Rattle.std.specs.Prelude.{◌≡◌, IfOk, MatchBool};
ghost use Rattle.standard.specs.Step as steps;
ghost use Rattle.standard.specs.TagStates as rows;

use char_class::{name_char, shown};
use html_types::{Class, NoMemory, Quote, TagState};

/// Does the row where it only adds a character to what the state holds, and says whether it did.
/// Where it says no, the state is as before, though the row may be of this kind all the same.
pub fn add_in_place(state: &mut TagState, class: Class, c: char) -> Result<bool, NoMemory>
    ensures { IfOk result
        (λ done. MatchBool done
        (rows.tag_row state.old class c ≡ steps.to (steps.in_tag state.new))
        (state.new ≡ state.old)) }
{
    match state {
        TagState::TagName(tag) => match class {
            Class::Space | Class::Slash | Class::Greater | Class::InputEnd => Ok(false),
            _ => {
                tag.name.push(name_char(c))?;
                Ok(true)
            }
        },
        TagState::AttributeName(_, name) => match class {
            Class::Space | Class::Slash | Class::Greater | Class::InputEnd | Class::Equals => {
                Ok(false)
            }
            _ => {
                name.push(name_char(c))?;
                Ok(true)
            }
        },
        TagState::AttributeValueQuoted(_, Some(attribute), Quote::Double) => match class {
            Class::DoubleQuote | Class::Ampersand | Class::InputEnd => Ok(false),
            _ => {
                attribute.value.push(shown(c))?;
                Ok(true)
            }
        },
        TagState::AttributeValueUnquoted(_, Some(attribute)) => match class {
            Class::Space | Class::Ampersand | Class::Greater | Class::InputEnd => Ok(false),
            _ => {
                attribute.value.push(shown(c))?;
                Ok(true)
            }
        },
        _ => Ok(false),
    }
}
