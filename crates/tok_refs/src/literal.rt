//! What a reference comes to: characters for the text, or for the attribute's value, in which it
//! stands.

ghost use Rattle.std.specs.Prelude.{◌≡◌, ◌++◌, map, true, IfOk, OnOk};
ghost use Rattle.std.specs.Str.{chars};
ghost use Rattle.tok_rows.specs.Steps.{Follows};
ghost use Rattle.standard.specs.ReferenceStates as rows;
ghost use Rattle.html_types.specs.declared.token.Token.TheVariants.{Character};

use html_types::{
    Attribute, NoMemory, RawText, ReturnState, TagState, TextState, TokState, Token, Tokens,
};
use tok_rows::Transition;

// A token for each character.
fn emit_characters(text: &str, out: &mut Tokens) -> Result<(), NoMemory>
    ensures { OnOk result (out.new ≡ out.old ++ map Character (chars text.now)) }
{
    for c in text.chars() {
        out.push(Token::Character(c))?;
    }
    Ok(())
}

// The characters behind a value. A value that is dropped stays so.
fn append(held: Option<Attribute>, text: &str) -> Result<Option<Attribute>, NoMemory>
    ensures { IfOk result (λ h. h ≡ rows.value_with held (chars text.now)) }
{
    match held {
        None => Ok(None),
        Some(mut attribute) => {
            attribute.value.push_str(text)?;
            Ok(Some(attribute))
        }
    }
}

/// Returns from a reference with the characters of this text: they are emitted, or added to the
/// value. The character at hand may be reconsumed there.
pub fn put(
    back: ReturnState,
    text: &str,
    reconsumes: bool,
    out: &mut Tokens,
) -> Result<Transition, NoMemory>
    ensures { IfOk result
        (Follows (rows.literally back (chars text.now) reconsumes) out.old out.new) }
{
    let state = match back {
        ReturnState::Data => {
            emit_characters(text, out)?;
            TokState::Text(TextState::Data)
        }
        ReturnState::Rcdata(last) => {
            emit_characters(text, out)?;
            TokState::Text(TextState::Raw(RawText::Rcdata, last))
        }
        ReturnState::AttributeValueQuoted(tag, held, quote) => {
            let longer = append(held, text)?;
            TokState::Tag(TagState::AttributeValueQuoted(tag, longer, quote))
        }
        ReturnState::AttributeValueUnquoted(tag, held) => {
            let longer = append(held, text)?;
            TokState::Tag(TagState::AttributeValueUnquoted(tag, longer))
        }
    };
    Ok(Transition {
        state,
        again: reconsumes,
    })
}

/// Returns from what was no reference: its text stands as it was written.
pub fn literally(back: ReturnState, text: &str, out: &mut Tokens) -> Result<Transition, NoMemory>
    ensures { IfOk result (Follows (rows.literally back (chars text.now) true) out.old out.new) }
{
    put(back, text, true, out)
}
