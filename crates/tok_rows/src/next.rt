//! What a row's function answers, and the ways in which rows end. The tokens that it emits are
//! added to a queue.

ghost use Rattle.std.specs.Prelude.{◌≡◌, [], ◌∷◌, IfOk};
ghost use Rattle.standard.specs.Step as steps;
ghost use Rattle.tok_rows.specs.Steps.{Follows};
ghost use Rattle.html_types.specs.declared.token.Token.TheVariants.{Comment, EndOfFile};

use html_types::{
    Attributes, Name, NoMemory, PartialTag, Tag, TagKind, Text, TextState, TokState, Token, Tokens,
};
use std::alloc::Global;

/// The next state, and whether the character is reconsumed there.
#[derive(Drop)]
pub struct Transition {
    pub state: TokState,
    pub again: bool,
}

/// Switches to a state, and emits nothing.
pub fn to(state: TokState, out: &mut Tokens) -> Result<Transition, NoMemory>
    ensures { IfOk result (Follows (steps.to state) out.old out.new) }
{
    Ok(Transition {
        state,
        again: false,
    })
}

/// Reconsumes the character in a state, and emits nothing.
pub fn again(state: TokState, out: &mut Tokens) -> Result<Transition, NoMemory>
    ensures { IfOk result (Follows (steps.again state) out.old out.new) }
{
    Ok(Transition { state, again: true })
}

/// Emits a token and switches to a state of text, where all rows go that emit one, but those of
/// CDATA sections.
pub fn emit(token: Token, state: TextState, out: &mut Tokens) -> Result<Transition, NoMemory>
    ensures { IfOk result
        (Follows (steps.emit (token ∷ []) (steps.in_text state)) out.old out.new) }
{
    out.push(token)?;
    to(TokState::Text(state), out)
}

/// Emits a token and reconsumes the character in a state of text.
pub fn emit_again(token: Token, state: TextState, out: &mut Tokens) -> Result<Transition, NoMemory>
    ensures { IfOk result
        (Follows (steps.emit_again (token ∷ []) (steps.in_text state)) out.old out.new) }
{
    out.push(token)?;
    again(TokState::Text(state), out)
}

/// The data state.
pub fn data_state() -> TokState
    ensures { result ≡ steps.data_state }
{
    TokState::Text(TextState::Data)
}

/// Emits the end-of-file token.
pub fn finish(out: &mut Tokens) -> Result<Transition, NoMemory>
    ensures { IfOk result (Follows steps.finish out.old out.new) }
{
    emit(Token::EndOfFile, TextState::Data, out)
}

/// Emits a token, and then the end-of-file token.
pub fn finish_after(token: Token, out: &mut Tokens) -> Result<Transition, NoMemory>
    ensures { IfOk result
        (Follows (steps.emit (token ∷ EndOfFile ∷ []) steps.data_state) out.old out.new) }
{
    out.push(token)?;
    finish(out)
}

/// Emits a comment, and switches to the data state.
pub fn emit_comment(text: Text, out: &mut Tokens) -> Result<Transition, NoMemory>
    ensures { IfOk result
        (Follows (steps.emit (Comment text ∷ []) steps.data_state) out.old out.new) }
{
    emit(Token::Comment(text), TextState::Data, out)
}

/// A new tag of this name.
pub fn new_tag(alloc: Global, kind: TagKind, name: Text) -> PartialTag
    ensures { result ≡ steps.new_tag kind name }
{
    PartialTag {
        kind,
        name,
        attributes: Attributes::new(alloc),
    }
}

/// Emits the tag, its self-closing flag set or not, and switches to the data state.
pub fn emit_tag_as(
    closing: bool,
    partial: PartialTag,
    out: &mut Tokens,
) -> Result<Transition, NoMemory>
    ensures { IfOk result (Follows (steps.emit_tag_as closing partial) out.old out.new) }
{
    let PartialTag {
        kind,
        name,
        attributes,
    } = partial;
    let tag = Tag {
        name: Name::from_text(name)?,
        attributes,
        self_closing: closing,
    };
    match kind {
        TagKind::Start => emit(Token::StartTag(tag), TextState::Data, out),
        TagKind::End => emit(Token::EndTag(tag), TextState::Data, out),
    }
}

/// Emits the tag, and switches to the data state.
pub fn emit_tag(partial: PartialTag, out: &mut Tokens) -> Result<Transition, NoMemory>
    ensures { IfOk result (Follows (steps.emit_tag partial) out.old out.new) }
{
    emit_tag_as(false, partial, out)
}
