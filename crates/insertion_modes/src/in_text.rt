//! The rows of "text" (13.2.6.4.8 #parsing-main-incdata).

ghost use Rattle.std.specs.Prelude.{◌≡◌};
ghost use Rattle.html_types.specs.declared.instruction.Mode.TheVariants as mode;
ghost use Rattle.standard.specs.Rules.{row, end_row};

use html_types::instruction::Instr::*;
use html_types::{Instr, Name, Token, Word};

/// "text"
#[tactic(auto, unfolding(standard::specs::Rules::row))]
pub fn in_text(token: &Token) -> &'static [Instr]
    ensures { result.now ≡ row mode.InText token.now }
{
    match token {
        Token::Character(_) => &[InsertText],
        Token::EndTag(tag) => match &tag.name {
            Name::Known(word) => end(*word),
            Name::Other(_, _) => &[Pop, RestoreMode],
        },
        Token::EndOfFile => &[Pop, RestoreMode, Reprocess],
        Token::StartTag(_) => &[],
        Token::Comment(_) => &[InsertComment],
        Token::Doctype {
            name: _,
            force_quirks: _,
        } => &[],
    }
}

fn end(word: Word) -> &'static [Instr]
    ensures { result.now ≡ end_row mode.InText (Name.Known word) }
{
    match word {
        Word::Script => &[RestoreMode, StopAtScript],
        _ => &[Pop, RestoreMode],
    }
}
