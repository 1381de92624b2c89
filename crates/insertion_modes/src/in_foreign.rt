//! The rules for parsing tokens in foreign content (13.2.6.5 #parsing-main-inforeign).

ghost use Rattle.std.specs.Prelude.{◌≡◌};
ghost use Rattle.html_types.specs.declared.instruction.Mode.TheVariants as mode;
ghost use Rattle.standard.specs.Rules.{row, character_row, end_row};

use char_class::is_space;
use html_types::instruction::Instr::*;
use html_types::instruction::Test::{BreaksOut, SelfClosing};
use html_types::{Instr, Name, Token, Word};

/// The rules for foreign content.
#[tactic(auto, unfolding(standard::specs::Rules::row))]
pub fn in_foreign(token: &Token) -> &'static [Instr]
    ensures { result.now ≡ row mode.InForeign token.now }
{
    match token {
        Token::Character(c) => character(*c),
        Token::StartTag(_) => &[
            When(BreaksOut),
            BreakOut,
            InsertForeign,
            When(SelfClosing),
            Pop,
        ],
        Token::EndTag(tag) => match &tag.name {
            Name::Known(word) => end(*word),
            Name::Other(_, _) => &[ForeignEnd],
        },
        Token::Comment(_) => &[InsertComment],
        Token::Doctype {
            name: _,
            force_quirks: _,
        } => &[],
        Token::EndOfFile => &[],
    }
}

fn character(c: char) -> &'static [Instr]
    ensures { result.now ≡ character_row mode.InForeign c }
{
    if c == '\0' {
        &[InsertReplacement]
    } else if is_space(c) {
        &[InsertText]
    } else {
        &[InsertText, FramesetNotOk]
    }
}

fn end(word: Word) -> &'static [Instr]
    ensures { result.now ≡ end_row mode.InForeign (Name.Known word) }
{
    match word {
        Word::Br | Word::P => &[BreakOut],
        _ => &[ForeignEnd],
    }
}
