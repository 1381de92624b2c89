//! The rows of "in column group" (13.2.6.4.12 #parsing-main-incolgroup).

ghost use Rattle.std.specs.Prelude.{◌≡◌};
ghost use Rattle.standard.specs.Rules.{row, start_row, end_row};

use char_class::is_space;
use html_types::instruction::Instr::*;
use html_types::instruction::Test::Current;
use html_types::instruction::Who::The;
use html_types::word::Word::{Col, Colgroup, Html, Template};
use html_types::{Instr, Mode, Name, Token, Word};

const OTHERWISE: &[Instr] = &[
    Need(Current(The(Colgroup))),
    Pop,
    SwitchMode(Mode::InTable),
    Reprocess,
];

/// "in column group"
#[tactic(auto, unfolding(standard::specs::Rules::row))]
pub fn in_column_group(token: &Token) -> &'static [Instr]
    ensures { result.now ≡ row Mode.InColumnGroup token.now }
{
    match token {
        Token::Character(c) => {
            if is_space(*c) {
                &[InsertText]
            } else {
                OTHERWISE
            }
        }
        Token::StartTag(tag) => match &tag.name {
            Name::Known(word) => start(*word),
            Name::Other(_, _) => OTHERWISE,
        },
        Token::EndTag(tag) => match &tag.name {
            Name::Known(word) => end(*word),
            Name::Other(_, _) => OTHERWISE,
        },
        Token::Comment(_) => &[InsertComment],
        Token::Doctype {
            name: _,
            force_quirks: _,
        } => &[],
        Token::EndOfFile => &[UsingRules(Mode::InBody)],
    }
}

fn start(word: Word) -> &'static [Instr]
    ensures { result.now ≡ start_row Mode.InColumnGroup (Name.Known word) }
{
    match word {
        Html => &[UsingRules(Mode::InBody)],
        Col => &[InsertAndPop],
        Template => &[UsingRules(Mode::InHead)],
        _ => OTHERWISE,
    }
}

fn end(word: Word) -> &'static [Instr]
    ensures { result.now ≡ end_row Mode.InColumnGroup (Name.Known word) }
{
    match word {
        Colgroup => &[Need(Current(The(Colgroup))), Pop, SwitchMode(Mode::InTable)],
        Col => &[],
        Template => &[UsingRules(Mode::InHead)],
        _ => OTHERWISE,
    }
}
