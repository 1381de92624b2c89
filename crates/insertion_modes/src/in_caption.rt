//! The rows of "in caption" (13.2.6.4.11 #parsing-main-incaption).

ghost use Rattle.std.specs.Prelude.{◌≡◌};
ghost use Rattle.standard.specs.Rules.{row, start_row, end_row};

use html_types::instruction::Instr::*;
use html_types::instruction::Test::InScope;
use html_types::instruction::Who::The;
use html_types::word::Word::{
    Body, Caption, Col, Colgroup, Html, Table, Tbody, Td, Tfoot, Th, Thead, Tr,
};
use html_types::{Instr, Mode, Name, Scope, Token, Word};

/// The caption is closed, and the token goes by "in table".
const CLOSE_AGAIN: &[Instr] = &[
    Need(InScope(Scope::Table, The(Caption))),
    GenerateImplied,
    PopUntil(The(Caption)),
    ClearToMarker,
    SwitchMode(Mode::InTable),
    Reprocess,
];

/// "in caption"
#[tactic(auto, unfolding(standard::specs::Rules::row))]
pub fn in_caption(token: &Token) -> &'static [Instr]
    ensures { result.now ≡ row Mode.InCaption token.now }
{
    match token {
        Token::Character(_) => &[UsingRules(Mode::InBody)],
        Token::StartTag(tag) => match &tag.name {
            Name::Known(word) => start(*word),
            Name::Other(_, _) => &[UsingRules(Mode::InBody)],
        },
        Token::EndTag(tag) => match &tag.name {
            Name::Known(word) => end(*word),
            Name::Other(_, _) => &[UsingRules(Mode::InBody)],
        },
        Token::Comment(_) => &[InsertComment],
        Token::Doctype {
            name: _,
            force_quirks: _,
        } => &[],
        Token::EndOfFile => &[UsingRules(Mode::InBody)],
    }
}

fn start(word: Word) -> &'static [Instr]
    ensures { result.now ≡ start_row Mode.InCaption (Name.Known word) }
{
    match word {
        Caption | Col | Colgroup | Tbody | Td | Tfoot | Th | Thead | Tr => CLOSE_AGAIN,
        _ => &[UsingRules(Mode::InBody)],
    }
}

fn end(word: Word) -> &'static [Instr]
    ensures { result.now ≡ end_row Mode.InCaption (Name.Known word) }
{
    match word {
        Caption => &[
            Need(InScope(Scope::Table, The(Caption))),
            GenerateImplied,
            PopUntil(The(Caption)),
            ClearToMarker,
            SwitchMode(Mode::InTable),
        ],
        Table => CLOSE_AGAIN,
        Body | Col | Colgroup | Html | Tbody | Td | Tfoot | Th | Thead | Tr => &[],
        _ => &[UsingRules(Mode::InBody)],
    }
}
