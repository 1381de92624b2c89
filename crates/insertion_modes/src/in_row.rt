//! The rows of "in row" (13.2.6.4.14 #parsing-main-intr).

ghost use Rattle.std.specs.Prelude.{◌≡◌};
ghost use Rattle.standard.specs.Rules.{row, start_row, end_row};

use html_types::instruction::Instr::*;
use html_types::instruction::Test::InScope;
use html_types::instruction::Who::{Own, The};
use html_types::word::Word::{
    Body, Caption, Col, Colgroup, Html, Table, Tbody, Td, Tfoot, Th, Thead, Tr,
};
use html_types::{Group, Instr, Mode, Name, Scope, Token, Word};

/// "Clear the stack back to a table row context."
const CLEAR: Instr = ClearBackTo(Group::RowContext);

/// The row is closed, and the token goes by "in table body".
const CLOSE_AGAIN: &[Instr] = &[
    Need(InScope(Scope::Table, The(Tr))),
    CLEAR,
    Pop,
    SwitchMode(Mode::InTableBody),
    Reprocess,
];

/// "in row"
#[tactic(auto, unfolding(standard::specs::Rules::row))]
pub fn in_row(token: &Token) -> &'static [Instr]
    ensures { result.now ≡ row Mode.InRow token.now }
{
    match token {
        Token::Character(_) => &[UsingRules(Mode::InTable)],
        Token::StartTag(tag) => match &tag.name {
            Name::Known(word) => start(*word),
            Name::Other(_, _) => &[UsingRules(Mode::InTable)],
        },
        Token::EndTag(tag) => match &tag.name {
            Name::Known(word) => end(*word),
            Name::Other(_, _) => &[UsingRules(Mode::InTable)],
        },
        Token::Comment(_) => &[InsertComment],
        Token::Doctype {
            name: _,
            force_quirks: _,
        } => &[],
        Token::EndOfFile => &[UsingRules(Mode::InTable)],
    }
}

fn start(word: Word) -> &'static [Instr]
    ensures { result.now ≡ start_row Mode.InRow (Name.Known word) }
{
    match word {
        Th | Td => &[CLEAR, Insert, SwitchMode(Mode::InCell), PushMarker],
        Caption | Col | Colgroup | Tbody | Tfoot | Thead | Tr => CLOSE_AGAIN,
        _ => &[UsingRules(Mode::InTable)],
    }
}

fn end(word: Word) -> &'static [Instr]
    ensures { result.now ≡ end_row Mode.InRow (Name.Known word) }
{
    match word {
        Tr => &[
            Need(InScope(Scope::Table, The(Tr))),
            CLEAR,
            Pop,
            SwitchMode(Mode::InTableBody),
        ],
        Table => CLOSE_AGAIN,
        Tbody | Tfoot | Thead => &[
            Need(InScope(Scope::Table, Own)),
            Need(InScope(Scope::Table, The(Tr))),
            CLEAR,
            Pop,
            SwitchMode(Mode::InTableBody),
            Reprocess,
        ],
        Body | Caption | Col | Colgroup | Html | Td | Th => &[],
        _ => &[UsingRules(Mode::InTable)],
    }
}
