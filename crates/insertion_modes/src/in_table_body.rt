//! The rows of "in table body" (13.2.6.4.13 #parsing-main-intbody).

ghost use Rattle.std.specs.Prelude.{◌≡◌};
ghost use Rattle.standard.specs.Rules.{row, start_row, end_row};

use html_types::instruction::Instr::*;
use html_types::instruction::Test::InScope;
use html_types::instruction::Who::{Any, Own};
use html_types::word::Word::{
    Body, Caption, Col, Colgroup, Html, Table, Tbody, Td, Tfoot, Th, Thead, Tr,
};
use html_types::{Group, Instr, Mode, Name, Scope, Token, Word};

/// "Clear the stack back to a table body context."
const CLEAR: Instr = ClearBackTo(Group::TableBodyContext);

/// The section is closed, and the token goes by "in table".
const CLOSE_AGAIN: &[Instr] = &[
    Need(InScope(Scope::Table, Any(Group::TableSections))),
    CLEAR,
    Pop,
    SwitchMode(Mode::InTable),
    Reprocess,
];

/// "in table body"
#[tactic(auto, unfolding(standard::specs::Rules::row))]
pub fn in_table_body(token: &Token) -> &'static [Instr]
    ensures { result.now ≡ row Mode.InTableBody token.now }
{
    match token {
        Token::Character(_) => &[UsingRules(Mode::InTable)],
        Token::StartTag(tag) => match &tag.name {
            Name::Known(word) => start(*word),
            Name::Other(_, _) => &[UsingRules(Mode::InTable)],
        },
        Token::EndTag(tag) => match &tag.name {
            Name::Known(word) => end(*word),
            Name::Other(_, _) => &[UsingRules(Mode::InTable)],
        },
        Token::Comment(_) => &[InsertComment],
        Token::Doctype {
            name: _,
            force_quirks: _,
        } => &[],
        Token::EndOfFile => &[UsingRules(Mode::InTable)],
    }
}

fn start(word: Word) -> &'static [Instr]
    ensures { result.now ≡ start_row Mode.InTableBody (Name.Known word) }
{
    match word {
        Tr => &[CLEAR, Insert, SwitchMode(Mode::InRow)],
        Th | Td => &[CLEAR, InsertA(Tr), SwitchMode(Mode::InRow), Reprocess],
        Caption | Col | Colgroup | Tbody | Tfoot | Thead => CLOSE_AGAIN,
        _ => &[UsingRules(Mode::InTable)],
    }
}

fn end(word: Word) -> &'static [Instr]
    ensures { result.now ≡ end_row Mode.InTableBody (Name.Known word) }
{
    match word {
        Tbody | Tfoot | Thead => &[
            Need(InScope(Scope::Table, Own)),
            CLEAR,
            Pop,
            SwitchMode(Mode::InTable),
        ],
        Table => CLOSE_AGAIN,
        Body | Caption | Col | Colgroup | Html | Td | Th | Tr => &[],
        _ => &[UsingRules(Mode::InTable)],
    }
}
