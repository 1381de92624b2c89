//! The rows of "in cell" (13.2.6.4.15 #parsing-main-intd).

ghost use Rattle.std.specs.Prelude.{◌≡◌};
ghost use Rattle.standard.specs.Rules.{row, start_row, end_row};

use html_types::instruction::Instr::*;
use html_types::instruction::Test::InScope;
use html_types::instruction::Who::{Any, Own};
use html_types::word::Word::{
    Body, Caption, Col, Colgroup, Html, Table, Tbody, Td, Tfoot, Th, Thead, Tr,
};
use html_types::{Group, Instr, Mode, Name, Scope, Token, Word};

/// "in cell"
#[tactic(auto, unfolding(standard::specs::Rules::row))]
pub fn in_cell(token: &Token) -> &'static [Instr]
    ensures { result.now ≡ row Mode.InCell token.now }
{
    match token {
        Token::Character(_) => &[UsingRules(Mode::InBody)],
        Token::StartTag(tag) => match &tag.name {
            Name::Known(word) => start(*word),
            Name::Other(_, _) => &[UsingRules(Mode::InBody)],
        },
        Token::EndTag(tag) => match &tag.name {
            Name::Known(word) => end(*word),
            Name::Other(_, _) => &[UsingRules(Mode::InBody)],
        },
        Token::Comment(_) => &[InsertComment],
        Token::Doctype {
            name: _,
            force_quirks: _,
        } => &[],
        Token::EndOfFile => &[UsingRules(Mode::InBody)],
    }
}

// "Close the cell", then once more.
fn start(word: Word) -> &'static [Instr]
    ensures { result.now ≡ start_row Mode.InCell (Name.Known word) }
{
    match word {
        Caption | Col | Colgroup | Tbody | Td | Tfoot | Th | Thead | Tr => &[
            GenerateImplied,
            PopUntil(Any(Group::Cells)),
            ClearToMarker,
            SwitchMode(Mode::InRow),
            Reprocess,
        ],
        _ => &[UsingRules(Mode::InBody)],
    }
}

fn end(word: Word) -> &'static [Instr]
    ensures { result.now ≡ end_row Mode.InCell (Name.Known word) }
{
    match word {
        Td | Th => &[
            Need(InScope(Scope::Table, Own)),
            GenerateImplied,
            PopUntil(Own),
            ClearToMarker,
            SwitchMode(Mode::InRow),
        ],
        Body | Caption | Col | Colgroup | Html => &[],
        Table | Tbody | Tfoot | Thead | Tr => &[
            Need(InScope(Scope::Table, Own)),
            GenerateImplied,
            PopUntil(Any(Group::Cells)),
            ClearToMarker,
            SwitchMode(Mode::InRow),
            Reprocess,
        ],
        _ => &[UsingRules(Mode::InBody)],
    }
}
