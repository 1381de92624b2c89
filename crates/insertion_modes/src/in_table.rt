//! The rows of "in table" (13.2.6.4.9 #parsing-main-intable).

ghost use Rattle.std.specs.Prelude.{◌≡◌};
ghost use Rattle.standard.specs.Rules.{row, start_row, end_row};

use html_types::instruction::Instr::*;
use html_types::instruction::Test::{Current, HiddenInput, InForm, InScope, OnStack};
use html_types::instruction::Who::{Any, The};
use html_types::word::Word::{
    Body, Caption, Col, Colgroup, Form, Html, Input, Script, Style, Table, Tbody, Td, Template,
    Tfoot, Th, Thead, Tr,
};
use html_types::{Group, Instr, Mode, Name, Scope, Token, Word};

/// "Clear the stack back to a table context."
const CLEAR: Instr = ClearBackTo(Group::TableContext);

/// "in table"
#[tactic(auto, unfolding(standard::specs::Rules::row))]
pub fn in_table(token: &Token) -> &'static [Instr]
    ensures { result.now ≡ row Mode.InTable token.now }
{
    match token {
        Token::Character(_) => &[
            Unless(Current(Any(Group::TextTargets))),
            InBodyFostering,
            SaveMode,
            SwitchMode(Mode::InTableText),
            Reprocess,
        ],
        Token::StartTag(tag) => match &tag.name {
            Name::Known(word) => start(*word),
            Name::Other(_, _) => &[InBodyFostering],
        },
        Token::EndTag(tag) => match &tag.name {
            Name::Known(word) => end(*word),
            Name::Other(_, _) => &[InBodyFostering],
        },
        Token::Comment(_) => &[InsertComment],
        Token::Doctype {
            name: _,
            force_quirks: _,
        } => &[],
        Token::EndOfFile => &[UsingRules(Mode::InBody)],
    }
}

fn start(word: Word) -> &'static [Instr]
    ensures { result.now ≡ start_row Mode.InTable (Name.Known word) }
{
    match word {
        Caption => &[CLEAR, PushMarker, Insert, SwitchMode(Mode::InCaption)],
        Colgroup => &[CLEAR, Insert, SwitchMode(Mode::InColumnGroup)],
        Col => &[
            CLEAR,
            InsertA(Colgroup),
            SwitchMode(Mode::InColumnGroup),
            Reprocess,
        ],
        Tbody | Tfoot | Thead => &[CLEAR, Insert, SwitchMode(Mode::InTableBody)],
        Td | Th | Tr => &[
            CLEAR,
            InsertA(Tbody),
            SwitchMode(Mode::InTableBody),
            Reprocess,
        ],
        Table => &[
            Need(InScope(Scope::Table, The(Table))),
            PopUntil(The(Table)),
            ResetMode,
            Reprocess,
        ],
        Style | Script | Template => &[UsingRules(Mode::InHead)],
        Input => &[Unless(HiddenInput), InBodyFostering, InsertAndPop],
        Form => &[
            Forbid(OnStack(The(Template))),
            Forbid(InForm),
            Insert,
            SetFormPointer,
            Pop,
        ],
        _ => &[InBodyFostering],
    }
}

fn end(word: Word) -> &'static [Instr]
    ensures { result.now ≡ end_row Mode.InTable (Name.Known word) }
{
    match word {
        Table => &[
            Need(InScope(Scope::Table, The(Table))),
            PopUntil(The(Table)),
            ResetMode,
        ],
        Body | Caption | Col | Colgroup | Html | Tbody | Td | Tfoot | Th | Thead | Tr => &[],
        Template => &[UsingRules(Mode::InHead)],
        _ => &[InBodyFostering],
    }
}
