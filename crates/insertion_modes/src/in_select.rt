//! The rows of "in select" (13.2.6.4.16 #parsing-main-inselect) and "in select in table"
//! (13.2.6.4.17 #parsing-main-inselectintable).

ghost use Rattle.std.specs.Prelude.{◌≡◌};
ghost use Rattle.standard.specs.Rules.{row, start_row, end_row};

use html_types::instruction::Instr::*;
use html_types::instruction::Test::{Current, InScope, OptionInOptgroup};
use html_types::instruction::Who::{Own, The};
use html_types::word::Word::{
    Caption, Hr, Html, Input, Keygen, Optgroup, Script, Select, Table, Tbody, Td, Template,
    Textarea, Tfoot, Th, Thead, Tr,
};
use html_types::{Instr, Mode, Name, Scope, Token, Word};

/// The select element is closed.
const CLOSE: &[Instr] = &[
    Need(InScope(Scope::Select, The(Select))),
    PopUntil(The(Select)),
    ResetMode,
];

/// "in select"
#[tactic(auto, unfolding(standard::specs::Rules::row))]
pub fn in_select(token: &Token) -> &'static [Instr]
    ensures { result.now ≡ row Mode.InSelect token.now }
{
    match token {
        Token::Character(c) => { if *c == '\0' { &[] } else { &[InsertText] } }
        Token::StartTag(tag) => match &tag.name {
            Name::Known(word) => in_select_start(*word),
            Name::Other(_, _) => &[],
        },
        Token::EndTag(tag) => match &tag.name {
            Name::Known(word) => in_select_end(*word),
            Name::Other(_, _) => &[],
        },
        Token::Comment(_) => &[InsertComment],
        Token::Doctype {
            name: _,
            force_quirks: _,
        } => &[],
        Token::EndOfFile => &[UsingRules(Mode::InBody)],
    }
}

fn in_select_start(word: Word) -> &'static [Instr]
    ensures { result.now ≡ start_row Mode.InSelect (Name.Known word) }
{
    match word {
        Html => &[UsingRules(Mode::InBody)],
        Word::Option => &[When(Current(The(Word::Option))), Pop, Insert],
        Optgroup => &[
            When(Current(The(Word::Option))),
            Pop,
            When(Current(The(Optgroup))),
            Pop,
            Insert,
        ],
        Hr => &[
            When(Current(The(Word::Option))),
            Pop,
            When(Current(The(Optgroup))),
            Pop,
            InsertAndPop,
        ],
        Select => CLOSE,
        Input | Keygen | Textarea => &[
            Need(InScope(Scope::Select, The(Select))),
            PopUntil(The(Select)),
            ResetMode,
            Reprocess,
        ],
        Script | Template => &[UsingRules(Mode::InHead)],
        _ => &[],
    }
}

fn in_select_end(word: Word) -> &'static [Instr]
    ensures { result.now ≡ end_row Mode.InSelect (Name.Known word) }
{
    match word {
        Optgroup => &[
            When(OptionInOptgroup),
            Pop,
            Need(Current(The(Optgroup))),
            Pop,
        ],
        Word::Option => &[Need(Current(The(Word::Option))), Pop],
        Select => CLOSE,
        Template => &[UsingRules(Mode::InHead)],
        _ => &[],
    }
}

/// "in select in table"
#[tactic(auto, unfolding(standard::specs::Rules::row))]
pub fn in_select_in_table(token: &Token) -> &'static [Instr]
    ensures { result.now ≡ row Mode.InSelectInTable token.now }
{
    match token {
        Token::Character(_) => &[UsingRules(Mode::InSelect)],
        Token::StartTag(tag) => match &tag.name {
            Name::Known(word) => in_select_in_table_start(*word),
            Name::Other(_, _) => &[UsingRules(Mode::InSelect)],
        },
        Token::EndTag(tag) => match &tag.name {
            Name::Known(word) => in_select_in_table_end(*word),
            Name::Other(_, _) => &[UsingRules(Mode::InSelect)],
        },
        Token::Comment(_) => &[InsertComment],
        Token::Doctype {
            name: _,
            force_quirks: _,
        } => &[],
        Token::EndOfFile => &[UsingRules(Mode::InSelect)],
    }
}

fn in_select_in_table_start(word: Word) -> &'static [Instr]
    ensures { result.now ≡ start_row Mode.InSelectInTable (Name.Known word) }
{
    match word {
        Caption | Table | Tbody | Tfoot | Thead | Tr | Td | Th => {
            &[PopUntil(The(Select)), ResetMode, Reprocess]
        }
        _ => &[UsingRules(Mode::InSelect)],
    }
}

fn in_select_in_table_end(word: Word) -> &'static [Instr]
    ensures { result.now ≡ end_row Mode.InSelectInTable (Name.Known word) }
{
    match word {
        Caption | Table | Tbody | Tfoot | Thead | Tr | Td | Th => &[
            Need(InScope(Scope::Table, Own)),
            PopUntil(The(Select)),
            ResetMode,
            Reprocess,
        ],
        _ => &[UsingRules(Mode::InSelect)],
    }
}
