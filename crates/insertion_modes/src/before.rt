//! The rows of "initial" (13.2.6.4.1 #the-initial-insertion-mode), "before html"
//! (13.2.6.4.2 #the-before-html-insertion-mode) and "before head"
//! (13.2.6.4.3 #the-before-head-insertion-mode).

ghost use Rattle.std.specs.Prelude.{◌≡◌};
ghost use Rattle.standard.specs.Rules.{row, start_row, end_row, character_row};

use char_class::is_space;
use html_types::instruction::Instr::*;
use html_types::word::Word::{Body, Br, Head, Html};
use html_types::{Instr, Mode, Name, Test, Token, Word};

const NO_DOCTYPE: &[Instr] = &[BecomeQuirky, SwitchMode(Mode::BeforeHtml), Reprocess];

const NO_HTML: &[Instr] = &[InsertRootA, SwitchMode(Mode::BeforeHead), Reprocess];

const NO_HEAD: &[Instr] = &[
    InsertA(Head),
    SetHeadPointer,
    SwitchMode(Mode::InHead),
    Reprocess,
];

/// "initial"
#[tactic(auto, unfolding(standard::specs::Rules::row))]
pub fn initial(token: &Token) -> &'static [Instr]
    ensures { result.now ≡ row Mode.Initial token.now }
{
    match token {
        Token::Character(c) => { if is_space(*c) { &[] } else { NO_DOCTYPE } }
        Token::Comment(_) => &[CommentToPage],
        Token::Doctype {
            name: _,
            force_quirks: _,
        } => &[
            AppendDoctype,
            When(Test::QuirkyDoctype),
            BecomeQuirky,
            SwitchMode(Mode::BeforeHtml),
        ],
        Token::StartTag(_) | Token::EndTag(_) | Token::EndOfFile => NO_DOCTYPE,
    }
}

/// "before html"
#[tactic(auto, unfolding(standard::specs::Rules::row))]
pub fn before_html(token: &Token) -> &'static [Instr]
    ensures { result.now ≡ row Mode.BeforeHtml token.now }
{
    match token {
        Token::Character(c) => { if is_space(*c) { &[] } else { NO_HTML } }
        Token::StartTag(tag) => match &tag.name {
            Name::Known(word) => before_html_start(*word),
            Name::Other(_, _) => NO_HTML,
        },
        Token::EndTag(tag) => match &tag.name {
            Name::Known(word) => before_html_end(*word),
            Name::Other(_, _) => &[],
        },
        Token::Comment(_) => &[CommentToPage],
        Token::Doctype {
            name: _,
            force_quirks: _,
        } => &[],
        Token::EndOfFile => NO_HTML,
    }
}

fn before_html_start(word: Word) -> &'static [Instr]
    ensures { result.now ≡ start_row Mode.BeforeHtml (Name.Known word) }
{
    match word {
        Html => &[InsertRoot, SwitchMode(Mode::BeforeHead)],
        _ => NO_HTML,
    }
}

fn before_html_end(word: Word) -> &'static [Instr]
    ensures { result.now ≡ end_row Mode.BeforeHtml (Name.Known word) }
{
    match word {
        Head | Body | Html | Br => NO_HTML,
        _ => &[],
    }
}

/// "before head"
#[tactic(auto, unfolding(standard::specs::Rules::row))]
pub fn before_head(token: &Token) -> &'static [Instr]
    ensures { result.now ≡ row Mode.BeforeHead token.now }
{
    match token {
        Token::Character(c) => { if is_space(*c) { &[] } else { NO_HEAD } }
        Token::StartTag(tag) => match &tag.name {
            Name::Known(word) => before_head_start(*word),
            Name::Other(_, _) => NO_HEAD,
        },
        Token::EndTag(tag) => match &tag.name {
            Name::Known(word) => before_head_end(*word),
            Name::Other(_, _) => &[],
        },
        Token::Comment(_) => &[InsertComment],
        Token::Doctype {
            name: _,
            force_quirks: _,
        } => &[],
        Token::EndOfFile => NO_HEAD,
    }
}

fn before_head_start(word: Word) -> &'static [Instr]
    ensures { result.now ≡ start_row Mode.BeforeHead (Name.Known word) }
{
    match word {
        Html => &[UsingRules(Mode::InBody)],
        Head => &[Insert, SetHeadPointer, SwitchMode(Mode::InHead)],
        _ => NO_HEAD,
    }
}

fn before_head_end(word: Word) -> &'static [Instr]
    ensures { result.now ≡ end_row Mode.BeforeHead (Name.Known word) }
{
    match word {
        Head | Body | Html | Br => NO_HEAD,
        _ => &[],
    }
}
