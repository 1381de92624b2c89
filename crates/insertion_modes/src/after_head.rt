//! The rows of "after head" (13.2.6.4.6 #the-after-head-insertion-mode).

ghost use Rattle.std.specs.Prelude.{◌≡◌};
ghost use Rattle.standard.specs.Rules.{row, start_row, end_row};

use char_class::is_space;
use html_types::instruction::Instr::*;
use html_types::word::Word::{
    Base, Basefont, Bgsound, Body, Br, Frameset, Head, Html, Link, Meta, Noframes, Script, Style,
    Template, Title,
};
use html_types::{Instr, Mode, Name, Token, TokenizerSwitch, Word};

const OTHERWISE: &[Instr] = &[InsertA(Body), SwitchMode(Mode::InBody), Reprocess];

/// "after head"
#[tactic(auto, unfolding(standard::specs::Rules::row))]
pub fn after_head(token: &Token) -> &'static [Instr]
    ensures { result.now ≡ row Mode.AfterHead token.now }
{
    match token {
        Token::Character(c) => {
            if is_space(*c) {
                &[InsertText]
            } else {
                OTHERWISE
            }
        }
        Token::StartTag(tag) => match &tag.name {
            Name::Known(word) => start(*word),
            Name::Other(_, _) => OTHERWISE,
        },
        Token::EndTag(tag) => match &tag.name {
            Name::Known(word) => end(*word),
            Name::Other(_, _) => &[],
        },
        Token::Comment(_) => &[InsertComment],
        Token::Doctype {
            name: _,
            force_quirks: _,
        } => &[],
        Token::EndOfFile => OTHERWISE,
    }
}

// What goes into the head is pushed on its node, which leaves the stack at once.
fn start(word: Word) -> &'static [Instr]
    ensures { result.now ≡ start_row Mode.AfterHead (Name.Known word) }
{
    match word {
        Html => &[UsingRules(Mode::InBody)],
        Body => &[Insert, FramesetNotOk, SwitchMode(Mode::InBody)],
        Frameset => &[Insert, SwitchMode(Mode::InFrameset)],
        Base | Basefont | Bgsound | Link | Meta => &[PushHead, InsertAndPop, TakeHeadOff],
        Title => &[
            PushHead,
            Insert,
            TakeHeadOff,
            SaveMode,
            SwitchMode(Mode::InText),
            SwitchTokenizer(TokenizerSwitch::Rcdata),
        ],
        Noframes | Style => &[
            PushHead,
            Insert,
            TakeHeadOff,
            SaveMode,
            SwitchMode(Mode::InText),
            SwitchTokenizer(TokenizerSwitch::Rawtext),
        ],
        Script => &[
            PushHead,
            Insert,
            TakeHeadOff,
            SaveMode,
            SwitchMode(Mode::InText),
            SwitchTokenizer(TokenizerSwitch::ScriptData),
        ],
        Template => &[
            PushHead,
            Insert,
            TakeHeadOff,
            PushMarker,
            FramesetNotOk,
            SwitchMode(Mode::InTemplate),
            PushTemplateMode(Mode::InTemplate),
        ],
        Head => &[],
        _ => OTHERWISE,
    }
}

fn end(word: Word) -> &'static [Instr]
    ensures { result.now ≡ end_row Mode.AfterHead (Name.Known word) }
{
    match word {
        Template => &[UsingRules(Mode::InHead)],
        Body | Html | Br => OTHERWISE,
        _ => &[],
    }
}
