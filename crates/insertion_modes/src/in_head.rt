//! The rows of "in head" (13.2.6.4.4 #parsing-main-inhead).

ghost use Rattle.std.specs.Prelude.{◌≡◌};
ghost use Rattle.standard.specs.Rules.{row, start_row, end_row};

use char_class::is_space;
use html_types::instruction::Instr::*;
use html_types::instruction::Test::OnStack;
use html_types::instruction::Who::The;
use html_types::word::Word::{
    Base, Basefont, Bgsound, Body, Br, Head, Html, Link, Meta, Noframes, Noscript, Script, Style,
    Template, Title,
};
use html_types::{Instr, Mode, Name, Token, TokenizerSwitch, Word};

const OTHERWISE: &[Instr] = &[Pop, SwitchMode(Mode::AfterHead), Reprocess];

/// "in head"
#[tactic(auto, unfolding(standard::specs::Rules::row))]
pub fn in_head(token: &Token) -> &'static [Instr]
    ensures { result.now ≡ row Mode.InHead token.now }
{
    match token {
        Token::Character(c) => {
            if is_space(*c) {
                &[InsertText]
            } else {
                OTHERWISE
            }
        }
        Token::StartTag(tag) => match &tag.name {
            Name::Known(word) => start(*word),
            Name::Other(_, _) => OTHERWISE,
        },
        Token::EndTag(tag) => match &tag.name {
            Name::Known(word) => end(*word),
            Name::Other(_, _) => &[],
        },
        Token::Comment(_) => &[InsertComment],
        Token::Doctype {
            name: _,
            force_quirks: _,
        } => &[],
        Token::EndOfFile => OTHERWISE,
    }
}

fn start(word: Word) -> &'static [Instr]
    ensures { result.now ≡ start_row Mode.InHead (Name.Known word) }
{
    match word {
        Html => &[UsingRules(Mode::InBody)],
        Base | Basefont | Bgsound | Link | Meta => &[InsertAndPop],
        Title => &[
            Insert,
            SaveMode,
            SwitchMode(Mode::InText),
            SwitchTokenizer(TokenizerSwitch::Rcdata),
        ],
        Noscript | Noframes | Style => &[
            Insert,
            SaveMode,
            SwitchMode(Mode::InText),
            SwitchTokenizer(TokenizerSwitch::Rawtext),
        ],
        Script => &[
            Insert,
            SaveMode,
            SwitchMode(Mode::InText),
            SwitchTokenizer(TokenizerSwitch::ScriptData),
        ],
        Template => &[
            Insert,
            PushMarker,
            FramesetNotOk,
            SwitchMode(Mode::InTemplate),
            PushTemplateMode(Mode::InTemplate),
        ],
        Head => &[],
        _ => OTHERWISE,
    }
}

fn end(word: Word) -> &'static [Instr]
    ensures { result.now ≡ end_row Mode.InHead (Name.Known word) }
{
    match word {
        Head => &[Pop, SwitchMode(Mode::AfterHead)],
        Template => &[
            Need(OnStack(The(Template))),
            GenerateImpliedThoroughly,
            PopUntil(The(Template)),
            ClearToMarker,
            PopTemplateMode,
            ResetMode,
        ],
        Body | Html | Br => OTHERWISE,
        _ => &[],
    }
}
