//! The rows of "in body" (13.2.6.4.7 #parsing-main-inbody).

ghost use Rattle.std.specs.Prelude.{◌≡◌};
ghost use Rattle.html_types.specs.declared.instruction.Mode.TheVariants as mode;
ghost use Rattle.standard.specs.Rules.{row, character_row};

use crate::in_body_end::end;
use crate::in_body_start::start;
use char_class::is_space;
use html_types::instruction::Instr::*;
use html_types::instruction::Test::InTemplates;
use html_types::{Instr, Mode, Name, Token};

/// "in body"
#[tactic(auto, unfolding(standard::specs::Rules::row))]
pub fn in_body(token: &Token) -> &'static [Instr]
    ensures { result.now ≡ row mode.InBody token.now }
{
    match token {
        Token::Character(c) => character(*c),
        Token::StartTag(tag) => match &tag.name {
            Name::Known(word) => start(*word),
            Name::Other(_, _) => &[Reconstruct, Insert],
        },
        Token::EndTag(tag) => match &tag.name {
            Name::Known(word) => end(*word),
            Name::Other(_, _) => &[AnyOtherEnd],
        },
        Token::Comment(_) => &[InsertComment],
        Token::Doctype {
            name: _,
            force_quirks: _,
        } => &[],
        Token::EndOfFile => &[When(InTemplates), UsingRules(Mode::InTemplate), Finish],
    }
}

fn character(c: char) -> &'static [Instr]
    ensures { result.now ≡ character_row mode.InBody c }
{
    if c == '\0' {
        &[]
    } else if is_space(c) {
        &[Reconstruct, InsertText]
    } else {
        &[Reconstruct, InsertText, FramesetNotOk]
    }
}
