//! The rows of "in template" (13.2.6.4.18 #parsing-main-intemplate).

ghost use Rattle.std.specs.Prelude.{◌≡◌, drop};
ghost use Rattle.standard.specs.Rows.{row_for};
ghost use Rattle.standard.specs.Rules.{row, start_row, end_row};
ghost use Rattle.standard.specs.RulesRest.{in_template_start, in_template_any_start};

use html_types::instruction::Instr::*;
use html_types::instruction::Test::OnStack;
use html_types::instruction::Who::The;
use html_types::word::Word::{
    Base, Basefont, Bgsound, Caption, Col, Colgroup, Link, Meta, Noframes, Script, Style, Tbody,
    Td, Template, Tfoot, Th, Thead, Title, Tr,
};
use html_types::{Instr, Mode, Name, Token, Word};

/// What a start tag makes of the template that has no rule of its own.
const AS_BODY: &[Instr] = &[
    PopTemplateMode,
    PushTemplateMode(Mode::InBody),
    SwitchMode(Mode::InBody),
    Reprocess,
];

/// "in template"
#[tactic(auto, unfolding(standard::specs::Rules::row))]
pub fn in_template(token: &Token) -> &'static [Instr]
    ensures { result.now ≡ row Mode.InTemplate token.now }
{
    match token {
        Token::Character(_) => &[UsingRules(Mode::InBody)],
        Token::StartTag(tag) => match &tag.name {
            Name::Known(word) => start(*word),
            Name::Other(_, _) => AS_BODY,
        },
        Token::EndTag(tag) => match &tag.name {
            Name::Known(word) => end(*word),
            Name::Other(_, _) => &[],
        },
        Token::Comment(_) => &[UsingRules(Mode::InBody)],
        Token::Doctype {
            name: _,
            force_quirks: _,
        } => &[UsingRules(Mode::InBody)],
        Token::EndOfFile => &[
            Unless(OnStack(The(Template))),
            Finish,
            PopUntil(The(Template)),
            ClearToMarker,
            PopTemplateMode,
            ResetMode,
            Reprocess,
        ],
    }
}

// The head's elements go by its rules; else the template's mode is replaced by one that fits what
// comes.
fn start(word: Word) -> &'static [Instr]
    ensures { result.now ≡ start_row Mode.InTemplate (Name.Known word) }
{
    match word {
        Base | Basefont | Bgsound | Link | Meta | Noframes | Script | Style | Template | Title => {
            &[UsingRules(Mode::InHead)]
        }
        _ => start_of_content(word),
    }
}

// The same for a name that isn't the head's.
fn start_of_content(word: Word) -> &'static [Instr]
    ensures { result.now
        ≡ row_for (drop 1 in_template_start) in_template_any_start (Name.Known word) }
{
    match word {
        Caption | Colgroup | Tbody | Tfoot | Thead => &[
            PopTemplateMode,
            PushTemplateMode(Mode::InTable),
            SwitchMode(Mode::InTable),
            Reprocess,
        ],
        Col => &[
            PopTemplateMode,
            PushTemplateMode(Mode::InColumnGroup),
            SwitchMode(Mode::InColumnGroup),
            Reprocess,
        ],
        Tr => &[
            PopTemplateMode,
            PushTemplateMode(Mode::InTableBody),
            SwitchMode(Mode::InTableBody),
            Reprocess,
        ],
        Td | Th => &[
            PopTemplateMode,
            PushTemplateMode(Mode::InRow),
            SwitchMode(Mode::InRow),
            Reprocess,
        ],
        _ => AS_BODY,
    }
}

fn end(word: Word) -> &'static [Instr]
    ensures { result.now ≡ end_row Mode.InTemplate (Name.Known word) }
{
    match word {
        Template => &[UsingRules(Mode::InHead)],
        _ => &[],
    }
}
