//! The rows of "in body" for start tags (13.2.6.4.7 #parsing-main-inbody).

ghost use Rattle.std.specs.Prelude.{◌≡◌};
ghost use Rattle.standard.specs.Rules.{start_row};
ghost use Rattle.html_types.specs.declared.name.Name.TheVariants.{Known};

use html_types::instruction::Instr::*;
use html_types::instruction::Test::*;
use html_types::instruction::Who::*;
use html_types::word::Word::*;
use html_types::{Group, Instr, Mode, Scope, Space, TokenizerSwitch, Word};

/// "Close a p element", where one is in button scope.
const CLOSE_P: Instr = Close(Scope::Button, The(P));

pub fn start(word: Word) -> &'static [Instr]
    ensures { result.now ≡ start_row Mode.InBody (Known word) }
{
    match word {
        Html => &[Forbid(OnStack(The(Template))), AddToFirst],
        Base | Basefont | Bgsound | Link | Meta | Noframes | Script | Style | Template | Title => {
            &[UsingRules(Mode::InHead)]
        }
        Body => &[
            Need(SecondIsBody),
            Forbid(OnStack(The(Template))),
            FramesetNotOk,
            AddToSecond,
        ],
        Frameset => &[
            Need(SecondIsBody),
            Need(FramesetOk),
            DetachSecond,
            PopToRoot,
            Insert,
            SwitchMode(Mode::InFrameset),
        ],
        Address
        | Article
        | Aside
        | Blockquote
        | Center
        | Details
        | Dialog
        | Dir
        | Div
        | Dl
        | Fieldset
        | Figcaption
        | Figure
        | Footer
        | Header
        | Hgroup
        | Main
        | Menu
        | Nav
        | Ol
        | P
        | Search
        | Section
        | Summary
        | Ul => &[CLOSE_P, Insert],
        H1 | H2 | H3 | H4 | H5 | H6 => {
            &[CLOSE_P, When(Current(Any(Group::Headings))), Pop, Insert]
        }
        Pre | Listing => &[CLOSE_P, Insert, SkipLineFeed, FramesetNotOk],
        Li => &[FramesetNotOk, CloseItem(The(Li)), CLOSE_P, Insert],
        Dd | Dt => &[
            FramesetNotOk,
            CloseItem(Any(Group::DefinitionItems)),
            CLOSE_P,
            Insert,
        ],
        Plaintext => &[CLOSE_P, Insert, SwitchTokenizer(TokenizerSwitch::Plaintext)],
        Button => &[
            Close(Scope::Default, The(Button)),
            Reconstruct,
            Insert,
            FramesetNotOk,
        ],
        Applet | Marquee | Object => &[Reconstruct, Insert, PushMarker, FramesetNotOk],
        Table => &[
            Unless(Quirks),
            CLOSE_P,
            Insert,
            FramesetNotOk,
            SwitchMode(Mode::InTable),
        ],
        Area | Br | Embed | Img | Keygen | Wbr => &[Reconstruct, InsertAndPop, FramesetNotOk],
        Param | Source | Track => &[InsertAndPop],
        Hr => &[CLOSE_P, InsertAndPop, FramesetNotOk],
        Textarea => &[
            Insert,
            SkipLineFeed,
            FramesetNotOk,
            SaveMode,
            SwitchMode(Mode::InText),
            SwitchTokenizer(TokenizerSwitch::Rcdata),
        ],
        Xmp => &[
            CLOSE_P,
            Reconstruct,
            FramesetNotOk,
            Insert,
            SaveMode,
            SwitchMode(Mode::InText),
            SwitchTokenizer(TokenizerSwitch::Rawtext),
        ],
        Iframe => &[
            FramesetNotOk,
            Insert,
            SaveMode,
            SwitchMode(Mode::InText),
            SwitchTokenizer(TokenizerSwitch::Rawtext),
        ],
        Noembed | Noscript => &[
            Insert,
            SaveMode,
            SwitchMode(Mode::InText),
            SwitchTokenizer(TokenizerSwitch::Rawtext),
        ],
        Select => &[
            Reconstruct,
            Insert,
            FramesetNotOk,
            Unless(InTables),
            SwitchMode(Mode::InSelect),
            When(InTables),
            SwitchMode(Mode::InSelectInTable),
        ],
        Optgroup | Word::Option => &[When(Current(The(Word::Option))), Pop, Reconstruct, Insert],
        Rb | Rtc => &[
            When(InScope(Scope::Default, The(Ruby))),
            GenerateImplied,
            Insert,
        ],
        Rp | Rt => &[
            When(InScope(Scope::Default, The(Ruby))),
            GenerateImpliedBut(The(Rtc)),
            Insert,
        ],
        Caption | Col | Colgroup | Frame | Head | Tbody | Td | Tfoot | Th | Thead | Tr => &[],
        A => &[
            When(InFormatting(The(A))),
            AdoptAnchor,
            Reconstruct,
            Insert,
            PushFormatting,
        ],
        Nobr => &[
            Reconstruct,
            When(InScope(Scope::Default, The(Nobr))),
            AdoptNobr,
            Insert,
            PushFormatting,
        ],
        B | Big | Code | Em | Font | I | S | Small | Strike | Strong | Tt | U => &[
            Reconstruct,
            Insert,
            PushFormatting,
        ],
        Form => &[
            Forbid(InForm),
            CLOSE_P,
            Insert,
            Unless(OnStack(The(Template))),
            SetFormPointer,
        ],
        Image => &[Reconstruct, InsertAndPopAs(Img), FramesetNotOk],
        Math => &[Reconstruct, InsertIn(Space::MathMl), When(SelfClosing), Pop],
        Svg => &[Reconstruct, InsertIn(Space::Svg), When(SelfClosing), Pop],
        Input => &[
            Reconstruct,
            InsertAndPop,
            Unless(HiddenInput),
            FramesetNotOk,
        ],
        _ => &[Reconstruct, Insert],
    }
}
