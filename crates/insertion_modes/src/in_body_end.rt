//! The rows of "in body" for end tags (13.2.6.4.7 #parsing-main-inbody).

ghost use Rattle.std.specs.Prelude.{◌≡◌};
ghost use Rattle.standard.specs.Rules.{end_row};
ghost use Rattle.html_types.specs.declared.name.Name.TheVariants.{Known};

use html_types::instruction::Instr::*;
use html_types::instruction::Test::*;
use html_types::instruction::Who::*;
use html_types::word::Word::*;
use html_types::{Group, Instr, Mode, Scope, Word};

pub fn end(word: Word) -> &'static [Instr]
    ensures { result.now ≡ end_row Mode.InBody (Known word) }
{
    match word {
        Template => &[UsingRules(Mode::InHead)],
        Body => &[
            Need(InScope(Scope::Default, The(Body))),
            SwitchMode(Mode::AfterBody),
        ],
        Html => &[
            Need(InScope(Scope::Default, The(Body))),
            SwitchMode(Mode::AfterBody),
            Reprocess,
        ],
        Address
        | Article
        | Aside
        | Blockquote
        | Button
        | Center
        | Details
        | Dialog
        | Dir
        | Div
        | Dl
        | Fieldset
        | Figcaption
        | Figure
        | Footer
        | Header
        | Hgroup
        | Listing
        | Main
        | Menu
        | Nav
        | Ol
        | Pre
        | Search
        | Section
        | Summary
        | Ul => {
            &[
                Need(InScope(Scope::Default, Own)),
                GenerateImplied,
                PopUntil(Own),
            ]
        }
        P => &[
            Unless(InScope(Scope::Button, The(P))),
            InsertA(P),
            Close(Scope::Button, The(P)),
        ],
        Li => &[
            Need(InScope(Scope::ListItem, The(Li))),
            GenerateImpliedBut(The(Li)),
            PopUntil(The(Li)),
        ],
        Dd | Dt => &[
            Need(InScope(Scope::Default, Own)),
            GenerateImpliedBut(Own),
            PopUntil(Own),
        ],
        H1 | H2 | H3 | H4 | H5 | H6 => &[
            Need(InScope(Scope::Default, Any(Group::Headings))),
            GenerateImplied,
            PopUntil(Any(Group::Headings)),
        ],
        Applet | Marquee | Object => &[
            Need(InScope(Scope::Default, Own)),
            GenerateImplied,
            PopUntil(Own),
            ClearToMarker,
        ],
        A | B | Big | Code | Em | Font | I | Nobr | S | Small | Strike | Strong | Tt | U => &[
            Adopt,
        ],
        Form => &[EndForm],
        Br => &[Reconstruct, InsertAndPopA(Br), FramesetNotOk],
        _ => &[AnyOtherEnd],
    }
}
