//! The rows of "in table text" (13.2.6.4.10 #parsing-main-intabletext).

ghost use Rattle.std.specs.Prelude.{◌≡◌};
ghost use Rattle.html_types.specs.declared.instruction.Mode.TheVariants as mode;
ghost use Rattle.standard.specs.Rules.{row};

use html_types::instruction::Instr::*;
use html_types::{Instr, Token};

/// "in table text"
#[tactic(auto, unfolding(standard::specs::Rules::row))]
pub fn in_table_text(token: &Token) -> &'static [Instr]
    ensures { result.now ≡ row mode.InTableText token.now }
{
    match token {
        Token::Character(c) => { if *c == '\0' { &[] } else { &[AppendPending] } }
        _ => &[InsertPending, RestoreMode, Reprocess],
    }
}
