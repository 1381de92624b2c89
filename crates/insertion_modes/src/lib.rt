//! The rules for parsing tokens in HTML content, by insertion mode (13.2.6.4 #parsing-main-inhtml),
//! and in foreign content (13.2.6.5 #parsing-main-inforeign): a row of instructions for a mode and
//! a token. A file for each mode, or for those that the standard has side by side.
#![tactic(auto)]

ghost use Rattle.std.specs.Prelude.{◌≡◌};
ghost use Rattle.standard.specs.Rules.{row as row_of};

mod after_body;
mod after_head;
mod before;
mod in_body;
mod in_body_end;
mod in_body_start;
mod in_caption;
mod in_cell;
mod in_column_group;
mod in_foreign;
mod in_frameset;
mod in_head;
mod in_row;
mod in_select;
mod in_table;
mod in_table_body;
mod in_table_text;
mod in_template;
mod in_text;

use html_types::{Instr, Mode, Token};

/// The row of a mode for a token.
pub fn row(mode: Mode, token: &Token) -> &'static [Instr]
    ensures { result.now ≡ row_of mode token.now }
{
    match mode {
        Mode::Initial => before::initial(token),
        Mode::BeforeHtml => before::before_html(token),
        Mode::BeforeHead => before::before_head(token),
        Mode::InHead => in_head::in_head(token),
        Mode::AfterHead => after_head::after_head(token),
        Mode::InBody => in_body::in_body(token),
        Mode::InText => in_text::in_text(token),
        Mode::InTable => in_table::in_table(token),
        Mode::InTableText => in_table_text::in_table_text(token),
        Mode::InCaption => in_caption::in_caption(token),
        Mode::InColumnGroup => in_column_group::in_column_group(token),
        Mode::InTableBody => in_table_body::in_table_body(token),
        Mode::InRow => in_row::in_row(token),
        Mode::InCell => in_cell::in_cell(token),
        Mode::InSelect => in_select::in_select(token),
        Mode::InSelectInTable => in_select::in_select_in_table(token),
        Mode::InTemplate => in_template::in_template(token),
        Mode::AfterBody => after_body::after_body(token),
        Mode::InFrameset => in_frameset::in_frameset(token),
        Mode::AfterFrameset => in_frameset::after_frameset(token),
        Mode::AfterAfterBody => after_body::after_after_body(token),
        Mode::AfterAfterFrameset => in_frameset::after_after_frameset(token),
        Mode::InForeign => in_foreign::in_foreign(token),
    }
}
