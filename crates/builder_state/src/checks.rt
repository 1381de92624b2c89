//! The questions that a row asks.

ghost use Rattle.std.specs.Prelude.{◌≡◌};
ghost use Rattle.html_types.specs.Names.{name_of};
ghost use Rattle.standard.specs.Elements.{is_word};
ghost use Rattle.standard.specs.Instructions.{holds, in_form, is_quirky, closes_itself};
ghost use Rattle.standard.specs.Instructions.{is_breaking};

use crate::formatting::is_listed;
use crate::inputs::is_hidden_input;
use crate::places::second_is_body;
use crate::reset::is_table_mode;
use crate::walks::{is_current, is_in_scope, is_on_stack, is_option_in_optgroup};
use foreign_tables::breaks_out;
use html_types::{Open, Test, Text, Token, Who, Word};

/// Whether the text is the name "html".
fn is_html(name: &Text) -> bool
    ensures { result ≡ is_word Word.Html (name_of name.now) }
{
    match Word::find(name.as_str()) {
        Some(word) => word.same(Word::Html),
        None => false,
    }
}

/// Whether a document of the token's doctype is in quirks mode.
fn is_quirky_doctype(token: &Token) -> bool
    ensures { result ≡ is_quirky token.now }
{
    match token {
        Token::Doctype { name, force_quirks } => *force_quirks || !is_html(name),
        _ => false,
    }
}

/// Whether the form element pointer is set, and no template is open.
fn is_in_form(state: &Open, token: &Token) -> bool
    ensures { result ≡ in_form state.now }
{
    state.form.is_some() && !is_on_stack(&state.stack, Who::The(Word::Template), token)
}

/// Whether the token is a start tag whose self-closing flag is set.
fn closes_itself(token: &Token) -> bool
    ensures { result ≡ closes_itself token.now }
{
    match token {
        Token::StartTag(tag) => tag.self_closing,
        _ => false,
    }
}

/// Whether the token is a start tag at which foreign content is left
/// (13.2.6.5 #parsing-main-inforeign).
fn is_breaking(token: &Token) -> bool
    ensures { result ≡ is_breaking token.now }
{
    match token {
        Token::StartTag(tag) => breaks_out(tag),
        _ => false,
    }
}

/// Whether a test holds.
pub fn test_holds(state: &Open, test: Test, token: &Token) -> bool
    ensures { result ≡ holds test token.now state.now }
{
    match test {
        Test::InScope(scope, who) => is_in_scope(&state.stack, scope, who, token),
        Test::Current(who) => is_current(&state.stack, who, token),
        Test::OnStack(who) => is_on_stack(&state.stack, who, token),
        Test::InFormatting(who) => is_listed(&state.formats, who, token),
        Test::Quirks => state.quirks,
        Test::SecondIsBody => second_is_body(&state.stack),
        Test::FramesetOk => state.frameset_ok,
        Test::QuirkyDoctype => is_quirky_doctype(token),
        Test::InForm => is_in_form(state, token),
        Test::HiddenInput => is_hidden_input(token),
        Test::InTemplates => !state.template_modes.as_slice().is_empty(),
        Test::InTables => is_table_mode(state.mode),
        Test::OptionInOptgroup => is_option_in_optgroup(&state.stack),
        Test::SelfClosing => closes_itself(token),
        Test::BreaksOut => is_breaking(token),
        Test::InFragment => state.context.is_some(),
    }
}
