//! Fragments (13.4 #parsing-html-fragments): a text parsed as the children of an element.

ghost use Rattle.std.specs.Prelude.{◌≡◌, IfOk};
ghost use Rattle.std.specs.Str.{chars};
ghost use Rattle.standard.specs.Fragment.{reading_in, fragment};

use crate::machine::Machine;
use entity_table::Table;
use html_types::{Context, Name, NoMemory, RawText, TextState, TokState, Word};
use std::alloc::Global;
use text_store::Ops;

// How the tokenizer reads the text, where the context has that name; no start tag came before.
fn reading_of(word: Word) -> TokState
    ensures { result ≡ reading_in (Name.Known word) }
{
    match word {
        Word::Title | Word::Textarea => TokState::Text(TextState::Raw(RawText::Rcdata, None)),
        Word::Style | Word::Xmp | Word::Iframe | Word::Noembed | Word::Noframes | Word::Noscript =>
            TokState::Text(TextState::Raw(RawText::Rawtext, None)),
        Word::Script => TokState::Text(TextState::Raw(RawText::ScriptData, None)),
        Word::Plaintext => TokState::Text(TextState::Plaintext),
        _ => TokState::Text(TextState::Data),
    }
}

// The same, where the context may be an element of MathML or SVG.
pub(crate) fn reading_in(name: &Name) -> TokState
    ensures { result ≡ reading_in name.now }
{
    match name {
        Name::Known(word) => reading_of(*word),
        Name::Other(_, _) => TokState::Text(TextState::Data),
    }
}

/// What a text comes to as the children of an element (13.4 #parsing-html-fragments), its context:
/// the operations that make the nodes, under a root, or none at a push that would open element 513.
/// The root's id is the first of realm 0; where the context is in a form the second is that of a
/// form element, which stands nowhere. `op_exec` makes both. It needs no page and no document, and
/// runs no script.
#[tactic(auto, unfolding(standard::specs::Fragment::fragment))]
pub fn parse_fragment(
    alloc: Global,
    table: &Table,
    context: Context,
    text: &str,
) -> Result<Option<Ops>, NoMemory>
    ensures { IfOk result (λ ops. ops ≡ fragment table.now context (chars text.now)) }
{
    let mut machine = Machine::fragment(alloc, context, 0)?;
    machine.parse_whole(alloc, table, text)
}
