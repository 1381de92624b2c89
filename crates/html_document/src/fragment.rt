//! A fragment's document (13.4 #parsing-html-fragments).

ghost use Rattle.std.specs.Prelude.{◌≡◌, ◌<◌, IfOk, None, length};
ghost use Rattle.std.specs.Str.{chars};
ghost use Rattle.html_types.specs.declared.ending.Why.{Why};
ghost use Rattle.standard.specs.Act.{node_of};
ghost use Rattle.standard.specs.Fragment.{root_id, fragment as operations};
ghost use Rattle.html_document.specs.Fragments.{IsFragment};

use crate::refused::Refused;
use entity_table::Table;
use html_types::{Context, Why};
use op_exec::Doc;
use std::alloc::Global;

/// A fragment: a document in which nothing stands under the Document, and the node whose children
/// the fragment's nodes are.
#[derive(Drop)]
pub struct Fragment {
    pub doc: Doc,
    pub root: usize,
}

/// What a text comes to as the children of an element, its context. It needs no page, and runs no
/// script. `Refused::Parse` comes exactly where a push would open element 513.
pub fn parse_fragment(
    alloc: Global,
    table: &Table,
    context: Context,
    text: &str,
) -> Result<Fragment, Refused>
    ensures made { IfOk result (λ f. IsFragment table.now context (chars text.now) f.doc) }
    ensures root { IfOk result (λ f. f.root ≡ node_of f.doc.bound (root_id 0)) }
    ensures here { IfOk result (λ f. f.root < length f.doc.tree) }
    ensures refused { (w : Why) → result ≡ Err (Refused.Parse w)
        → (w ≡ Why.Depth) × (operations table.now context (chars text.now) ≡ None) }
{
    let form = context.form;
    let parsed = parse_machine::parse_fragment(alloc, table, context, text)?;
    let Some(ops) = parsed else {
        return Err(Refused::Parse(Why::Depth));
    };
    let (doc, root) = Doc::of_fragment(alloc, form, ops)?;
    Ok(Fragment { doc, root })
}
