//! Fragments (13.4 #parsing-html-fragments): what their parse asks of an element, and their
//! operations in their root.

ghost use Rattle.std.specs.Prelude.{◌≡◌, ◌<◌, [], ◌∷◌, ◌++◌, codes, length, map, nat_lt, IfOk};
ghost use Rattle.std.specs.Prelude.{IsTrue, OnOk, MatchOption, Some};
ghost use Rattle.std.specs.Char.{to_ascii_lowercase};
ghost use Rattle.std.specs.List.{list_all};
ghost use Rattle.std.specs.Str.{chars};
ghost use Rattle.html_types.specs.Text.{same_text};
ghost use Rattle.html_types.specs.declared.word.Word.TheVariants.{Form};
ghost use Rattle.html_types.specs.declared.name.Name.TheVariants.{Known};
ghost use Rattle.html_types.specs.declared.operation.Op.TheVariants as op;
ghost use Rattle.html_types.specs.Operations.{spelled_one};
ghost use Rattle.standard.specs.Elements.{is_word};
ghost use Rattle.standard.specs.Foreign.{is_annotation, is_html_encoding};
ghost use Rattle.standard.specs.Fragment.{is_form, is_annotation_point, in_form_by, context_at};
ghost use Rattle.standard.specs.Fragment.{roots_made, place_in_root, all_in_root};
ghost use Rattle.standard.specs.Tree.{attribute};
ghost use Rattle.text_store.specs.Records.{seen_op};
ghost use Rattle.text_store.specs.Views.{seen_kind, seen_name};

use doc_tree::Tree;
use html_types::{Attributes, Context, Name, NoMemory, NodeId, Op, Place, Space, Word};
use std::alloc::Global;
use text_store::{Listed, Ops, Seen, SeenName, SeenOp};

// Whether an element of that name is a form.
fn is_the_form(name: SeenName<'_>) -> bool
    ensures { result ≡ is_word Form (seen_name name.entry) }
{
    match name {
        SeenName::Known(word) => word.same(Word::Form),
        SeenName::Other(_, _) => false,
    }
}

// Whether it is a form.
fn is_form(kind: &Seen<'_>) -> bool
    ensures { result ≡ is_form (seen_kind kind.now) }
{
    match kind {
        Seen::Element(name, _) => is_the_form(*name),
        _ => false,
    }
}

// Whether a text is written so.
fn is_text(text: &str, name: &str) -> bool
    ensures { result ≡ same_text (chars text.now) (chars name.now) }
{
    text == name
}

#[tactic(auto, using(std::proofs::lemmas::Grind::common_steps, crate::proofs::Literals::annotation_text))]
fn is_annotation_text(text: &str) -> bool
    ensures { result ≡ same_text (chars text.now) (codes "annotation-xml") }
{
    is_text(text, "annotation-xml")
}

// Whether this is the name of an annotation-xml of MathML.
fn is_annotation(name: SeenName<'_>) -> bool
    ensures { result ≡ is_annotation (seen_name name.entry) }
{
    match name {
        SeenName::Other(Space::MathMl, text) => is_annotation_text(text),
        _ => false,
    }
}

// Whether the text is that name of ASCII characters, in any ASCII case.
fn is_spelled(text: &str, name: &str) -> bool
    requires { IsTrue (list_all (λ b. nat_lt b 128) name.now) }
    ensures { result
        ≡ same_text (map to_ascii_lowercase (chars text.now)) (map to_ascii_lowercase name.now) }
{
    text.eq_ignore_ascii_case(name)
}

// Whether a text is one of the encodings of HTML, in any ASCII case.
fn is_html_encoding(text: &str) -> bool
    ensures { result ≡ is_html_encoding (Some (chars text.now)) }
{
    is_spelled(text, "text/html") || is_spelled(text, "application/xhtml+xml")
}

// Whether the `encoding` is one of HTML.
#[tactic(auto, using(std::proofs::lemmas::Grind::common_steps, crate::proofs::Literals::encoding_text))]
fn has_html_encoding(attributes: &Listed<'_>) -> bool
    ensures { result ≡ is_html_encoding (attribute (codes "encoding") attributes.now) }
{
    match attributes.value_of("encoding") {
        None => false,
        Some(text) => is_html_encoding(text),
    }
}

// Whether it is an annotation-xml that is an HTML integration point (13.2.6 #tree-construction).
#[tactic(auto, unfolding(standard::specs::Foreign::is_html_annotation))]
fn is_annotation_point(kind: &Seen<'_>) -> bool
    ensures { result ≡ is_annotation_point (seen_kind kind.now) }
{
    match kind {
        Seen::Element(name, attributes) => is_annotation(*name) && has_html_encoding(attributes),
        _ => false,
    }
}

// Whether the node is a form or stands under one. Its way up is walked.
fn stands_in_form(tree: &Tree, node: usize) -> bool
    requires { node < length tree.now }
    ensures { result ≡ in_form_by tree.now (length tree.now) node }
{
    let mut at = node;
    for _ in 0..tree.len() {
        if is_form(&tree.kind(at)) {
            return true;
        }
        match tree.parent(at) {
            Some(parent) => at = parent,
            None => return false,
        }
    }
    false
}

/// What the parse of a fragment asks of that element as its context.
#[tactic(auto, unfolding(standard::specs::Fragment::context_at))]
pub(crate) fn context_of(tree: &Tree, node: usize, quirks: bool) -> Result<Context, NoMemory>
    requires { node < length tree.now }
    ensures { IfOk result (λ context. context ≡ context_at tree.now node quirks) }
{
    let name = tree.name_in(node)?;
    Ok(Context {
        name,
        html_point: is_annotation_point(&tree.kind(node)),
        form: stands_in_form(tree, node),
        quirks,
    })
}

// The place, where the end of the root stands for the end of the Document.
fn place_in_root(place: Place) -> Place
    ensures { result ≡ place_in_root place }
{
    match place {
        Place::Page => Place::Inside(NodeId { realm: 0, n: 0 }),
        _ => place,
    }
}

// The operation in the root of a fragment: none of a doctype.
fn in_root(op: SeenOp<'_>) -> Option<SeenOp<'_>>
    ensures { MatchOption result (all_in_root (spelled_one (seen_op op.entry)) ≡ [])
        (λ o. all_in_root (spelled_one (seen_op op.entry)) ≡ spelled_one (seen_op o)) }
{
    match op {
        SeenOp::Put { node, place } => Some(SeenOp::Put {
            node,
            place: place_in_root(place),
        }),
        SeenOp::Text { place, text } => Some(SeenOp::Text {
            place: place_in_root(place),
            text,
        }),
        SeenOp::Comment { place, text } => Some(SeenOp::Comment {
            place: place_in_root(place),
            text,
        }),
        SeenOp::Doctype { .. } => None,
        _ => Some(op),
    }
}

// Adds the operation in the root of a fragment at the end of others.
fn push_in_root(all: &mut Ops, op: SeenOp<'_>) -> Result<(), NoMemory>
    ensures { OnOk result (all.new ≡ all.old ++ all_in_root (spelled_one (seen_op op.entry))) }
{
    match in_root(op) {
        None => Ok(()),
        Some(op) => all.push_seen(op),
    }
}

// Adds the operations in the root of a fragment at the end of others.
fn push_all_in_root(all: &mut Ops, ops: &Ops) -> Result<(), NoMemory>
    ensures { OnOk result (all.new ≡ all.old ++ all_in_root ops.now) }
{
    let list = ops.read();
    let count = list.len();
    for index in 0..count {
        push_in_root(all, list.at(index))?;
    }
    Ok(())
}

// Makes that element of the fragment's, without attributes.
fn push_made(alloc: Global, all: &mut Ops, n: u32, word: Word) -> Result<(), NoMemory>
    ensures { OnOk result
        (all.new ≡ all.old ++ op.Make (record { realm = 0; n = n }) (Known word) [] ∷ []) }
{
    all.push(Op::Make {
        id: NodeId { realm: 0, n },
        name: Name::Known(word),
        attributes: Attributes::new(alloc),
    })
}

/// What makes a fragment's nodes under ids of their own: its root, the form element that its form
/// element pointer names if there is one, and what is made of them in the root.
pub(crate) fn fragment_ops(alloc: Global, form: bool, ops: &Ops) -> Result<Ops, NoMemory>
    ensures { IfOk result (λ all. all ≡ roots_made form ++ all_in_root ops.now) }
{
    let mut all = Ops::new(alloc);
    push_made(alloc, &mut all, 0, Word::Html)?;
    if form {
        push_made(alloc, &mut all, 1, Word::Form)?;
    }
    push_all_in_root(&mut all, ops)?;
    Ok(all)
}
