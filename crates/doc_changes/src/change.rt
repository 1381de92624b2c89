//! What changes a document, change by change: so that another that has the same nodes can do what
//! one did.

ghost use Rattle.std.specs.Prelude.{◌≡◌, ◌+◌, length, true, IfOk, OnOk, IsTrue, None};
ghost use Rattle.std.specs.Str.{chars};
ghost use Rattle.html_types.specs.Operations.{spelled_one};
ghost use Rattle.standard.specs.Tree.{detached, moved, is_element, is_element_at};
ghost use Rattle.standard.specs.Act.{acts, is_bound, IsPlaceBound, IsOpBound};
ghost use Rattle.standard.specs.Fragment.{filled};
ghost use Rattle.text_store.specs.Records.{seen_op};
ghost use Rattle.text_store.specs.Views.{seen_kind};
ghost use Rattle.doc_changes.specs.Changes.{changed, weight};

use crate::new_nodes::Fragment;
use doc_tree::Tree;
use html_types::{NoMemory, Place};
use op_exec::{Doc, Put};
use text_store::{Ops, Seen, SeenOp};

/// What a document did. Nodes are named by their numbers, which are the same in each document that
/// did the same from its beginning.
#[derive(Drop)]
pub enum Change {
    /// The operations of a batch, in order.
    Did(Ops),
    /// A node was taken out of its parent.
    Removed(usize),
    /// The second was put at the end of the first one's children.
    Moved { first: usize, second: usize },
    /// A node's children were taken out, and a fragment put there.
    Filled { target: usize, fragment: Fragment },
}

fn is_element(kind: &Seen<'_>) -> bool
    ensures { result ≡ is_element (seen_kind kind.now) }
{
    matches!(kind, Seen::Element(_, _))
}

// Whether the tree has such a node, and it is an element.
fn has_element(tree: &Tree, node: usize) -> bool
    ensures { IsTrue result → is_element_at tree.now node ≡ true }
{
    node < tree.len() && is_element(&tree.kind(node))
}

fn has_place(doc: &Doc, place: Place) -> bool
    ensures { IsTrue result → IsPlaceBound (is_bound doc.now.bound) place }
{
    match place {
        Place::Page => true,
        Place::Inside(id) => doc.has(id),
        Place::Contents(id) => doc.has(id),
        Place::Foster { table, above } => doc.has(table) && doc.has(above),
    }
}

// Whether the ids that it names are bound, and a new element's isn't.
fn can_apply(doc: &Doc, op: &SeenOp<'_>) -> bool
    ensures { IsTrue result → IsOpBound (is_bound doc.now.bound) (seen_op op.now) }
{
    match op {
        SeenOp::Make { id, .. } => !doc.has(*id),
        SeenOp::Put { node, place } => doc.has(*node) && has_place(doc, *place),
        SeenOp::Text { place, .. } => has_place(doc, *place),
        SeenOp::Comment { place, .. } => has_place(doc, *place),
        SeenOp::Doctype { .. } => true,
        SeenOp::Detach { node } => doc.has(*node),
        SeenOp::MoveChildren { from, to } => doc.has(*from) && doc.has(*to),
        SeenOp::AddAttributes { node, .. } => doc.has(*node),
    }
}

fn apply(doc: &mut Doc, op: SeenOp<'_>) -> Result<(), NoMemory>
    ensures { OnOk result (doc.new ≡ acts doc.old (spelled_one (seen_op op.entry))) }
{
    if !can_apply(doc, &op) {
        return Err(NoMemory);
    }
    doc.apply(op)
}

// The operations are read where they lie: nothing is copied.
fn apply_all(doc: &mut Doc, ops: &Ops) -> Result<(), NoMemory>
    ensures { OnOk result (doc.new ≡ acts doc.old ops.now) }
{
    let list = ops.read();
    let count = list.len();
    for index in 0..count {
        apply(doc, list.at(index))?;
    }
    Ok(())
}

fn remove(doc: &mut Doc, node: usize) -> Result<(), NoMemory>
    ensures { OnOk result (doc.new ≡ record doc.old { tree = detached doc.old.tree node }) }
{
    if node >= doc.tree().len() {
        return Err(NoMemory);
    }
    doc.remove(node);
    Ok(())
}

fn move_last(doc: &mut Doc, first: usize, second: usize) -> Result<(), NoMemory>
    ensures { OnOk result (doc.new ≡ record doc.old {
      tree = moved doc.old.tree second first None;
    }) }
{
    if !has_element(doc.tree(), first) || !has_element(doc.tree(), second) {
        return Err(NoMemory);
    }
    match doc.move_last(first, second)? {
        Put::Done => Ok(()),
        Put::Impossible => Err(NoMemory),
    }
}

fn fill(doc: &mut Doc, target: usize, fragment: &Fragment) -> Result<(), NoMemory>
    ensures { OnOk result (doc.new ≡ record doc.old {
      tree = filled doc.old.tree target fragment.now.form fragment.now.ops;
    }) }
{
    if target >= doc.tree().len() {
        return Err(NoMemory);
    }
    fragment.fill(doc, target)
}

// How many characters a text has.
fn length_of(text: &str) -> usize
    ensures { result ≡ length (chars text.now) }
{
    text.chars().count()
}

// As how many an operation counts.
fn weight_of(op: &SeenOp<'_>) -> usize
    ensures { result ≡ length (spelled_one (seen_op op.now)) }
{
    match op {
        SeenOp::Text { text, .. } => length_of(*text),
        _ => 1,
    }
}

// The sum; one that has no place in a number is want of memory.
fn plus(sum: usize, more: usize) -> Result<usize, NoMemory>
    ensures { IfOk result (λ n. n ≡ sum + more) }
{
    sum.checked_add(more).ok_or(NoMemory)
}

// As how many they count.
fn sum_of(ops: &Ops) -> Result<usize, NoMemory>
    ensures { IfOk result (λ n. n ≡ length ops.now) }
{
    let list = ops.read();
    let count = list.len();
    let mut sum: usize = 0;
    for index in 0..count {
        sum = plus(sum, weight_of(&list.at(index)))?;
    }
    Ok(sum)
}

impl Change {
    /// As how many it counts: a batch as each of its operations, an insertion of text as that of
    /// each of its characters.
    pub fn weight(&self) -> Result<usize, NoMemory>
        ensures { IfOk result (λ n. n ≡ weight self.now) }
    {
        match self {
            Change::Did(ops) => sum_of(ops),
            _ => Ok(1),
        }
    }

    /// Does it to another document, with the same nodes as the one that did it. Nobody promises
    /// that it has them: where it can't be done, it answers want of memory, as where memory runs
    /// out; it may then be done in part.
    pub fn repeat(&self, doc: &mut Doc) -> Result<(), NoMemory>
        ensures { OnOk result (doc.new ≡ changed doc.old self.now) }
    {
        match self {
            Change::Did(ops) => apply_all(doc, ops),
            Change::Removed(node) => remove(doc, *node),
            Change::Moved { first, second } => move_last(doc, *first, *second),
            Change::Filled { target, fragment } => fill(doc, *target, fragment),
        }
    }
}
