//! A tree in three flat lists, which hold no pointer.

ghost use Rattle.std.specs.Prelude.{◌≡◌, ◌<◌, ◌≤◌, ◌++◌, ◌∷◌, [], length, encode_utf8_all, IfOk};
ghost use Rattle.std.specs.Prelude.{OnOk};
ghost use Rattle.std.specs.Str.{chars};
ghost use Rattle.html_types.specs.declared.name.Space.{Space};
ghost use Rattle.standard.specs.Tree.{attributes_of};
ghost use Rattle.text_store.specs.Views.{seen_attribute, seen_kind};
ghost use Rattle.html_document.specs.declared.spans.TheConstants.{NONE};
ghost use Rattle.html_document.specs.Flat.{space_number, space_at, kind_number, words_of};
ghost use Rattle.html_document.specs.Flat.{link_number, IsText, AttributesAdded, IsNode, RowAdded};
ghost use Rattle.html_document.specs.Flat.{Shows};

use crate::spans::{FlatAttribute, FlatNode, NONE, Span};
use doc_tree::Tree;
use html_types::{NoMemory, Space};
use std::alloc::Global;
use text_store::{Listed, Seen, SeenAttribute};

/// A tree in three lists.
#[derive(Drop)]
pub struct Flat {
    pub nodes: Vec<FlatNode>,
    pub attributes: Vec<FlatAttribute>,
    /// In UTF-8: of each node its name or text, and then the names and values of its attributes.
    pub text: Vec<u8>,
}

// A number in 32 bits; one that they don't hold is want of memory.
fn short(number: usize) -> Result<u32, NoMemory>
    ensures same { IfOk result (λ n. n ≡ number) }
    ensures small { IfOk result (λ _. number ≤ NONE) }
{
    u32::try_from(number).map_err(|_| NoMemory)
}

// The number of a node, or that of none.
fn link(node: Option<usize>) -> Result<u32, NoMemory>
    ensures { IfOk result (λ n. n ≡ link_number node) }
{
    match node {
        None => Ok(NONE),
        Some(node) => short(node),
    }
}

fn space_number(space: Space) -> u32
    ensures { result ≡ space_number space }
{
    match space {
        Space::Html => 0,
        Space::MathMl => 1,
        Space::Svg => 2,
    }
}

fn space_at(kind: &Seen<'_>) -> u32
    ensures { result ≡ space_at (seen_kind kind.now) }
{
    match kind {
        Seen::Element(name, _) => space_number((*name).space()),
        _ => 0,
    }
}

fn kind_number(kind: &Seen<'_>) -> u32
    ensures { result ≡ kind_number (seen_kind kind.now) }
{
    match kind {
        Seen::Document => 0,
        Seen::Element(_, _) => 1,
        Seen::Text(_) => 2,
        Seen::Comment(_) => 3,
        Seen::Doctype(_) => 4,
        Seen::Contents => 5,
    }
}

// A node's name or text.
#[tactic(auto, using(std::proofs::lemmas::Grind::common_steps, crate::proofs::Literals::no_text))]
fn words_in<'a>(kind: &Seen<'a>) -> &'a str
    ensures { chars result.now ≡ words_of (seen_kind kind.now) }
{
    match kind {
        Seen::Document => "",
        Seen::Contents => "",
        Seen::Doctype(name) => *name,
        Seen::Element(name, _) => (*name).as_str(),
        Seen::Text(text) => *text,
        Seen::Comment(text) => *text,
    }
}

// Adds a text at the end of the bytes, and says where it stands.
fn push_text(text: &mut Vec<u8>, added: &str) -> Result<Span, NoMemory>
    ensures added { OnOk result
        (text.new.items ≡ text.old.items ++ encode_utf8_all (chars added.now)) }
    ensures place { IfOk result (λ span. IsText text.new.items span (chars added.now)) }
{
    let start = short(text.len())?;
    let bytes = short(added.len())?;
    text.extend_from_slice(added.as_bytes())?;
    Ok(Span {
        start,
        length: bytes,
    })
}

// Adds attributes at the end of the list, their names and values at the end of the bytes.
fn push_attributes(
    attributes: &mut Vec<FlatAttribute>,
    text: &mut Vec<u8>,
    added: &Listed<'_>,
) -> Result<Span, NoMemory>
    ensures { IfOk result (λ span.
        AttributesAdded attributes.old.items text.old.items added.now attributes.new.items
        text.new.items
        × (span.start ≡ length attributes.old.items) × (span.length ≡ length added.now)) }
{
    let start = short(attributes.len())?;
    let count = added.len();
    let length = short(count)?;
    for index in 0..count {
        push_attribute(attributes, text, added.at(index))?;
    }
    Ok(Span { start, length })
}

// Adds none at the end of the list.
fn push_none(attributes: &Vec<FlatAttribute>) -> Result<Span, NoMemory>
    ensures start { IfOk result (λ span. span.start ≡ length attributes.now.items) }
    ensures length { IfOk result (λ span. span.length ≡ 0) }
{
    let start = short(attributes.len())?;
    Ok(Span { start, length: 0 })
}

// Adds the attributes of a node.
fn push_all(
    attributes: &mut Vec<FlatAttribute>,
    text: &mut Vec<u8>,
    kind: &Seen<'_>,
) -> Result<Span, NoMemory>
    ensures { IfOk result (λ span.
        AttributesAdded attributes.old.items text.old.items (attributes_of (seen_kind kind.now))
        attributes.new.items text.new.items
        × (span.start ≡ length attributes.old.items)
        × (span.length ≡ length (attributes_of (seen_kind kind.now)))) }
{
    match kind {
        Seen::Element(_, added) => push_attributes(attributes, text, added),
        _ => push_none(&*attributes),
    }
}

fn push_attribute(
    attributes: &mut Vec<FlatAttribute>,
    text: &mut Vec<u8>,
    added: SeenAttribute<'_>,
) -> Result<(), NoMemory>
    ensures { OnOk result (AttributesAdded attributes.old.items text.old.items
        (seen_attribute added.entry ∷ []) attributes.new.items text.new.items) }
{
    let name = push_text(text, added.name)?;
    let value = push_text(text, added.value)?;
    attributes.push(FlatAttribute { name, value })?;
    Ok(())
}

// The row of a node whose words and attributes stand there.
fn row_of(tree: &Tree, node: usize, text: Span, attributes: Span) -> Result<FlatNode, NoMemory>
    requires { node < length tree.now }
    ensures node { IfOk result (λ row. IsNode tree.now node row) }
    ensures text { IfOk result (λ row. row.text ≡ text) }
    ensures attributes { IfOk result (λ row. row.attributes ≡ attributes) }
{
    let kind = tree.kind(node);
    let parent = link(tree.parent(node))?;
    let first_child = link(tree.first_child(node))?;
    let last_child = link(tree.last_child(node))?;
    let previous = link(tree.previous(node))?;
    let next = link(tree.next_sibling(node))?;
    let contents = link(tree.contents(node))?;
    Ok(FlatNode {
        kind: kind_number(&kind),
        space: space_at(&kind),
        parent,
        first_child,
        last_child,
        previous,
        next,
        contents,
        attributes,
        text,
    })
}

// Adds a node's row, its attributes, and their bytes.
fn push_node(flat: &mut Flat, tree: &Tree, node: usize) -> Result<(), NoMemory>
    requires { node < length tree.now }
    ensures { OnOk result (RowAdded tree.now node flat.old flat.new) }
{
    let kind = tree.kind(node);
    let text = push_text(&mut flat.text, words_in(&kind))?;
    let attributes = push_all(&mut flat.attributes, &mut flat.text, &kind)?;
    let row = row_of(tree, node, text, attributes)?;
    flat.nodes.push(row)?;
    Ok(())
}

impl Flat {
    // No row yet, with room for so many, where 32 bits count them.
    fn empty(alloc: Global, count: usize) -> Result<Flat, NoMemory>
        ensures small { IfOk result (λ _. count ≤ NONE) }
        ensures nodes { IfOk result (λ f. f.nodes.items ≡ []) }
        ensures attributes { IfOk result (λ f. f.attributes.items ≡ []) }
        ensures text { IfOk result (λ f. f.text.items ≡ []) }
    {
        let _number = short(count)?;
        let nodes = Vec::with_capacity(alloc, count)?;
        Ok(Flat {
            nodes,
            attributes: Vec::new(alloc),
            text: Vec::new(alloc),
        })
    }

    /// The tree in three lists. A tree of more nodes than 32 bits count, or of more bytes, is want
    /// of memory.
    pub fn of(alloc: Global, tree: &Tree) -> Result<Flat, NoMemory>
        ensures { IfOk result (λ f. Shows tree.now f.nodes.items f.attributes.items f.text.items) }
    {
        let count = tree.len();
        let mut flat = Flat::empty(alloc, count)?;
        for node in 0..count {
            push_node(&mut flat, tree, node)?;
        }
        Ok(flat)
    }
}
