//! The nodes of a tree (DOM). A node is named by its number, its place in the list of all nodes;
//! the Document is number 0.

use crate::attributes::Attributes;
use crate::children::Children;
use crate::name::Name;
use crate::text::Text;

/// What a node is.
#[derive(Drop)]
pub enum Kind {
    Document,
    /// The contents of a template.
    Contents,
    Doctype(Text),
    Element { name: Name, attributes: Attributes },
    Text(Text),
    Comment(Text),
}

/// A node.
#[derive(Drop)]
pub struct Node {
    pub kind: Kind,
    pub parent: Option<usize>,
    pub children: Children,
    /// The template whose contents the node is.
    pub host: Option<usize>,
    /// The contents of the template that the node is.
    pub contents: Option<usize>,
}
