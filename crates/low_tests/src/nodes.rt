//! Nodes that the tests make, and trees of them. What is made of a tree isn't to be worked out
//! behind the calls: so they promise nothing.

use doc_tree::Tree;
use html_types::{Attribute, Attributes, Kind, Name, NoMemory, Text};
use std::alloc::Global;

/// An element of HTML that has no attributes.
pub fn element(alloc: Global, name: &str) -> Result<Kind, NoMemory> {
    let name = Name::of(alloc, name)?;
    let attributes = Attributes::new(alloc);
    Ok(Kind::Element { name, attributes })
}

/// One attribute.
pub fn attribute(alloc: Global, name: &str, value: &str) -> Result<Attributes, NoMemory> {
    let mut attributes = Attributes::new(alloc);
    let name = Text::from_str(alloc, name)?;
    let value = Text::from_str(alloc, value)?;
    attributes.push(Attribute { name, value })?;
    Ok(attributes)
}

/// The Document alone.
pub fn new_tree(alloc: Global) -> Result<Tree, NoMemory> {
    Tree::new(alloc)
}

/// A new last child of the node, if there is that node.
pub fn add(tree: &mut Tree, parent: usize, kind: Kind) -> Result<(), NoMemory> {
    if parent < tree.len() {
        tree.add(parent, None, kind)?;
    }
    Ok(())
}
