//! Nodes are put in a tree, moved and found.

use crate::nodes::{add, attribute, element, new_tree};
use doc_tree::{Put, Tree};
use html_types::{Kind, Name, NoMemory, Text};
use std::alloc::Global;

// A text in the parent before that child, if there is that parent.
fn add_text(tree: &mut Tree, parent: usize, before: usize, text: &str) -> Result<(), NoMemory> {
    if parent < tree.len() {
        tree.add_text(parent, Some(before), text)?;
    }
    Ok(())
}

// Whether that text stands right in the node.
fn has_text(tree: &Tree, node: usize, text: &str) -> Result<bool, NoMemory> {
    if node < tree.len() {
        Ok(tree.child_text(node)?.as_str() == text)
    } else {
        Ok(false)
    }
}

fn previous(tree: &Tree, node: usize) -> Option<usize> {
    if node < tree.len() {
        tree.previous(node)
    } else {
        None
    }
}

#[test]
fn text_joins_before_an_element(rt: HostRuntime) -> Result<(), NoMemory> {
    let alloc = rt.alloc();
    let mut tree = new_tree(alloc)?;
    add(&mut tree, 0, element(alloc, "body")?)?;
    add(&mut tree, 1, element(alloc, "table")?)?;
    add_text(&mut tree, 1, 2, "a")?;
    add_text(&mut tree, 1, 2, "b")?;
    assert!(rt; has_text(&tree, 1, "ab")?);
    assert_eq!(rt; previous(&tree, 2), Some(3));
    Ok(())
}

#[test]
fn text_that_gets_more_behind_others_is_whole(rt: HostRuntime) -> Result<(), NoMemory> {
    let alloc = rt.alloc();
    let mut tree = new_tree(alloc)?;
    add(&mut tree, 0, element(alloc, "body")?)?;
    add(&mut tree, 1, element(alloc, "table")?)?;
    add_text(&mut tree, 1, 2, "a")?;
    add(&mut tree, 1, Kind::Comment(Text::from_str(alloc, "x")?))?;
    add_text(&mut tree, 1, 2, "b")?;
    add_text(&mut tree, 1, 2, "c")?;
    assert!(rt; has_text(&tree, 1, "abc")?);
    Ok(())
}

// Gives the node an attribute, if there is that node.
fn give(
    alloc: Global,
    tree: &mut Tree,
    node: usize,
    name: &str,
    value: &str,
) -> Result<(), NoMemory> {
    let more = attribute(alloc, name, value)?;
    if node < tree.len() {
        tree.add_attributes(node, &more)?;
    }
    Ok(())
}

// Whether the node has the attribute with that value.
fn has_value(tree: &Tree, node: usize, name: &str, value: &str) -> bool {
    if node < tree.len() {
        tree.attribute(node, name) == Some(value)
    } else {
        false
    }
}

// Whether the node is an element of that name.
fn has_name(tree: &Tree, node: usize, name: &str) -> Result<bool, NoMemory> {
    if node < tree.len() {
        Ok(tree.name_in(node)?.as_str() == name)
    } else {
        Ok(false)
    }
}

#[test]
fn an_element_gets_attributes_again_and_again(rt: HostRuntime) -> Result<(), NoMemory> {
    let alloc = rt.alloc();
    let mut tree = new_tree(alloc)?;
    add(&mut tree, 0, element(alloc, "html")?)?;
    give(alloc, &mut tree, 1, "id", "x")?;
    give(alloc, &mut tree, 1, "class", "y")?;
    give(alloc, &mut tree, 1, "id", "z")?;
    assert!(rt; has_value(&tree, 1, "id", "x"));
    assert!(rt; has_value(&tree, 1, "class", "y"));
    Ok(())
}

// Longer than what is copied into a tree.
const LONG: &str = "long-long-long-long-long-long-long-long-long-long-long-long-long-long-long-\
    long-long-long-long-long-long-long-long-long-long-long-long-long-long-long-long-long-long-\
    long-long-long-long-long-long-long-long-long-long-long-long-long-long-long-long-long-long-\
    long-long-long-long-long-long-long-long-long-long-long-long-long-long-long-long-long-long-";

#[test]
fn a_long_name_and_a_long_value_are_whole(rt: HostRuntime) -> Result<(), NoMemory> {
    let alloc = rt.alloc();
    let mut tree = new_tree(alloc)?;
    let name = Name::of(alloc, LONG)?;
    let attributes = attribute(alloc, "id", LONG)?;
    add(&mut tree, 0, Kind::Element { name, attributes })?;
    give(alloc, &mut tree, 1, "class", "y")?;
    assert!(rt; has_name(&tree, 1, LONG)?);
    assert!(rt; has_value(&tree, 1, "id", LONG));
    assert!(rt; has_value(&tree, 1, "class", "y"));
    Ok(())
}

#[test]
fn the_first_in_tree_order_is_found(rt: HostRuntime) -> Result<(), NoMemory> {
    let alloc = rt.alloc();
    let mut tree = Tree::new(alloc)?;
    let late = tree.make(element(alloc, "p")?)?;
    let early = tree.make_template(element(alloc, "div")?)?;
    tree.add_attributes(late, &attribute(alloc, "id", "x")?)?;
    tree.add_attributes(early, &attribute(alloc, "id", "x")?)?;
    tree.put_last(late, 0)?;
    assert_eq!(rt; tree.find_id("x"), Some(late));
    Ok(())
}

#[test]
fn a_node_moves_before_another(rt: HostRuntime) -> Result<(), NoMemory> {
    let alloc = rt.alloc();
    let mut tree = Tree::new(alloc)?;
    let first = tree.make(element(alloc, "p")?)?;
    let second = tree.make(element(alloc, "p")?)?;
    tree.add(0, None, Kind::Comment(Text::new(alloc)))?;
    tree.put_last(second, first)?;
    assert!(rt; tree.put_before(3, 3)? == Put::Done);
    assert!(rt; tree.put_last(first, second)? == Put::Impossible);
    Ok(())
}
