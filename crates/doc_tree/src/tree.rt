//! The tree (DOM 4.2 #node-trees, 4.4 #interface-node) and its changes; `readers` has what reads
//! it.

ghost use Rattle.std.specs.Prelude.{◌≡◌, ◌≢◌, ◌<◌, ◌≤◌, ◌++◌, ◌∷◌, [], false, if◌then◌else◌, codes};
ghost use Rattle.std.specs.Prelude.{◌↔◌, ℕ, ◌||◌, ◌&&◌, IsTrue, IsFalse, length, slice_index};
ghost use Rattle.std.specs.Prelude.{reverse, vec_len, IfOk, OnOk, OnErr, IsSome};
ghost use Rattle.std.specs.Str.{chars};
ghost use Rattle.std.specs.Option.{ForSome};

use crate::nodes::Nodes;
use crate::readers::is_empty;
use html_types::{Attributes, Kind, NoMemory};
use std::alloc::Global;
use std::marker::Model;
use text_store::{Listed, Seen, SeenName};

/// A tree: a contract sees the list of its nodes. The nodes have the numbers below `len`, and the
/// Document is number 0.
#[derive(Drop)]
pub struct Tree {
    pub(crate) alloc: Global,
    pub(crate) nodes: Nodes,
}

impl Model for Tree {
    ghost use Rattle.std.specs.Prelude.{List};
    ghost use Rattle.html_types.specs.declared.tree.Node.{Node};

    ghost Value = { List Node };

    ghost use Rattle.standard.specs.Tree.{IsTree};

    ghost view = { λ t. t.nodes };

    ghost invariant = { λ t. IsTree t.nodes };
}

/// What became of a node that was to be put somewhere.
#[derive(Clone, Copy, PartialEq, Eq)]
pub enum Put {
    Done,
    /// The place lies under the node, or in a Document that has an element and would get another.
    Impossible,
}

ghost use Rattle.html_types.specs.Numbers.{place_of};
ghost use Rattle.html_types.specs.declared.tree.Kind.TheVariants as kind;
ghost use Rattle.text_store.specs.Views.{seen_name};
ghost use Rattle.doc_tree.specs.Rows.{next_of, is_given, sibling_before};

// Changes of the tree.
impl Tree {
    ghost use Rattle.standard.specs.Tree.{IsTree, Keeps, kind_of, parent_of, children_of, host_of};
    ghost use Rattle.standard.specs.Tree.{new_tree, detached, moved, put_of, put_before_of};
    ghost use Rattle.standard.specs.Tree.{is_impossible, is_impossible_before, is_second_element};
    ghost use Rattle.standard.specs.Tree.{is_other_element, is_leaf, lies_in, with_new, with_kind};
    ghost use Rattle.standard.specs.Tree.{with_more, text_added, text_before, text_put, put_under};
    ghost use Rattle.standard.specs.Tree.{lone, with_template};

    /// The Document alone.
    pub fn new(alloc: Global) -> Result<Tree, NoMemory>
        ensures { IfOk result (λ t. t ≡ new_tree) }
    {
        let mut nodes = Nodes::new(alloc);
        nodes.push(Kind::Document)?;
        Ok(Tree { alloc, nodes })
    }

    /// Makes a node that stands nowhere, and says its number.
    pub fn make(&mut self, kind: Kind) -> Result<usize, NoMemory>
        ensures ok { IfOk result
            (λ n. (n ≡ length self.old) × (self.new ≡ self.old ++ lone kind ∷ [])) }
        ensures err { OnErr result (self.new ≡ self.old) }
        ensures keeps { Keeps self.old self.new }
    {
        let number = self.nodes.push(kind)?;
        Ok(number)
    }

    /// Makes an element that stands nowhere, and says its number.
    pub fn make_element(
        &mut self,
        name: SeenName<'_>,
        attributes: &Listed<'_>,
    ) -> Result<usize, NoMemory>
        ensures ok { IfOk result
            (λ n. (n ≡ length self.old)
            × (self.new ≡ self.old
            ++ lone (kind.Element (seen_name name.entry) attributes.now) ∷ [])) }
        ensures err { OnErr result (self.new ≡ self.old) }
        ensures keeps { Keeps self.old self.new }
    {
        let number = self.nodes.push_element(name, attributes)?;
        Ok(number)
    }

    // Makes a Text that stands nowhere, and says its number.
    fn make_text(&mut self, text: &str) -> Result<usize, NoMemory>
        ensures ok { IfOk result
            (λ n. (n ≡ length self.old)
            × (self.new ≡ self.old ++ lone (kind.Text (chars text.now)) ∷ [])) }
        ensures err { OnErr result (self.new ≡ self.old) }
        ensures keeps { Keeps self.old self.new }
    {
        let number = self.nodes.push_text(text)?;
        Ok(number)
    }

    /// Makes an element with contents of its own, which get the number behind its.
    pub fn make_template(&mut self, kind: Kind) -> Result<usize, NoMemory>
        ensures ok { IfOk result
            (λ n. (n ≡ length self.old) × (self.new ≡ with_template self.old kind)) }
        ensures err { OnErr result (self.new ≡ self.old) }
        ensures keeps { Keeps self.old self.new }
    {
        let number = self.nodes.push_template(kind)?;
        Ok(number)
    }

    /// Takes the node out of the children of its parent, if it has one.
    pub fn detach(&mut self, node: usize)
        requires { node < length self.old }
        ensures node { self.new ≡ detached self.old node }
        ensures keeps { Keeps self.old self.new }
    {
        self.nodes.unlink(node);
    }

    // Whether nothing stands under the node.
    fn is_leaf(&self, node: usize) -> bool
        requires { node < length self.now }
        ensures leaf { result ≡ is_leaf self.now node }
        ensures tree { IsTree self.now }
    {
        self.nodes.first_child(node).is_none() && self.nodes.contents(node).is_none()
    }

    // Whether `place` is the node or stands under it. The way up from the place is walked, unless
    // nothing stands under the node.
    fn lies_in(&self, place: usize, node: usize) -> bool
        requires place_here { place < length self.now }
        requires node_here { node < length self.now }
        ensures { result ≡ lies_in self.now place node }
    {
        if self.is_leaf(node) {
            return place == node;
        }
        let mut at = place;
        for _ in 0..self.nodes.len() {
            if at == node {
                return true;
            }
            match self.nodes.host(at).or(self.nodes.parent(at)) {
                Some(above) => at = above,
                None => return false,
            }
        }
        false
    }

    // Whether a child is an element other than the node.
    fn is_other_element(&self, node: usize, child: usize) -> bool
        requires { child < length self.now }
        ensures { result ≡ is_other_element self.now node child }
    {
        child != node && self.nodes.is_element(child)
    }

    // Whether the parent is a Document that has an element other than the node, which is one too.
    fn is_second_element(&self, node: usize, parent: usize) -> bool
        requires node_here { node < length self.now }
        requires parent_here { parent < length self.now }
        ensures { result ≡ is_second_element self.now node parent }
    {
        if !self.nodes.is_document(parent) || !self.nodes.is_element(node) {
            return false;
        }
        let mut child = self.nodes.first_child(parent);
        'children: while let Some(at) = child {
            if self.is_other_element(node, at) {
                return true;
            }
            child = self.nodes.next_sibling(at);
        }
        false
    }

    // Whether the number is that of a child of the parent.
    fn is_child(&self, node: usize, parent: usize) -> bool
        ensures child { IsTrue result → parent_of self.now node ≡ Some parent }
        ensures other { IsFalse result → parent_of self.now node ≢ Some parent }
        ensures here { IsTrue result → node < length self.now }
    {
        node < self.nodes.len() && self.nodes.parent(node) == Some(parent)
    }

    // The given node where it is a child of the parent.
    fn child(&self, parent: usize, before: Option<usize>) -> Option<usize>
        requires { parent < length self.now }
        ensures place { place_of (children_of self.now parent) result
            ≡ place_of (children_of self.now parent) before }
        ensures child { ForSome result (λ b. parent_of self.now b ≡ Some parent) }
        ensures here { ForSome result (λ b. b < length self.now) }
        ensures tree { IsTree self.now }
    {
        // Its invariant is that this is a tree.
        let _nodes = &self.nodes;
        match before {
            Some(before) => {
                if self.is_child(before, parent) {
                    Some(before)
                } else {
                    None
                }
            }
            None => None,
        }
    }

    // A node without a parent goes among the parent's children, before one of them or last.
    fn link(&mut self, node: usize, parent: usize, before: Option<usize>)
        requires node_here { node < length self.old }
        requires parent_here { parent < length self.old }
        requires alone { parent_of self.old node ≡ None }
        requires kept { IsTree (put_under self.old node parent before) }
        ensures { self.new ≡ put_under self.old node parent before }
    {
        match self.child(parent, before) {
            Some(before) => self.nodes.link_before(node, parent, before),
            None => self.nodes.link_last(node, parent),
        }
    }

    // The node goes among the parent's children, from wherever it stands.
    fn relocate(&mut self, node: usize, parent: usize, before: Option<usize>)
        requires node_here { node < length self.old }
        requires parent_here { parent < length self.old }
        requires not_document { node ≢ 0 }
        requires no_contents { host_of self.old node ≡ None }
        requires apart { lies_in self.old parent node ≡ false }
        ensures moved { self.new ≡ moved self.old node parent before }
        ensures keeps { Keeps self.old self.new }
    {
        // Its invariant is that this is a tree.
        let _nodes = self.nodes.len();
        self.detach(node);
        self.link(node, parent, before);
    }

    // Puts the node under the parent, before one of its children or last.
    fn put(&mut self, node: usize, parent: usize, before: Option<usize>) -> Put
        requires node_here { node < length self.old }
        requires parent_here { parent < length self.old }
        requires not_document { node ≢ 0 }
        requires no_contents { host_of self.old node ≡ None }
        ensures answer { result
            ≡ (if is_impossible self.old node parent then Put.Impossible else Put.Done) }
        ensures put { self.new ≡ put_of self.old node parent before }
        ensures keeps { Keeps self.old self.new }
    {
        if self.lies_in(parent, node) || self.is_second_element(node, parent) {
            return Put::Impossible;
        }
        self.relocate(node, parent, before);
        Put::Done
    }

    /// Puts the node at the end of the parent's children, from wherever it stands. Impossible, and
    /// then nothing changes, exactly where the parent is the node or stands under it, or is a
    /// Document that has another element than the node, which is one too.
    pub fn put_last(&mut self, node: usize, parent: usize) -> Result<Put, NoMemory>
        requires node_here { node < length self.old }
        requires parent_here { parent < length self.old }
        requires not_document { node ≢ 0 }
        requires no_contents { host_of self.old node ≡ None }
        ensures answer { IfOk result
            (λ put. put
            ≡ (if is_impossible self.old node parent then Put.Impossible else Put.Done)) }
        ensures ok { OnOk result (self.new ≡ put_of self.old node parent None) }
        ensures err { OnErr result (self.new ≡ self.old) }
        ensures keeps { Keeps self.old self.new }
    {
        Ok(self.put(node, parent, None))
    }

    /// Puts the node just before another. A node stays where it is before itself.
    pub fn put_before(&mut self, node: usize, before: usize) -> Result<Put, NoMemory>
        requires node_here { node < length self.old }
        requires before_here { before < length self.old }
        requires has_parent { IsSome (parent_of self.old before) }
        requires not_document { node ≢ 0 }
        requires no_contents { host_of self.old node ≡ None }
        ensures answer { IfOk result
            (λ put. put
            ≡ (if is_impossible_before self.old node before then Put.Impossible else Put.Done)) }
        ensures ok { OnOk result (self.new ≡ put_before_of self.old node before) }
        ensures err { OnErr result (self.new ≡ self.old) }
        ensures keeps { Keeps self.old self.new }
    {
        if node == before {
            return Ok(Put::Done);
        }
        let parent = self.nodes.parent(before).unwrap();
        Ok(self.put(node, parent, Some(before)))
    }

    /// Makes a node among the parent's children, before the given one or last.
    pub fn add(&mut self, parent: usize, before: Option<usize>, kind: Kind) -> Result<(), NoMemory>
        requires { parent < length self.old }
        ensures ok { OnOk result
            (self.new
            ≡ with_new self.old parent (place_of (children_of self.old parent) before) kind) }
        ensures err { OnErr result (self.new ≡ self.old) }
        ensures keeps { Keeps self.old self.new }
    {
        let _nodes = self.nodes.len();
        let number = self.make(kind)?;
        self.link(number, parent, before);
        Ok(())
    }

    // What stands just before a child of the parent, or the last child.
    fn before(&self, parent: usize, before: Option<usize>) -> Option<usize>
        requires { parent < length self.now }
        ensures before { result
            ≡ sibling_before (children_of self.now parent)
            (place_of (children_of self.now parent) before) }
        ensures here { ForSome result (λ m. m < length self.now) }
    {
        match self.child(parent, before) {
            Some(before) => self.nodes.previous_sibling(before),
            None => self.nodes.last_child(parent),
        }
    }

    // The Text just before a child of the parent, or the last child.
    fn text_before(&self, parent: usize, before: Option<usize>) -> Option<usize>
        requires { parent < length self.now }
        ensures found { result
            ≡ text_before self.now parent (place_of (children_of self.now parent) before) }
        ensures here { ForSome result (λ m. m < length self.now) }
    {
        match self.before(parent, before) {
            Some(previous) => {
                if self.nodes.is_text(previous) {
                    Some(previous)
                } else {
                    None
                }
            }
            None => None,
        }
    }

    // More text behind that of a Text.
    fn append_text(&mut self, node: usize, text: &str) -> Result<(), NoMemory>
        requires { node < length self.old }
        ensures ok { OnOk result
            (self.new
            ≡ with_kind self.old node (with_more (kind_of self.old node) (chars text.now))) }
        ensures err { OnErr result (self.new ≡ self.old) }
        ensures keeps { Keeps self.old self.new }
    {
        self.nodes.append_text(node, text)?;
        Ok(())
    }

    // Makes a Text among the parent's children, before the given one or last.
    fn add_new_text(
        &mut self,
        parent: usize,
        before: Option<usize>,
        text: &str,
    ) -> Result<(), NoMemory>
        requires { parent < length self.old }
        ensures ok { OnOk result
            (self.new
            ≡ with_new self.old parent (place_of (children_of self.old parent) before)
            (kind.Text (chars text.now))) }
        ensures err { OnErr result (self.new ≡ self.old) }
        ensures keeps { Keeps self.old self.new }
    {
        let _nodes = self.nodes.len();
        let number = self.make_text(text)?;
        self.link(number, parent, before);
        Ok(())
    }

    // Text among the parent's children, before the given one or last, joined to a Text just before
    // it; else it becomes a node.
    fn put_text(&mut self, parent: usize, before: Option<usize>, text: &str) -> Result<(), NoMemory>
        requires { parent < length self.old }
        ensures ok { OnOk result
            (self.new
            ≡ (let place = place_of (children_of self.old parent) before in text_put self.old
            parent place (chars text.now) (text_before self.old parent place))) }
        ensures err { OnErr result (self.new ≡ self.old) }
        ensures keeps { Keeps self.old self.new }
    {
        match self.text_before(parent, before) {
            Some(previous) => self.append_text(previous, text),
            None => self.add_new_text(parent, before, text),
        }
    }

    /// Puts text among the parent's children, before the given one or last. It joins a Text just
    /// before it; a Document takes none, and an empty text changes nothing.
    pub fn add_text(
        &mut self,
        parent: usize,
        before: Option<usize>,
        text: &str,
    ) -> Result<(), NoMemory>
        requires { parent < length self.old }
        ensures ok { OnOk result
            (self.new
            ≡ text_added self.old parent (place_of (children_of self.old parent) before)
            (chars text.now)) }
        ensures err { OnErr result (self.new ≡ self.old) }
        ensures keeps { Keeps self.old self.new }
    {
        if is_empty(text) {
            return Ok(());
        }
        if self.nodes.is_document(parent) {
            return Ok(());
        }
        self.put_text(parent, before, text)?;
        Ok(())
    }
}

// All children of a node move at once.
impl Tree {
    ghost use Rattle.standard.specs.Tree.{IsTree, Keeps, parent_of, children_of, children_moved};
    ghost use Rattle.standard.specs.Tree.{emptied};

    /// Takes the children of a node out, one after another. It takes no memory.
    pub fn take_children(&mut self, node: usize)
        requires { node < length self.old }
        ensures taken { self.new ≡ emptied self.old node }
        ensures keeps { Keeps self.old self.new }
    {
        'taking: while let Some(child) = self.nodes.first_child(node) {
            self.detach(child);
        }
    }

    /// Puts the children of a node, in order, each at the end of another's. One that can't be put
    /// there stays where it is.
    pub fn move_children(&mut self, from: usize, to: usize) -> Result<(), NoMemory>
        requires from_here { from < length self.old }
        requires to_here { to < length self.old }
        ensures ok { OnOk result (self.new ≡ children_moved self.old from to) }
        ensures err { OnErr result (self.new ≡ self.old) }
        ensures keeps { Keeps self.old self.new }
    {
        let last = self.nodes.last_child(from);
        let mut child = self.nodes.first_child(from);
        'moving: while let Some(at) = child {
            child = self.behind(at, last);
            self.put(at, to, None);
        }
        Ok(())
    }

    // The sibling behind the node, unless the node is the last that is meant.
    fn behind(&self, node: usize, last: Option<usize>) -> Option<usize>
        requires { node < length self.now }
        ensures behind { result
            ≡ (if is_given last node then None else next_of self.now node
            (parent_of self.now node)) }
        ensures tree { IsTree self.now }
    {
        // Its invariant is that this is a tree.
        let _nodes = &self.nodes;
        if last == Some(node) {
            return None;
        }
        self.nodes.next_sibling(node)
    }
}

// Attributes.
impl Tree {
    ghost use Rattle.std.specs.Option.{option_map};
    ghost use Rattle.standard.specs.Tree.{Keeps, kind_of, attributes_of, attribute, with_lacking};
    ghost use Rattle.standard.specs.Tree.{attributes_added};

    /// The value of an element's attribute.
    pub fn attribute(&self, node: usize, name: &str) -> Option<&str>
        requires { node < length self.now }
        ensures { option_map (λ text. chars text.now) result
            ≡ attribute (chars name.now) (attributes_of (kind_of self.now node)) }
    {
        match self.nodes.kind(node) {
            Seen::Element(_, attributes) => attributes.value_of(name),
            _ => None,
        }
    }

    /// Gives an element copies of those attributes that it lacks, in order. A node that is no
    /// element stays as it is.
    pub fn add_attributes(&mut self, node: usize, more: &Attributes) -> Result<(), NoMemory>
        requires { node < length self.old }
        ensures ok { OnOk result (self.new ≡ attributes_added self.old node more.now) }
        ensures err { OnErr result (self.new ≡ self.old) }
        ensures keeps { Keeps self.old self.new }
    {
        self.nodes.add_attributes(node, more)?;
        Ok(())
    }
}
