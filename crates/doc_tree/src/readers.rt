//! What reads a tree: walks in tree order, texts, and a node's own fields.

ghost use Rattle.std.specs.Prelude.{◌≡◌, ◌≢◌, ◌<◌, ◌≤◌, ◌++◌, ◌∷◌, [], true, false, if◌then◌else◌};
ghost use Rattle.std.specs.Prelude.{codes, ◌↔◌, ℕ, ◌||◌, ◌&&◌, IsTrue, IsFalse, length};
ghost use Rattle.std.specs.Prelude.{slice_index, reverse, vec_len, IfOk, OnOk, OnErr, IsSome};
ghost use Rattle.std.specs.Str.{chars};
ghost use Rattle.std.specs.Option.{ForSome};
ghost use Rattle.doc_tree.specs.Rows.{next_of};
ghost use Rattle.html_types.specs.Text.{same_text};
ghost use Rattle.standard.specs.Tree.{text_of};
ghost use Rattle.text_store.specs.Views.{seen_kind};

use crate::ids::Holder;
use crate::tree::Tree;
use html_types::{Name, NoMemory, Text};
use text_store::Seen;

fn push_text(joined: &mut Text, kind: &Seen<'_>) -> Result<(), NoMemory>
    ensures { OnOk result (joined.new ≡ joined.old ++ text_of (seen_kind kind.now)) }
{
    if let Seen::Text(text) = kind {
        joined.push_str(*text)?;
    }
    Ok(())
}

/// Whether a text has no characters.
pub(crate) fn is_empty(text: &str) -> bool
    ensures { IsTrue result ↔ (chars text.now ≡ []) }
{
    text.is_empty()
}

fn has_text(kind: &Seen<'_>) -> bool
    ensures { IsFalse result ↔ (text_of (seen_kind kind.now) ≡ []) }
{
    match kind {
        Seen::Text(text) => !is_empty(*text),
        _ => false,
    }
}

ghost use Rattle.standard.specs.Tree.{is_value, attributes_of, attribute};

// Whether two texts are the same.
fn is_text(value: &str, text: &str) -> bool
    ensures { result ≡ same_text (chars value.now) (chars text.now) }
{
    value == text
}

// Whether the node is an element with that `id`.
fn has_id(kind: &Seen<'_>, id: &str) -> bool
    ensures { result
        ≡ is_value (chars id.now) (attribute (codes "id") (attributes_of (seen_kind kind.now))) }
{
    let Seen::Element(_, attributes) = kind else {
        return false;
    };
    match attributes.value_of("id") {
        Some(value) => is_text(value, id),
        None => false,
    }
}

// Walks.
impl Tree {
    ghost use Rattle.standard.specs.Tree.{kind_of, children_of, has_id, find_id, script_text};

    /// The first element of the Document, in tree order, with that `id`. An empty one finds
    /// nothing. It takes no memory. Where one element alone was ever given the id, it is looked up,
    /// and its way up is walked; where several were, the Document is.
    pub fn find_id(&self, id: &str) -> Option<usize>
        ensures found { result ≡ find_id self.now (chars id.now) }
        ensures here { ForSome result (λ k. k < length self.now) }
    {
        if id.is_empty() {
            return None;
        }
        match self.nodes.holder(id) {
            None => None,
            Some(Holder::One(node)) => self.only_holder(id, node),
            Some(Holder::Several) => self.walk_to_id(id),
        }
    }

    // The node, which alone may have the `id`, where it has it and is in the Document.
    fn only_holder(&self, id: &str, node: usize) -> Option<usize>
        requires some { length id.now ≢ 0 }
        requires only { (n : ℕ) → has_id self.now (chars id.now) n ≡ true → node ≡ n }
        ensures found { result ≡ find_id self.now (chars id.now) }
        ensures here { ForSome result (λ k. k < length self.now) }
    {
        if node >= self.nodes.len() {
            return None;
        }
        if !has_id(&self.nodes.kind(node), id) {
            return None;
        }
        self.connected(node).then_some(node)
    }

    // The first of several, by a walk in tree order.
    fn walk_to_id(&self, id: &str) -> Option<usize>
        requires { length id.now ≢ 0 }
        ensures found { result ≡ find_id self.now (chars id.now) }
        ensures here { ForSome result (λ k. k < length self.now) }
    {
        if self.nodes.len() == 0 {
            return None;
        }
        let mut left = Some(0);
        'walk: while let Some(node) = left {
            if has_id(&self.nodes.kind(node), id) {
                return Some(node);
            }
            left = self.next(node);
        }
        None
    }

    /// The texts of the node's Text children, joined.
    pub fn child_text(&self, node: usize) -> Result<Text, NoMemory>
        requires { node < length self.now }
        ensures { IfOk result (λ text. text ≡ script_text self.now node) }
    {
        let mut joined = Text::new(self.alloc);
        let mut child = self.nodes.first_child(node);
        'children: while let Some(at) = child {
            push_text(&mut joined, &self.nodes.kind(at))?;
            child = self.nodes.next_sibling(at);
        }
        Ok(joined)
    }

    /// Whether a Text child of the node has any text.
    pub fn has_child_text(&self, node: usize) -> bool
        requires { node < length self.now }
        ensures some { IsTrue result → script_text self.now node ≢ [] }
        ensures none { IsFalse result → script_text self.now node ≡ [] }
    {
        let mut child = self.nodes.first_child(node);
        'children: while let Some(at) = child {
            if has_text(&self.nodes.kind(at)) {
                return true;
            }
            child = self.nodes.next_sibling(at);
        }
        false
    }
}

// Readers.
impl Tree {
    ghost use Rattle.standard.specs.Fragment.{name_in};
    ghost use Rattle.standard.specs.Tree.{IsTree, is_connected, kind_of, parent_of, children_of};
    ghost use Rattle.standard.specs.Tree.{contents_of, shown_of, first_of, last_of, after_node};
    ghost use Rattle.standard.specs.Tree.{previous_of, first_element};

    /// How many nodes there are; they have the numbers below that.
    pub fn len(&self) -> usize
        ensures len { result ≡ length self.now }
        ensures tree { IsTree self.now }
    {
        self.nodes.len()
    }

    /// What the node is.
    pub fn kind(&self, node: usize) -> Seen<'_>
        requires { node < length self.now }
        ensures { seen_kind result ≡ kind_of self.now node }
    {
        self.nodes.kind(node)
    }

    /// The name of an element; of any other node one without characters. A long one is shared.
    pub fn name_in(&self, node: usize) -> Result<Name, NoMemory>
        requires { node < length self.now }
        ensures { IfOk result (λ name. name ≡ name_in (kind_of self.now node)) }
    {
        self.nodes.name_in(node)
    }

    /// The node's parent; none where it stands nowhere, and none of the Document and of a
    /// template's contents.
    pub fn parent(&self, node: usize) -> Option<usize>
        requires { node < length self.now }
        ensures parent { result ≡ parent_of self.now node }
        ensures here { ForSome result (λ p. p < length self.now) }
        ensures tree { IsTree self.now }
    {
        self.nodes.parent(node)
    }

    /// The contents of a template.
    pub fn contents(&self, node: usize) -> Option<usize>
        requires { node < length self.now }
        ensures contents { result ≡ contents_of self.now node }
        ensures here { ForSome result (λ c. c < length self.now) }
        ensures tree { IsTree self.now }
    {
        self.nodes.contents(node)
    }

    /// The node's first child.
    pub fn first_child(&self, node: usize) -> Option<usize>
        requires { node < length self.now }
        ensures { result ≡ first_of (children_of self.now node) }
    {
        self.nodes.first_child(node)
    }

    /// The first of the nodes that a text shows under the node: its children, or for a template
    /// those of its contents.
    pub fn first_shown(&self, node: usize) -> Option<usize>
        requires { node < length self.now }
        ensures { result ≡ first_of (shown_of self.now node) }
    {
        match self.contents(node) {
            Some(contents) => self.nodes.first_child(contents),
            None => self.nodes.first_child(node),
        }
    }

    /// The sibling just behind the node.
    pub fn next_sibling(&self, node: usize) -> Option<usize>
        requires { node < length self.now }
        ensures { result ≡ next_of self.now node (parent_of self.now node) }
    {
        self.nodes.next_sibling(node)
    }

    /// Whether the node is in the Document. Its way up is walked.
    #[tactic(auto, unfolding(standard::specs::Tree::is_connected))]
    pub fn connected(&self, node: usize) -> bool
        requires { node < length self.now }
        ensures { result ≡ is_connected self.now node }
    {
        let mut at = node;
        for _ in 0..self.nodes.len() {
            if at == 0 {
                return true;
            }
            match self.nodes.parent(at) {
                Some(parent) => at = parent,
                None => return false,
            }
        }
        false
    }

    /// The node's last child.
    pub fn last_child(&self, node: usize) -> Option<usize>
        requires { node < length self.now }
        ensures { result ≡ last_of (children_of self.now node) }
    {
        self.nodes.last_child(node)
    }

    /// The sibling just before the node.
    pub fn previous(&self, node: usize) -> Option<usize>
        requires { node < length self.now }
        ensures { result ≡ previous_of self.now node (parent_of self.now node) }
    {
        self.nodes.previous_sibling(node)
    }

    /// The next node in tree order. A walk by it over all nodes takes time in their number.
    pub fn next(&self, node: usize) -> Option<usize>
        requires { node < length self.now }
        ensures next { result ≡ first_of (after_node self.now node) }
    {
        if let Some(child) = self.nodes.first_child(node) {
            return Some(child);
        }
        let mut at = node;
        for _ in 0..self.nodes.len() {
            let parent = self.nodes.parent(at)?;
            if let Some(sibling) = self.nodes.next_sibling(at) {
                return Some(sibling);
            }
            at = parent;
        }
        None
    }

    /// The Document's element.
    #[tactic(auto, unfolding(standard::specs::Tree::first_element))]
    pub fn first_element(&self) -> Option<usize>
        ensures first { result ≡ first_element self.now }
        ensures here { ForSome result (λ n. n < length self.now) }
    {
        if self.nodes.len() == 0 {
            return None;
        }
        let mut child = self.nodes.first_child(0);
        'children: while let Some(at) = child {
            if self.nodes.is_element(at) {
                return Some(at);
            }
            child = self.nodes.next_sibling(at);
        }
        None
    }
}
