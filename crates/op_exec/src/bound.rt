//! What ids stand for.

ghost use Rattle.std.specs.Prelude.{◌≡◌, ◌<◌, ◌++◌, ◌∷◌, [], length, IsTrue, OnOk, OnErr, IfOk};
ghost use Rattle.std.specs.Prelude.{None};
ghost use Rattle.std.specs.Option.{ForSome};
ghost use Rattle.std.specs.BTreeMap.{insert_entry};
ghost use Rattle.standard.specs.Tree.{Keeps};
ghost use Rattle.standard.specs.Act.{element_made, id_cmp, bound_to, node_of, is_bound};
ghost use Rattle.op_exec.specs.Ids.{listed, with_realms, IsNext};
ghost use Rattle.text_store.specs.Views.{seen_name};

use crate::element::make_element;
use doc_tree::Tree;
use html_types::{NoMemory, NodeId};
use std::alloc::Global;
use std::collections::BTreeMap;
use std::marker::Model;
use text_store::{Listed, SeenName};

/// The nodes that the ids of a realm stand for, the n-th for the n-th id.
#[derive(Drop)]
struct Realm {
    realm: u32,
    nodes: Vec<u32>,
}

// The number of the tree's next node, for a list: a tree has no more nodes than 32 bits can number.
fn next_number(tree: &Tree) -> Result<u32, NoMemory>
    ensures { IfOk result (λ number. number ≡ length tree.now) }
{
    u32::try_from(tree.len()).map_err(|_| NoMemory)
}

// So many realms have a list of their own. Looking through them is then as fast as a search,
// however many scripts made elements.
const MOST_LISTS: usize = 16;

/// What ids stand for: ids come in order in their realm, and one that doesn't, or whose realm has
/// no list, is among the others. A contract sees the pairs in the ids' order.
#[derive(Drop)]
pub(crate) struct Bound {
    alloc: Global,
    // The latest realm first.
    realms: Vec<Realm>,
    others: BTreeMap<NodeId, usize>,
}

impl Model for Bound {
    ghost use Rattle.standard.specs.Act.{Bound as Pairs};
    ghost use Rattle.op_exec.specs.Ids.{with_realms};

    ghost Value = { Pairs };

    ghost view = { λ b. with_realms b.realms.items b.others.entries };
}

// The node that the realms' lists name.
fn listed(realms: &[Realm], id: NodeId) -> Option<usize>
    ensures { result ≡ listed realms.now id }
{
    for realm in realms {
        if realm.realm == id.realm && (id.n as usize) < realm.nodes.len() {
            return Some(realm.nodes[id.n as usize] as usize);
        }
    }
    None
}

// The node that the map names.
fn in_map(others: &BTreeMap<NodeId, usize>, id: NodeId) -> usize
    requires { IsTrue (is_bound others.now.entries id) }
    ensures { result ≡ node_of others.now.entries id }
{
    others.get(&id).copied().unwrap()
}

fn is_in_map(others: &BTreeMap<NodeId, usize>, id: NodeId) -> bool
    ensures { result ≡ is_bound others.now.entries id }
{
    others.get(&id).is_some()
}

// The realm whose list the id comes next in.
fn next_in(realms: &[Realm], id: NodeId) -> Option<usize>
    ensures here { ForSome result (λ i. i < length realms.now) }
    ensures next { ForSome result (IsNext realms.now id) }
{
    for place in 0..realms.len() {
        if realms[place].realm == id.realm && realms[place].nodes.len() == id.n as usize {
            return Some(place);
        }
    }
    None
}

// A new element, which the list names last.
fn make_in_list(
    alloc: Global,
    nodes: &mut Vec<u32>,
    tree: &mut Tree,
    name: SeenName<'_>,
    attributes: &Listed<'_>,
) -> Result<(), NoMemory>
    ensures bound { OnOk result (nodes.new.items ≡ nodes.old.items ++ length tree.old ∷ []) }
    ensures made { OnOk result
        (tree.new ≡ element_made tree.old (seen_name name.entry) attributes.now) }
    ensures err_bound { OnErr result (nodes.new.items ≡ nodes.old.items) }
    ensures err_made { OnErr result (tree.new ≡ tree.old) }
    ensures keeps { Keeps tree.old tree.new }
{
    let number = next_number(tree)?;
    nodes.reserve(1)?;
    make_element(alloc, tree, name, attributes)?;
    nodes.push(number)?;
    Ok(())
}

// A new element, the first of a realm.
fn make_in_realm(
    alloc: Global,
    realms: &mut Vec<Realm>,
    id: NodeId,
    tree: &mut Tree,
    name: SeenName<'_>,
    attributes: &Listed<'_>,
) -> Result<(), NoMemory>
    requires { id.n ≡ 0 }
    ensures bound { OnOk result
        ((es : _)
        → with_realms realms.new.items es
        ≡ insert_entry id_cmp (with_realms realms.old.items es) id (length tree.old)) }
    ensures made { OnOk result
        (tree.new ≡ element_made tree.old (seen_name name.entry) attributes.now) }
    ensures err_bound { OnErr result (realms.new.items ≡ realms.old.items) }
    ensures err_made { OnErr result (tree.new ≡ tree.old) }
    ensures keeps { Keeps tree.old tree.new }
{
    let mut nodes = Vec::new(alloc);
    nodes.push(next_number(tree)?)?;
    realms.reserve(1)?;
    make_element(alloc, tree, name, attributes)?;
    realms.insert(
        0,
        Realm {
            realm: id.realm,
            nodes,
        },
    )?;
    Ok(())
}

// A new element, which the map names.
fn make_in_map(
    alloc: Global,
    others: &mut BTreeMap<NodeId, usize>,
    id: NodeId,
    tree: &mut Tree,
    name: SeenName<'_>,
    attributes: &Listed<'_>,
) -> Result<(), NoMemory>
    requires { bound_to others.old.entries id ≡ None }
    ensures bound { OnOk result
        (others.new.entries ≡ insert_entry id_cmp others.old.entries id (length tree.old)) }
    ensures made { OnOk result
        (tree.new ≡ element_made tree.old (seen_name name.entry) attributes.now) }
    ensures err_bound { OnErr result (others.new.entries ≡ others.old.entries) }
    ensures err_made { OnErr result (tree.new ≡ tree.old) }
    ensures keeps { Keeps tree.old tree.new }
{
    let number = tree.len();
    others.insert(id, number)?;
    if let Err(error) = make_element(alloc, tree, name, attributes) {
        others.remove(&id);
        return Err(error);
    }
    Ok(())
}

impl Bound {
    pub(crate) fn new(alloc: Global) -> Bound
        ensures { result ≡ [] }
    {
        Bound {
            alloc,
            realms: Vec::new(alloc),
            others: BTreeMap::new(alloc),
        }
    }

    /// The node that an id stands for.
    pub(crate) fn get(&self, id: NodeId) -> usize
        requires { IsTrue (is_bound self.now id) }
        ensures { result ≡ node_of self.now id }
    {
        match listed(&self.realms, id) {
            Some(node) => node,
            None => in_map(&self.others, id),
        }
    }

    /// Whether the id stands for a node.
    pub(crate) fn has(&self, id: NodeId) -> bool
        ensures { result ≡ is_bound self.now id }
    {
        match listed(&self.realms, id) {
            Some(_) => true,
            None => is_in_map(&self.others, id),
        }
    }

    /// A new element, which the id stands for.
    pub(crate) fn make(
        &mut self,
        id: NodeId,
        tree: &mut Tree,
        name: SeenName<'_>,
        attributes: &Listed<'_>,
    ) -> Result<(), NoMemory>
        requires { bound_to self.old id ≡ None }
        ensures bound { OnOk result (self.new ≡ insert_entry id_cmp self.old id (length tree.old)) }
        ensures made { OnOk result
            (tree.new ≡ element_made tree.old (seen_name name.entry) attributes.now) }
        ensures err_bound { OnErr result (self.new ≡ self.old) }
        ensures err_made { OnErr result (tree.new ≡ tree.old) }
        ensures keeps { Keeps tree.old tree.new }
    {
        if let Some(place) = next_in(&self.realms, id) {
            return make_in_list(
                self.alloc,
                &mut self.realms[place].nodes,
                tree,
                name,
                attributes,
            );
        }
        if id.n == 0 && self.realms.len() < MOST_LISTS {
            return make_in_realm(self.alloc, &mut self.realms, id, tree, name, attributes);
        }
        make_in_map(self.alloc, &mut self.others, id, tree, name, attributes)
    }
}
