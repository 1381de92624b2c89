//! An index of ids.

ghost use Rattle.std.specs.Prelude.{◌≡◌, ℕ, List, codes, Some, None};
ghost use Rattle.std.specs.Str.{chars};
ghost use Rattle.standard.specs.Tree.{attribute, attributes_of};
ghost use Rattle.doc_tree.specs.Holders.{key_of, held, MayHold, IsTold, KeepsHolders};

use crate::attributes::value_of;
use html_types::{Attributes, Kind};
use std::alloc::Global;
use std::collections::BTreeMap;
use std::hash::{FoldHasher, Hasher};
use text_store::Listed;

/// Who may have an id.
#[derive(Clone, Copy)]
pub enum Holder {
    /// That node and no other.
    One(usize),
    /// Any node.
    Several,
}

/// For each id that an element was ever given, who may have it. An element keeps its id for good,
/// in the Document or out of it: so removals and moves are nothing to the index.
#[derive(Drop)]
pub struct Ids {
    // By the number that an id comes to.
    holders: BTreeMap<u64, Holder>,
    // Whether memory was wanting for an id: from then on any node may have any id.
    lost: bool,
}

// The number that an id comes to. Ids that come to one number are told as one that several nodes
// have.
fn number_of(id: &str) -> u64
    ensures { result ≡ key_of (chars id.now) }
{
    let mut hasher = FoldHasher::default();
    hasher.write(id.as_bytes());
    hasher.finish()
}

// Who may have an id that the node gets too.
fn with_node(holder: Option<Holder>, node: usize) -> Holder
    ensures told { MayHold (Some result) node }
    ensures kept { (n : ℕ) → MayHold holder n → MayHold (Some result) n }
{
    match holder {
        None => Holder::One(node),
        Some(Holder::One(other)) => {
            if other == node {
                Holder::One(node)
            } else {
                Holder::Several
            }
        }
        Some(Holder::Several) => Holder::Several,
    }
}

impl Ids {
    /// No ids, which take no memory.
    pub fn new(alloc: Global) -> Ids
        ensures { (id : List ℕ) → held result id ≡ None }
    {
        Ids {
            holders: BTreeMap::new(alloc),
            lost: false,
        }
    }

    /// Who may have the id. It is found in the logarithm of their number.
    pub fn holder(&self, id: &str) -> Option<Holder>
        ensures { result ≡ held self.now (chars id.now) }
    {
        if self.lost {
            return Some(Holder::Several);
        }
        self.holders.get(&number_of(id)).copied()
    }

    // The node gets the id. Most ids are new, and those are looked for once.
    #[inline(never)]
    fn note(&mut self, id: &str, node: usize)
        ensures told { MayHold (held self.new (chars id.now)) node }
        ensures kept { KeepsHolders self.old self.new }
    {
        let number = number_of(id);
        let Ok(old) = self.holders.insert(number, Holder::One(node)) else {
            self.lost = true;
            return;
        };
        if old.is_none() {
            return;
        }
        if self.holders.insert(number, with_node(old, node)).is_err() {
            self.lost = true;
        }
    }

    /// The node gets the `id` among the attributes, if there is one.
    #[inline]
    pub fn note_among(&mut self, attributes: &Attributes, node: usize)
        ensures told { IsTold self.new (attribute (codes "id") attributes.now) node }
        ensures kept { KeepsHolders self.old self.new }
    {
        if let Some(id) = value_of(attributes, "id") {
            self.note(id.as_str(), node);
        }
    }

    /// The node gets the `id` among the attributes, if there is one.
    #[inline]
    pub fn note_seen(&mut self, attributes: &Listed<'_>, node: usize)
        ensures told { IsTold self.new (attribute (codes "id") attributes.now) node }
        ensures kept { KeepsHolders self.old self.new }
    {
        if attributes.len() == 0 {
            return;
        }
        if let Some(id) = attributes.value_of("id") {
            self.note(id, node);
        }
    }

    /// The node is made, with the `id` that an element has, if it has one.
    #[inline]
    pub fn note_made(&mut self, kind: &Kind, node: usize)
        ensures told { IsTold self.new (attribute (codes "id") (attributes_of kind.now)) node }
        ensures kept { KeepsHolders self.old self.new }
    {
        if let Kind::Element { attributes, .. } = kind {
            self.note_among(attributes, node);
        }
    }
}
