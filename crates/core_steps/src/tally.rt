//! What a run comes to in numbers.

ghost use Rattle.std.specs.Prelude.{◌≡◌, ◌-◌, ◌^◌, min};
ghost use Rattle.core_steps.specs.Tallies.{nodes_below};

use doc_tree::Tree;

/// What a run comes to in numbers.
#[derive(Clone, Copy)]
pub struct Tally {
    /// The scripts that were executed.
    pub scripts: u64,
    /// The scripts of the page that left what was parsed ahead of them standing.
    pub kept: u64,
    /// The scripts of the page that didn't.
    pub failed: u64,
    /// The nodes of the tree below the Document.
    pub nodes: u64,
    /// The characters that scripts wrote.
    pub written: u64,
}

// The nodes of the tree behind the Document, by a walk in tree order.
pub(crate) fn count_nodes(tree: &Tree) -> u64
    ensures { result ≡ min (nodes_below tree.now) (2 ^ 64 - 1) }
{
    if tree.len() == 0 {
        return 0;
    }
    let mut left = tree.next(0);
    for nodes in 0..u64::MAX {
        match left {
            None => return nodes,
            Some(node) => left = tree.next(node),
        }
    }
    u64::MAX
}
