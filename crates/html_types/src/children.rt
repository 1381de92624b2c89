//! A list of node numbers.

use std::marker::Model;

/// The children of a node, in order. A program's tree keeps links instead; this is what contracts
/// speak of: the list of their numbers.
#[derive(Drop)]
pub struct Children {
    list: Vec<usize>,
}

impl Model for Children {
    ghost use Rattle.std.specs.Prelude.{List, ℕ};

    ghost Value = { List ℕ };

    ghost view = { λ c. c.list.items };
}
