//! The rule of the board: what each step keeps, whichever thread takes it.

ghost use Rattle.tree_watch.specs.Rule as rule;

use crate::shown::{Shown, Stand};
use atomic_table::{Join, Split};
use crossbeam_utils::rule::{Outcome, Protocol};
use std::collections::LinkedList;

/// What a thread knows: what it has seen published, what it was told of, and whether it publishes.
/// No value of it is made.
pub struct View {
    pub seen: LinkedList<Stand>,
    pub told: LinkedList<Stand>,
    pub leads: bool,
}

pub struct Published;

impl Protocol<Shown, View> for Published {
    ghost holds = { rule.Kept };

    ghost first = { rule.newcomer };
}

/// A watcher looks.
pub struct Sees;

impl Outcome<Shown, View> for Sees {
    ghost then = { λ v x y w. rule.Sees v y w };
}

/// A watcher compares what it saw with what it was told.
pub struct Ends;

impl Outcome<Shown, View> for Ends {
    ghost then = { λ v x y w. rule.Ends v w };
}

/// The board is opened.
pub struct Opens;

impl Outcome<Shown, View> for Opens {
    ghost then = { λ v x y w. rule.Opens v y w };
}

/// What was noted is published.
pub struct Publishes;

impl Outcome<Shown, View> for Publishes {
    ghost then = { λ v x y w. rule.Publishes v y w };
}

/// What was published is told.
pub struct Retells;

impl Split<View> for Retells {
    ghost left = { λ v. v };

    ghost right = { rule.retold };
}

/// A watcher learns it.
pub struct Informs;

impl Join<View> for Informs {
    ghost both = { rule.informed };

    ghost spent = { rule.newcomer };
}
