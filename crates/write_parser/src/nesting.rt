//! Scripts that were begun, one inside the other.

use crate::rest::Rest;
use script_lang::Script;

/// A script that was begun.
#[derive(Drop)]
pub(crate) struct Begun {
    pub number: u64,
    pub script: Script,
    /// The statements that are done.
    pub done: usize,
    /// What it wrote and isn't parsed yet, which stands before its insertion point.
    pub rest: Rest,
}

/// The innermost script that was begun, and those around it, the outermost first.
#[derive(Drop)]
pub(crate) struct Nesting {
    pub top: Begun,
    pub below: Vec<Begun>,
}
