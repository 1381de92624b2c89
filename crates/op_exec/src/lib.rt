//! Executes operations on a document: a tree, and what ids name in it.
#![tactic(auto)]

mod bound;
mod doc;
mod element;
mod fragment;
mod script;

pub use doc::Doc;
pub use doc_tree::Put;
pub use script::{ScriptKind, is_javascript};
