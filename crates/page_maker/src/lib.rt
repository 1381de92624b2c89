//! A large page and its scripts, made from a number: what the parser is tried and measured on.
#![tactic(auto)]

mod items;
mod numbers;
mod page;

pub use page::{Made, MadeScript, make};
