//! Many pages at once: a list of pages is read, its pages are parsed side by side on all
//! processors, and their texts are written in order.
#![tactic(auto)]

mod going;
mod list;
mod output;
mod pieces;
mod read;
mod rounds;
mod slot;
mod table;
mod windows;

pub use list::{LIST_LIMIT, ListFault, paths_of};
pub use windows::run_list;
