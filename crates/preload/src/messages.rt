//! What goes through the lanes between the document's side and a fetcher.

use crate::name::ScriptName;

/// What a fetcher is asked.
#[derive(Drop)]
pub enum Wanted {
    /// The script of that name.
    Ask(ScriptName),
    /// Nothing more.
    Stop,
}

/// What a fetcher answers.
#[derive(Drop)]
pub enum Fetched {
    /// The bytes of the script's file, of which one past the limit is read at most.
    Got(Vec<u8>),
    /// There is no such file.
    Missing,
    /// Beginning or reading it failed.
    Tried,
    /// Memory ran out.
    NoMemory,
}
