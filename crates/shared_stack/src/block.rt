//! Entries that lists share.

ghost use Rattle.std.specs.Prelude.{◌≡◌, ◌≤◌, ◌++◌, [], length, take, IfOk, IfErr, OnOk, OnErr};

use crate::entry::Entry;
use std::alloc::{AllocError, AllocFailed, Global};
use std::marker::Model;
use std::sync::Arc;

/// Entries that lists share: a contract sees the list of those that are kept, the earliest first.
#[derive(Drop)]
pub(crate) struct Block<T> {
    // None where there are none. What is in it never changes.
    shared: Option<Arc<Vec<T>>>,
    // So many of its first entries are kept; the others may still belong to copies.
    kept: usize,
}

impl<T> Model for Block<T> {
    ghost use Rattle.std.specs.Prelude.{◌≤◌, List, length, take};
    ghost use Rattle.shared_stack.specs.Shared.{shared_items};

    ghost Value = { List T };

    ghost view = { λ o. take o.kept (shared_items o.shared) };

    ghost invariant = { λ o. o.kept ≤ length (shared_items o.shared) };
}

impl<T> Block<T> {
    /// No entries, which take no memory.
    pub(crate) fn new() -> Block<T>
        ensures { result ≡ [] }
    {
        Block {
            shared: None,
            kept: 0,
        }
    }

    /// These entries. Where there is no memory they are handed back.
    pub(crate) fn of(alloc: Global, entries: Vec<T>) -> Result<Block<T>, AllocFailed<Vec<T>>>
        ensures ok { IfOk result (λ o. o ≡ entries.items) }
        ensures value_returned { IfErr result (λ failed. failed.value ≡ entries) }
    {
        let kept = entries.len();
        let shared = Arc::new(alloc, entries)?;
        Ok(Block {
            shared: Some(shared),
            kept,
        })
    }

    /// How many there are.
    pub(crate) fn len(&self) -> usize
        ensures { result ≡ length self.now }
    {
        self.kept
    }

    /// The entries, the earliest first.
    pub(crate) fn as_slice(&self) -> &[T]
        ensures { result.now ≡ self.now }
    {
        match &self.shared {
            Some(shared) => &shared.as_slice()[..self.kept],
            None => &[],
        }
    }

    /// Keeps so many, the earliest. The others stay for the copies.
    pub(crate) fn truncate(&mut self, kept: usize)
        requires { kept ≤ length self.old }
        ensures { self.new ≡ take kept self.old }
    {
        self.kept = kept;
    }

    /// A copy, which shares them.
    pub(crate) fn copy(&self) -> Result<Block<T>, AllocError>
        ensures { IfOk result (λ o. o ≡ self.now) }
    {
        match &self.shared {
            Some(shared) => Ok(Block {
                shared: Some(Arc::try_clone(shared)?),
                kept: self.kept,
            }),
            None => Ok(Block::new()),
        }
    }
}

// Copies of some entries, with room for so many more.
pub(crate) fn copies<T: Entry>(
    alloc: Global,
    entries: &[T],
    more: usize,
) -> Result<Vec<T>, AllocError>
    ensures { IfOk result (λ v. v.items ≡ entries.now) }
{
    let room = entries.len().saturating_add(more);
    let mut copies = Vec::with_capacity(alloc, room)?;
    for entry in entries {
        copies.push(entry.copy(alloc)?)?;
    }
    Ok(copies)
}

// Copies of some shared entries, and behind them the own ones, which are moved there.
fn joined<T: Entry>(alloc: Global, shared: &[T], own: &mut Vec<T>) -> Result<Vec<T>, AllocError>
    ensures ok { IfOk result (λ v. v.items ≡ shared.now ++ own.old.items) }
    ensures moved { OnOk result (own.new.items ≡ []) }
    ensures err { OnErr result (own.new.items ≡ own.old.items) }
{
    let mut entries = copies(alloc, shared, own.len())?;
    entries.append(own)?;
    Ok(entries)
}

// Copies a block's entries from the place on, so that they are the list's own.
#[tactic(auto, using(std::proofs::lemmas::Grind::common_steps, crate::proofs::Ends::parted))]
pub(crate) fn own_part<T: Entry>(
    block: &mut Block<T>,
    own: &mut Vec<T>,
    place: usize,
) -> Result<(), AllocError>
    ensures same { block.new ++ own.new.items ≡ block.old ++ own.old.items }
    ensures fewer { length block.new ≤ length block.old }
    ensures owned { OnOk result (length block.new ≤ place) }
{
    if place < block.len() {
        let alloc = *own.allocator();
        let entries = joined(alloc, &block.as_slice()[place..], own)?;
        *own = entries;
        block.truncate(place);
    }
    Ok(())
}
