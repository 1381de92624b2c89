//! The older entries of a list, which its copies share, in two blocks.

ghost use Rattle.std.specs.Prelude.{◌≡◌, ◌+◌, ◌^◌, ◌<◌, ◌≤◌, [], ◌∷◌, ◌++◌, length, reverse, take};
ghost use Rattle.std.specs.Prelude.{drop, slice_index_or, IfOk, OnOk, MatchOption};

use crate::block::{Block, own_part};
use crate::entry::Entry;
use std::alloc::{AllocError, Global};
use std::marker::Model;
use std::mem;

/// Entries that copies share: a contract sees the list of those that are kept, the earliest first.
/// Where more come to be shared, mostly the block behind is made anew with them, and the one in
/// front, which may be long, stays.
#[derive(Drop)]
pub(crate) struct Older<T> {
    front: Block<T>,
    back: Block<T>,
}

impl<T> Model for Older<T> {
    ghost use Rattle.std.specs.Prelude.{◌+◌, ◌<◌, ◌^◌, ◌++◌, List, length};

    ghost Value = { List T };

    ghost view = { λ o. o.front ++ o.back };

    ghost invariant = { λ o. length o.front + length o.back < 2 ^ 64 };
}

// Whether a block of so many entries is short beside those behind it: it is made anew with them
// then. A block behind comes to eight times the root of the one in front, so that each entry is
// copied but a few times.
fn is_short(front: usize, behind: usize) -> bool {
    front.saturating_mul(64) <= behind.saturating_mul(behind)
}

// Copies a block's entries, so that they are the list's own.
fn own_all<T: Entry>(block: &mut Block<T>, own: &mut Vec<T>) -> Result<(), AllocError>
    ensures same { block.new ++ own.new.items ≡ block.old ++ own.old.items }
    ensures fewer { length block.new ≤ length block.old }
    ensures none { OnOk result (block.new ≡ []) }
{
    own_part(block, own, 0)
}

impl<T> Older<T> {
    /// No entries, which take no memory.
    pub(crate) fn new() -> Older<T>
        ensures { result ≡ [] }
    {
        Older {
            front: Block::new(),
            back: Block::new(),
        }
    }

    /// How many there are.
    pub(crate) fn len(&self) -> usize
        ensures { result ≡ length self.now }
    {
        self.front.len() + self.back.len()
    }

    /// The entries of both blocks, the earliest first.
    pub(crate) fn blocks(&self) -> (&[T], &[T])
        ensures { result.0.now ++ result.1.now ≡ self.now }
    {
        (self.front.as_slice(), self.back.as_slice())
    }

    /// The entry at a place: the earliest has place 0.
    pub(crate) fn at(&self, place: usize) -> &T
        requires { place < length self.now }
        ensures { result.now ≡ slice_index_or self.now place result.now }
    {
        let (front, back) = self.blocks();
        if place < front.len() {
            &front[place]
        } else {
            &back[place - front.len()]
        }
    }

    /// The latest entry.
    pub(crate) fn latest(&self) -> Option<&T>
        ensures { MatchOption result (self.now ≡ [])
            (λ e. reverse self.now ≡ e.now ∷ drop 1 (reverse self.now)) }
    {
        let (front, back) = self.blocks();
        match back.last() {
            Some(entry) => Some(entry),
            None => front.last(),
        }
    }
}

impl<T: Entry> Older<T> {
    /// Keeps so many, the earliest. The others stay for the copies.
    #[tactic(auto, using(std::proofs::lemmas::Grind::common_steps, crate::proofs::Ends::taken))]
    #[inline(never)]
    pub(crate) fn truncate(&mut self, kept: usize)
        requires { kept ≤ length self.old }
        ensures { self.new ≡ take kept self.old }
    {
        let front = self.front.len();
        if kept < front {
            self.front.truncate(kept);
            self.back = Block::new();
        } else {
            self.back.truncate(kept - front);
        }
    }

    /// A copy, which shares them.
    pub(crate) fn copy(&self) -> Result<Older<T>, AllocError>
        ensures { IfOk result (λ o. o ≡ self.now) }
    {
        let front = self.front.copy()?;
        let back = self.back.copy()?;
        Ok(Older { front, back })
    }

    /// Copies the entries from a place on in front of the own ones: they are shared no more.
    pub(crate) fn give_from(&mut self, own: &mut Vec<T>, place: usize) -> Result<(), AllocError>
        ensures same { self.new ++ own.new.items ≡ self.old ++ own.old.items }
        ensures given { OnOk result (length self.new ≤ place) }
    {
        let front = self.front.len();
        if place < front {
            own_all(&mut self.back, own)?;
            own_part(&mut self.front, own, place)
        } else {
            own_part(&mut self.back, own, place - front)
        }
    }

    /// Shares the own entries too.
    pub(crate) fn share(&mut self, alloc: Global, own: &mut Vec<T>) -> Result<(), AllocError>
        requires { length self.old + length own.old.items < 2 ^ 64 }
        ensures { self.new ++ own.new.items ≡ self.old ++ own.old.items }
    {
        own_all(&mut self.back, own)?;
        if is_short(self.front.len(), own.len()) {
            own_all(&mut self.front, own)?;
        }
        match Block::of(alloc, mem::replace(own, Vec::new(alloc))) {
            Ok(block) => {
                if self.front.len() == 0 {
                    self.front = block;
                } else {
                    self.back = block;
                }
                Ok(())
            }
            Err(failed) => {
                *own = failed.value;
                Err(AllocError)
            }
        }
    }
}
