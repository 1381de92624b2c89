//! A list seen from its end, whose copies share its older entries.

ghost use Rattle.std.specs.Prelude.{◌≡◌, ◌↔◌, ◌<◌, ◌≤◌, [], ◌∷◌, ◌++◌, length, reverse, drop};
ghost use Rattle.std.specs.Prelude.{insert, remove, slice_set, slice_index_or, IsTrue, IfOk, OnOk};
ghost use Rattle.std.specs.Prelude.{OnErr, MatchOption};

use crate::block::copies;
use crate::entry::Entry;
use crate::older::Older;
use crate::walk::Walk;
use std::alloc::{AllocError, Global};
use std::marker::Model;

// Where a list has more entries of its own, `share` makes all its entries shared.
const MOST_OWN: usize = 16;

/// A list seen from its end, whose copies share their older entries. Contracts see the list that
/// begins with the latest entry.
#[derive(Drop)]
pub struct SharedStack<T> {
    older: Older<T>,
    // The entries behind them, which no copy shares.
    own: Vec<T>,
}

impl<T> Model for SharedStack<T> {
    ghost use Rattle.std.specs.Prelude.{◌+◌, ◌<◌, ◌^◌, ◌++◌, List, length, reverse};

    ghost Value = { List T };

    ghost view = { λ s. reverse (s.older ++ s.own.items) };

    ghost invariant = { λ s. length s.older + length s.own.items < 2 ^ 64 };
}

impl<T: Entry> SharedStack<T> {
    /// No entries, which take no memory.
    pub fn new(alloc: Global) -> SharedStack<T>
        ensures { result ≡ [] }
    {
        SharedStack {
            older: Older::new(),
            own: Vec::new(alloc),
        }
    }

    /// How many entries there are.
    pub fn len(&self) -> usize
        ensures { result ≡ length self.now }
    {
        self.older.len() + self.own.len()
    }

    /// Adds an entry at the end.
    pub fn push(&mut self, entry: T) -> Result<(), AllocError>
        ensures ok { OnOk result (self.new ≡ entry ∷ self.old) }
        ensures err { OnErr result (self.new ≡ self.old) }
    {
        // Only entries of no size can be so many.
        if self.len() == usize::MAX {
            return Err(AllocError);
        }
        self.own.push(entry)?;
        Ok(())
    }

    /// Takes the latest entry off, if there is one. One that is shared stays for the copies.
    #[tactic(auto, using(std::proofs::lemmas::Grind::common_steps, crate::proofs::Ends::fewer))]
    #[inline]
    pub fn pop(&mut self) -> bool
        ensures some { IsTrue result ↔ (0 < length self.old) }
        ensures rest { self.new ≡ drop 1 self.old }
    {
        if self.own.pop().is_some() {
            return true;
        }
        let kept = self.older.len();
        if kept == 0 {
            return false;
        }
        self.older.truncate(kept - 1);
        true
    }

    /// Takes the latest entry off, if there is one, and gives it, or a copy where it is shared.
    #[tactic(auto, using(std::proofs::lemmas::Grind::common_steps, crate::proofs::Ends::fewer))]
    pub fn take(&mut self) -> Result<Option<T>, AllocError>
        ensures ok { IfOk result (λ o.
            MatchOption o ((self.old ≡ []) × (self.new ≡ [])) (λ e. self.old ≡ e ∷ self.new)) }
        ensures err { OnErr result (self.new ≡ self.old) }
    {
        if let Some(entry) = self.own.pop() {
            return Ok(Some(entry));
        }
        let Some(latest) = self.older.latest() else {
            return Ok(None);
        };
        let entry = latest.copy(*self.own.allocator())?;
        let kept = self.older.len().saturating_sub(1);
        self.older.truncate(kept);
        Ok(Some(entry))
    }

    /// The latest entry.
    pub fn latest(&self) -> Option<&T>
        ensures { MatchOption result (self.now ≡ []) (λ e. self.now ≡ e.now ∷ drop 1 self.now) }
    {
        match self.own.last() {
            Some(entry) => Some(entry),
            None => self.older.latest(),
        }
    }

    /// The entry at a place: the earliest has place 0.
    pub fn at(&self, place: usize) -> &T
        requires { place < length self.now }
        ensures { result.now ≡ slice_index_or (reverse self.now) place result.now }
    {
        let older = self.older.len();
        if place < older {
            self.older.at(place)
        } else {
            &self.own[place - older]
        }
    }

    /// A walk over the entries, from the latest to the earliest.
    pub fn walk(&self) -> Walk<'_, T>
        ensures { result ≡ self.now }
    {
        let (front, back) = self.older.blocks();
        Walk::new(front, back, self.own.as_slice())
    }

    /// Takes an entry out, wherever it stands: the earliest has place 0. Those behind it become the
    /// list's own.
    #[tactic(auto, using(std::proofs::lemmas::Grind::common_steps, crate::proofs::Ends::behind))]
    pub fn take_out(&mut self, place: usize) -> Result<(), AllocError>
        requires { place < length self.old }
        ensures ok { OnOk result (self.new ≡ reverse (remove (reverse self.old) place)) }
        ensures err { OnErr result (self.new ≡ self.old) }
    {
        self.older.give_from(&mut self.own, place)?;
        let _ = self.own.remove(place - self.older.len());
        Ok(())
    }

    /// Puts an entry in at a place: the earliest has place 0. Those behind it become the list's
    /// own.
    #[tactic(auto, using(std::proofs::lemmas::Grind::common_steps, crate::proofs::Ends::behind))]
    pub fn put_in(&mut self, place: usize, entry: T) -> Result<(), AllocError>
        requires { place ≤ length self.old }
        ensures ok { OnOk result (self.new ≡ reverse (insert (reverse self.old) place entry)) }
        ensures err { OnErr result (self.new ≡ self.old) }
    {
        if self.len() == usize::MAX {
            return Err(AllocError);
        }
        self.older.give_from(&mut self.own, place)?;
        let at = place - self.older.len();
        self.own.insert(at, entry)?;
        Ok(())
    }

    /// Puts an entry in the stead of the one at a place: the earliest has place 0. Those behind it
    /// become the list's own.
    #[tactic(auto, using(std::proofs::lemmas::Grind::common_steps, crate::proofs::Ends::behind))]
    pub fn replace(&mut self, place: usize, entry: T) -> Result<(), AllocError>
        requires { place < length self.old }
        ensures ok { OnOk result (self.new ≡ reverse (slice_set (reverse self.old) place entry)) }
        ensures err { OnErr result (self.new ≡ self.old) }
    {
        self.older.give_from(&mut self.own, place)?;
        let at = place - self.older.len();
        self.own[at] = entry;
        Ok(())
    }

    /// Where more than 16 entries are the list's own, all its entries become shared, so that a copy
    /// copies none of them.
    #[tactic(auto, using(std::proofs::lemmas::Grind::common_steps, crate::proofs::Ends::as_long))]
    pub fn share(&mut self, alloc: Global) -> Result<(), AllocError>
        ensures { self.new ≡ self.old }
    {
        if self.own.len() <= MOST_OWN {
            return Ok(());
        }
        self.older.share(alloc, &mut self.own)
    }

    /// A copy, which shares the older entries. Those that are the list's own are copied.
    pub fn copy(&self, alloc: Global) -> Result<SharedStack<T>, AllocError>
        ensures { IfOk result (λ s. s ≡ self.now) }
    {
        let older = self.older.copy()?;
        let own = copies(alloc, self.own.as_slice(), 0)?;
        Ok(SharedStack { older, own })
    }

    /// Whether two lists are the same.
    pub fn same(&self, other: &SharedStack<T>) -> bool
        ensures { IsTrue result ↔ (self.now ≡ other.now) }
    {
        self.len() == other.len() && same_walks(self.walk(), other.walk())
    }
}

// Whether the entries that are left are the same.
fn same_walks<T: Entry>(walk: Walk<'_, T>, mut other: Walk<'_, T>) -> bool
    ensures { IsTrue result ↔ (walk.entry ≡ other.entry) }
{
    for entry in walk {
        match other.next() {
            Some(its) if entry.same(its) => {}
            _ => return false,
        }
    }
    other.next().is_none()
}
