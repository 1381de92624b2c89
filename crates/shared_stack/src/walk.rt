//! Walks over a list from its end.

ghost use Rattle.std.specs.Prelude.{◌≡◌, ◌<◌, ◌+◌, ◌^◌, ◌++◌, [], ◌∷◌, length, reverse, drop};
ghost use Rattle.std.specs.Prelude.{MatchOption};
ghost use Rattle.std.specs.Iterator.{YieldsFirstRef, item_count};

use std::marker::Model;

/// A walk over the entries of a shared stack, from the latest to the earliest: a contract sees the
/// list of those that are left.
#[derive(Drop)]
pub struct Walk<'a, T> {
    front: &'a [T],
    back: &'a [T],
    own: &'a [T],
}

impl<'a, T> Model for Walk<'a, T> {
    ghost use Rattle.std.specs.Prelude.{◌+◌, ◌<◌, ◌^◌, ◌++◌, List, length, reverse};

    ghost Value = { List T };

    ghost view = { λ w. reverse (w.front.now ++ w.back.now ++ w.own.now) };

    ghost invariant = { λ w. length w.front.now + length w.back.now + length w.own.now < 2 ^ 64 };
}

impl<'a, T> Walk<'a, T> {
    /// A walk over `own`, then over `back` and over `front`, each from its end.
    pub(crate) fn new(front: &'a [T], back: &'a [T], own: &'a [T]) -> Walk<'a, T>
        requires { length front.now + length back.now + length own.now < 2 ^ 64 }
        ensures { result ≡ reverse (front.now ++ back.now ++ own.now) }
    {
        Walk { front, back, own }
    }

    /// How many entries are left.
    pub fn len(&self) -> usize
        ensures { result ≡ length self.now }
    {
        self.front.len() + self.back.len() + self.own.len()
    }

    /// The next entry, which stays.
    pub fn latest(&self) -> Option<&'a T>
        ensures { MatchOption result (self.now ≡ []) (λ e. self.now ≡ e.now ∷ drop 1 self.now) }
    {
        if let Some(entry) = self.own.last() {
            return Some(entry);
        }
        match self.back.last() {
            Some(entry) => Some(entry),
            None => self.front.last(),
        }
    }

    /// The same walk.
    pub fn copy(&self) -> Walk<'a, T>
        ensures { result ≡ self.now }
    {
        Walk {
            front: self.front,
            back: self.back,
            own: self.own,
        }
    }
}

impl<'a, T> Iterator for Walk<'a, T> {
    type Item = &'a T;

    ghost next_gives = { YieldsFirstRef (λ w. w) };

    ghost remaining = { item_count (λ w. w) };

    fn next(&mut self) -> Option<&'a T> {
        if let Some((entry, rest)) = self.own.split_last() {
            self.own = rest;
            return Some(entry);
        }
        if let Some((entry, rest)) = self.back.split_last() {
            self.back = rest;
            return Some(entry);
        }
        let (entry, rest) = self.front.split_last()?;
        self.front = rest;
        Some(entry)
    }
}
