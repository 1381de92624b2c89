//! The table that the readers and the writer share. Word 0 is the side that readers take, 0 or 1,
//! or 2 for none. Word 16 r + 16 is the epoch of reader r, which is odd while it reads, and word 16
//! r + 17 is 1 while a handle has that reader. Slot 8 r + k holds its part of side k. The factors
//! keep each reader's words and slots 128 bytes from the next one's.
use crate::part::Part;
use atomic_table::{Seat, Table, TableRule};
use crossbeam_utils::rule::Protocol;
use std::marker::PhantomData;
use std::snapshot::Snapshot;

/// What the writer knows. No value of it is made.
pub struct Plan<T> {
    pub side: u64,
    /// The side that the writer works on.
    pub off: u64,
    /// The readers below it may still have their part of that side.
    pub left: u64,
    /// The readers below it have their new part of that side.
    pub filled: u64,
    /// 0, or 1 more than the reader whose slot the writer holds.
    pub hand: u64,
    /// 1 until the first side is shown.
    pub fresh: u64,
    /// The epochs that were read after the last change of side. A clause reads an array as a list,
    /// of any length.
    pub last: [u64; 0],
    pub shown: Part<T>,
    pub spare: Part<T>,
}

pub enum Role<T> {
    Idle,
    Out(u64),
    In(u64),
    Holds(u64, u64, Part<T>),
    Writer(Plan<T>),
}

/// What a seat at the table knows. No value of it is made.
pub struct Doing<T, V> {
    pub role: Role<T>,
    pub client: V,
}

pub struct Sides<P> {
    protocol: PhantomData<P>,
}

impl<T, V, P: Protocol<T, V>> TableRule<Option<Part<T>>, Doing<T, V>, Snapshot<Part<T>>>
    for Sides<P> {
    ghost use Rattle.two_copies.specs.Sides.{Sided, starting};

    ghost holds = { λ _. Sided P.holds };

    ghost first = { λ key. starting key.value P.first };
}

pub type Board<T, V, P, A> = Table<Option<Part<T>>, Doing<T, V>, Snapshot<Part<T>>, Sides<P>, A>;

pub type Place<T, V> = Seat<Option<Part<T>>, Doing<T, V>>;
