//! What each step on the table tells.
ghost use Rattle.two_copies.specs.Sides.{doing, sat, claimed, entered, looked, backed_out, left};
ghost use Rattle.two_copies.specs.Sides.{recorded, gathered, emptied, reached, filled, turned};
ghost use Rattle.two_copies.specs.Sides.{began, ended};
ghost use Rattle.two_copies.specs.declared.board.Role.TheVariants.{Idle};

use crate::board::Doing;
use crate::part::Part;
use atomic_table::{Join, Play, Split};
use crossbeam_utils::rule::Outcome;
use std::marker::PhantomData;

pub(crate) struct Sit;

impl<T, V> Play<Option<Part<T>>, Doing<T, V>> for Sit {
    ghost then = { sat };
}

pub(crate) struct Claim;

impl<T, V> Play<Option<Part<T>>, Doing<T, V>> for Claim {
    ghost then = { claimed };
}

pub(crate) struct Free;

impl<T, V> Play<Option<Part<T>>, Doing<T, V>> for Free {
    ghost then = { λ _ _ _ _. Unit {0} };
}

pub(crate) struct Enter;

impl<T, V> Play<Option<Part<T>>, Doing<T, V>> for Enter {
    ghost then = { entered };
}

pub(crate) struct Look<M> {
    outcome: PhantomData<M>,
}

impl<T, V, M: Outcome<T, V>> Play<Option<Part<T>>, Doing<T, V>> for Look<M> {
    ghost then = { looked M.then };
}

pub(crate) struct BackOut;

impl<T, V> Play<Option<Part<T>>, Doing<T, V>> for BackOut {
    ghost then = { backed_out };
}

pub(crate) struct Leave;

impl<T, V> Play<Option<Part<T>>, Doing<T, V>> for Leave {
    ghost then = { left };
}

pub(crate) struct Record;

impl<T, V> Play<Option<Part<T>>, Doing<T, V>> for Record {
    ghost then = { recorded };
}

pub(crate) struct Gather;

impl<T, V> Play<Option<Part<T>>, Doing<T, V>> for Gather {
    ghost then = { gathered };
}

pub(crate) struct Empty;

impl<T, V> Play<Option<Part<T>>, Doing<T, V>> for Empty {
    ghost then = { emptied };
}

pub(crate) struct Reach;

impl<T, V> Play<Option<Part<T>>, Doing<T, V>> for Reach {
    ghost then = { reached };
}

pub(crate) struct Fill;

impl<T, V> Play<Option<Part<T>>, Doing<T, V>> for Fill {
    ghost then = { filled };
}

pub(crate) struct Turn<M> {
    outcome: PhantomData<M>,
}

impl<T, V, M: Outcome<T, V>> Play<Option<Part<T>>, Doing<T, V>> for Turn<M> {
    ghost then = { turned M.then };
}

pub(crate) struct Begin;

impl<T, V> Play<Option<Part<T>>, Doing<T, V>> for Begin {
    ghost then = { began };
}

pub(crate) struct End;

impl<T, V> Play<Option<Part<T>>, Doing<T, V>> for End {
    ghost then = { ended };
}

pub(crate) struct Cut<M> {
    split: PhantomData<M>,
}

impl<T, V, M: Split<V>> Split<Doing<T, V>> for Cut<M> {
    ghost left = { λ d. doing d.role (M.left d.client) };

    ghost right = { λ d. doing Idle (M.right d.client) };
}

pub(crate) struct Glue<M> {
    join: PhantomData<M>,
}

impl<T, V, M: Join<V>> Join<Doing<T, V>> for Glue<M> {
    ghost both = { λ d e. doing d.role (M.both d.client e.client) };

    ghost spent = { doing Idle M.spent };
}
