//! The writer, under a rule of the caller's: the two copies, and the operations that one of them
//! lacks.
ghost use Rattle.two_copies.specs.Log.{InStep};

use crate::Absorb;
use crate::desk::Desk;
use crossbeam_utils::rule::Protocol;
use std::alloc::{Allocator, Global};
use std::collections::VecDeque;

mod steps;

/// It is not `Drop`: end it by `take`.
pub struct Writer<T: Absorb<O> + Drop, O: Drop, V, P: Protocol<T, V>, A: Allocator = Global> {
    pub desk: Desk<T, V, P, A>,
    log: VecDeque<O, A>,
    /// So many operations at the front are in the copy that is shown, and not in the spare one.
    behind: usize,
    /// So many after those are in the spare copy alone.
    ahead: usize,
    ghost in_step: { ∥ InStep T.applied (T.state desk.shown.value) (T.state desk.spare.value)
        log.items behind ahead ∥₁ },
}
