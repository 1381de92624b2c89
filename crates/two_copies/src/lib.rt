//! Two copies of a value: readers read one with no lock, and the writer changes the other. The
//! kit's `left_right`, a port of the Rust crate `left-right`, without its handles: its steps say
//! here that the table stays, so that a reader can learn what the writer knows after both have gone
//! on (README.md).
ghost use Rattle.std.specs.Prelude.{◌≡◌, IsOk, MatchResult};

use std::alloc::AllocError;

mod board;
mod desk;
mod part;
mod plays;
pub mod reader;
mod rounds;
pub mod writer;

pub use board::Place;

/// A value that takes in operations. Each operation is applied to both copies, which have to end
/// alike.
pub trait Absorb<O: Drop> {
    /// What the two copies have in common. No value of it is made. For a list write an array, as
    /// `[u64; 0]`: a clause reads it as a list of any length.
    type State;

    ghost state: { Self → Self.State };

    ghost applied: { Self.State → O → Self.State };

    // What shows that absorbing cannot fail, if anything does.
    ghost never_fails: { Type 0 } = { ⊥ };

    fn absorb_first(&mut self, operation: &O, other: &Self) -> Result<(), AllocError>
        ensures absorbed { MatchResult result
            (λ _. state self.new ≡ applied (state self.old) operation.now)
            (λ _. state self.new ≡ state self.old) }
        ensures succeeds { never_fails → IsOk result };

    /// The operation comes back where it could not be absorbed.
    fn absorb_second(&mut self, operation: O, other: &Self) -> Result<(), O>
        ensures absorbed { MatchResult result
            (λ _. state self.new ≡ applied (state self.old) operation)
            (λ x. (x ≡ operation) × (state self.new ≡ state self.old)) }
        ensures succeeds { never_fails → IsOk result }
    {
        match self.absorb_first(&operation, other) {
            Ok(()) => Ok(()),
            Err(_) => Err(operation),
        }
    }
}
