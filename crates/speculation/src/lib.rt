//! The parser's side of the core: it parses pieces of the page ahead of the document, and answers
//! with batches. What is kept of its work is decided here too.
#![tactic(auto)]

pub mod batch;
pub mod boxed;
pub mod checkpoint;
mod cutting;
pub mod deciding;
pub mod in_force;
pub mod reply;
pub mod request;
pub mod worker;

pub use batch::{Batch, Batches, Halt};
pub use boxed::BoxedMachine;
pub use checkpoint::Checkpoint;
pub use core_definitions::Verdict;
pub use deciding::decide;
pub use in_force::InForce;
pub use reply::{Reply, Said};
pub use request::Request;
pub use worker::Worker;
