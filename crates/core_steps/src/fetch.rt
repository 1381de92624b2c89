//! What comes of fetching a script.

ghost use Rattle.std.specs.Prelude.{◌≡◌, IfOk};
ghost use Rattle.core_steps.specs.Fetches.{fetched_of};

use html_types::{NoMemory, Text};
use std::alloc::Global;

/// What came of a script's file.
#[derive(Drop)]
pub enum Fetch {
    /// Its bytes.
    Got(Vec<u8>),
    /// There is no such file.
    Missing,
    /// Beginning or reading it failed.
    Faulted,
}

impl Fetch {
    /// A copy.
    pub fn copy(&self, alloc: Global) -> Result<Fetch, NoMemory>
        ensures { IfOk result (λ f. fetched_of f ≡ fetched_of self.now) }
    {
        match self {
            Fetch::Got(bytes) => {
                let copy = Vec::from_slice(alloc, bytes.as_slice())?;
                Ok(Fetch::Got(copy))
            }
            Fetch::Missing => Ok(Fetch::Missing),
            Fetch::Faulted => Ok(Fetch::Faulted),
        }
    }
}

/// A name that was fetched, and what came of it.
#[derive(Drop)]
pub struct FetchedFile {
    pub name: Text,
    pub fetch: Fetch,
}
