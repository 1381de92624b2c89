//! A sink that keeps what it takes.

ghost use Rattle.std.specs.Prelude.{◌≡◌, []};

use outside::{Failed, Sink};
use std::alloc::Global;

/// A sink in memory that takes all: it fails where memory is wanting.
#[derive(Drop)]
pub struct Keeper {
    pub bytes: Vec<u8>,
    faults: u64,
    is_clean: bool,
}

impl Keeper {
    ghost use Rattle.memory_runner.specs.Kept.{kept};

    /// Nothing taken.
    pub fn new(alloc: Global) -> Keeper
        ensures { kept result ≡ [] }
    {
        Keeper {
            bytes: Vec::new(alloc),
            faults: 0,
            is_clean: true,
        }
    }
}

impl Sink for Keeper {
    ghost use Rattle.std.specs.Prelude.{Some};
    ghost use Rattle.memory_runner.specs.Kept.{kept, faults_of, is_clean};

    ghost taken = { λ sink. Some (kept sink) };

    ghost faults = { faults_of };

    ghost clean = { is_clean };

    fn write(&mut self, bytes: &[u8]) -> Result<usize, Failed> {
        if bytes.is_empty() {
            return Ok(0);
        }
        let n = bytes.len();
        if self.bytes.extend_from_slice(&bytes[..n]).is_err() {
            self.faults = self.faults.saturating_add(1);
            return Err(Failed);
        }
        self.is_clean = false;
        Ok(n)
    }

    fn finish(&mut self) -> Result<(), Failed> {
        self.is_clean = true;
        Ok(())
    }
}
