// A sink that keeps nothing.
ghost use Rattle.std.specs.Prelude.{◌≡◌, None};

use outside::{Failed, Sink};

/// A sink that takes everything, tells nothing of it, and never fails.
#[derive(Drop)]
pub(crate) struct Nowhere {
    is_clean: bool,
}

impl Nowhere {
    /// Nothing taken.
    pub(crate) fn new() -> Nowhere {
        Nowhere { is_clean: true }
    }
}

impl Sink for Nowhere {
    ghost taken = { λ _. None };

    ghost faults = { λ _. 0 };

    ghost clean = { λ sink. sink.is_clean };

    fn write(&mut self, bytes: &[u8]) -> Result<usize, Failed> {
        self.is_clean = false;
        Ok(bytes.len())
    }

    fn finish(&mut self) -> Result<(), Failed> {
        self.is_clean = true;
        Ok(())
    }
}
