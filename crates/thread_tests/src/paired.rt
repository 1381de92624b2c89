//! Files of which two hold one another: each until the other's script is begun.

ghost use Rattle.thread_tests.specs.Faults.{with_faults};

use outside::{Failed, Outside, Port};
use std::alloc::Global;
use std::sync::Arc;
use std::sync::atomic::{AtomicBool, Ordering};

// How often a call that holds looks whether the other's has begun, before it gives up.
const POLLS: u32 = 100_000_000;

/// What two helpers know of one another.
#[derive(Drop)]
pub struct Pairing {
    first: AtomicBool,
    second: AtomicBool,
}

// Whether the flag was set while it was looked at.
fn see(flag: &AtomicBool) -> bool {
    for _ in 0..POLLS {
        if flag.load(Ordering::SeqCst) {
            return true;
        }
    }
    false
}

impl Pairing {
    /// Neither has begun a script.
    pub fn new() -> Pairing {
        Pairing {
            first: AtomicBool::new(false),
            second: AtomicBool::new(false),
        }
    }
}

/// Whose files they are.
#[derive(Clone, Copy, PartialEq, Eq)]
pub enum Role {
    /// The run's own, which can read no script.
    Own,
    First,
    Second,
}

/// Files whose scripts are held until the other's are begun. Where that isn't seen they can't be
/// read.
#[derive(Drop)]
pub struct PairedFiles<F: Drop> {
    files: F,
    role: Role,
    pairing: Arc<Pairing, Global>,
    // The other's script wasn't begun.
    gave_up: bool,
    faults: u64,
}

impl<F: Drop> PairedFiles<F> {
    /// No script is begun yet.
    pub fn new(files: F, role: Role, pairing: Arc<Pairing, Global>) -> PairedFiles<F> {
        PairedFiles {
            files,
            role,
            pairing,
            gave_up: role == Role::Own,
            faults: 0,
        }
    }

    // Tells the other, and holds until it has begun too: whether it gave up.
    fn holds_in_vain(&self) -> bool {
        match self.role {
            Role::Own => true,
            Role::First => {
                self.pairing.first.store(true, Ordering::SeqCst);
                !see(&self.pairing.second)
            }
            Role::Second => {
                self.pairing.second.store(true, Ordering::SeqCst);
                !see(&self.pairing.first)
            }
        }
    }
}

impl<F: Outside + Drop> Outside for PairedFiles<F> {
    ghost seen = { λ paired. with_faults paired.faults (F.seen paired.files) };

    fn begin(&mut self, port: Port, path: &str) -> Result<bool, Failed> {
        if port == Port::Script {
            self.gave_up = self.holds_in_vain();
        }
        self.files.begin(port, path)
    }

    fn read(&mut self, port: Port, into: &mut [u8]) -> Result<usize, Failed> {
        if port == Port::Script && self.gave_up {
            self.faults = self.faults.saturating_add(1);
            return Err(Failed);
        }
        self.files.read(port, into)
    }
}
