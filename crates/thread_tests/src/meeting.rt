//! Where two threads meet: each of two calls holds until the other has begun.

use std::sync::atomic::{AtomicBool, Ordering};

// How often a call that holds looks whether the other has begun, before it gives up.
const POLLS: u32 = 100_000_000;

/// What the second reply's gate and the call that is held know of one another. The gate is told on
/// one thread, the call is made on another.
#[derive(Drop)]
pub struct Meeting {
    given: AtomicBool,
    begun: AtomicBool,
    gave_up: AtomicBool,
}

// Whether the flag was set while it was looked at.
fn see(flag: &AtomicBool) -> bool {
    for _ in 0..POLLS {
        if flag.load(Ordering::SeqCst) {
            return true;
        }
    }
    false
}

impl Meeting {
    /// Neither has begun.
    pub fn new() -> Meeting {
        Meeting {
            given: AtomicBool::new(false),
            begun: AtomicBool::new(false),
            gave_up: AtomicBool::new(false),
        }
    }

    /// The second reply was given: holds until the other call has begun, or gives up.
    pub fn hold_gate(&self) {
        self.given.store(true, Ordering::SeqCst);
        if !see(&self.begun) {
            self.gave_up.store(true, Ordering::SeqCst);
        }
    }

    /// The call that is held has begun.
    pub fn begin(&self) {
        self.begun.store(true, Ordering::SeqCst);
    }

    /// Holds until the second reply was given. False where this call or the gate gave up.
    pub fn hold_call(&self) -> bool {
        see(&self.given) && !self.gave_up.load(Ordering::SeqCst)
    }
}
