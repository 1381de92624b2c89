//! Files, a sink and a gate that hold one another until two threads are at work at once.

ghost use Rattle.std.specs.Prelude.{◌+◌};
ghost use Rattle.thread_tests.specs.Faults.{with_faults};

use crate::meeting::Meeting;
use outside::{Failed, Gate, Outside, Port, Sink};
use page_runner::Eye;
use std::alloc::Global;
use std::sync::Arc;

/// Files of which the first script's is held, once it is begun, until the second reply was given.
/// Where either gave up, the file can't be read.
#[derive(Drop)]
pub struct HeldFiles<F: Drop> {
    files: F,
    meeting: Arc<Meeting, Global>,
    is_held: bool,
    // Of those files that were held too long.
    faults: u64,
}

impl<F: Drop> HeldFiles<F> {
    /// No script's file is begun yet.
    pub fn new(files: F, meeting: Arc<Meeting, Global>) -> HeldFiles<F> {
        HeldFiles {
            files,
            meeting,
            is_held: true,
            faults: 0,
        }
    }
}

impl<F: Outside + Drop> Outside for HeldFiles<F> {
    ghost seen = { λ held. with_faults held.faults (F.seen held.files) };

    fn begin(&mut self, port: Port, path: &str) -> Result<bool, Failed> {
        if port == Port::Script {
            self.meeting.begin();
        }
        self.files.begin(port, path)
    }

    fn read(&mut self, port: Port, into: &mut [u8]) -> Result<usize, Failed> {
        if port == Port::Script && self.is_held {
            self.is_held = false;
            if !self.meeting.hold_call() {
                self.faults = self.faults.saturating_add(1);
                return Err(Failed);
            }
        }
        self.files.read(port, into)
    }
}

/// A sink whose first write is held until the second reply was given. Where either gave up, the
/// write fails.
#[derive(Drop)]
pub struct HeldSink<K: Drop> {
    sink: K,
    meeting: Arc<Meeting, Global>,
    is_held: bool,
    // Of the write that was held too long.
    faults: u64,
}

impl<K: Drop> HeldSink<K> {
    /// Nothing is written yet.
    pub fn new(sink: K, meeting: Arc<Meeting, Global>) -> HeldSink<K> {
        HeldSink {
            sink,
            meeting,
            is_held: true,
            faults: 0,
        }
    }
}

impl<K: Sink + Drop> Sink for HeldSink<K> {
    ghost taken = { λ held. K.taken held.sink };

    ghost faults = { λ held. K.faults held.sink + held.faults };

    ghost clean = { λ held. K.clean held.sink };

    fn write(&mut self, bytes: &[u8]) -> Result<usize, Failed> {
        if self.is_held {
            self.is_held = false;
            self.meeting.begin();
            if !self.meeting.hold_call() {
                self.faults = self.faults.saturating_add(1);
                return Err(Failed);
            }
        }
        self.sink.write(bytes)
    }

    fn finish(&mut self) -> Result<(), Failed> {
        self.sink.finish()
    }
}

/// A gate that holds the parser's side behind its second reply until the call that is held has
/// begun.
#[derive(Drop)]
pub struct HeldGate(pub Arc<Meeting, Global>);

impl Gate for HeldGate {
    fn given(&self, number: u64) {
        if number == 2 {
            self.0.hold_gate();
        }
    }
}

/// An eye that holds the first watcher, once it has seen a change, until the call that is held has
/// begun.
#[derive(Drop)]
pub struct HeldEye(pub Arc<Meeting, Global>);

impl Eye for HeldEye {
    fn saw(&self, watcher: u64, changes: u64) {
        if watcher == 1 && changes > 0 {
            self.0.hold_gate();
        }
    }
}
