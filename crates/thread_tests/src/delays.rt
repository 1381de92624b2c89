//! Files, a sink and a gate whose calls take a while, drawn by a seeded generator. They answer what
//! those that they stand for answer.

use outside::{Failed, Gate, Outside, Port, Sink};
use rand_core::utils::NextWord;
use rand_pcg::Pcg32;
use std::sync::atomic::{AtomicBool, Ordering};
use std::thread;

// The delays that one generator draws.
#[derive(Drop)]
struct Delays {
    random: Pcg32,
    flag: AtomicBool,
}

// Looks at the flag so many times, which nothing sets.
fn spin(flag: &AtomicBool, turns: u32) {
    for _ in 0..turns {
        if flag.load(Ordering::SeqCst) {
            return;
        }
    }
}

impl Delays {
    fn new(seed: u64, stream: u64) -> Delays {
        Delays {
            random: Pcg32::new(seed, stream),
            flag: AtomicBool::new(false),
        }
    }

    // Mostly a short while: of 16 delays one gives the processor to another thread, and the others
    // take up to 2 to 32,768 turns.
    fn wait(&mut self) {
        let kind = self.random.next_word() % 16;
        if kind == 0 {
            thread::yield_now();
            return;
        }
        let turns = self.random.next_word() % (1 << kind);
        spin(&self.flag, turns);
    }
}

/// Files whose calls take a while.
#[derive(Drop)]
pub struct SlowFiles<F: Drop> {
    files: F,
    delays: Delays,
}

impl<F: Drop> SlowFiles<F> {
    /// With the delays of this seed.
    pub fn new(files: F, seed: u64) -> SlowFiles<F> {
        SlowFiles {
            files,
            delays: Delays::new(seed, 1),
        }
    }
}

impl<F: Outside + Drop> Outside for SlowFiles<F> {
    ghost seen = { λ slow. F.seen slow.files };

    fn begin(&mut self, port: Port, path: &str) -> Result<bool, Failed> {
        self.delays.wait();
        self.files.begin(port, path)
    }

    fn read(&mut self, port: Port, into: &mut [u8]) -> Result<usize, Failed> {
        self.delays.wait();
        self.files.read(port, into)
    }
}

/// A sink whose calls take a while.
#[derive(Drop)]
pub struct SlowSink<K: Drop> {
    pub sink: K,
    delays: Delays,
}

impl<K: Drop> SlowSink<K> {
    /// With the delays of this seed.
    pub fn new(sink: K, seed: u64) -> SlowSink<K> {
        SlowSink {
            sink,
            delays: Delays::new(seed, 2),
        }
    }
}

impl<K: Sink + Drop> Sink for SlowSink<K> {
    ghost taken = { λ slow. K.taken slow.sink };

    ghost faults = { λ slow. K.faults slow.sink };

    ghost clean = { λ slow. K.clean slow.sink };

    fn write(&mut self, bytes: &[u8]) -> Result<usize, Failed> {
        self.delays.wait();
        self.sink.write(bytes)
    }

    fn finish(&mut self) -> Result<(), Failed> {
        self.delays.wait();
        self.sink.finish()
    }
}

/// A gate that keeps the parser's side behind each reply for a while.
#[derive(Drop)]
pub struct SlowGate {
    /// The seed of its delays.
    pub seed: u64,
}

impl Gate for SlowGate {
    fn given(&self, number: u64) {
        Delays::new(self.seed, number | 1 << 32).wait();
    }
}
