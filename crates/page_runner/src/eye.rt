// Who is told what watchers see.

/// Who is told what watchers see, in their threads.
pub trait Eye {
    /// The watcher of that number, counted from 1, has looked, and saw so many changes. It looks at
    /// nothing meanwhile, so nobody waits for it. It promises nothing.
    fn saw(&self, watcher: u64, changes: u64);
}

/// An eye that does nothing.
#[derive(Clone, Copy)]
pub struct ClosedEye;

impl Eye for ClosedEye {
    fn saw(&self, _watcher: u64, _changes: u64) {}
}
