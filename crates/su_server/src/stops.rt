// Ending a server from within: once what it stores can't be kept, it serves no more.
use std::sync::atomic::{AtomicBool, Ordering};

/// Whether a server is to end.
#[derive(Drop)]
pub struct Stop {
    is_set: AtomicBool,
}

impl Stop {
    /// Makes one that isn't set.
    pub fn new() -> Stop {
        Stop {
            is_set: AtomicBool::new(false),
        }
    }

    /// Sets it: no more connections are served, and the sessions that run end at their next read.
    pub fn set(&self) {
        self.is_set.store(true, Ordering::SeqCst);
    }

    /// Whether it is set.
    pub fn is_set(&self) -> bool {
        self.is_set.load(Ordering::SeqCst)
    }
}
