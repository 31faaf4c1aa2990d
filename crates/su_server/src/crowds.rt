// Which workers are free, and who makes room where none is.
use std::sync::atomic::{AtomicBool, AtomicUsize, Ordering};

/// How many workers of a server are free, and whether a connection waits while none is. One thread
/// takes workers for connections, and the sessions give them back.
#[derive(Drop)]
pub struct Crowd {
    free: AtomicUsize,
    is_waiting: AtomicBool,
}

impl Crowd {
    /// Makes one of so many workers, which are all free.
    pub fn new(workers: usize) -> Crowd {
        Crowd {
            free: AtomicUsize::new(workers),
            is_waiting: AtomicBool::new(false),
        }
    }

    /// Takes a worker for a connection, if one is free. Else it notes that the connection waits.
    pub(crate) fn enter(&self) -> bool {
        let is_free = self.free.load(Ordering::SeqCst) > 0;
        if is_free {
            self.free.fetch_sub(1, Ordering::SeqCst);
        }
        self.is_waiting.store(!is_free, Ordering::SeqCst);
        is_free
    }

    /// Gives a worker back.
    pub(crate) fn leave(&self) {
        self.free.fetch_add(1, Ordering::SeqCst);
    }

    /// Whether a session is to make room for a connection that waits. Of those that ask, one is told
    /// so until it is noted anew.
    pub(crate) fn is_to_make_room(&self) -> bool {
        self.is_waiting.swap(false, Ordering::SeqCst)
    }
}
