//! Starts threads that need one another.
use std::alloc::AllocError;
use std::sync::atomic::{AtomicU64, Ordering};
use std::thread;

// So often a thread looks for the others, and lets them run.
const TRIES: u64 = 1 << 22;

/// How many threads began, how many of them waited for the others in vain, and how many are done. If an allocation for a thread fails,
/// another thread does its work, after its own work.
#[derive(Drop)]
pub(crate) struct Start {
    begun: AtomicU64,
    in_vain: AtomicU64,
    done: AtomicU64,
}

impl Start {
    pub(crate) fn new() -> Start {
        Start {
            begun: AtomicU64::new(0),
            in_vain: AtomicU64::new(0),
            done: AtomicU64::new(0),
        }
    }

    /// Counts one more thread that began, and waits until `count` threads began. Returns false if it waited in vain.
    pub(crate) fn all_begin(&self, count: u64) -> bool {
        self.begun.fetch_add(1, Ordering::SeqCst);
        for _ in 0..TRIES {
            if self.begun.load(Ordering::SeqCst) >= count {
                return true;
            }
            thread::yield_now();
        }
        self.in_vain.fetch_add(1, Ordering::SeqCst);
        false
    }

    /// Counts one more thread that is done.
    pub(crate) fn one_is_done(&self) {
        self.done.fetch_add(1, Ordering::SeqCst);
    }

    /// Whether this many are done.
    pub(crate) fn are_done(&self, count: u64) -> bool {
        self.done.load(Ordering::SeqCst) == count
    }

    /// The result of the threads, or an allocation failure if one of them waited in vain.
    pub(crate) fn judge(&self, well: bool) -> Result<bool, AllocError> {
        if self.in_vain.load(Ordering::SeqCst) == 0 {
            Ok(well)
        } else {
            Err(AllocError)
        }
    }
}
