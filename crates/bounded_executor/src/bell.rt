//! A bell that wakes one sleeper.

use std::sync::Wait;
use std::sync::atomic::{AtomicBool, Ordering};
use std::thread::Parker;

// Wakes one sleeper. A ring that comes before the sleep ends it at once, so a sleeper that looks for work first misses none.
#[derive(Drop)]
pub(crate) struct Bell {
    token: Parker,
    closed: AtomicBool,
}

impl Bell {
    pub(crate) fn new() -> Bell {
        Bell {
            token: Parker::new(),
            closed: AtomicBool::new(false),
        }
    }

    pub(crate) fn ring(&self) {
        self.token.unpark();
    }

    // Sleeps until the next ring. It may return for no reason.
    pub(crate) fn wait<R: Wait>(&self, rt: &R) {
        self.token.park(rt);
    }

    // Says that nothing more comes, and rings.
    pub(crate) fn close(&self) {
        self.closed.store(true, Ordering::SeqCst);
        self.ring();
    }

    pub(crate) fn is_closed(&self) -> bool {
        self.closed.load(Ordering::SeqCst)
    }
}
