//! A bell: one thread sleeps on it, and others wake it.
//!
//! A ring says that something may have changed, and not what: a thread that wakes looks at everything it waits for before it waits
//! again. Each wait has a time, after which it ends without a ring. No contract says that a ring arrives, since none can say what
//! an atomic holds while other threads may write it. Tests show what a bell does.
#![tactic(auto)]

use std::alloc::{AllocError, Global};
use std::sync::atomic::{AtomicBool, Ordering};
use std::sync::{Arc, Wait};
use std::thread::Parker;
use std::time::Duration;

// What all shares of a bell have.
#[derive(Drop)]
struct Shared {
    parker: Parker,
    over: AtomicBool,
}

/// A share of a bell. One thread at a time waits on it. Every thread may ring it, or end it.
#[derive(Drop)]
pub struct Bell {
    shared: Arc<Shared, Global>,
}

impl Bell {
    /// A bell that nobody has rung and nobody has ended. Refused where memory is refused.
    pub fn new(alloc: Global) -> Result<Bell, AllocError> {
        let shared = Shared {
            parker: Parker::new(),
            over: AtomicBool::new(false),
        };
        let shared = Arc::new(alloc, shared)?;
        Ok(Bell { shared })
    }

    /// Another share of the same bell, for one more thread. Refused only where there are more shares than can be counted.
    pub fn share(&self) -> Result<Bell, AllocError> {
        let shared = Arc::try_clone(&self.shared)?;
        Ok(Bell { shared })
    }

    /// Wakes the thread that waits. If none waits, the next wait ends at once, however often it was rung before.
    pub fn ring(&self) {
        self.shared.parker.unpark();
    }

    /// Waits until the bell is rung or the time is up. The wait may also end for no reason.
    pub fn wait<R: Wait>(&self, rt: &R, time: Duration) {
        self.shared.parker.park_timeout(rt, time);
    }

    /// Ends the bell for good, and rings it.
    pub fn end(&self) {
        self.shared.over.store(true, Ordering::SeqCst);
        self.ring();
    }

    /// Whether some share has ended the bell.
    pub fn is_over(&self) -> bool {
        self.shared.over.load(Ordering::SeqCst)
    }
}
