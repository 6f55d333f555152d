//! Whether a service is broken: a partition's thread had no memory for what others wait for, or its log failed.
use std::sync::atomic::{AtomicBool, Ordering};

/// A flag that the threads and the sessions of a service share. To set it takes no memory.
pub struct Breakage {
    broken: AtomicBool,
    /// Whether the log failed.
    by_log: AtomicBool,
}

// By hand, so that what lets it go is proved here, and not again in each crate above.
impl Drop for Breakage {
    fn drop(self) {
        let Breakage { broken, by_log } = self;
        drop(broken);
        drop(by_log);
    }
}

impl Breakage {
    /// Nothing is broken.
    pub fn new() -> Breakage {
        Breakage {
            broken: AtomicBool::new(false),
            by_log: AtomicBool::new(false),
        }
    }

    /// The service is broken from now on.
    pub fn set(&self) {
        self.broken.store(true, Ordering::SeqCst);
    }

    /// The service is broken from now on, since its log failed.
    pub fn set_by_log(&self) {
        self.by_log.store(true, Ordering::SeqCst);
        self.set();
    }

    /// Whether its log failed.
    pub fn is_by_log(&self) -> bool {
        self.by_log.load(Ordering::SeqCst)
    }

    /// Whether it is.
    pub fn is_set(&self) -> bool {
        self.broken.load(Ordering::SeqCst)
    }
}
