//! What is around the store.

use std::sync::atomic::{AtomicU64, Ordering};

/// What is around the store: a clock, and who can stop it. Contracts say nothing of it.
pub trait Outside {
    /// The time, in milliseconds since 1970.
    fn now(&self) -> u64;

    /// Has the run end that the store is served by: nobody is taken any more.
    fn stop(&self);
}

/// Nothing is around the store: its time goes on by a millisecond with each request, so that what is
/// told depends on the requests alone.
#[derive(Drop)]
pub struct Nothing {
    now: AtomicU64,
}

/// The time at first, in milliseconds since 1970: in the year 2001.
const BEGINNING: u64 = 1_000_000_000_000;

impl Nothing {
    pub fn new() -> Nothing {
        Nothing {
            now: AtomicU64::new(BEGINNING),
        }
    }
}

impl Outside for Nothing {
    fn now(&self) -> u64 {
        self.now.fetch_add(1, Ordering::SeqCst)
    }

    fn stop(&self) {}
}
