//! What can be known of a chain without its lock.
use std::sync::atomic::{AtomicBool, Ordering};

/// What can be known of a chain without its lock.
///
/// Whoever changes the chain stores it behind the lock, before leaving. So whoever reads it may see
/// what is true in a moment, but never what was true before the last caller left. It is written only
/// where it changes: a line of memory that several workers read stays with all of them until then.
#[derive(Drop)]
pub struct Hint {
    /// Whether the chain has a mark. Its own worker reads it.
    marks: AtomicBool,

    /// Keeps what the own worker reads and what thieves read on different cache lines.
    apart: [u64; 15],

    /// Whether the chain may have a mark that thieves may take. It says so at times where there is
    /// none, until the next thief has looked; where there is one it never says no.
    spoils: AtomicBool,
    apart_too: [u64; 15],
}

/// Stores a word that only who holds the lock writes.
fn store(word: &AtomicBool, value: bool) {
    if word.load(Ordering::SeqCst) != value {
        word.store(value, Ordering::SeqCst);
    }
}

impl Hint {
    /// What is known of an empty chain.
    pub fn new() -> Hint {
        Hint {
            marks: AtomicBool::new(false),
            apart: [0; 15],
            spoils: AtomicBool::new(false),
            apart_too: [0; 15],
        }
    }

    /// Whether the chain has a mark.
    pub fn has_marks(&self) -> bool {
        self.marks.load(Ordering::SeqCst)
    }

    /// Whether the chain may have a mark that thieves may take.
    pub fn has_spoils(&self) -> bool {
        self.spoils.load(Ordering::SeqCst)
    }

    /// The chain has a mark; whether one came in that thieves may take.
    pub fn came(&self, is_worthy: bool) {
        store(&self.marks, true);
        self.told(is_worthy);
    }

    /// Whether a mark of the chain has become one that thieves may take.
    pub fn told(&self, is_worthy: bool) {
        if is_worthy {
            store(&self.spoils, true);
        }
    }

    /// The front was taken, if there was one; whether the chain is empty now.
    pub fn popped(&self, is_empty: bool) {
        if is_empty {
            store(&self.marks, false);
            store(&self.spoils, false);
        }
    }

    /// A thief took a mark, if it found one; whether the chain is empty now.
    pub fn picked(&self, is_found: bool, is_empty: bool) {
        if !is_found {
            store(&self.spoils, false);
        }
        self.popped(is_empty);
    }
}
