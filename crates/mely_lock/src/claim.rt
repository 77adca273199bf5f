//! What one pass knows of a lock.
use std::collections::LinkedList;

/// What one pass knows. It is for contracts alone: no value of it is made.
pub struct Claim<N, F> {
    /// The number of the pass.
    pub number: u64,
    /// The history that it has seen.
    pub front: LinkedList<N>,
    /// The frame of the value when the lock was made.
    pub frame: F,
}
