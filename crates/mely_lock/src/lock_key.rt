//! What a lock keeps from its beginning on.
use std::snapshot::Snapshot;

/// What a lock is told when it is made, and keeps for good.
#[derive(Drop)]
pub struct LockKey<V> {
    /// The value as it was then. It is for contracts alone and holds no bytes.
    pub value: Snapshot<V>,
    /// How many passes there are.
    pub passes: u16,
}
