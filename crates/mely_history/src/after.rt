//! What a finish leaves.

/// What is left of a colour after a finish.
#[derive(Clone, Copy, Debug, PartialEq, Eq)]
pub enum After {
    /// Something is queued: the colour is ready again, with so many events
    /// started and this time left.
    More { started: u64, worth: u128 },

    /// Nothing is queued.
    Idle,
}
