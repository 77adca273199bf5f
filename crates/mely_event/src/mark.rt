//! Marks, which lie in the chains of the cores.
use crate::colour::Colour;

/// A promise that a colour is ready to be taken, as it lies in the chain of a core.
#[derive(Clone, Copy, Debug, PartialEq, Eq, PartialOrd, Ord)]
pub struct Mark {
    pub colour: Colour,

    /// How many events of the colour had been started when the mark was made.
    pub started: u64,

    /// The time left of the colour as it was last told: the sum of the
    /// weights of its queued events.
    pub worth: u128,
}
