//! The notes on a chain behind its lock.
use mely_event::{Colour, Mark};

/// One change of the chain of a core. The history of a chain behind its lock is the list of its
/// changes, each with the number of the pass that made it; it is for contracts alone.
#[derive(Clone, Copy)]
pub enum ChainNote {
    /// The mark came in at the back.
    Pushed(Mark),

    /// The first mark, this one, was taken off.
    Popped(Mark),

    /// A report that a colour of which so many events had been started is worth
    /// this much found its mark.
    Retold(Colour, u64, u128),

    /// The mark that was worth most, this one, was taken off.
    Picked(Mark),
}
