//! What a worker without a turn is at.
use mely_event::Mark;

/// What a worker without a turn is at.
#[derive(Clone, Copy, Debug, PartialEq, Eq)]
pub enum Stage {
    /// It hunts at a place: 0 is the own chain, n the n-th victim, counted from 1.
    Free { place: usize },

    /// It took a mark off the own chain.
    Popped { mark: Mark },

    /// It took a mark off the chain of a victim.
    Picked { mark: Mark, victim: u16 },

    /// It stole a colour, whose mark is to be pushed on the own chain.
    Landing { mark: Mark },

    /// It puts a mark back on the chain of a core.
    Pushing { core: u16, mark: Mark },
}
