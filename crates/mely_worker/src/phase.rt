//! What a worker is at.
use crate::delivery::Delivery;
use crate::outs::Outs;
use mely_event::Mark;
use mely_queue::Turn;

/// What a worker is at.
pub enum Phase<S, P> {
    /// It hunts at a place: 0 is the own chain, n the n-th victim, counted from 1.
    Free {
        place: usize,
    },

    /// It took a mark off the own chain.
    Popped {
        mark: Mark,
    },

    /// It took a mark off the chain of a victim.
    Picked {
        mark: Mark,
        victim: u16,
    },

    /// It stole a colour, whose mark is to be pushed on the own chain.
    Landing {
        mark: Mark,
    },

    /// It puts a mark back on the chain of a core.
    Pushing {
        core: u16,
        mark: Mark,
    },

    /// It runs a turn: what is in hand, and the registrations that the last
    /// handler put and that are left.
    Turning {
        turn: Turn<S, P>,
        hand: Delivery,
        outs: Outs<P>,
    },
}
