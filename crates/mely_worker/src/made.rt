//! The names of the steps of a worker.
use mely_event::Colour;
use mely_history::{NoSteal, NoTake};

/// The step that a worker made.
#[derive(Clone, Copy, Debug, PartialEq, Eq)]
pub enum Made {
    /// The mark of a colour was pushed on the chain of a core.
    Pushed {
        colour: Colour,
        core: u16,
    },

    /// The chain of a core was told what a colour is worth; whether its mark was found there.
    Told {
        colour: Colour,
        core: u16,
        found: bool,
    },

    /// An event that a handler had put was registered.
    Registered {
        colour: Colour,
    },

    /// A handler ran.
    Ran {
        colour: Colour,
        handler: u8,
    },

    /// A turn was finished; whether more of its colour waits.
    Finished {
        colour: Colour,
        more: bool,
    },

    /// So many events of a colour were taken.
    Took {
        colour: Colour,
        count: u16,
    },

    /// The popped colour wasn't taken, and its mark was dropped.
    NotTaken {
        why: NoTake,
    },

    /// The picked colour was stolen.
    Stole {
        colour: Colour,
        from: u16,
    },

    /// The picked colour wasn't stolen, and its mark was dropped.
    NotStolen {
        why: NoSteal,
    },

    /// The mark of a stolen colour was pushed on the own chain.
    Landed {
        colour: Colour,
    },

    /// A mark was taken off the own chain.
    Popped {
        colour: Colour,
    },

    /// The own chain was empty.
    NoneHere,

    /// A mark was taken off the chain of a victim.
    Picked {
        colour: Colour,
        victim: u16,
    },

    /// The victim had no worthy mark.
    NoneThere {
        victim: u16,
    },

    /// There was no memory for a registration, a take or a steal, and the worker is halted.
    Memory,

    /// The worker is halted and free, and nothing was done.
    Halted,
}
