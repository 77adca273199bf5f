//! What a registration answers.

/// What a registration found. Core numbers, and the colour's account after the registration.
#[derive(Clone, Copy, Debug, PartialEq, Eq)]
pub enum Registered {
    /// The colour rested with nothing queued: it is now ready, and its owner is to be given a mark.
    Woke {
        owner: u16,
        started: u64,
        worth: u128,
    },

    /// The colour was ready already, and is worth more than before.
    Told {
        owner: u16,
        started: u64,
        worth: u128,
    },

    /// The colour runs; whoever finishes it will find the event.
    Running {
        core: u16,
    },
}
