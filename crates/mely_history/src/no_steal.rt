//! Why a colour was not stolen.
use mely_event::Colour;
use std::error::Error;
use std::fmt;

/// Why nothing was stolen. Of several causes the first in this order is named.
#[derive(Clone, Copy, Debug, PartialEq, Eq)]
pub enum NoSteal {
    /// The colour is pinned: it stays on the core that it began on.
    Pinned { colour: Colour },

    /// The thief owns the colour already.
    Own,

    /// The colour runs.
    Busy { core: u16 },

    /// Nothing is queued; so many events were registered so far.
    Empty { registered: u64 },

    /// The time left is not over the steal cost.
    Cheap { worth: u128 },

    /// There was no memory.
    Memory,
}

impl fmt::Display for NoSteal {
    fn fmt<W: fmt::Write>(&self, f: &mut fmt::Formatter<W>) -> fmt::Result {
        match self {
            NoSteal::Pinned { colour } => {
                let number = colour.0;
                write!(f, "colour {number} is pinned")
            }
            NoSteal::Own => f.write_str("the core owns the colour already"),
            NoSteal::Busy { core } => write!(f, "the colour runs on core {core}"),
            NoSteal::Empty { registered } => {
                write!(f, "none of {registered} events of the colour waits")
            }
            NoSteal::Cheap { worth } => { write!(f, "a time left of {worth} is not worth a steal") }
            NoSteal::Memory => f.write_str("there was no memory"),
        }
    }
}

impl Error for NoSteal {}
