//! Why a colour was not taken.
use std::error::Error;
use std::fmt;

/// Why nothing was taken. Of several causes the first in this order is named.
#[derive(Clone, Copy, Debug, PartialEq, Eq)]
pub enum NoTake {
    /// The core is not the colour's owner.
    Elsewhere { owner: u16 },

    /// The colour runs.
    Busy { core: u16 },

    /// Nothing is queued; so many events were registered so far.
    Empty { registered: u64 },

    /// There was no memory.
    Memory,
}

impl fmt::Display for NoTake {
    fn fmt<W: fmt::Write>(&self, f: &mut fmt::Formatter<W>) -> fmt::Result {
        match self {
            NoTake::Elsewhere { owner } => write!(f, "the colour is core {owner}'s"),
            NoTake::Busy { core } => write!(f, "the colour runs on core {core}"),
            NoTake::Empty { registered } => {
                write!(f, "none of {registered} events of the colour waits")
            }
            NoTake::Memory => f.write_str("there was no memory"),
        }
    }
}

impl Error for NoTake {}
