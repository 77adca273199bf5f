//! How a connection ends.
use std::fmt;

/// How a connection ends.
#[derive(Clone, Copy, Debug, PartialEq, Eq)]
pub enum End {
    /// Its client sent all that it had to send, and was answered.
    Left,

    /// Its last answer was written, as its client or a fault in what it sent wanted it.
    Done,

    /// It failed, or the network.
    Fault,

    /// There was no memory for what came or was to be answered.
    Memory,

    /// A reply came that it hadn't asked for. No run has it, by the contract of `serve`.
    Astray,
}

impl fmt::Display for End {
    fn fmt<W: fmt::Write>(&self, f: &mut fmt::Formatter<W>) -> fmt::Result {
        f.write_str(match self {
            End::Left => "left",
            End::Done => "was answered to the end",
            End::Fault => "was dropped: its connection failed",
            End::Memory => "was dropped: there was no memory",
            End::Astray => "was dropped: a reply came that it hadn't asked for",
        })
    }
}
