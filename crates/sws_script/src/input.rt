//! What a text says.
use crate::{Bytes, Sequence};

/// What the reads of a link give next.
#[derive(Debug, Drop)]
pub enum Item {
    /// These bytes, 1 to 4,096, in one piece.
    Send(Bytes),
    /// So many bytes `a`, 1 to 65,536, in pieces of up to 4,096.
    Fill(u32),
    /// So many answers that the link isn't ready, 1 to 1,000.
    Pause(u16),
    /// The next read fails.
    Fault,
}

/// One connection: how its writes go, and what its reads give.
#[derive(Debug, Drop)]
pub struct ScriptConn {
    /// The most bytes that one write takes, 1 to 65,536, where there is a bound.
    pub step: Option<u32>,
    /// How many bytes are written in all before writes fail, up to 1,000,000,000, where they do.
    pub cut: Option<u64>,
    /// What the reads give, in order. A fault is the last, and no pause follows a pause.
    pub items: Sequence<Item>,
}

/// A schedule and the connections of a script.
#[derive(Debug, Drop)]
pub struct Input {
    /// The core that makes steps, and how many. Without a schedule there are none.
    pub steps: Sequence<(u16, u32)>,
    /// The connections in order.
    pub conns: Sequence<ScriptConn>,
}
