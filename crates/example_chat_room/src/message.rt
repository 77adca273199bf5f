//! What colours are sent.

use crate::line::Line;

/// The world, and how many links it has given.
#[derive(Drop)]
pub struct Held<W> {
    pub(crate) world: W,
    pub(crate) accepted: u16,
}

/// What the desk, the room or a client is sent.
#[derive(Drop)]
pub enum Message<W, L> {
    /// The desk asks the world which client may go on.
    Poll(Held<W>),

    /// The desk asks the world for the next link.
    Accept(Held<W>),

    /// The desk is told that this client waits.
    Wait(u16),

    /// A client comes.
    Open(L),

    /// A client goes on.
    Wake,

    /// A client's time ends, since the network has failed.
    Cut,

    /// The room is told a line.
    Say(Line),

    /// A client hears a line.
    Hear(Line),
}
