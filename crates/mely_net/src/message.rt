//! What colours are sent.

/// The world, and how many links it has given.
#[derive(Drop)]
pub struct Held<W> {
    pub(crate) world: W,
    pub(crate) accepted: u16,
}

/// What the desk, a cell or a connection is sent.
#[derive(Drop)]
pub enum Message<W, L, Q, P> {
    /// The desk asks the world which connection may go on.
    Poll(Held<W>),

    /// The desk asks the world for the next link.
    Accept(Held<W>),

    /// The desk is told that this connection waits for its link.
    Wait(u16),

    /// A connection's link comes.
    Open(L),

    /// A connection goes on.
    Wake,

    /// A connection ends, since the network has failed.
    Leave,

    /// A cell is asked this by a connection.
    Ask(u16, Q),

    /// A connection is replied this by a cell.
    Reply(u16, P),
}
