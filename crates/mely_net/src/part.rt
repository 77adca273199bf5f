//! What a colour has.

use crate::client::Client;
use crate::desk::Desk;
use sws_link::Link;

/// What a colour has: the desk, a cell, or a connection, whose cells are asked `Q` and reply `P`.
#[derive(Drop)]
pub enum Part<C, W, L: Link, Q, P> {
    /// Colour 0 asks the world.
    Desk(Desk<W>),

    /// The colours from 1 on are the cells.
    Cell(C),

    /// Those behind them are the connections.
    Client(Client<L, Q, P>),
}
