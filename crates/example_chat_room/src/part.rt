//! What a colour has.

use crate::client::Client;
use crate::desk::Desk;
use crate::room::Room;
use sws_link::Link;

/// What a colour has: the desk, the room, or a client.
#[derive(Drop)]
pub enum Part<W, L: Link> {
    /// Colour 0 asks the world.
    Desk(Desk<W>),

    /// Colour 1 gives lines their order.
    Room(Room),

    /// Each colour from 2 on is a client.
    Client(Client<L>),
}
