//! The places of sockets among the events of a world.

use mio::net::TcpStream;
use mio::{Interest, Registry, Token};
use std::io;

/// How many listeners a world has at most. They have the first places among the events, and the
/// connection of number `i` has the place `i` behind them.
pub const LISTENERS: usize = 32;

/// Tells the world of all that this connection shows from now on, by its number.
pub fn register(registry: &Registry, stream: &mut TcpStream, number: usize) -> io::Result<()> {
    let place = Token(number.saturating_add(LISTENERS));
    registry.register(stream, place, Interest::READABLE | Interest::WRITABLE)
}
