//! The sockets that the connections of a server come from.

use crate::places::LISTENERS;
use mio::net::{TcpListener, TcpStream};
use mio::{Interest, Registry, Token};
use std::alloc::Global;
use std::io;
use std::net::SocketAddr;

/// A socket that listens, and whether a connection may be waiting in its queue.
#[derive(Drop)]
struct Listening {
    socket: TcpListener,
    may_accept: bool,
}

/// The sockets that connections come from, in turn: a queue that is never empty keeps no other one
/// from being served.
#[derive(Drop)]
pub struct Listeners {
    all: Vec<Listening>,

    /// Which of them is asked first.
    next: usize,
}

impl Listeners {
    /// None.
    pub fn new(alloc: Global) -> Listeners {
        Listeners {
            all: Vec::new(alloc),
            next: 0,
        }
    }

    /// Adds one, of which the registry tells from now on. A connection may be waiting there already.
    ///
    /// # Errors
    ///
    /// The machine or its memory refuses it, or there are as many as have places.
    pub fn add(&mut self, registry: &Registry, mut socket: TcpListener) -> io::Result<()> {
        let place = self.all.len();
        if place >= LISTENERS {
            return Err(io::Error::from(io::ErrorKind::InvalidInput));
        }
        registry.register(&mut socket, Token(place), Interest::READABLE)?;
        self.all.push(Listening {
            socket,
            may_accept: true,
        })?;
        Ok(())
    }

    /// Lets all of them go. Their other owners keep them.
    pub fn let_go(&mut self, registry: &Registry) {
        for listening in &mut self.all {
            let _ = registry.deregister(&mut listening.socket);
        }
        self.all.truncate(0);
    }

    /// Whether a connection may be waiting.
    pub fn may_accept(&self) -> bool {
        self.all.iter().any(|listening| listening.may_accept)
    }

    /// A connection may be waiting at the socket of this place.
    pub fn note(&mut self, place: usize) {
        if let Some(listening) = self.all.get_mut(place) {
            listening.may_accept = true;
        }
    }

    /// Connections may be waiting at all of them, or at none.
    pub fn note_all(&mut self, may_accept: bool) {
        for listening in &mut self.all {
            listening.may_accept = may_accept;
        }
    }

    /// The next of them at which a connection may be waiting, from the one behind the last.
    fn turn(&self) -> Option<usize> {
        let count = self.all.len();
        for step in 0..count {
            let place = self.next.saturating_add(step) % count;
            if self
                .all
                .get(place)
                .is_some_and(|listening| listening.may_accept)
            {
                return Some(place);
            }
        }
        None
    }

    /// The next connection and who comes by it, where one may be waiting: of the sockets in turn.
    pub fn accept(&mut self) -> Option<io::Result<(TcpStream, SocketAddr)>> {
        let place = self.turn()?;
        let listening = self.all.get_mut(place)?;
        self.next = place.saturating_add(1);
        match listening.socket.accept() {
            Ok(come) => Some(Ok(come)),
            Err(error) => {
                if error.kind() == io::ErrorKind::WouldBlock {
                    listening.may_accept = false;
                }
                Some(Err(error))
            }
        }
    }
}
