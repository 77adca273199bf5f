//! A listener on TCP as a world.
ghost use Rattle.std.specs.Prelude.{◌≡◌, None, false, nat_lt};
ghost use Rattle.sws_link.specs.Counts.{kept_count};

use crate::counted::{Counted, Origin};
use crate::server::{Came, Server};
use crate::tcp_link::TcpLink;
use std::alloc::AllocError;
use std::io;
use sws_link::{Accepted, Opened, Polled, World};

/// Gives the connections to a port of the machine as links; of what they bring nothing is known.
///
/// It counts the errors of the machine, and how often it had nobody to name, though somebody
/// waited, or nothing to give.
///
/// `poll` waits where each link that is there waits, until one of them is due and for a second at
/// most, and looks without waiting else, so that a link that waits holds up no other. A link is due
/// that wasn't named for a second.
///
/// Where the world is dropped, it sees out the connections whose last answers may still be on their
/// way: each for at most a second in which it shows nothing, and ten in all.
///
/// It lies in a box, since a server moves its world from event to event.
#[derive(Drop)]
pub struct TcpWorld<'r> {
    state: Box<Counted<Listening<'r>>>,
}

/// A listener of the world's own, once it was opened.
struct Listening<'r> {
    rt: &'r HostRuntime,
    server: Option<Server>,
}

impl<'r> Drop for Listening<'r> {
    fn drop(self) {
        let Listening { rt, server } = self;
        if let Some(server) = server {
            see_out(rt, server);
        }
    }
}

/// Sees out the connections that are still on their way.
fn see_out(rt: &HostRuntime, mut server: Server) {
    server.see_out(rt);
}

impl<'r> Origin for Listening<'r> {
    fn begin(&mut self, port: u16, total: u16) -> io::Result<()> {
        self.server = Some(Server::new(self.rt, port, total)?);
        Ok(())
    }

    fn look(&mut self, waiting: &[u16], accepted: u16, total: u16) -> io::Result<Option<u16>> {
        let is_last = accepted >= total;
        match &mut self.server {
            None => Ok(None),
            Some(server) => server.look(self.rt, waiting, is_last, u64::MAX),
        }
    }

    fn next(&mut self, number: u16, _total: u16) -> Came {
        match &mut self.server {
            None => Came::NotYet,
            Some(server) => server.next(number, None, &[]),
        }
    }
}

impl<'r> TcpWorld<'r> {
    /// A world that was not opened yet.
    pub fn new(rt: &'r HostRuntime) -> Result<TcpWorld<'r>, AllocError> {
        let state = Counted::new(Listening { rt, server: None });
        Ok(TcpWorld {
            state: Box::new(rt.alloc(), state)?,
        })
    }

    /// Whether more links are to come.
    pub fn has_more(&self) -> bool
        ensures { result ≡ nat_lt self.now.state.value.accepted self.now.state.value.total }
    {
        self.state.accepted < self.state.total
    }
}

impl<'r> World for TcpWorld<'r> {
    type Link = TcpLink;

    ghost tells = { λ world. record {
      coming = None;
      total = world.state.value.total;
      accepted = world.state.value.accepted;
      port = world.state.value.port;
      scripted = false;
    } };

    ghost faults = { λ world. kept_count world.state.value.faults };

    ghost waits = { λ world. kept_count world.state.value.waits };

    fn open(&mut self, port: u16, total: u16) -> Opened {
        self.state.open(port, total)
    }

    fn total(&self) -> u16 {
        self.state.total()
    }

    fn poll(&mut self, waiting: &[u16]) -> Polled {
        self.state.poll(waiting)
    }

    fn accept(&mut self) -> Accepted<TcpLink> {
        self.state.accept()
    }
}
