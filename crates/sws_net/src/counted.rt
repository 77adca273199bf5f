//! A world over sockets, with what it counts.
ghost use Rattle.std.specs.Prelude.{None, false, IfOk, IfSome, Contains};
ghost use Rattle.sws_link.specs.Counts.{kept_count};
ghost use Rattle.sws_net.specs.Initial.{IsInitialIfCame};

use crate::server::Came;
use crate::tcp_link::TcpLink;
use std::io;
use sws_files::is_want_of_memory;
use sws_link::{Accepted, Opened, Polled, World};

/// Where a world has its connections from.
pub(crate) trait Origin {
    /// Begins anew: so many connections are to come, to this port.
    fn begin(&mut self, port: u16, total: u16) -> io::Result<()>;

    /// Which of those that wait may be ready, where so many have come of so many.
    fn look(&mut self, waiting: &[u16], accepted: u16, total: u16) -> io::Result<Option<u16>>
        ensures { IfOk result (λ named. IfSome named (λ conn. Contains waiting.now conn)) };

    /// The next connection, as the link of this number, of so many in all.
    fn next(&mut self, number: u16, total: u16) -> Came
        ensures { IsInitialIfCame result };
}

/// A world over sockets: where its connections come from, and what it counts.
#[derive(Drop)]
pub(crate) struct Counted<O> {
    pub(crate) origin: O,
    pub(crate) port: u16,
    pub(crate) total: u16,
    pub(crate) accepted: u16,
    pub(crate) faults: u64,
    pub(crate) waits: u64,
}

impl<O> Counted<O> {
    /// A world that was not opened yet.
    pub(crate) fn new(origin: O) -> Counted<O> {
        Counted {
            origin,
            port: 0,
            total: 0,
            accepted: 0,
            faults: 0,
            waits: 0,
        }
    }
}

impl<O: Origin> World for Counted<O> {
    type Link = TcpLink;

    ghost tells = { λ world. record {
      coming = None;
      total = world.total;
      accepted = world.accepted;
      port = world.port;
      scripted = false;
    } };

    ghost faults = { λ world. kept_count world.faults };

    ghost waits = { λ world. kept_count world.waits };

    fn open(&mut self, port: u16, total: u16) -> Opened {
        match self.origin.begin(port, total) {
            Ok(()) => {
                self.port = port;
                self.total = total;
                self.accepted = 0;
                Opened::Ready
            }
            Err(error) if is_want_of_memory(&error) => Opened::Memory,
            Err(_) => {
                self.faults = self.faults.saturating_add(1);
                Opened::Failed
            }
        }
    }

    fn total(&self) -> u16 {
        self.total
    }

    fn poll(&mut self, waiting: &[u16]) -> Polled {
        match self.origin.look(waiting, self.accepted, self.total) {
            Ok(Some(conn)) => Polled::Ready(conn),
            Ok(None) => {
                if !waiting.is_empty() {
                    self.waits = self.waits.saturating_add(1);
                }
                Polled::Quiet
            }
            Err(_) => {
                self.faults = self.faults.saturating_add(1);
                Polled::Failed
            }
        }
    }

    fn accept(&mut self) -> Accepted<TcpLink> {
        match self.origin.next(self.accepted, self.total) {
            Came::Link(link) => {
                self.accepted += 1;
                Accepted::Link(link)
            }
            Came::NotYet => {
                self.waits = self.waits.saturating_add(1);
                Accepted::NotYet
            }
            Came::Failed => {
                self.faults = self.faults.saturating_add(1);
                Accepted::Failed
            }
        }
    }
}
