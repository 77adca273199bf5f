//! A connection over TCP.
ghost use Rattle.std.specs.Prelude.{None, not, is_some, IfOk};
ghost use Rattle.sws_link.specs.Counts.{kept_count};
ghost use Rattle.sws_net.specs.Initial.{IsInitialTcpLink};

use crate::kept_link::KeptLink;
use crate::lobby::Presence;
use crate::preface::{Client, Preface};
use crate::tcp_socket::TcpSocket;
use mio::net::TcpStream;
use std::alloc::Global;
use std::io;
use sws_link::{Link, LinkRead, LinkWrite};

/// A link over a socket of the machine, of whose bytes nothing is known; it counts the machine's
/// errors, but for those of its shutting.
///
/// It is a [`KeptLink`], of which more is proved where the socket tells what it carries. It lies in
/// a box, since a link moves with its connection from event to event.
#[derive(Drop)]
pub struct TcpLink {
    kept: Box<KeptLink<TcpSocket>>,
}

impl TcpLink {
    /// A link over a socket that doesn't block, which holds answers or doesn't, and begins with a header
    /// or doesn't.
    pub(crate) fn new(
        alloc: Global,
        stream: TcpStream,
        presence: Presence,
        preface: Option<Preface>,
        holds: bool,
    ) -> io::Result<TcpLink>
        ensures { IfOk result (λ link. IsInitialTcpLink link) }
    {
        let link = KeptLink::new(alloc, TcpSocket::new(stream, presence, preface), holds);
        Ok(TcpLink {
            kept: Box::new(alloc, link)?,
        })
    }

    /// Who is at the other end, unless the link was shut.
    pub fn client(&self) -> Client {
        self.kept.socket().client()
    }

    /// The number of the link among those that its world has given since it was opened, from 0,
    /// unless it was shut.
    pub fn number(&self) -> Option<u16> {
        self.kept.socket().number()
    }
}

impl Link for TcpLink {
    ghost tells = { λ _. None };

    ghost faults = { λ link. kept_count link.kept.value.faults };

    ghost is_shut = { λ link. not (is_some link.kept.value.socket.open) };

    ghost waits = { λ link. kept_count link.kept.value.waits };

    ghost since = { λ _ _ _. Unit {0} };

    fn read(&mut self, into: &mut [u8]) -> LinkRead {
        self.kept.read(into)
    }

    fn write(&mut self, bytes: &[u8]) -> LinkWrite {
        self.kept.write(bytes)
    }

    fn shut(&mut self) {
        self.kept.shut();
    }
}
