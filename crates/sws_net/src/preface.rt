//! Connections of proxies, which say first whose they are.

use crate::errors::is_not_yet;
use crate::guests::{Guest, Guests, number_of};
use crate::lobby::Presence;
use mio::net::TcpStream;
use std::alloc::{AllocError, Global};
use std::hint;
use std::io::{self, Read};
use std::net::IpAddr;
use std::sync::{Arc, Mutex};
use sws_proxy::{LONGEST, Proxied, read_header};

/// How often an address is asked for that is just noted.
const TRIES: u32 = 10_000_000;

/// The address that a proxy has named, once it has.
#[derive(Drop)]
struct Name {
    address: Mutex<Option<IpAddr>>,
}

/// Who is at the other end of a connection: whom its proxy has named, and else whoever connected.
#[derive(Drop)]
pub struct Client {
    peer: Option<IpAddr>,
    name: Option<Arc<Name>>,
}

/// How it stands with a header.
pub enum Met {
    /// It was read, and nothing behind it.
    Over,

    /// Nothing has come yet.
    Nothing,

    /// It has come in part.
    Begun,

    /// The peer has ended before it was whole, or its client isn't let in.
    Ended,

    /// It is none, or the machine has failed.
    Failed,
}

/// A header of the PROXY protocol that is to come first on a connection.
#[derive(Drop)]
pub struct Preface {
    /// The address that connected, and where the one that it names is noted.
    from: IpAddr,
    name: Arc<Name>,

    /// Who counts the connections of the client, where they are counted, and that this one was let in.
    guests: Option<Arc<Guests>>,
    guest: Option<Guest>,
    is_over: bool,
}

/// Whether connections from this address begin with a header.
pub fn is_proxy(proxies: &[IpAddr], address: IpAddr) -> bool {
    let number = number_of(address);
    for proxy in proxies {
        if number_of(*proxy) == number {
            return true;
        }
    }
    false
}

/// Reads a header, where it has come whole, and nothing behind it. Nothing at all is none where the
/// peer has ended.
fn header_at(stream: &TcpStream) -> io::Result<Option<Proxied>> {
    let mut room = [0; LONGEST];
    let count = stream.peek(&mut room)?;
    if count == 0 {
        return Ok(None);
    }
    let told = read_header(&room[..count]);
    if let Proxied::Whole(_, length) = told {
        let Some(header) = room.get_mut(..length) else {
            return Ok(Some(Proxied::Bad));
        };
        let taken = (&mut &*stream).read(header)?;
        if taken < length {
            return Ok(Some(Proxied::Bad));
        }
    }
    Ok(Some(told))
}

impl Name {
    /// The address, where one was noted.
    fn get(&self) -> Option<IpAddr> {
        for _ in 0..TRIES {
            if let Some(address) = self.address.try_lock() {
                return *address;
            }
            hint::spin_loop();
        }
        None
    }

    /// Notes the address.
    fn set(&self, named: IpAddr) {
        for _ in 0..TRIES {
            if let Some(mut address) = self.address.try_lock() {
                *address = Some(named);
                return;
            }
            hint::spin_loop();
        }
    }
}

impl Client {
    /// Its address, where it is known: of a proxy's connection its own until the header was read.
    pub fn address(&self) -> Option<IpAddr> {
        let named = match &self.name {
            Some(name) => name.get(),
            None => None,
        };
        match named {
            Some(address) => Some(address),
            None => self.peer,
        }
    }

    /// Of a connection from this address, which begins with a header or doesn't.
    pub(crate) fn of(peer: Option<IpAddr>, preface: &Option<Preface>) -> Client {
        let name = match preface {
            Some(preface) => Arc::try_clone(&preface.name).ok(),
            None => None,
        };
        Client { peer, name }
    }
}

impl Preface {
    /// Of a connection from this address. Where connections are counted, its client's is counted by
    /// these.
    pub fn new(
        alloc: Global,
        from: IpAddr,
        guests: Option<&Arc<Guests>>,
    ) -> Result<Preface, AllocError> {
        let name = Arc::new(
            alloc,
            Name {
                address: Mutex::new(None),
            },
        )?;
        let guests = match guests {
            Some(guests) => Some(Arc::try_clone(guests)?),
            None => None,
        };
        Ok(Preface {
            from,
            name,
            guests,
            guest: None,
            is_over: false,
        })
    }

    /// Goes on to read the header, where that isn't over yet.
    pub fn go_on(&mut self, stream: &TcpStream, presence: &Presence) -> Met {
        if self.is_over {
            return Met::Over;
        }
        match header_at(stream) {
            Ok(Some(Proxied::Whole(named, _))) => self.end(named),
            Ok(Some(Proxied::More)) if presence.has_hung_up() => Met::Ended,
            Ok(Some(Proxied::More)) => Met::Begun,
            Ok(Some(Proxied::Bad)) => Met::Failed,
            Ok(None) => Met::Ended,
            Err(error) if is_not_yet(&error) => Met::Nothing,
            Err(_) => Met::Failed,
        }
    }

    /// The header was read, and names this address, or none.
    fn end(&mut self, named: Option<IpAddr>) -> Met {
        self.is_over = true;
        if let Some(address) = named {
            self.name.set(address);
        }
        let Some(guests) = &self.guests else {
            return Met::Over;
        };
        self.guest = Guest::of(guests, named.unwrap_or(self.from));
        if self.guest.is_none() {
            return Met::Ended;
        }
        Met::Over
    }
}
