//! The chat over TCP.
ghost use Rattle.std.specs.Prelude.{◌≤◌};

use crate::words::Words;
use example_chat_room::{End, Part, run_chat};
use mely_event::Memory;
use std::alloc::AllocError;
use std::io::{self, ErrorKind};
use std::net::{IpAddr, Ipv4Addr, SocketAddr, TcpListener};
use std::sync::Wait;
use std::thread::Threads;
use sws_link::{Opened, World};
use sws_net::{Door, Entrance, LaneWorld, TcpLink};

/// Why there was no chat.
pub enum Fault {
    /// Nobody can listen at the port.
    Listen(io::Error),

    /// The network failed, or standard output.
    Network,

    /// There was no memory.
    Memory,
}

impl From<AllocError> for Fault {
    fn from(_error: AllocError) -> Fault {
        Fault::Memory
    }
}

impl From<Memory> for Fault {
    fn from(_error: Memory) -> Fault {
        Fault::Memory
    }
}

/// What an error of listening comes to.
fn listen_fault(error: io::Error) -> Fault {
    if error.kind() == ErrorKind::OutOfMemory {
        Fault::Memory
    } else {
        Fault::Listen(error)
    }
}

/// Listens on this machine's own address, and says where.
fn listen(rt: &HostRuntime, port: u16) -> io::Result<TcpListener> {
    let address = SocketAddr::new(IpAddr::V4(Ipv4Addr::new(127, 0, 0, 1)), port);
    let listener = TcpListener::bind(rt, address)?;
    listener.set_nonblocking(true)?;
    println!(rt; "listening on {}", listener.local_addr()?)?;
    Ok(listener)
}

/// Serves a chat, until all its clients have left, and says how each of them did. Threads are of
/// the second handle, which is the same runtime: only where a program begins does it have threads
/// to give.
///
/// # Errors
///
/// As of [`Fault`].
pub fn serve<R: Threads + Wait + Sync>(
    rt: &HostRuntime,
    threads: &R,
    words: &Words,
) -> Result<(), Fault>
    requires clients { words.now.clients ≤ 1024 }
    requires some { 1 ≤ words.now.workers }
    requires workers { words.now.workers ≤ 64 }
{
    let listeners = [listen(rt, words.port).map_err(listen_fault)?];
    let door = Door::new(rt.alloc(), 1, 1)?;
    door.try_enter(0);
    let entrance = Entrance {
        door: &door,
        listeners: &listeners,
        stop: None,
        age: u64::MAX,
        grace: u64::MAX,
    };
    let mut world = LaneWorld::new(rt, entrance, 0)?;
    match world.open(words.port, words.clients) {
        Opened::Ready => {}
        Opened::Failed => return Err(Fault::Network),
        Opened::Memory => return Err(Fault::Memory),
    }
    let Ok(ended) = run_chat(threads, rt.alloc(), words.workers, world) else {
        return Err(Fault::Memory);
    };
    tell(rt, &ended.values)
}

/// Says how each client did.
fn tell(rt: &HostRuntime, parts: &[Part<LaneWorld<'_>, TcpLink>]) -> Result<(), Fault> {
    let mut is_broken = false;
    for (colour, part) in parts.iter().enumerate() {
        match part {
            Part::Desk(desk) => is_broken = desk.is_broken(),
            Part::Room(room) => {
                if println!(rt; "the room had {} lines", room.lines()).is_err() {
                    return Err(Fault::Network);
                }
            }
            Part::Client(client) => tell_client(rt, colour.saturating_sub(1), client.end())?,
        }
    }
    if is_broken {
        Err(Fault::Network)
    } else {
        Ok(())
    }
}

/// Says how a client did: of who was dropped, and why, on standard error.
fn tell_client(rt: &HostRuntime, number: usize, end: Option<End>) -> Result<(), Fault> {
    let told = match end {
        Some(End::Left) => println!(rt; "client {number} left"),
        Some(end) => eprintln!(rt; "client {number} {end}"),
        None => eprintln!(rt; "client {number} never came"),
    };
    told.map_err(|_| Fault::Network)
}
