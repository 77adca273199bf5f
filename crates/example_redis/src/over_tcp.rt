//! The store over TCP.
ghost use Rattle.example_redis.specs.Words.{IsInRange};

use crate::keeping::{begin_store, keep, keep_rest, time_of};
use crate::outside::Outside;
use crate::reply::Reply;
use crate::request::Timed;
use crate::saved::Unsaved;
use crate::store::{Cell, Store};
use crate::words::Listening;
use mely_actor::Ended;
use mely_event::Memory;
use mely_net::{End, Part, serve_on};
use std::alloc::AllocError;
use std::io::{self, ErrorKind};
use std::net::{IpAddr, Ipv4Addr, SocketAddr, TcpListener};
use std::sync::Wait;
use std::thread::Threads;
use sws_link::{Opened, World};
use sws_net::{Door, Entrance, LaneWorld, StopFile, TcpLink};

/// Why nothing was served, or what was served isn't kept.
pub enum Fault {
    /// The file isn't a store: why.
    Unsaved(Unsaved),

    /// The file can't be read or written.
    File(io::Error),

    /// Nobody can listen at the port.
    Listen(io::Error),

    /// The network failed, or standard output.
    Network,

    /// There was no memory.
    Memory,
}

impl From<AllocError> for Fault {
    fn from(_error: AllocError) -> Fault {
        Fault::Memory
    }
}

impl From<Memory> for Fault {
    fn from(_error: Memory) -> Fault {
        Fault::Memory
    }
}

/// For how many milliseconds a connection may go on once the last one has come, or the store was
/// asked to stop. Then one is cut that moves little, and where the store was asked to stop all are.
const GRACE: u64 = 5000;

/// The lane that connections are taken by, and one that stays inside, so that those that move much
/// aren't cut unless the store was asked to stop.
const LANE: usize = 0;

const KEEPER: usize = 1;

/// How many lanes the door has, and how many of them may be inside: one more has room beyond its
/// grace.
const LANES: usize = 3;

const INSIDE: usize = 2;

/// The store behind a door, and the clock of this machine.
#[derive(Drop)]
struct Behind<'d> {
    rt: &'d HostRuntime,
    door: &'d Door,
}

impl<'d> Outside for Behind<'d> {
    fn now(&self) -> u64 {
        time_of(self.rt)
    }

    fn stop(&self) {
        self.door.close();
    }
}

/// The file that has the store stop, where there is to be one.
fn stop_file(rt: &HostRuntime, words: &Listening) -> Result<Option<StopFile>, AllocError> {
    match &words.stop {
        Some(path) => Ok(Some(StopFile::new(String::from_str(rt.alloc(), path.as_str())?))),
        None => Ok(None),
    }
}

/// What an error of listening comes to.
fn listen_fault(error: io::Error) -> Fault {
    if error.kind() == ErrorKind::OutOfMemory {
        Fault::Memory
    } else {
        Fault::Listen(error)
    }
}

/// Listens on this machine's own address, and says where.
fn listen(rt: &HostRuntime, port: u16) -> io::Result<TcpListener> {
    let address = SocketAddr::new(IpAddr::V4(Ipv4Addr::new(127, 0, 0, 1)), port);
    let listener = TcpListener::bind(rt, address)?;
    listener.set_nonblocking(true)?;
    println!(rt; "listening on {}", listener.local_addr()?)?;
    Ok(listener)
}

/// Serves so many connections to a port, until all of them have ended, and says how many failed.
/// Where the store is asked to stop, by a client or its stop file, no further connection is taken,
/// and those that are there are cut after the grace. The store begins with what its file has, where
/// there is one, and is kept there at the end. Threads are of the second handle, which is the same
/// runtime: only where a program begins does it have threads to give.
///
/// # Errors
///
/// As of [`Fault`].
pub fn serve_tcp<R: Threads + Wait + Sync>(
    rt: &HostRuntime,
    threads: &R,
    words: &Listening,
) -> Result<(), Fault>
    requires { IsInRange words.now }
{
    let cells = begin_store(rt, &words.file)?;
    let listeners = [listen(rt, words.port).map_err(listen_fault)?];
    let door = Door::new(rt.alloc(), LANES, INSIDE)?;
    door.try_enter(LANE);
    door.try_enter(KEEPER);
    let stop = stop_file(rt, words)?;
    let entrance = Entrance {
        door: &door,
        listeners: &listeners,
        stop: stop.as_ref(),
        age: u64::MAX,
        grace: GRACE,
    };
    let mut world = LaneWorld::new(rt, entrance, LANE)?;
    match world.open(words.port, words.clients) {
        Opened::Ready => {}
        Opened::Failed => return Err(Fault::Network),
        Opened::Memory => return Err(Fault::Memory),
    }
    let store = Store {
        outside: Behind { rt, door: &door },
    };
    match serve_on(threads, rt.alloc(), words.workers, store, cells, world) {
        Ok(ended) => {
            let is_told = tell(rt, &ended, door.is_closed());
            keep(rt, &words.file, ended.values)?;
            if is_told { Ok(()) } else { Err(Fault::Network) }
        }
        Err(halted) => {
            keep_rest(rt, &words.file, halted.values)?;
            Err(Fault::Memory)
        }
    }
}

/// What a run over sockets leaves.
type Left<'d> = Ended<Part<Cell, LaneWorld<'d>, TcpLink, Timed, Reply>>;

/// Says how many connections there were, and how many of them failed. Answers whether neither the
/// network failed nor standard output. A world that was asked to stop ends as one does whose
/// network failed.
fn tell(rt: &HostRuntime, ended: &Left<'_>, was_asked: bool) -> bool {
    let mut is_broken = false;
    let (mut served, mut failed): (u32, u32) = (0, 0);
    for part in ended.values.iter() {
        match part {
            Part::Desk(desk) => is_broken = desk.is_broken() && !was_asked,
            Part::Cell(_) => {}
            Part::Client(client) => match client.end() {
                Some(End::Left) | Some(End::Done) => served = served.saturating_add(1),
                Some(_) => failed = failed.saturating_add(1),
                None => {}
            },
        }
    }
    let told = println!(rt; "{served} connections were served, and {failed} failed");
    !is_broken && told.is_ok()
}
