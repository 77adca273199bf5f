//! One of several worlds over listeners that all of them share.
ghost use Rattle.std.specs.Prelude.{None, false, IfOk, IfSome, Contains};
ghost use Rattle.sws_link.specs.Counts.{kept_count};
ghost use Rattle.sws_net.specs.Initial.{IsInitialIfCame};

use crate::counted::{Counted, Origin};
use crate::door::Door;
use crate::errors::has_no_room;
use crate::guests::Guests;
use crate::listener::end_listening;
use crate::server::{Came, Server, time_of};
use crate::stop_file::StopFile;
use crate::tcp_link::TcpLink;
use mio::net;
use std::alloc::AllocError;
use std::io;
use std::net::{IpAddr, TcpListener};
use std::sync::Arc;
use sws_link::{Accepted, Opened, Polled, World};

/// In how many milliseconds it is looked again at the latest whether the world is to leave, and
/// whether connections are to be cut.
const TICK: u64 = 250;

/// How many bytes a second a connection has to move on average, so that it isn't cut after the
/// grace.
const LEAST_PACE: u64 = 240;

/// For how many milliseconds nobody may be there to take connections, before those that stand still
/// are cut within their grace.
const UNMANNED: u64 = 1000;

/// For how many milliseconds such a connection hasn't got on.
const STANDSTILL: u64 = 5000;

/// For how many milliseconds a connection that has brought nothing yet is left alone by a world that
/// takes no further one.
const UNUSED: u64 = 5000;

/// What lanes share, and for how long one takes connections.
#[derive(Clone, Copy, Drop)]
pub struct Entrance<'d> {
    pub door: &'d Door,

    /// What connections come from, at most [`LISTENERS`](crate::LISTENERS). They don't block. Once the
    /// door is closed, they are ended.
    pub listeners: &'d [TcpListener],

    /// The file that tells all to stop, where there is one.
    pub stop: Option<&'d StopFile>,

    /// After how many milliseconds a world takes no further connection.
    pub age: u64,

    /// How many milliseconds later those that are still there are cut, but for those that get on.
    pub grace: u64,
}

/// Gives the connections to listeners that others take connections from too, as links, of one
/// listener and another in turn; of what they bring nothing is known.
///
/// Whoever opens it has entered the door as its lane. The world leaves once it has given as many
/// links as it was opened for, at the age of its [`Entrance`], and where the door is closed or
/// renewed, or the stop file is there. From then on it gives no further link: others take those
/// connections. Where it was opened for more, it waits until those that it gave are gone, and then
/// says that it failed, so that a run over it ends.
///
/// A world of requests ([`LaneWorld::of_requests`]) ends what waits between two of them once it has
/// left: a connection that has moved nothing for a quarter of a second comes to its end as if its
/// client had ended it, and one that has brought nothing yet after five seconds. Half the grace later
/// those end too that wait so for a moment alone, as of a client that asks again and again. Such a
/// world may also count the connections of each address, and closes those as they come that are too
/// many.
///
/// After the grace it cuts those that are still there, but for those in which 240 bytes a second
/// have moved over the last time of the grace's length. These may go on as long as the door lets
/// them ([`Door::may_last`]), and as long as a lane is there to take connections. Where for a second
/// none is, it cuts within the grace already those in which no such number of bytes has moved for
/// five seconds.
///
/// It counts this, the errors of the machine, and how often it had nobody to name, though somebody
/// waited, or nothing to give. It waits as [`TcpWorld`](crate::TcpWorld) does, but for a quarter of
/// a second at most, and sees out the connections that have ended.
///
/// It may be opened again and again. The connections of the time before that are still on their way
/// are then seen out beside the new ones.
#[derive(Drop)]
pub struct LaneWorld<'d> {
    state: Box<Counted<Behind<'d>>>,
}

/// How long a world has been behind the door, and what it does there.
#[derive(Drop)]
struct Stay<'d> {
    rt: &'d HostRuntime,
    entrance: Entrance<'d>,
    lane: usize,

    /// When the world was opened, and when it left, in milliseconds.
    opened: u64,
    left: Option<u64>,

    /// When it was last looked which connections are to be cut, and since when nobody was seen to
    /// take connections.
    watched: u64,
    unmanned: Option<u64>,

    /// How many of the listeners were ended.
    ended: usize,

    /// Whether connections bring requests, so that they may end between two of them.
    has_requests: bool,

    /// Who counts the connections of each address, where somebody does.
    guests: Option<&'d Arc<Guests>>,

    /// Whose connections begin with a header of the PROXY protocol.
    proxies: &'d [IpAddr],
}

/// What is behind the door of a lane.
struct Behind<'d> {
    stay: Stay<'d>,
    server: Option<Server>,
}

impl<'d> Drop for Behind<'d> {
    fn drop(self) {
        let Behind { stay, server } = self;
        // What follows may take its time, in which others are to take connections.
        stay.entrance.door.leave(stay.lane);
        if let Some(server) = server {
            see_out(stay.rt, server);
        }
    }
}

/// Sees out the connections of a server that are still on their way.
fn see_out(rt: &HostRuntime, mut server: Server) {
    server.see_out(rt);
}

/// A server over these listeners, and the time.
fn begin(rt: &HostRuntime, listeners: &[TcpListener], total: u16) -> io::Result<(Server, u64)> {
    let now = time_of(rt)?;
    let mut server = Server::without_listener(rt, total, true)?;
    for listener in listeners {
        server.listen_at(net::TcpListener::from_std(listener.try_clone()?))?;
    }
    Ok((server, now))
}

impl<'d> Stay<'d> {
    /// Begins a time behind the door.
    fn begin(&mut self, now: u64) {
        self.opened = now;
        self.left = None;
        self.unmanned = None;
    }

    /// Takes no further connection.
    fn leave(&mut self, server: &mut Server) {
        if self.left.is_none() {
            server.stop_listening();
            server.begin_to_watch();
            self.left = Some(server.now());
            self.watched = server.now();
            self.entrance.door.leave(self.lane);
        }
    }

    /// Whether the world is to take no further connection.
    fn is_over(&mut self, server: &Server) -> bool {
        let now = server.now();
        if let Some(stop) = self.entrance.stop {
            stop.look(self.rt, self.entrance.door, now);
        }
        self.end_listening();
        self.entrance.door.is_to_leave(self.lane)
            || now.saturating_sub(self.opened) >= self.entrance.age
    }

    /// Ends the listeners where the door is closed. Where the machine has no room for that, it is
    /// tried again.
    fn end_listening(&mut self) {
        let listeners = self.entrance.listeners;
        if self.ended >= listeners.len() || !self.entrance.door.is_closed() {
            return;
        }
        for listener in &listeners[self.ended..] {
            match end_listening(listener) {
                Err(error) if has_no_room(&error) => return,
                _ => self.ended = self.ended.saturating_add(1),
            }
        }
    }

    /// How long the machine may be waited for: not at all where nobody is left.
    fn patience(&self, server: &Server) -> u64 {
        if self.left.is_some() && server.there() == 0 {
            return 0;
        }
        TICK
    }

    /// Whether for a while nobody was there to take connections, though somebody should be.
    fn is_unmanned(&mut self, now: u64) -> bool {
        let door = self.entrance.door;
        if door.is_closed() || !door.is_unmanned() {
            self.unmanned = None;
            return false;
        }
        match self.unmanned {
            Some(since) => now.saturating_sub(since) >= UNMANNED,
            None => {
                self.unmanned = Some(now);
                false
            }
        }
    }

    /// Cuts those connections of a world that left then which are to be cut now.
    fn cut_some(&mut self, server: &mut Server, left: u64) {
        let now = server.now();
        if now.saturating_sub(self.watched) < TICK {
            return;
        }
        self.watched = now;
        let grace = self.entrance.grace;
        let step = (grace / 1000).saturating_mul(LEAST_PACE).max(1);
        server.watch(step);
        if self.has_requests {
            server.retire(now.saturating_sub(left) >= grace / 2, UNUSED);
        }
        let is_unmanned = self.is_unmanned(now);
        if now.saturating_sub(left) < grace {
            if is_unmanned {
                server.cut(STANDSTILL);
            }
        } else if server.cut(grace) > 0 && !self.may_last(is_unmanned) {
            server.cut(0);
        }
    }

    /// Whether connections that get on may go on beyond the grace.
    fn may_last(&self, is_unmanned: bool) -> bool {
        let door = self.entrance.door;
        door.may_last(self.lane) && !(is_unmanned && door.asked_first(self.lane))
    }

    /// Which of those that wait may be ready, as far as the world stays.
    fn look(
        &mut self,
        server: &mut Server,
        waiting: &[u16],
        is_last: bool,
    ) -> io::Result<Option<u16>>
        ensures { IfOk result (λ named. IfSome named (λ conn. Contains waiting.now conn)) }
    {
        if self.is_over(server) || is_last {
            self.leave(server);
        }
        if let Some(left) = self.left {
            self.cut_some(server, left);
        }
        let most = self.patience(server);
        server.look(self.rt, waiting, self.left.is_some(), most)
    }

    /// The next connection, as the link of this number, of so many in all.
    fn next(&mut self, server: &mut Server, number: u16, total: u16) -> Came
        ensures { IsInitialIfCame result }
    {
        if self.left.is_none() && self.is_over(server) {
            self.leave(server);
        }
        if self.left.is_some() {
            if server.there() == 0 {
                return Came::Failed;
            }
            return Came::NotYet;
        }
        match server.next(number, self.guests, self.proxies) {
            Came::Link(link) => {
                if number.saturating_add(1) >= total {
                    self.leave(server);
                }
                Came::Link(link)
            }
            // The listeners were ended just now.
            Came::Failed if self.entrance.door.is_closed() => Came::NotYet,
            came => came,
        }
    }
}

impl<'d> LaneWorld<'d> {
    /// A world of this lane that was not opened yet.
    pub fn new(
        rt: &'d HostRuntime,
        entrance: Entrance<'d>,
        lane: usize,
    ) -> Result<LaneWorld<'d>, AllocError> {
        LaneWorld::behind(rt, entrance, lane, false, None, &[])
    }

    /// The same, of connections that bring requests, each of which ends with an empty line and is
    /// answered. Where the connections of an address are counted, this says of how many; those from
    /// these proxies begin with a header of the PROXY protocol, and count as their clients'.
    pub fn of_requests(
        rt: &'d HostRuntime,
        entrance: Entrance<'d>,
        lane: usize,
        guests: Option<&'d Arc<Guests>>,
        proxies: &'d [IpAddr],
    ) -> Result<LaneWorld<'d>, AllocError> {
        LaneWorld::behind(rt, entrance, lane, true, guests, proxies)
    }

    /// A world of this lane.
    fn behind(
        rt: &'d HostRuntime,
        entrance: Entrance<'d>,
        lane: usize,
        has_requests: bool,
        guests: Option<&'d Arc<Guests>>,
        proxies: &'d [IpAddr],
    ) -> Result<LaneWorld<'d>, AllocError> {
        let behind = Behind {
            stay: Stay {
                rt,
                entrance,
                lane,
                opened: 0,
                left: None,
                watched: 0,
                unmanned: None,
                ended: 0,
                has_requests,
                guests,
                proxies,
            },
            server: None,
        };
        Ok(LaneWorld {
            state: Box::new(rt.alloc(), Counted::new(behind))?,
        })
    }
}

impl<'d> Origin for Behind<'d> {
    fn begin(&mut self, _port: u16, total: u16) -> io::Result<()> {
        let (mut server, now) = begin(self.stay.rt, self.stay.entrance.listeners, total)?;
        if let Some(before) = &mut self.server {
            server.take_over(self.stay.rt, before);
        }
        self.server = Some(server);
        self.stay.begin(now);
        Ok(())
    }

    fn look(&mut self, waiting: &[u16], accepted: u16, total: u16) -> io::Result<Option<u16>> {
        match &mut self.server {
            None => Ok(None),
            Some(server) => self.stay.look(server, waiting, accepted >= total),
        }
    }

    fn next(&mut self, number: u16, total: u16) -> Came {
        match &mut self.server {
            None => Came::NotYet,
            Some(server) => self.stay.next(server, number, total),
        }
    }
}

impl<'d> World for LaneWorld<'d> {
    type Link = TcpLink;

    ghost tells = { λ world. record {
      coming = None;
      total = world.state.value.total;
      accepted = world.state.value.accepted;
      port = world.state.value.port;
      scripted = false;
    } };

    ghost faults = { λ world. kept_count world.state.value.faults };

    ghost waits = { λ world. kept_count world.state.value.waits };

    fn open(&mut self, port: u16, total: u16) -> Opened {
        self.state.open(port, total)
    }

    fn total(&self) -> u16 {
        self.state.total()
    }

    fn poll(&mut self, waiting: &[u16]) -> Polled {
        self.state.poll(waiting)
    }

    fn accept(&mut self) -> Accepted<TcpLink> {
        self.state.accept()
    }
}
