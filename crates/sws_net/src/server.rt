//! The sockets that listen, and all that waits.
ghost use Rattle.std.specs.Prelude.{IfOk, IfSome, Contains};
ghost use Rattle.sws_net.specs.Initial.{IsInitialTcpLink, IsInitialIfCame};

use crate::departures::Departures;
use crate::errors::{has_no_room, is_of_one_connection};
use crate::guests::{Guest, Guests};
use crate::listeners::Listeners;
use crate::lobby::{Lobby, Way};
use crate::places::{LISTENERS, register};
use crate::preface::{Preface, is_proxy};
use crate::progress::Progress;
use crate::signs::Signs;
use crate::tcp_link::TcpLink;
use mio::net::{TcpListener, TcpStream};
use mio::{Events, Poll, Token};
use std::alloc::Global;
use std::io::{self, ErrorKind};
use std::net::{IpAddr, Ipv4Addr, SocketAddr};
use std::sync::Arc;
use std::time::{Clock, Duration};

/// How many milliseconds go by at least between two looks for links that have shown nothing, where
/// others do.
const TICK: u64 = 250;

/// How many looks in succession don't ask the machine at most, while a link that is there is busy:
/// what it does then is often the next that there is to see, and each question costs a call.
const PASSED: u32 = 7;

/// How many events one wait brings at most.
const EVENTS: usize = 256;

/// How often the machine is waited for at most once no link is there any more.
const LAST_WAITS: u32 = 100_000;

/// What became of a call that was to give a connection.
pub enum Came {
    /// A connection came, and this is its link.
    Link(TcpLink),

    /// None came for now: a later call may give one.
    NotYet,

    /// The machine failed, and not over one connection alone.
    Failed,
}

/// The listeners, the links' signs of life, and what waits for both.
///
/// All sockets are registered once, for both directions and edge-triggered, so no event costs a
/// further call of the system.
#[derive(Drop)]
pub struct Server {
    alloc: Global,
    poll: Poll,
    /// What connections come from; none once no further one is to come.
    listeners: Listeners,
    events: Events,
    lobby: Lobby,
    signs: Signs,
    progress: Progress,
    departures: Departures,

    /// For how many links there is room; the connections of an earlier server have the numbers
    /// behind theirs.
    total: u16,

    /// Whether its links hold answers.
    holds: bool,

    /// How many connections were taken from the lobby's exit.
    taken: u64,

    /// Whether the machine had no room for a connection, which is still waiting.
    is_to_retry: bool,

    /// How many looks in succession haven't asked the machine.
    passed: u32,

    /// The time of the last wait, in milliseconds.
    now: u64,

    /// When it was last looked which links have shown nothing for long.
    swept: u64,

    /// Whether links were cut, or told to end.
    has_cut: bool,
}

/// The time in milliseconds.
pub fn time_of(clock: &impl Clock) -> io::Result<u64> {
    let time = clock.monotonic()?;
    Ok(u64::try_from(time.as_millis()).unwrap_or(u64::MAX))
}

impl Server {
    /// Listens at the port, on all of the machine's addresses, for so many links, which hold no
    /// answers.
    pub fn new(rt: &HostRuntime, port: u16, total: u16) -> io::Result<Server> {
        let address = SocketAddr::new(IpAddr::V4(Ipv4Addr::new(0, 0, 0, 0)), port);
        let mut server = Server::without_listener(rt, total, false)?;
        server.listen_at(TcpListener::bind(rt, address)?)?;
        Ok(server)
    }

    /// Of so many connections, which come from listeners that are still to be named. Their links hold
    /// answers or don't.
    pub fn without_listener(rt: &HostRuntime, total: u16, holds: bool) -> io::Result<Server> {
        let alloc = rt.alloc();
        let now = time_of(rt)?;
        let events = Events::with_capacity(alloc, EVENTS)?;
        let lobby = Lobby::new(alloc, total)?;
        let signs = Signs::new(alloc, total, now)?;
        let progress = Progress::new(alloc, total)?;
        let poll = Poll::new(rt)?;
        Ok(Server {
            alloc,
            poll,
            listeners: Listeners::new(alloc),
            events,
            lobby,
            signs,
            progress,
            departures: Departures::new(alloc),
            total,
            holds,
            taken: 0,
            is_to_retry: false,
            passed: 0,
            now,
            swept: now,
            has_cut: false,
        })
    }

    /// Takes connections from this listener too, which doesn't block and may have owners beside this
    /// one.
    pub fn listen_at(&mut self, listener: TcpListener) -> io::Result<()> {
        self.listeners.add(self.poll.registry(), listener)
    }

    /// Lets the listeners go: no further connection comes. Their other owners keep them.
    pub fn stop_listening(&mut self) {
        self.listeners.let_go(self.poll.registry());
        self.is_to_retry = false;
    }

    /// Takes over the connections of an earlier server that are still on their way.
    pub fn take_over(&mut self, rt: &HostRuntime, before: &mut Server) {
        let _ = before.take_departures(rt);
        let first = self.total as usize;
        self.departures
            .take_over(&mut before.departures, self.poll.registry(), first);
    }

    /// What the links have moved so far doesn't count as getting on.
    pub fn begin_to_watch(&mut self) {
        self.progress.begin(&self.lobby, self.now);
    }

    /// Notes which links have moved so many bytes since they were last seen to get on.
    pub fn watch(&mut self, step: u64) {
        self.progress.look(&self.lobby, self.now, step);
    }

    /// Tells links to end that wait between two requests ([`Progress::retire`]): nothing more is
    /// read of them than has come.
    pub fn retire(&mut self, is_late: bool, longest: u64) {
        self.has_cut = true;
        self.progress
            .retire(&self.lobby, self.now, is_late, longest);
    }

    /// Cuts the links that weren't seen to get on for so many milliseconds, all of them for none:
    /// their calls fail from now on. Answers how many others are there.
    pub fn cut(&mut self, longest: u64) -> u32 {
        self.has_cut = true;
        self.progress.cut_idle(&self.lobby, self.now, longest)
    }

    /// How many links are there. One that couldn't be set up isn't.
    pub fn there(&self) -> u64 {
        self.lobby.there()
    }

    /// The time of the last wait, in milliseconds.
    pub fn now(&self) -> u64 {
        self.now
    }

    /// Which of those that wait may be ready, as one is that is to end now. Where none
    /// showed it, the machine is asked: where each link that is there waits, and no connection may
    /// be waiting to be accepted, for one to be due, at most for `most` milliseconds; and else
    /// without waiting, at each eighth look.
    pub fn look(
        &mut self,
        rt: &HostRuntime,
        waiting: &[u16],
        is_last: bool,
        most: u64,
    ) -> io::Result<Option<u16>>
        ensures { IfOk result (λ named. IfSome named (λ conn. Contains waiting.now conn)) }
    {
        if let Some(conn) = self.first_to_end(waiting) {
            return Ok(Some(conn));
        }
        if let Some(conn) = self.signs.take_ready(&self.lobby, waiting, self.now) {
            return Ok(Some(conn));
        }
        if !is_last && self.listeners.may_accept() {
            return Ok(None);
        }
        let all_wait = waiting.len() as u64 >= self.there();
        if !all_wait && self.passed < PASSED {
            self.passed += 1;
            return Ok(None);
        }
        self.passed = 0;
        self.wait(rt, waiting, all_wait, most)?;
        Ok(self.signs.take_ready(&self.lobby, waiting, self.now))
    }

    /// The first of those that wait which is to end now.
    fn first_to_end(&self, waiting: &[u16]) -> Option<u16>
        ensures { IfSome result (λ conn. Contains waiting.now conn) }
    {
        if !self.has_cut {
            return None;
        }
        for conn in waiting {
            if self.lobby.is_to_end(*conn as usize) {
                return Some(*conn);
            }
        }
        None
    }

    /// Asks the machine what has happened, and waits for it where all wait, for at most so long.
    fn wait(
        &mut self,
        rt: &HostRuntime,
        waiting: &[u16],
        all_wait: bool,
        most: u64,
    ) -> io::Result<()> {
        self.take_departures(rt)?;
        let patience = if all_wait { self.patience(waiting) } else { 0 };
        let patience = patience.min(most);
        let is_nothing = self.poll(rt, patience)?;
        if is_nothing && all_wait || self.now.saturating_sub(self.swept) >= TICK {
            self.swept = self.now;
            self.signs.sweep(&self.lobby, waiting, self.now);
        }
        if self.is_to_retry {
            self.is_to_retry = false;
            self.listeners.note_all(true);
        }
        Ok(())
    }

    /// For how many milliseconds the machine may be waited for.
    fn patience(&mut self, waiting: &[u16]) -> u64 {
        let until = self.signs.until_due(waiting, self.now);
        let until = until.min(self.departures.until_due(self.now));
        if self.is_to_retry {
            until.min(TICK)
        } else {
            until
        }
    }

    /// Waits for the machine for so long, notes what has happened, and answers whether that was
    /// nothing.
    fn poll(&mut self, rt: &HostRuntime, patience: u64) -> io::Result<bool> {
        self.poll
            .poll(&mut self.events, Some(Duration::from_millis(patience)))?;
        self.now = time_of(rt)?;
        let is_nothing = self.note();
        self.departures.look(self.now);
        Ok(is_nothing)
    }

    /// Takes over the connections that links have ended.
    fn take_departures(&mut self, rt: &HostRuntime) -> io::Result<()> {
        if self.lobby.left() == self.taken {
            return Ok(());
        }
        self.now = time_of(rt)?;
        for leaving in self.lobby.take_left() {
            self.taken = self.taken.saturating_add(1);
            self.departures.take(leaving, self.now);
        }
        Ok(())
    }

    /// Sees out the connections that links have ended, as far as the machine does its part.
    pub fn see_out(&mut self, rt: &HostRuntime) {
        for _ in 0..LAST_WAITS {
            if self.take_departures(rt).is_err() || self.departures.is_empty() {
                return;
            }
            let patience = self.departures.until_due(self.now);
            if self.poll(rt, patience).is_err() {
                return;
            }
        }
    }

    /// Notes what the last wait brought, and answers whether that was nothing.
    fn note(&mut self) -> bool {
        let mut is_nothing = true;
        for event in &self.events {
            is_nothing = false;
            let Token(place) = event.token();
            if place < LISTENERS {
                self.listeners.note(place);
            } else {
                let link = place - LISTENERS;
                let is_broken = event.is_error();
                if event.is_readable() || event.is_read_closed() || is_broken {
                    self.signs.note(link, Way::Reading);
                }
                if event.is_writable() || event.is_write_closed() || is_broken {
                    self.signs.note(link, Way::Writing);
                }
                if event.is_read_closed() || is_broken {
                    self.lobby.hang_up(link);
                }
                self.departures.note(link, self.now);
            }
        }
        is_nothing
    }

    /// The next connection, as the link of this number. One that can't be set up is
    /// closed and isn't counted, and so is one that isn't let in. Those of proxies begin with a header,
    /// and their clients are let in by that.
    pub fn next(&mut self, number: u16, guests: Option<&Arc<Guests>>, proxies: &[IpAddr]) -> Came
        ensures { IsInitialIfCame result }
    {
        match self.listeners.accept() {
            None => Came::NotYet,
            Some(Ok((stream, from))) if is_proxy(proxies, from.ip()) => {
                match Preface::new(self.alloc, from.ip(), guests) {
                    Ok(preface) => self.admit(stream, number, None, Some(preface)),
                    Err(_) => Came::NotYet,
                }
            }
            Some(Ok((stream, from))) => self.let_in(stream, from.ip(), number, guests),
            Some(Err(error)) => self.none_came(&error),
        }
    }

    /// A connection from this address, where one more of it may come in.
    fn let_in(
        &mut self,
        stream: TcpStream,
        from: IpAddr,
        number: u16,
        guests: Option<&Arc<Guests>>,
    ) -> Came
        ensures { IsInitialIfCame result }
    {
        let Some(guests) = guests else {
            return self.admit(stream, number, None, None);
        };
        match Guest::of(guests, from) {
            Some(guest) => self.admit(stream, number, Some(guest), None),
            None => Came::NotYet,
        }
    }

    /// What an error of an accept means: that none waits, that the machine has no room for one now,
    /// that the one that came is gone already, or that the machine failed.
    fn none_came(&mut self, error: &io::Error) -> Came
        ensures { IsInitialIfCame result }
    {
        if error.kind() == ErrorKind::WouldBlock {
            return Came::NotYet;
        }
        if has_no_room(error) {
            self.listeners.note_all(false);
            self.is_to_retry = true;
            return Came::NotYet;
        }
        if is_of_one_connection(error) {
            return Came::NotYet;
        }
        Came::Failed
    }

    /// A connection that was let in, where it can be set up.
    fn admit(
        &mut self,
        stream: TcpStream,
        number: u16,
        guest: Option<Guest>,
        preface: Option<Preface>,
    ) -> Came
        ensures { IsInitialIfCame result }
    {
        match self.link_of(stream, number, guest, preface) {
            Ok(link) => Came::Link(link),
            Err(_) => Came::NotYet,
        }
    }

    /// A connection that was accepted, as a link of this number.
    fn link_of(
        &mut self,
        mut stream: TcpStream,
        number: u16,
        guest: Option<Guest>,
        preface: Option<Preface>,
    ) -> io::Result<TcpLink>
        ensures { IfOk result (λ link. IsInitialTcpLink link) }
    {
        stream.set_nodelay(true)?;
        let presence = self.lobby.enter(number, guest)?;
        register(self.poll.registry(), &mut stream, number as usize)?;
        self.signs.begin(number as usize, self.now);
        TcpLink::new(self.alloc, stream, presence, preface, self.holds)
    }
}
