//! The rounds: accept, poll, and the steps of the connection that is ready.
ghost use Rattle.std.specs.Prelude.{◌≡◌, false};
ghost use Rattle.sws_link.specs.Links.{IsInitialLink};

use std::alloc::Global;
use std::sync::Wait;
use sws_conn::{Conn, End, Next};
use sws_link::{Accepted, Link, Polled, World};
use sws_net::{TcpLink, TcpWorld};
use sws_site::Site;

/// How many connections ended in each way, and what they read and wrote.
#[derive(Clone, Copy)]
pub struct Counts {
    pub done: u64,
    pub idle: u64,
    pub fault: u64,
    pub read: u64,
    pub written: u64,
}

impl Counts {
    fn new() -> Counts {
        Counts {
            done: 0,
            idle: 0,
            fault: 0,
            read: 0,
            written: 0,
        }
    }

    /// A connection has ended.
    fn add(&mut self, end: Option<End>, read: u64, written: u64) {
        match end {
            Some(End::Done) => self.done = self.done.saturating_add(1),
            Some(End::Idle) => self.idle = self.idle.saturating_add(1),
            _ => self.fault = self.fault.saturating_add(1),
        }
        self.read = self.read.saturating_add(read);
        self.written = self.written.saturating_add(written);
    }

    /// How many connections have ended.
    fn ended(&self) -> u64 {
        self.done
            .saturating_add(self.idle)
            .saturating_add(self.fault)
    }
}

/// A connection over the link; nothing for want of memory.
fn begin<'s, L: Link + Drop>(alloc: Global, site: &'s Site, link: L) -> Option<Conn<'s, L>>
    requires initial { IsInitialLink (L.tells link) }
    requires not_shut { L.is_shut link ≡ false }
{
    let mut conn = Conn::new(alloc, site).ok()?;
    match conn.open(link) {
        Ok(_) => Some(conn),
        Err(_) => None,
    }
}

/// Runs a connection until it waits or has ended, and answers whether it waits.
fn run<R: Wait, L: Link + Drop>(rt: &R, conn: &mut Conn<'_, L>) -> bool {
    for _ in rt.forever() {
        match conn.step() {
            Next::Wait => return true,
            Next::Nothing => return false,
            _ => {}
        }
    }
    unreachable!()
}

/// The connections so far, and those of them that wait for their links.
#[derive(Drop)]
struct Rounds<'s> {
    conns: Vec<Conn<'s, TcpLink>>,
    waiting: Vec<u16>,
    counts: Counts,
}

impl<'s> Rounds<'s> {
    /// Runs the connection of this number until it waits or has ended; nothing for want of memory.
    fn go_on<R: Wait>(&mut self, rt: &R, number: u16) -> Option<()> {
        let conn = self.conns.get_mut(usize::from(number))?;
        if run(rt, conn) {
            return self.waiting.push(number).ok();
        }
        self.counts.add(conn.end(), conn.read(), conn.written());
        Some(())
    }

    /// The connection that was named waits no more.
    fn resume(&mut self, number: u16) {
        if let Some(place) = self.waiting.iter().position(|other| *other == number) {
            self.waiting.remove(place);
        }
    }

    /// Keeps a connection, and answers its number; nothing for want of memory.
    fn keep(&mut self, conn: Conn<'s, TcpLink>) -> Option<u16> {
        let number = u16::try_from(self.conns.len()).ok()?;
        self.conns.push(conn).ok()?;
        Some(number)
    }
}

/// Serves all connections of the world to their ends; nothing for want of memory,
/// or where the world failed.
pub fn serve<R: Wait>(
    rt: &R,
    alloc: Global,
    site: &Site,
    mut world: TcpWorld<'_>,
) -> Option<Counts> {
    let mut rounds = Rounds {
        conns: Vec::new(alloc),
        waiting: Vec::new(alloc),
        counts: Counts::new(),
    };
    for _ in rt.forever() {
        if world.has_more() {
            match world.accept() {
                Accepted::Link(link) => {
                    let number = rounds.keep(begin(alloc, site, link)?)?;
                    rounds.go_on(rt, number)?;
                }
                Accepted::NotYet => {}
                Accepted::Failed => return None,
            }
        } else if rounds.counts.ended() >= u64::from(world.total()) {
            return Some(rounds.counts);
        }
        match world.poll(rounds.waiting.as_slice()) {
            Polled::Ready(number) => {
                rounds.resume(number);
                rounds.go_on(rt, number)?;
            }
            Polled::Quiet => {}
            Polled::Failed => return None,
        }
    }
    unreachable!()
}
