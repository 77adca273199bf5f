//! Runs of a world whose links count their calls, and one of which finds no memory to write.
ghost use Rattle.std.specs.Prelude.{◌≡◌, ◌<◌, ◌+◌, false, None, length};
ghost use Rattle.mely_history.specs.Setup.{first_out_of_range};
ghost use Rattle.sws_link.specs.Counts.{kept_count, no_faults};
ghost use Rattle.sws_link.specs.Links.{Reads, Writes, Shuts};
ghost use Rattle.sws_link.specs.Worlds.{Listens, Polls, Accepts};
ghost use Rattle.sws_link.specs.MemWorlds.{mem_world_tells};
ghost use Rattle.sws_weave.specs.Begins.{IsScheduleOf};

use super::replaying::{Client, are_legal, links_of, site};
use mely_history::{Setup, Shape};
use mely_worker::Gate;
use std::process::Abort;
use std::sync::Wait;
use std::sync::atomic::{AtomicU64, Ordering};
use std::thread::Threads;
use sws_engine::{Ended, handler_table, serve_all, serve_steps};
use sws_link::{Accepted, Link, LinkRead, LinkWrite, MemLink, MemWorld, Opened, Polled, World};

/// A link in memory that counts its reads, its writes and its shut before it makes them, and whose writes
/// all answer that there is no memory where it is to refuse. It tells nothing.
#[derive(Drop)]
pub(super) struct WatchedLink<'r> {
    link: MemLink,
    calls: &'r AtomicU64,
    refuses: bool,
}

impl WatchedLink<'_> {
    /// What was written to it.
    pub(super) fn written(&self) -> &[u8] {
        self.link.written()
    }
}

impl Link for WatchedLink<'_> {
    ghost use Rattle.std.specs.Prelude.{None};
    ghost use Rattle.sws_link.specs.Counts.{kept_count};

    ghost tells = { λ l. None };

    ghost faults = { λ l. kept_count l.link.calls.failed };

    ghost is_shut = { λ l. l.link.shut };

    ghost waits = { λ l. kept_count l.link.waits };

    ghost since = { λ first fault now. Unit {0} };

    fn read(&mut self, into: &mut [u8]) -> LinkRead {
        self.calls.fetch_add(1, Ordering::SeqCst);
        self.link.read(into)
    }

    fn write(&mut self, bytes: &[u8]) -> LinkWrite {
        self.calls.fetch_add(1, Ordering::SeqCst);
        if self.refuses {
            return LinkWrite::Memory;
        }
        self.link.write(bytes)
    }

    fn shut(&mut self) {
        self.calls.fetch_add(1, Ordering::SeqCst);
        self.link.shut();
    }
}

/// A world in memory all of whose links raise one count, and whose link of this number refuses to
/// write, counted from 1. It knows no link to come.
#[derive(Drop)]
pub(super) struct Watched<'r> {
    world: MemWorld,
    calls: &'r AtomicU64,
    refuses: u16,
    pub(super) given: u16,
}

impl<'r> World for Watched<'r> {
    type Link = WatchedLink<'r>;

    ghost use Rattle.std.specs.Prelude.{None, false};
    ghost use Rattle.sws_link.specs.Counts.{kept_count, no_faults};
    ghost use Rattle.sws_link.specs.MemWorlds.{mem_world_tells};

    ghost tells = { λ w. record (mem_world_tells w.world) { coming = None; scripted = false } };

    ghost faults = { λ w. kept_count w.world.calls.failed };

    ghost waits = { λ w. no_faults };

    /// It is never opened.
    fn open(&mut self, _port: u16, _total: u16) -> Opened {
        Opened::Memory
    }

    fn total(&self) -> u16 {
        self.world.total()
    }

    fn poll(&mut self, waiting: &[u16]) -> Polled {
        self.world.poll(waiting)
    }

    fn accept(&mut self) -> Accepted<WatchedLink<'r>> {
        match self.world.accept() {
            Accepted::Link(link) => {
                self.given = self.given.wrapping_add(1);
                let refuses = self.given == self.refuses;
                Accepted::Link(WatchedLink {
                    link,
                    calls: self.calls,
                    refuses,
                })
            }
            Accepted::NotYet => Accepted::NotYet,
            Accepted::Failed => Accepted::Failed,
        }
    }
}

/// The server's setup of so many colours.
pub(super) fn setup_of(rt: &impl Abort, shape: &Shape, colours: u32) -> Setup
    ensures { first_out_of_range shape.now colours 1 ≡ None }
{
    match Setup::new(shape, colours, handler_table(), 1) {
        Ok(setup) => setup,
        Err(_) => panic!(rt; "no setup"),
    }
}

/// Serves these clients by threads, through a gate, with the log or without it. The link of this
/// number finds no memory to write; where the number is 0, none does. Each history that the run
/// leaves is legal.
pub(super) fn serve<'r, R: AllocGlobal + Abort + Threads + Wait + Sync, G: Gate + Sync>(
    rt: &R,
    shape: &Shape,
    clients: &[Client],
    refuses: u16,
    calls: &'r AtomicU64,
    gate: &G,
    log: bool,
) -> Ended<Watched<'r>> {
    let site = site(rt);
    let world = Watched {
        world: MemWorld::new(links_of(rt, clients), Vec::new(rt.alloc())),
        calls,
        refuses,
        given: 0,
    };
    let setup = setup_of(rt, shape, u32::from(world.total()) + 2 + u32::from(log));
    let ended = serve_all(rt, rt.alloc(), &site, shape, world, gate, log, true);
    assert!(rt; are_legal(rt, &setup, &ended.histories));
    ended
}

/// Serves these clients by a schedule, in the same way.
pub(super) fn serve_by<'r, R: AllocGlobal + Abort + Wait>(
    rt: &R,
    shape: &Shape,
    clients: &[Client],
    refuses: u16,
    calls: &'r AtomicU64,
    schedule: &[(u16, u32)],
    log: bool,
) -> Ended<Watched<'r>>
    requires { IsScheduleOf shape.now.cores schedule.now }
{
    let site = site(rt);
    let world = Watched {
        world: MemWorld::new(links_of(rt, clients), Vec::new(rt.alloc())),
        calls,
        refuses,
        given: 0,
    };
    let setup = setup_of(rt, shape, u32::from(world.total()) + 2 + u32::from(log));
    let ended = serve_steps(rt, rt.alloc(), &site, shape, world, schedule, log, true);
    assert!(rt; are_legal(rt, &setup, &ended.histories));
    ended
}
