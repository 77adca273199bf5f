//! A world in memory with faults.
ghost use Rattle.std.specs.Prelude.{◌≡◌, ◌<◌, ◌≤◌, length};
ghost use Rattle.std.specs.List.{AllByRecursion};
ghost use Rattle.sws_link.specs.Counts.{kept_count, no_faults};
ghost use Rattle.sws_link.specs.Calls.{no_calls, next_fails, after_call};
ghost use Rattle.sws_link.specs.MemLinks.{mem_link_tells};
ghost use Rattle.sws_link.specs.Worlds.{Listens, Polls, Accepts};
ghost use Rattle.sws_link.specs.MemWorlds.{initial_lobby, IsInitialMemLink, mem_world_tells, opened_or_fails, mem_world_after_open, ready_or_fails, FailsOrGives};

use crate::calls::Calls;
use crate::lobby::Lobby;
use crate::{Accepted, MemLink, Opened, Polled, World};
use std::marker::Model;

/// Gives its links in order, each at once, and fails at the calls that it is told to. Of those that
/// wait the first is ready.
#[derive(Debug, Drop)]
pub struct MemWorld {
    lobby: Lobby<MemLink>,
    calls: Calls,
}

impl Model for MemWorld {
    ghost use Rattle.sws_link.specs.MemWorld.{MemWorldState};

    ghost Value = { MemWorldState };

    ghost use Rattle.std.specs.List.{AllByRecursion};
    ghost use Rattle.sws_link.specs.MemWorlds.{IsInitialMemLink};

    ghost view = { λ world. record { lobby = world.lobby; calls = world.calls } };

    ghost invariant = { λ world. AllByRecursion IsInitialMemLink world.lobby.links };
}

impl MemWorld {
    /// A world of these links, which gives all of them until it is opened for fewer. Its calls
    /// `open`, `poll` and `accept` of the numbers `failing`, counted from 1, are to fail.
    pub fn new(links: Vec<MemLink>, failing: Vec<u32>) -> MemWorld
        requires few { length links.items ≤ 65535 }
        requires initial { AllByRecursion IsInitialMemLink links.items }
        ensures lobby { result.lobby ≡ initial_lobby links.items }
        ensures calls { result.calls ≡ no_calls failing.items }
    {
        MemWorld {
            lobby: Lobby::new(links),
            calls: Calls::new(failing),
        }
    }
}

impl World for MemWorld {
    type Link = MemLink;

    ghost tells = { mem_world_tells };

    ghost faults = { λ world. kept_count world.calls.failed };

    ghost waits = { λ _. no_faults };

    /// Begins anew with the links that are left, or fails where this call is to fail.
    fn open(&mut self, port: u16, total: u16) -> Opened
        ensures exact { result ≡ opened_or_fails self.old }
        ensures becomes { self.new ≡ mem_world_after_open self.old port total }
        ensures listens { Listens mem_world_tells (λ world.
            kept_count world.calls.failed) (λ _. no_faults)
            self.old port total result self.new }
    {
        if self.calls.fails() {
            return Opened::Failed;
        }
        self.lobby.open(port, total);
        Opened::Ready
    }

    fn total(&self) -> u16
        ensures { result ≡ self.now.lobby.total }
    {
        self.lobby.total()
    }

    /// Names the first that waits, or fails where this call is to fail.
    fn poll(&mut self, waiting: &[u16]) -> Polled
        ensures exact { result ≡ ready_or_fails self.old waiting.now }
        ensures becomes { self.new ≡ record self.old { calls = after_call self.old.calls } }
        ensures polls { Polls mem_world_tells (λ world.
            kept_count world.calls.failed) (λ _. no_faults)
            self.old waiting.now result self.new }
    {
        if self.calls.fails() {
            return Polled::Failed;
        }
        match waiting.first() {
            Some(first) => Polled::Ready(*first),
            None => Polled::Quiet,
        }
    }

    /// Gives the next link, or fails where this call is to fail.
    fn accept(&mut self) -> Accepted<MemLink>
        requires { self.old.lobby.accepted < self.old.lobby.total }
        ensures exact { FailsOrGives self.old result self.new }
        ensures accepts { Accepts mem_world_tells (λ world.
            kept_count world.calls.failed) (λ _. no_faults)
            mem_link_tells (λ link. link.shut) (λ link. kept_count link.calls.failed) (λ link.
            kept_count link.waits)
            self.old result self.new }
    {
        if self.calls.fails() {
            return Accepted::Failed;
        }
        Accepted::Link(self.lobby.give())
    }
}
