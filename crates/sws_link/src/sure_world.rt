//! A world in memory without faults.
ghost use Rattle.std.specs.Prelude.{◌≡◌, ◌<◌, ◌≤◌, length};
ghost use Rattle.std.specs.List.{AllByRecursion};
ghost use Rattle.sws_link.specs.Counts.{kept_count, no_faults};
ghost use Rattle.sws_link.specs.MemLinks.{sure_link_tells};
ghost use Rattle.sws_link.specs.Worlds.{first_ready, Listens, Polls, Accepts};
ghost use Rattle.sws_link.specs.MemWorlds.{initial_lobby, lobby_after_open, IsInitialSureLink, sure_world_tells, Gives};

use crate::lobby::Lobby;
use crate::{Accepted, Opened, Polled, SureLink, World};
use std::marker::Model;

/// Gives its links in order, each at once. Of those that wait the first is ready. A contract sees
/// it as the links that are left, with how many are given in all.
#[derive(Debug, Drop)]
pub struct SureWorld {
    lobby: Lobby<SureLink>,
}

impl Model for SureWorld {
    ghost use Rattle.sws_link.specs.SureLink.{SureLinkState};
    ghost use Rattle.sws_link.specs.Lobby.{LobbyState};

    ghost Value = { LobbyState SureLinkState };

    ghost use Rattle.std.specs.List.{AllByRecursion};
    ghost use Rattle.sws_link.specs.MemWorlds.{IsInitialSureLink};

    ghost view = { λ world. world.lobby };

    ghost invariant = { λ world. AllByRecursion IsInitialSureLink world.lobby.links };
}

impl SureWorld {
    /// A world of these links, which gives all of them until it is opened for fewer.
    pub fn new(links: Vec<SureLink>) -> SureWorld
        requires few { length links.items ≤ 65535 }
        requires initial { AllByRecursion IsInitialSureLink links.items }
        ensures { result ≡ initial_lobby links.items }
    {
        SureWorld {
            lobby: Lobby::new(links),
        }
    }
}

impl World for SureWorld {
    type Link = SureLink;

    ghost tells = { sure_world_tells };

    ghost faults = { λ _. no_faults };

    ghost waits = { λ _. no_faults };

    /// Begins anew with the links that are left.
    fn open(&mut self, port: u16, total: u16) -> Opened
        ensures exact { result ≡ Opened.Ready }
        ensures becomes { self.new ≡ lobby_after_open self.old port total }
        ensures listens { Listens sure_world_tells (λ _. no_faults) (λ _. no_faults)
            self.old port total result self.new }
    {
        self.lobby.open(port, total);
        Opened::Ready
    }

    fn total(&self) -> u16
        ensures { result ≡ self.now.total }
    {
        self.lobby.total()
    }

    /// Names the first that waits.
    fn poll(&mut self, waiting: &[u16]) -> Polled
        ensures exact { result ≡ first_ready waiting.now }
        ensures same { self.new ≡ self.old }
        ensures polls { Polls sure_world_tells (λ _. no_faults) (λ _. no_faults)
            self.old waiting.now result self.new }
    {
        match waiting.first() {
            Some(first) => Polled::Ready(*first),
            None => Polled::Quiet,
        }
    }

    /// Gives the next link.
    fn accept(&mut self) -> Accepted<SureLink>
        requires { self.old.accepted < self.old.total }
        ensures exact { Gives self.old result self.new }
        ensures accepts { Accepts sure_world_tells (λ _. no_faults) (λ _. no_faults)
            sure_link_tells (λ link. link.shut) (λ _. no_faults) (λ link. kept_count link.waits)
            self.old result self.new }
    {
        Accepted::Link(self.lobby.give())
    }
}
