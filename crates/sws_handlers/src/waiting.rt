//! The connections that wait.
ghost use Rattle.std.specs.Prelude.{◌≡◌, ◌<◌, ◌==◌, ◌↔◌, [], ◌∷◌, length, slice_get, Contains, IsTrue, IfOk, MatchOption, Some};
ghost use Rattle.std.specs.List.{list_any};
ghost use Rattle.sws_handlers.specs.Waiting.{TakenOff, waiting_with};

use std::alloc::Global;
use std::marker::Model;
use sws_link::Memory;

/// The connections that wait for their links, in the order in which they began to.
///
/// The world is asked with all of them, so they lie side by side. A table says of each connection
/// when it began to wait, if it does: so whether one waits is known at once, and its place is found
/// by halving the list, along which these numbers rise.
///
/// Contracts see the list, and the number below which those that may wait are.
#[derive(Drop)]
pub struct Waiting {
    conns: Vec<u16>,
    since: Vec<Option<u64>>,

    /// How often a connection has begun to wait.
    begun: u64,
}

impl Model for Waiting {
    ghost use Rattle.sws_handlers.specs.Waiting.{WaitingState};

    ghost Value = { WaitingState };

    ghost use Rattle.std.specs.Prelude.{length};
    ghost use Rattle.sws_handlers.specs.WaitingKept.{IsTabled};

    ghost view = { λ waiting. record {
      items = waiting.conns.items;
      total = length waiting.since.items;
    } };

    ghost invariant = { IsTabled };
}

impl Waiting {
    /// Nobody waits yet, of so many connections. All room is made here; where that was refused, the
    /// answer is `Memory`.
    pub(crate) fn new(alloc: Global, total: u16) -> Result<Waiting, Memory>
        ensures { IfOk result (λ waiting. waiting ≡ record { items = []; total = total }) }
    {
        let conns = Vec::with_capacity(alloc, usize::from(total))?;
        let mut since = Vec::with_capacity(alloc, usize::from(total))?;
        'conns: for _conn in 0..total {
            since.push_reserved(None);
        }
        Ok(Waiting {
            conns,
            since,
            begun: 0,
        })
    }

    /// Those that wait, in the order in which they began to.
    pub(crate) fn conns(&self) -> &[u16]
        ensures { result.now ≡ self.now.items }
    {
        &self.conns
    }

    /// Whether nobody waits.
    pub(crate) fn is_empty(&self) -> bool
        ensures { IsTrue result ↔ (self.now.items ≡ []) }
    {
        self.conns.is_empty()
    }

    /// Whether the connection waits.
    pub(crate) fn contains(&self, conn: u16) -> bool
        ensures { result ≡ list_any (λ w. w == conn) self.now.items }
    {
        match self.since.get(usize::from(conn)) {
            Some(since) => since.is_some(),
            None => false,
        }
    }

    /// The connection waits from now on, behind all others, unless it does already.
    pub(crate) fn enter(&mut self, conn: u16)
        requires { conn < self.old.total }
        ensures { self.new ≡ record self.old { items = waiting_with conn self.old.items } }
    {
        if !self.contains(conn) {
            self.begun = self.begun.wrapping_add(1);
            self.since[usize::from(conn)] = Some(self.begun);
            self.conns.push_reserved(conn);
        }
    }

    /// When the connection began to wait; 0 where it doesn't.
    fn since_of(&self, conn: u16) -> u64 {
        match self.since.get(usize::from(conn)) {
            Some(Some(since)) => *since,
            Some(None) => 0,
            None => 0,
        }
    }

    /// Where the connection stands, which waits. The list is halved by when each began to wait;
    /// only where that count has run over it may have to be searched.
    fn place_of(&self, conn: u16) -> usize
        requires { Contains self.now.items conn }
        ensures within { result < length self.now.items }
        ensures there { slice_get self.now.items result ≡ Some conn }
    {
        let since = self.since_of(conn);
        let halved = self
            .conns
            .partition_point(|other| self.since_of(*other) < since);
        if self.conns.get(halved) == Some(&conn) {
            return halved;
        }
        match self.conns.iter().position(|other| *other == conn) {
            Some(place) => place,
            None => unreachable!(),
        }
    }

    /// The connection at this place waits no more.
    fn take_at(&mut self, place: usize) -> u16
        requires { place < length self.old.items }
        ensures there { slice_get self.old.items place ≡ Some result }
        ensures off { TakenOff result self.old.items self.new.items }
        ensures total { self.new.total ≡ self.old.total }
        ensures known { result < self.old.total }
    {
        let conn = self.conns.remove(place);
        self.since[usize::from(conn)] = None;
        conn
    }

    /// The connection, which waits, does so no more.
    pub(crate) fn take(&mut self, conn: u16)
        requires { Contains self.old.items conn }
        ensures off { TakenOff conn self.old.items self.new.items }
        ensures total { self.new.total ≡ self.old.total }
        ensures known { conn < self.old.total }
    {
        let place = self.place_of(conn);
        self.take_at(place);
    }

    /// The first of those that wait does so no more; nothing where nobody waits.
    pub(crate) fn take_first(&mut self) -> Option<u16>
        ensures first { MatchOption result (self.old.items ≡ []) (λ conn. self.old.items
            ≡ conn ∷ self.new.items) }
        ensures none { MatchOption result (self.new.items ≡ []) (λ conn. conn < self.old.total) }
        ensures total { self.new.total ≡ self.old.total }
    {
        if self.conns.is_empty() {
            None
        } else {
            Some(self.take_at(0))
        }
    }
}
