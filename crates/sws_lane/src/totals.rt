//! What has come of connections, in sums.
ghost use Rattle.std.specs.Prelude.{◌≡◌, [], ◌∷◌};
ghost use Rattle.sws_lane.specs.Totals.{AddsUp, AreKept, both_totals, no_totals, one_generation};

use sws_conn::End;
use sws_engine::Served;

/// What has come of the connections of generations. Each number is at most 2^64 - 1, and stays
/// there.
#[derive(Clone, Copy, Debug, PartialEq, Eq)]
pub struct Totals {
    /// How many generations there were.
    pub generations: u64,

    /// How many connections were accepted.
    pub connections: u64,

    /// How many of them were answered to their end.
    pub done: u64,

    /// How many ended since their link was not ready too often in succession.
    pub idle: u64,

    /// How many ended since their link failed.
    pub fault: u64,

    /// How many bytes were read of them, and how many were written to them.
    pub read: u64,
    pub written: u64,
}

impl Totals {
    /// Nothing yet.
    pub fn new() -> Totals
        ensures { result ≡ no_totals }
    {
        Totals {
            generations: 0,
            connections: 0,
            done: 0,
            idle: 0,
            fault: 0,
            read: 0,
            written: 0,
        }
    }

    /// One generation, of which no connection was counted.
    pub(crate) fn of_one() -> Totals
        ensures { result ≡ one_generation }
    {
        let mut totals = Totals::new();
        totals.generations = 1;
        totals
    }

    /// These and others in one.
    pub fn add(&mut self, other: &Totals)
        ensures { self.new ≡ both_totals self.old other.now }
    {
        self.generations = self.generations.saturating_add(other.generations);
        self.connections = self.connections.saturating_add(other.connections);
        self.done = self.done.saturating_add(other.done);
        self.idle = self.idle.saturating_add(other.idle);
        self.fault = self.fault.saturating_add(other.fault);
        self.read = self.read.saturating_add(other.read);
        self.written = self.written.saturating_add(other.written);
    }

    /// Each number has 64 bits, for contracts alone. A call does nothing.
    pub(crate) fn are_kept(&self)
        ensures { AreKept self.now }
    {
        let _generations = self.generations;
        let _connections = self.connections;
        let _done = self.done;
        let _idle = self.idle;
        let _fault = self.fault;
        let _read = self.read;
        let _written = self.written;
    }

    /// Adds a connection.
    fn count<L>(&mut self, served: &Served<L>)
        ensures { AddsUp self.old (served.now ∷ []) self.new }
    {
        self.connections = self
            .connections
            .saturating_add(served.link.is_some() as u64);
        self.done = self
            .done
            .saturating_add((served.end == Some(End::Done)) as u64);
        self.idle = self
            .idle
            .saturating_add((served.end == Some(End::Idle)) as u64);
        self.fault = self
            .fault
            .saturating_add((served.end == Some(End::Fault)) as u64);
        self.read = self.read.saturating_add(served.read);
        self.written = self.written.saturating_add(served.written);
    }

    /// Adds the connections of a generation.
    pub(crate) fn count_all<L>(&mut self, served: &[Served<L>])
        ensures { AddsUp self.old served.now self.new }
    {
        self.are_kept();
        'connections: for one in served {
            self.count(one);
        }
    }
}
