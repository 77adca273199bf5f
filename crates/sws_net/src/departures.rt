//! The connections that their links have ended, at the world that sees them out.
ghost use Rattle.std.specs.Prelude.{◌≤◌};
ghost use Rattle.sws_net.specs.Invariant.{silence};

use crate::leaving::{Leaving, Step};
use mio::Registry;
use std::alloc::Global;
use std::mem;

/// How many milliseconds a connection that shows nothing is kept.
const SILENCE: u64 = 1000;

/// How many milliseconds a connection is kept in all.
const LONGEST: u64 = 10_000;

/// How many of them are kept. Where one more comes, the first one is closed.
const MOST: usize = 64;

/// A connection, when it came, and when it last showed something, in milliseconds.
#[derive(Drop)]
struct Departure {
    leaving: Leaving,
    came: u64,
    seen: u64,

    /// Whether the machine may have more at once.
    has_more: bool,
}

/// The connections that are still to be seen out, the first that came first.
#[derive(Drop)]
pub struct Departures {
    alloc: Global,
    all: Vec<Departure>,
}

impl Departure {
    /// Makes a step, and answers whether the connection is still to be kept.
    fn go_on(&mut self, now: u64) -> bool {
        self.seen = now;
        let step = self.leaving.step();
        self.has_more = step == Step::More;
        step != Step::Done
    }

    /// How long it may still be kept, in milliseconds, if nothing more comes of it.
    fn left(&self, now: u64) -> u64
        ensures { result ≤ silence }
    {
        let silent = SILENCE.saturating_sub(now.saturating_sub(self.seen));
        silent.min(LONGEST.saturating_sub(now.saturating_sub(self.came)))
    }
}

impl Departures {
    pub fn new(alloc: Global) -> Departures {
        Departures {
            alloc,
            all: Vec::new(alloc),
        }
    }

    pub fn is_empty(&self) -> bool {
        self.all.is_empty()
    }

    /// Takes a connection over. Where there is no memory for it, it is closed.
    pub fn take(&mut self, leaving: Leaving, now: u64) {
        let mut departure = Departure {
            leaving,
            came: now,
            seen: now,
            has_more: false,
        };
        if !departure.go_on(now) {
            return;
        }
        if self.all.len() >= MOST {
            self.all.remove(0);
        }
        let _ = self.all.push(departure);
    }

    /// Takes over those of another world, which come before its own, by the numbers from this one
    /// on. One that can't be seen out here is closed.
    pub fn take_over(&mut self, others: &mut Departures, registry: &Registry, first: usize) {
        let mut all = mem::replace(&mut others.all, Vec::new(self.alloc));
        let mut number = first;
        all.retain_mut(|departure| {
            number = number.saturating_add(1);
            departure.leaving.move_to(registry, number).is_ok()
        });
        self.all = all;
    }

    /// The connection of this number showed something.
    pub fn note(&mut self, number: usize, now: u64) {
        let Some(place) = self
            .all
            .iter()
            .position(|departure| departure.leaving.number == number)
        else {
            return;
        };
        let Some(departure) = self.all.get_mut(place) else {
            return;
        };
        if !departure.go_on(now) {
            self.all.remove(place);
        }
    }

    /// Goes on with those of which there was more at once, and closes those whose time is up.
    pub fn look(&mut self, now: u64) {
        self.all.retain_mut(|departure| (!departure.has_more || departure.go_on(now))
            && departure.left(now) > 0);
    }

    /// In how many milliseconds they are to be looked at again at the latest.
    pub fn until_due(&self, now: u64) -> u64
        ensures { result ≤ silence }
    {
        let mut until = SILENCE;
        for departure in &self.all {
            if departure.has_more {
                return 0;
            }
            until = until.min(departure.left(now));
        }
        until
    }
}
