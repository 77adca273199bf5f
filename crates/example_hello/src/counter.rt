//! The state of a colour.
ghost use Rattle.std.specs.Prelude.{◌≡◌, ◌-◌, ◌^◌, ◌++◌, ◌∷◌, [], length, min};

use mely_app::Initial;
use mely_event::{Colour, Event, Fits, Trail, TrailLog};
use std::alloc::Global;

/// A state that counts the events that were run on it. No other colour can see it, so it needs no
/// lock and no atomic.
#[derive(Drop)]
pub struct Counter {
    log: TrailLog,
    count: u64,

    // What the type keeps: the count is of the trail, as far as 64 bits go.
    ghost counted: { count ≡ min (length log.events) (2 ^ 64 - 1) },
}

impl Counter {
    /// An event is run: it joins the trail, and is counted.
    pub fn run(&mut self, event: Event)
        ensures { self.new.log ≡ record self.old.log {
          events = self.old.log.events ++ event ∷ [];
        } }
    {
        self.log.push(event);
        self.count = self.count.saturating_add(1);
    }

    /// How many events were run.
    pub fn count(&self) -> u64
        ensures { result ≡ min (length self.now.log.events) (2 ^ 64 - 1) }
    {
        self.count
    }
}

/// What contracts know of a state: its trail and its colour, which the log has. Nothing stays the
/// same of all states but what their type says.
impl Trail for Counter {
    type Frame = ();

    ghost trail_of = { λ s. s.log.events };

    ghost colour_of = { λ s. s.log.colour };

    ghost frame_of = { λ s. tt };
}

/// No event carries a load.
impl Fits<()> for Counter {
    ghost fits_under = { λ frame colour event load. Unit {0} };
}

impl Initial<()> for Counter {
    ghost initial_frame = { tt };

    fn initial_state(_alloc: Global, colour: Colour) -> Counter {
        Counter {
            log: TrailLog::new(colour),
            count: 0,
        }
    }
}
