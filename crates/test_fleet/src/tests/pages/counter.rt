//! The page of `mely_event::TrailLog`: a state that has one.
ghost use Rattle.std.specs.Prelude.{◌≡◌, ◌++◌, ◌∷◌, []};

use mely_event::{Colour, Event, Fits, Trail, TrailLog};

#[derive(Drop)]
struct Counter {
    log: TrailLog,
    total: u64,
}

impl Trail for Counter {
    type Frame = ();

    ghost trail_of = { λ s. s.log.events };

    ghost colour_of = { λ s. s.log.colour };

    ghost frame_of = { λ s. tt };
}

impl Fits<u32> for Counter {
    ghost fits_under = { λ frame colour event load. Unit {0} };
}

impl Counter {
    /// A state on which nothing was run.
    pub fn new(colour: u16) -> Counter
        ensures { result.log ≡ record { colour = record { 0 = colour }; events = [] } }
    {
        Counter {
            log: TrailLog::new(Colour(colour)),
            total: 0,
        }
    }

    /// Runs an event, whose load is added.
    pub fn run(&mut self, event: Event, load: Option<u32>)
        ensures { self.new.log
            ≡ record self.old.log { events = self.old.log.events ++ event ∷ [] } }
    {
        self.log.push(event);
        self.total = self.total.wrapping_add(u64::from(load.unwrap_or(0)));
    }

    /// What the loads of the events add up to.
    pub fn total(&self) -> u64 {
        self.total
    }
}

/// Hands a state on, by its bound alone.
fn handed_on<S: Fits<u32>>(state: S) -> S
    ensures { S.trail_of result ≡ S.trail_of state }
{
    state
}

#[test]
fn a_state_with_a_log_is_a_trail(rt: HostRuntime) {
    let mut state = Counter::new(2);
    state.run(Event { handler: 0, arg: 7 }, Some(5));
    let state = handed_on(state);
    assert!(rt; state.log.colour() == Colour(2));
    assert!(rt; state.total() == 5);
}
