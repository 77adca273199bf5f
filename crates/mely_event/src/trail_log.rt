//! A trail for states that need no other.
ghost use Rattle.std.specs.Prelude.{◌≡◌, ◌++◌, ◌∷◌, []};

use crate::colour::Colour;
use crate::event::Event;
use crate::fits::Fits;
use crate::trail::Trail;
use mely_log::Log;
use std::marker::Model;

/// A ready-made trail: a colour, and for contracts the events that were run on it.
///
/// A program whose handlers keep nothing else takes it as its state, of one colour each. A state
/// that has more in it holds one, and hands each member of [`Trail`] on to it in a line:
///
/// ```text
/// #[derive(Drop)]
/// struct Counter {
///     log: TrailLog,
///     total: u64,
/// }
///
/// impl Trail for Counter {
///     type Frame = ();
///
///     ghost trail_of = { λ s. s.log.events };
///
///     ghost colour_of = { λ s. s.log.colour };
///
///     ghost frame_of = { λ s. tt };
/// }
///
/// impl Fits<u32> for Counter {
///     ghost fits_under = { λ frame colour event load. Unit {0} };
/// }
/// ```
///
/// It has the size of its colour, however many events were run.
#[derive(Debug, Drop)]
pub struct TrailLog {
    colour: Colour,
    events: Log<Event>,
}

impl Model for TrailLog {
    ghost use Rattle.mely_event.specs.TrailLog.{TrailLogState};

    ghost Value = { TrailLogState };

    ghost view = { λ log. record { colour = log.colour; events = log.events.items } };
}

impl TrailLog {
    ghost use Rattle.mely_event.specs.TrailLog.{TrailLogState};

    /// A trail of this colour on which nothing was run.
    pub fn new(colour: Colour) -> TrailLog
        ensures { result ≡ record { colour = colour; events = [] } }
    {
        TrailLog {
            colour,
            events: Log::new(),
        }
    }

    /// The colour whose state this is, for good.
    pub fn colour(&self) -> Colour
        ensures { result ≡ self.now.colour }
    {
        self.colour
    }

    /// Records that an event was run. It takes no memory.
    pub fn push(&mut self, event: Event)
        ensures { self.new ≡ record self.old { events = self.old.events ++ event ∷ [] } }
    {
        self.events.push(&event);
    }
}

impl Trail for TrailLog {
    type Frame = ();

    ghost trail_of = { λ log. log.events };

    ghost colour_of = { λ log. log.colour };

    ghost frame_of = { λ log. tt };
}

/// Every event fits, with any load or none.
impl<P> Fits<P> for TrailLog {
    ghost fits_under = { λ frame colour event load. Unit {0} };
}
