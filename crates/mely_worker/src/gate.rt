//! What is told before each handler.
ghost use Rattle.std.specs.Prelude.{ℕ};
ghost use Rattle.mely_event.specs.declared.colour.Colour.{Colour};
ghost use Rattle.mely_event.specs.declared.event.Event.{Event};

use mely_event::{Colour, Event};

/// What is called before each handler, with no lock held: a place to wait, to count or to write a
/// log.
///
/// Of a gate contracts see that it was passed. Who is generic in the gate can have that from a call
/// alone, so what says of a run that its handlers were passed is said of calls that were made.
pub trait Gate {
    /// A core was about to run the handler of an event of a colour, and has passed.
    ghost passes: { Self → ℕ → Colour → Event → Type 0 };

    /// A core is about to run the handler of an event of a colour.
    fn pass(&self, core: u16, colour: Colour, event: Event)
        ensures { passes self.now core colour event };
}

/// A gate that does nothing.
#[derive(Clone, Copy, Debug)]
pub struct OpenGate;

impl Gate for OpenGate {
    ghost passes = { λ gate core colour event. Unit {0} };

    fn pass(&self, _core: u16, _colour: Colour, _event: Event)
        ensures { Unit {0} }
    {}
}
