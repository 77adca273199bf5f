//! States whose events may carry loads.
ghost use Rattle.std.specs.Prelude.{Option};
ghost use Rattle.mely_event.specs.declared.colour.Colour.{Colour};
ghost use Rattle.mely_event.specs.declared.event.Event.{Event};

use crate::trail::Trail;

/// A state whose events may carry loads of the type `P`.
///
/// The bound stands where states and loads meet: at shards, at the making of a turn, at the steps
/// of a worker. So each event that is handed to a handler fits the load beside it.
pub trait Fits<P>: Trail {
    /// Whether an event and its load fit, under the frame of the states and the event's colour.
    ghost fits_under: { Self.Frame → Colour → Event → Option P → Type 0 };
}
