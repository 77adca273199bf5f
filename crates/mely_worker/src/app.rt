//! The handlers of a program.
ghost use Rattle.std.specs.Prelude.{◌≡◌, ◌≤◌, ◌∷◌, ◌++◌, [], ℕ, List, Option, length};
ghost use Rattle.std.specs.List.{AllByRecursion};
ghost use Rattle.mely_event.specs.declared.colour.Colour.{Colour};
ghost use Rattle.mely_event.specs.declared.event.Event.{Event};
ghost use Rattle.mely_worker.specs.Access.{FitsIn};

use crate::outs::Outs;
use mely_event::{Colour, Event, Fits, Trail};

/// The handlers of a program.
///
/// An app tells contracts how many colours and handlers it uses, the frames that it serves, and
/// what a handler may do.
pub trait App {
    /// What an event may carry.
    type Load: Drop;

    /// The state of a colour.
    type State: Fits<Self::Load> + Drop;

    /// How many colours the app uses.
    ghost colours_of: { Self → ℕ };

    /// How many handlers the app uses.
    ghost handlers_of: { Self → ℕ };

    /// The app serves states of the frame.
    ghost serves: { Self → Self.State.Frame → Type 0 };

    /// What a handler may do: the state before, the event and its load, the state after, and the
    /// registrations that it put.
    ghost runs: { Self → Self.State → Event → Option Self.Load → Self.State
        → List (Colour × Event × Option Self.Load) → Type 0 };

    /// Runs the handler of an event on the state of its colour, and writes the event into the
    /// state's trail. What it registers it puts into `outs`, at most two events.
    fn run(
        &self,
        state: &mut Self::State,
        event: Event,
        load: Option<Self::Load>,
        outs: &mut Outs<Self::Load>,
    )
        requires serves { serves self.now (Self.State.frame_of state.old) }
        requires empty { outs.old ≡ [] }
        requires fits { Self.State.fits_under (Self.State.frame_of state.old)
            (Self.State.colour_of state.old) event load }
        ensures ran { runs self.now state.old event load state.new outs.new }
        ensures colour { Self.State.colour_of state.new ≡ Self.State.colour_of state.old }
        ensures frame { Self.State.frame_of state.new ≡ Self.State.frame_of state.old }
        ensures trail { Self.State.trail_of state.new
            ≡ Self.State.trail_of state.old ++ event ∷ [] }
        ensures puts { AllByRecursion (FitsIn (colours_of self.now) (handlers_of self.now)
            (Self.State.fits_under (Self.State.frame_of state.old))) outs.new }
        ensures few { length outs.new ≤ 2 };
}
