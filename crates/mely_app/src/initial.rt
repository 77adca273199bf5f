//! Initial states.
ghost use Rattle.std.specs.Prelude.{◌≡◌, [], IfOk, Some, slice_get};
ghost use Rattle.mely_weave.specs.Making.{AreInitial};

use mely_event::{Colour, Fits, Memory, Trail, TrailLog};
use mely_history::Setup;
use std::alloc::Global;

/// A state of which there is an initial one for each colour.
pub trait Initial<P>: Fits<P> {
    /// What stays the same of all states over a run.
    ghost initial_frame: { Self.Frame };

    /// The state of this colour, on which nothing was run. It takes no memory.
    fn initial_state(alloc: Global, colour: Colour) -> Self
        ensures colour { Self.colour_of result ≡ colour }
        ensures untouched { Self.trail_of result ≡ [] }
        ensures frame { Self.frame_of result ≡ initial_frame };
}

impl<P> Initial<P> for TrailLog {
    ghost initial_frame = { tt };

    fn initial_state(_alloc: Global, colour: Colour) -> TrailLog {
        TrailLog::new(colour)
    }
}

/// An initial state for each colour of a setup, in ascending order.
///
/// # Errors
///
/// There was no memory.
pub fn initial_states<S: Initial<P> + Drop, P>(
    alloc: Global,
    setup: &Setup,
) -> Result<Vec<S>, Memory>
    ensures first { IfOk result (λ states. AreInitial S.Trail setup.now states.items) }
    ensures frame { IfOk result (λ states. (state : _) → slice_get states.items 0 ≡ Some state
        → S.frame_of state ≡ S.initial_frame) }
{
    let mut states = Vec::new(alloc);
    'colours: for colour in 0..setup.colours() {
        states.push(S::initial_state(alloc, Colour(colour as u16)))?;
    }
    Ok(states)
}
