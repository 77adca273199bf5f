//! The law of legal histories, as a function for contracts alone.
ghost use Rattle.mely_event.specs.declared.colour.Colour.{Colour};
ghost use Rattle.mely_history.specs.Legal.{IsLegal};
ghost use Rattle.mely_history.specs.Batches.{FollowOneAnother};

use crate::entry::Entry;
use crate::setup::Setup;

/// The law of this crate, for contracts alone: in every legal history the batches of each colour
/// follow one another. Between two takes of a colour there is the finish of the first, no event is
/// in two batches, each was registered before it was taken, and the events that were run are the
/// first ones that were registered, in that order. A call does nothing.
pub fn batches_follow_one_another(setup: &Setup, history: &[Entry])
    requires { IsLegal setup.now history.now }
    ensures { (c : Colour) → FollowOneAnother history.now c }
{}
