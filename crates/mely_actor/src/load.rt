//! What an event of actors carries, and the library's own events.

use mely_event::{Colour, Event};
use std::collections::VecDeque;

/// The first event of a run, which sends what is posted.
pub(crate) const FIRST: Event = Event { handler: 0, arg: 0 };

/// A turn, by which a colour sends more of what waits there.
pub(crate) const TURN: Event = Event { handler: 0, arg: 1 };

/// What stays the same over a run: the actor, and what is posted to begin with. It
/// is for contracts alone.
#[derive(Drop)]
pub struct Plan<A, M> {
    pub actor: A,
    pub posts: Vec<(Colour, M)>,
}

/// What an event carries, but for a turn, which carries nothing.
#[derive(Drop)]
pub enum Load<M> {
    /// All that is posted.
    Posts(VecDeque<(Colour, M)>),

    /// A message for the colour.
    Message(M),
}
