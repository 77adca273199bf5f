//! What a worker has beside its phase.
use mely_event::{Colour, Event};

/// What a worker has beside its phase.
#[derive(Drop)]
pub struct WorkerFields<P> {
    pub(crate) core: u16,
    pub(crate) batch: u16,
    pub(crate) halted: bool,
    pub(crate) victims: Vec<u16>,

    /// The registrations that were refused, with room for all that may be refused of one turn.
    pub(crate) lost: Vec<(Colour, Event, Option<P>)>,
}
