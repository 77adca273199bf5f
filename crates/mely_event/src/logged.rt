//! A log with a value beside it.
use crate::event::Event;
use crate::fits::Fits;
use crate::trail::Trail;
use crate::trail_log::TrailLog;

/// The state of one colour: its log, and a value that its handlers keep.
///
/// Its trail is the log's, and every event fits, with any load or none. It says nothing of how the
/// value and the log hang together; a state that has such a fact implements [`Trail`] itself, as
/// [`TrailLog`] shows.
///
/// ```text
/// state.log.push(event);
/// state.value = drawn_after(state.value, rounds);
/// ```
#[derive(Debug, Drop)]
pub struct Logged<T> {
    /// The colour, and the events that were run on it.
    pub log: TrailLog,
    /// What the handlers keep.
    pub value: T,
}

impl<T> Trail for Logged<T> {
    type Frame = ();

    ghost trail_of = { λ s. s.log.events };

    ghost colour_of = { λ s. s.log.colour };

    ghost frame_of = { λ s. tt };
}

/// Every event fits, with any load or none.
impl<T, P> Fits<P> for Logged<T> {
    ghost fits_under = { λ frame colour event load. Unit {0} };
}
