//! What a run hands back for which there was no memory.
use mely_event::{Colour, Event};
use mely_history::History;
use std::fmt;

/// There was no memory for a run. Nothing that it had is dropped but the states of one that didn't
/// start.
#[derive(Drop)]
pub enum RunError<S, P> {
    /// There was no memory to start, so nothing was run: the load of the first event is handed
    /// back. The states are dropped.
    NotStarted(Option<P>),

    /// There was none on the way: each core gave up once it had finished its turn.
    CutShort(Unfinished<S, P>),
}

/// What is left of a run that was cut short: what it did, and what is still to be done.
#[derive(Drop)]
pub struct Unfinished<S, P> {
    /// The state of each colour.
    pub states: Vec<S>,

    /// The history of each shard, as of a run that came to its end.
    pub histories: Vec<History>,

    /// The events that wait on each colour with their loads, in their order.
    pub waiting: Vec<Vec<(Event, Option<P>)>>,

    /// What handlers put and there was no memory to register, by the cores that ran them.
    pub refused: Vec<(Colour, Event, Option<P>)>,
}

impl<S, P> fmt::Display for RunError<S, P> {
    fn fmt<W: fmt::Write>(&self, f: &mut fmt::Formatter<W>) -> fmt::Result {
        f.write_str(match self {
            RunError::NotStarted(_) => "there was no memory to start",
            RunError::CutShort(_) => "there was no memory to go on",
        })
    }
}
