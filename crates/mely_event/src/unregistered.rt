//! What a refused registration hands back.
use crate::event::Event;
use std::error::Error;
use std::fmt;

/// There was no memory for a registration. The event and its load are handed back as they were
/// given.
#[derive(Debug, Drop)]
pub struct Unregistered<P> {
    pub event: Event,
    pub load: Option<P>,
}

impl<P> fmt::Display for Unregistered<P> {
    fn fmt<W: fmt::Write>(&self, f: &mut fmt::Formatter<W>) -> fmt::Result {
        f.write_str("there was no memory to register an event")
    }
}

impl<P: fmt::Debug + Drop> Error for Unregistered<P> {}
