//! The answer of a chain that has a mark of the colour already.
use crate::mark::Mark;
use std::error::Error;
use std::fmt;

/// A chain has a mark of that colour already; the mark that was to be added is handed back.
#[derive(Clone, Copy, Debug, PartialEq, Eq)]
pub struct There {
    pub mark: Mark,
}

impl fmt::Display for There {
    fn fmt<W: fmt::Write>(&self, f: &mut fmt::Formatter<W>) -> fmt::Result {
        let colour = self.mark.colour.0;
        write!(f, "there is a mark of colour {colour} already")
    }
}

impl Error for There {}
