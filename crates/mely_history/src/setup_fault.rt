//! Why numbers make no setup.
use std::error::Error;
use std::fmt;

/// Why numbers make no setup.
#[derive(Clone, Copy, Debug, PartialEq, Eq)]
pub enum SetupFault {
    /// The first field that is out of range: 1 cores, 2 shards, 3 colours, 4 batch, 5 group, 6
    /// pinned colours.
    OutOfRange { field: u8 },
}

impl fmt::Display for SetupFault {
    fn fmt<W: fmt::Write>(&self, f: &mut fmt::Formatter<W>) -> fmt::Result {
        match self {
            SetupFault::OutOfRange { field } => {
                write!(f, "number {field} of the setup is out of range")
            }
        }
    }
}

impl Error for SetupFault {}
