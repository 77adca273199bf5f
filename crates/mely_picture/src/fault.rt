//! Why a journal was not drawn.
use mely_check::CheckFault;
use std::error::Error;
use std::fmt;

/// Why a journal was not drawn.
#[derive(Clone, Copy, Debug, PartialEq, Eq)]
pub enum DrawFault {
    /// It was not accepted, the source failed, or an allocation was refused.
    Check(CheckFault),

    /// The sink failed.
    Write,
}

impl fmt::Display for DrawFault {
    fn fmt<W: fmt::Write>(&self, f: &mut fmt::Formatter<W>) -> fmt::Result {
        match self {
            DrawFault::Check(fault) => write!(f, "{fault}"),
            DrawFault::Write => write!(f, "the picture could not be written"),
        }
    }
}

impl Error for DrawFault {}
