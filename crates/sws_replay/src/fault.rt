//! Why a script was not run, or not all was written of it.
use std::error::Error;
use std::fmt;

/// Why a script was not run, or not all was written of it.
#[derive(Clone, Copy, Debug, PartialEq, Eq)]
pub enum RunFault {
    /// The sink failed.
    Write,

    /// An allocation was refused.
    Memory,
}

impl fmt::Display for RunFault {
    ghost use Rattle.std.specs.Prelude.{Some};
    ghost use Rattle.sws_replay.specs.FaultTexts.{fault_text};

    ghost output = { λ fault. Some (fault_text fault) };

    fn fmt<W: fmt::Write>(&self, f: &mut fmt::Formatter<W>) -> fmt::Result {
        match self {
            RunFault::Write => write!(f, "what the run left could not be written"),
            RunFault::Memory => write!(f, "there was no memory"),
        }
    }
}

impl Error for RunFault {}
