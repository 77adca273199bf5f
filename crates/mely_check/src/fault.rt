//! Why a journal was not accepted.
use std::error::Error;
use std::fmt;

/// Why a journal was not accepted.
#[derive(Clone, Copy, Debug, PartialEq, Eq)]
pub enum CheckFault {
    /// The source failed.
    Read,

    /// This line, counted from 1, is the first that no journal has there.
    BadJournal { line: u32 },

    /// The text is a journal, and this line, counted from 1, is the first whose entry has a colour
    /// of another shard or is not allowed after the entries of its shard before it.
    NotLegal { line: u32 },

    /// The text is the journal of a legal run, and this colour is the least that runs
    /// or has something queued.
    NotDrained { colour: u16 },

    /// An allocation was refused.
    Memory,
}

impl fmt::Display for CheckFault {
    ghost use Rattle.std.specs.Prelude.{Some};
    ghost use Rattle.mely_check.specs.FaultTexts.{fault_text};

    ghost output = { λ fault. Some (fault_text fault) };

    fn fmt<W: fmt::Write>(&self, f: &mut fmt::Formatter<W>) -> fmt::Result {
        match self {
            CheckFault::Read => write!(f, "the journal could not be read"),
            CheckFault::BadJournal { line } => write!(f, "line {line} is not a journal line"),
            CheckFault::NotLegal { line } => write!(f, "line {line} is not allowed"),
            CheckFault::NotDrained { colour } => write!(f, "colour {colour} is not drained"),
            CheckFault::Memory => write!(f, "there was no memory"),
        }
    }
}

impl Error for CheckFault {}
