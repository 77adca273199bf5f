//! Why a run has ended.
ghost use Rattle.std.specs.Prelude.{◌≡◌};
ghost use Rattle.sws_top.specs.Faults.{fault_status, run_fault_of, check_fault_of};

use mely_check::CheckFault;
use std::error::Error;
use std::fmt;
use sws_replay::RunFault;

/// Which limit a site meets. Files are counted from 1, in the folder's order.
#[derive(Clone, Copy, Debug, PartialEq, Eq)]
pub enum SiteLimit {
    /// There are more than 4,096 files; `count` is 4,097.
    Files { count: u32 },
    /// The contents up to and with this file have more than 268,435,456 bytes.
    Bytes { number: u32 },
    /// The name of this file has more than 1,024 bytes.
    Name { number: u32 },
}

/// Why a run has ended without having done all. It prints as the line that a user reads.
#[derive(Clone, Copy, Debug, PartialEq, Eq)]
pub enum TopFault {
    /// The words are no command line.
    Usage,
    /// This line of the script or of its schedule, counted from 1, is the
    /// first outside the grammar.
    BadScript { line: u32 },
    /// The folder or the input could not be read.
    ReadFault,
    /// The output could not be written.
    WriteFault,
    /// The world failed.
    WorldFault,
    /// An allocation was refused.
    Memory,
    /// The folder is more than a site may be.
    SiteFull(SiteLimit),
    /// This line of the script begins connection 1,025.
    TooMany { line: u32 },
    /// This line of the journal, counted from 1, is the first that no journal has there.
    BadJournal { line: u32 },
    /// The text is a journal, and this line of it is the first whose entry is not allowed.
    NotLegal { line: u32 },
    /// The text is the journal of a legal run, and this colour is the least that runs or waits.
    NotDrained { colour: u16 },
    /// A run lost this connection, or, where the number is that of all connections, its world. This
    /// never comes: [`sws`](crate::sws) promises so.
    Apart { conn: u16 },
}

impl TopFault {
    /// The status that the program ends with.
    pub fn status(self) -> u8
        ensures { result ≡ fault_status self }
    {
        match self {
            TopFault::Usage => 2,
            TopFault::BadScript { .. } => 3,
            TopFault::ReadFault => 4,
            TopFault::WriteFault => 5,
            TopFault::WorldFault => 6,
            TopFault::Memory => 7,
            TopFault::SiteFull(_) => 8,
            TopFault::TooMany { .. } => 9,
            TopFault::BadJournal { .. } => 10,
            TopFault::NotLegal { .. } => 11,
            TopFault::NotDrained { .. } => 12,
            TopFault::Apart { .. } => 13,
        }
    }
}

/// The fault of a run whose script was not run, or not all written.
pub(crate) fn run_fault(fault: RunFault) -> TopFault
    ensures { result ≡ run_fault_of fault }
{
    match fault {
        RunFault::Write => TopFault::WriteFault,
        RunFault::Memory => TopFault::Memory,
    }
}

/// The fault of a run whose journal was not accepted.
pub(crate) fn check_fault(fault: CheckFault) -> TopFault
    ensures { result ≡ check_fault_of fault }
{
    match fault {
        CheckFault::Read => TopFault::ReadFault,
        CheckFault::BadJournal { line } => TopFault::BadJournal { line },
        CheckFault::NotLegal { line } => TopFault::NotLegal { line },
        CheckFault::NotDrained { colour } => TopFault::NotDrained { colour },
        CheckFault::Memory => TopFault::Memory,
    }
}

impl fmt::Display for SiteLimit {
    ghost use Rattle.std.specs.Prelude.{Some};
    ghost use Rattle.sws_top.specs.FaultLines.{limit_line};

    ghost output = { λ limit. Some (limit_line limit) };

    fn fmt<W: fmt::Write>(&self, f: &mut fmt::Formatter<W>) -> fmt::Result {
        match self {
            SiteLimit::Files { .. } => write!(f, "sws: the site has more than 4096 files"),
            SiteLimit::Bytes { number } => {
                write!(f, "sws: the site passes 268435456 bytes at file {number}")
            }
            SiteLimit::Name { number } => {
                write!(f, "sws: the name of file {number} is too long")
            }
        }
    }
}

impl fmt::Display for TopFault {
    ghost use Rattle.std.specs.Prelude.{Some};
    ghost use Rattle.sws_top.specs.FaultLines.{fault_line};

    ghost output = { λ fault. Some (fault_line fault) };

    fn fmt<W: fmt::Write>(&self, f: &mut fmt::Formatter<W>) -> fmt::Result {
        match self {
            TopFault::Usage => write!(f, "sws: the command line is not understood"),
            TopFault::BadScript { line } => write!(f, "sws: line {line} is not understood"),
            TopFault::ReadFault => write!(f, "sws: reading failed"),
            TopFault::WriteFault => write!(f, "sws: writing failed"),
            TopFault::WorldFault => write!(f, "sws: the network failed"),
            TopFault::Memory => write!(f, "sws: no memory"),
            TopFault::SiteFull(limit) => write!(f, "{limit}"),
            TopFault::TooMany { line } => write!(f, "sws: line {line} begins connection 1025"),
            TopFault::BadJournal { line } => write!(f, "sws: line {line} is not a journal line"),
            TopFault::NotLegal { line } => write!(f, "sws: line {line} is not allowed"),
            TopFault::NotDrained { colour } => write!(f, "sws: colour {colour} is not drained"),
            TopFault::Apart { conn } => write!(f, "sws: the run lost connection {conn}"),
        }
    }
}

impl Error for SiteLimit {}

impl Error for TopFault {}
