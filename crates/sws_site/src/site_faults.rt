//! Why a folder is no site.
use std::alloc::AllocError;
use std::error::Error;
use std::fmt;

/// Why a folder could not be loaded as a site. Files are counted from 1, in the folder's order.
#[derive(Clone, Copy, Debug, PartialEq, Eq)]
pub enum SiteFault {
    /// The folder has more files than the site holds; `count` is one more than it holds.
    TooManyFiles { count: u32 },
    /// The name of this file has more than 1,024 bytes.
    LongName { number: u32 },
    /// The contents up to and with this file have more bytes than the site holds.
    TooManyBytes { number: u32 },
    /// The folder failed.
    Fault,
    /// An allocation was refused.
    Memory,
}

impl fmt::Display for SiteFault {
    fn fmt<W: fmt::Write>(&self, f: &mut fmt::Formatter<W>) -> fmt::Result {
        match self {
            SiteFault::TooManyFiles { count } => write!(f, "the site has {count} files or more"),
            SiteFault::LongName { number } => write!(f, "the name of file {number} is too long"),
            SiteFault::TooManyBytes { number } => {
                write!(f, "the site passes the most bytes at file {number}")
            }
            SiteFault::Fault => write!(f, "the folder could not be read"),
            SiteFault::Memory => write!(f, "there was no memory"),
        }
    }
}

impl Error for SiteFault {}

impl From<AllocError> for SiteFault {
    ghost use Rattle.std.specs.Prelude.{◌≡◌};
    ghost use Rattle.sws_site.specs.declared.site_faults.SiteFault.TheVariants.{Memory};

    ghost from_gives = { λ error fault. fault ≡ Memory };

    fn from(_error: AllocError) -> SiteFault {
        SiteFault::Memory
    }
}
