//! Why an age is not added to a site.
use std::alloc::AllocError;
use std::error::Error;
use std::fmt;

/// Why an age can't be given for the files whose names have an end.
#[derive(Clone, Copy, Debug, PartialEq, Eq)]
pub enum AgeFault {
    /// The end is empty, or has a slash or a NUL, so that no name has it.
    BadEnd,
    /// The end has an age.
    GivenTwice,
    /// 64 ends have an age.
    TooMany,
    /// An allocation was refused.
    Memory,
}

impl fmt::Display for AgeFault {
    fn fmt<W: fmt::Write>(&self, f: &mut fmt::Formatter<W>) -> fmt::Result {
        match self {
            AgeFault::BadEnd => write!(f, "no name of a file has this end"),
            AgeFault::GivenTwice => write!(f, "these files have an age already"),
            AgeFault::TooMany => write!(f, "there are more than 64 ends"),
            AgeFault::Memory => write!(f, "there was no memory"),
        }
    }
}

impl Error for AgeFault {}

impl From<AllocError> for AgeFault {
    ghost use Rattle.std.specs.Prelude.{◌≡◌};
    ghost use Rattle.sws_site.specs.declared.age_faults.AgeFault.TheVariants.{Memory};

    ghost from_gives = { λ error fault. fault ≡ Memory };

    fn from(_error: AllocError) -> AgeFault {
        AgeFault::Memory
    }
}
