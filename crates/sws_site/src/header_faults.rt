//! Why a header field is not added to a site.
use std::alloc::AllocError;
use std::error::Error;
use std::fmt;

/// Why a header field can't be added to the lines of a site.
#[derive(Clone, Copy, Debug, PartialEq, Eq)]
pub enum HeaderFault {
    /// The name is no token (RFC 9110, section 5.6.2).
    BadName,
    /// The value has a byte other than a visible one of ASCII, a space or a tab, or it is empty, or
    /// it begins or ends with a space or a tab (RFC 9110, section 5.5).
    BadValue,
    /// The server sends such a field itself, or the field says how a message ends.
    SentAlready,
    /// With this one all lines together have more than 1,024 bytes.
    TooLong,
    /// An allocation was refused.
    Memory,
}

impl fmt::Display for HeaderFault {
    fn fmt<W: fmt::Write>(&self, f: &mut fmt::Formatter<W>) -> fmt::Result {
        match self {
            HeaderFault::BadName => write!(f, "its name is no token"),
            HeaderFault::BadValue => write!(
                f,
                "its value is empty, has a blank at an end, or has a byte that isn't visible ASCII"
            ),
            HeaderFault::SentAlready => write!(
                f,
                "the server itself sends or leaves out this field"
            ),
            HeaderFault::TooLong => {
                write!(f, "with it all lines together have more than 1,024 bytes")
            }
            HeaderFault::Memory => write!(f, "there was no memory"),
        }
    }
}

impl Error for HeaderFault {}

impl From<AllocError> for HeaderFault {
    ghost use Rattle.std.specs.Prelude.{◌≡◌};
    ghost use Rattle.sws_site.specs.declared.header_faults.HeaderFault.TheVariants.{Memory};

    ghost from_gives = { λ error fault. fault ≡ Memory };

    fn from(_error: AllocError) -> HeaderFault {
        HeaderFault::Memory
    }
}
