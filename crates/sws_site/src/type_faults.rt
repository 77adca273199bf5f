//! Why a media type is not added to a site.
use std::alloc::AllocError;
use std::error::Error;
use std::fmt;

/// Why a media type can't be added to those that a site knows.
#[derive(Clone, Copy, Debug, PartialEq, Eq)]
pub enum TypeFault {
    /// The extension is empty, or has a byte that is no letter or digit of ASCII.
    BadExtension,
    /// It is no media type, with one parameter at most (RFC 9110, section 8.3.1), or it has more
    /// than 80 bytes.
    BadType,
    /// An allocation was refused.
    Memory,
}

impl fmt::Display for TypeFault {
    fn fmt<W: fmt::Write>(&self, f: &mut fmt::Formatter<W>) -> fmt::Result {
        match self {
            TypeFault::BadExtension => write!(f, "its extension has more than letters and digits"),
            TypeFault::BadType => write!(
                f,
                "it is no media type of at most 80 bytes, with one parameter at most"
            ),
            TypeFault::Memory => write!(f, "there was no memory"),
        }
    }
}

impl Error for TypeFault {}

impl From<AllocError> for TypeFault {
    ghost use Rattle.std.specs.Prelude.{◌≡◌};
    ghost use Rattle.sws_site.specs.declared.type_faults.TypeFault.TheVariants.{Memory};

    ghost from_gives = { λ error fault. fault ≡ Memory };

    fn from(_error: AllocError) -> TypeFault {
        TypeFault::Memory
    }
}
