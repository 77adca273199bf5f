//! What of a folder can't be read, and why.

use crate::errors::is_want_of_memory;
use std::alloc::AllocError;
use std::fmt;
use std::io::{self, ErrorKind};

/// Why something in a folder can't be read.
#[derive(Debug, Drop)]
pub enum Cause {
    /// The machine refuses it, as where the program has no right to it.
    Machine(io::Error),

    /// It is a folder that the machine doesn't list by the path of its descriptor, which is this one:
    /// as where there is no `/proc`.
    Listing(String, io::Error),

    /// A name in this folder isn't UTF-8.
    Name,

    /// It is a folder that lies more than 32 folders deep.
    Depth,

    /// Another file has taken its place since it was listed.
    Replaced,
}

/// Something in a folder that can't be read.
#[derive(Debug, Drop)]
pub struct Unread {
    /// Its path, from the folder of the walk on: of a folder with a slash at its end, and nothing
    /// of the folder of the walk itself.
    pub path: String,
    pub cause: Cause,
}

impl From<io::Error> for Cause {
    fn from(error: io::Error) -> Cause {
        Cause::Machine(error)
    }
}

impl From<AllocError> for Cause {
    fn from(error: AllocError) -> Cause {
        Cause::Machine(io::Error::from(error))
    }
}

impl Cause {
    /// Whether an allocation of this program was refused.
    pub fn is_want_of_memory(&self) -> bool {
        match self {
            Cause::Machine(error) | Cause::Listing(_, error) => is_want_of_memory(error),
            Cause::Name | Cause::Depth | Cause::Replaced => false,
        }
    }

    /// Whether the same is to be expected the next time: a file that has just gone, or one that the
    /// machine has no descriptor for now, may be read then.
    pub fn is_lasting(&self) -> bool {
        match self {
            Cause::Machine(error) | Cause::Listing(_, error) => {
                matches!(error.kind(), ErrorKind::PermissionDenied)
            }
            Cause::Name | Cause::Depth => true,
            Cause::Replaced => false,
        }
    }
}

impl fmt::Display for Cause {
    fn fmt<W: fmt::Write>(&self, f: &mut fmt::Formatter<W>) -> fmt::Result {
        match self {
            Cause::Machine(error) => error.fmt(f),
            Cause::Listing(path, error) => write!(f, "{path}, by which it is listed: {error}"),
            Cause::Name => f.write_str("a name in it isn't UTF-8"),
            Cause::Depth => f.write_str("it lies more than 32 folders deep"),
            Cause::Replaced => f.write_str("another file has taken its place"),
        }
    }
}

impl fmt::Display for Unread {
    fn fmt<W: fmt::Write>(&self, f: &mut fmt::Formatter<W>) -> fmt::Result {
        let Unread { path, cause } = self;
        if path.is_empty() {
            return write!(f, "the folder itself: {cause}");
        }
        write!(f, "{path}: {cause}")
    }
}
