//! What the machine's errors mean.

use std::io::{self, ErrorKind};

/// Whether an allocation of this program was refused; every other error is one of the machine.
pub fn is_want_of_memory(error: &io::Error) -> bool {
    matches!(error.kind(), ErrorKind::OutOfMemory) && error.raw_os_error().is_none()
}
