//! Want of memory, as the runtime answers it.
use std::alloc::{AllocError, AllocFailed};
use std::error::Error;
use std::fmt;

/// There was no memory. Each call that can answer this says what stands after it.
#[derive(Clone, Copy, Debug, PartialEq, Eq)]
pub struct Memory;

impl fmt::Display for Memory {
    fn fmt<W: fmt::Write>(&self, f: &mut fmt::Formatter<W>) -> fmt::Result {
        f.write_str("there was no memory")
    }
}

impl Error for Memory {}

impl From<AllocError> for Memory {
    fn from(_error: AllocError) -> Memory {
        Memory
    }
}

impl<T: Drop> From<AllocFailed<T>> for Memory {
    fn from(_failed: AllocFailed<T>) -> Memory {
        Memory
    }
}
