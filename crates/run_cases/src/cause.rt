//! Why a line is no case.
use std::alloc::{AllocError, AllocFailed};
use std::fmt;

/// What is wrong with a line.
#[derive(Clone, Copy)]
pub enum Cause {
    /// It begins with no verb.
    NoVerb,

    /// What should be a text spells no bytes.
    NoText,

    /// What should be a number is none, or is too great.
    NoNumber,

    /// There is no such place where a call could fail.
    NoPlace,

    /// The last run has written no journal.
    NoJournal,

    /// The words of a command are no UTF-8.
    NoWords,

    /// Something stands behind a verb that takes nothing.
    TooMuch,

    /// It is the last one of a text that no full stop ends.
    NoEnd,

    /// There is no memory for it.
    Memory,
}

impl From<AllocError> for Cause {
    fn from(_error: AllocError) -> Cause {
        Cause::Memory
    }
}

impl<T: Drop> From<AllocFailed<T>> for Cause {
    fn from(_failed: AllocFailed<T>) -> Cause {
        Cause::Memory
    }
}

/// The first line that is no case, counted from 1, and what is wrong with it.
#[derive(Clone, Copy)]
pub struct CaseFault {
    pub line: u64,
    pub cause: Cause,
}

impl fmt::Display for CaseFault {
    fn fmt<W: fmt::Write>(&self, f: &mut fmt::Formatter<W>) -> fmt::Result {
        let line = self.line;
        match self.cause {
            Cause::NoVerb => write!(f, "line {line} begins with no verb"),
            Cause::NoText => write!(f, "line {line} has no text where one belongs"),
            Cause::NoNumber => write!(f, "line {line} has no number where one belongs"),
            Cause::NoPlace => write!(f, "line {line} names no place of a call"),
            Cause::NoJournal => write!(f, "line {line} asks for a journal, and there is none"),
            Cause::NoWords => write!(f, "line {line} has words that are no UTF-8"),
            Cause::TooMuch => write!(
                f,
                "line {line} has something behind a verb that takes nothing"
            ),
            Cause::NoEnd => write!(f, "line {line} ends a text that has no full stop"),
            Cause::Memory => write!(f, "line {line} finds no memory"),
        }
    }
}
