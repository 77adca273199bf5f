//! One line of a log.
use crate::Brief;

/// What a log says of one answer, which was written whole.
#[derive(Clone, Copy, Debug, PartialEq, Eq)]
pub struct LogLine {
    /// The number of the connection, from 0.
    pub conn: u16,

    /// Which answer of its connection it is, from 1.
    pub turn: u16,

    /// The status code.
    pub code: u16,

    /// How many bytes the response has, head and body.
    pub length: u64,

    /// The first 64 bytes of the request's target, or `-` where there was no request.
    pub target: Brief,
}
