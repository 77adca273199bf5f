//! Where a head ends, as an answer.

/// Where the first head of some bytes ends.
#[derive(Clone, Copy, Debug, PartialEq, Eq)]
pub enum Cut {
    /// After so many bytes, [`MAX_HEAD`](crate::MAX_HEAD) at most.
    Head { len: usize },
    /// There are as many bytes as a head may have, and none has ended within them.
    TooLong,
    /// More bytes may still make up a head.
    NotYet,
}
