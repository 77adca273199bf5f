//! Where a frame ends.

/// Where the first frame of some bytes ends.
#[derive(Clone, Copy, Debug, PartialEq, Eq)]
pub enum Cut {
    /// It isn't whole yet.
    More,

    /// It has so many bytes, one at least.
    Frame(usize),

    /// The bytes begin with no frame, whatever comes behind them.
    Fault,
}
