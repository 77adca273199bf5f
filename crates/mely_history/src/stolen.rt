//! What a steal answers.

/// A colour that was stolen: the core that owned it, how many of its events had been started, and
/// its time left.
#[derive(Clone, Copy, Debug, PartialEq, Eq)]
pub struct Stolen {
    pub from: u16,
    pub started: u64,
    pub worth: u128,
}
