//! The answer of a judgement.

/// What a judgement of a history says.
#[derive(Clone, Copy, Debug, PartialEq, Eq)]
pub enum Judged {
    /// Each entry is allowed after the entries before it.
    Legal,

    /// The entry at this place is the first that is not allowed after the entries before it.
    NotAllowed { at: usize },
}
