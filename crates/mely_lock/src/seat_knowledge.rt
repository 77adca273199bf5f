//! What a seat of a lock knows.
use crate::claim::Claim;
use std::collections::LinkedList;

/// What a seat knows, where a seat is what a thread makes its steps with. It is for contracts
/// alone: no value of it is made.
///
/// A pass has a seat with one claim. The seat that deals out the passes, and the one that takes
/// them in again, have more or none.
pub struct SeatKnowledge<N, F> {
    /// The claims of the passes whose seat this is.
    pub claims: LinkedList<Claim<N, F>>,
    /// Whether a pass is inside with it.
    pub inside: bool,
}
