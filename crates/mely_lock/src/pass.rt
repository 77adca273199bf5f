//! What lets a caller into a lock.
ghost use Rattle.std.specs.Prelude.{◌≡◌, length};
ghost use Rattle.mely_lock.specs.Views.{head_number, head_front};

use crate::lock_rule::PassSeat;
use mely_event::Kept;

/// Lets whoever has it into one lock, one at a time.
///
/// A pass knows what its owner has seen of the history: contracts have it as a list, `front`, and
/// the pass keeps its length. The notes of its own number lie in there, and nobody else can make
/// one. A pass that is dropped while it is inside leaves the lock shut for good.
#[derive(Drop)]
pub struct Pass<V: Kept> {
    pub(crate) number: u16,
    pub(crate) seen: u64,
    pub(crate) place: PassSeat<V>,
    ghost single: { length place.me.0.claims ≡ 1 },
    ghost numbered: { head_number place.me.0.claims ≡ number },
    ghost counted: { length (head_front place.me.0.claims) ≡ seen },
}

impl<V: Kept> Pass<V> {
    ghost use Rattle.mely_lock.specs.Words.{front};

    /// The number of the pass, which each note that is made with it has.
    pub fn number(&self) -> u16
        ensures { result ≡ self.now.number }
    {
        self.number
    }

    /// How many notes of the history its owner has seen.
    pub fn seen(&self) -> u64
        ensures { result ≡ length (front self.now) }
    {
        self.seen
    }
}
