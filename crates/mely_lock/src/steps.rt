//! The kinds of step. A seat makes each of them in one atomic step on a word, so between two
//! steps of one pass any number of steps of others may lie; each kind says why its own seat's
//! knowledge stands all the same.
//!
//! Two more steps touch the slot alone: who has come in takes the value out of it, and puts it back
//! before a note. Nobody else can: the slot is then in that seat's hand.
use crate::seat_knowledge::SeatKnowledge;
use atomic_table::{Join, Play, Split};
use mely_event::Kept;
use std::marker::PhantomData;

/// A compare-exchange of the word `INSIDE` from 0 to the pass's number and one, made
/// by a pass that is outside.
///
/// Where it found another number than 0 somebody is inside, and nothing changes. Where it found 0
/// nobody was, so the value was at home: the pass has its slot, and has seen its whole history.
pub(crate) struct TryEnter<V> {
    kept: PhantomData<V>,
}

impl<V: Kept> Play<Option<V>, SeatKnowledge<V::Note, V::Frame>> for TryEnter<V> {
    ghost use Rattle.mely_lock.specs.Steps.{Tried};

    ghost then = { λ _. Tried V.history_of V.pass_of V.frame_of };
}

/// One more in the word `NOTES`, made by the pass inside once its value has one note more
/// and is back in the slot.
///
/// While a pass is inside no other changes `NOTES`, so it has the length of the history again.
pub(crate) struct AddNote<V> {
    kept: PhantomData<V>,
}

impl<V: Kept> Play<Option<V>, SeatKnowledge<V::Note, V::Frame>> for AddNote<V> {
    ghost use Rattle.mely_lock.specs.Steps.{Noted};

    ghost then = { λ _ m _. Noted V.history_of m };
}

/// A store of 0 in the word `INSIDE`, made by the pass inside, with the value in the slot.
///
/// The value goes home with the history that the pass has seen, and whoever
/// comes in next finds it so.
pub(crate) struct Leave;

impl<V, N, F> Play<Option<V>, SeatKnowledge<N, F>> for Leave {
    ghost use Rattle.mely_lock.specs.Steps.{Left};

    ghost then = { λ _ m _. Left m };
}

/// A load that makes a new seat. It is no pass's, so it claims nothing.
pub(crate) struct NewSeat;

impl<S, N, F> Play<S, SeatKnowledge<N, F>> for NewSeat {
    ghost use Rattle.std.specs.Prelude.{◌≡◌};
    ghost use Rattle.mely_lock.specs.Views.{nobody};

    ghost then = { λ _ _ _ m. m.0 ≡ nobody };
}

/// The cut of a seat in two, made by `new` for each pass: the first claim goes to the new seat.
///
/// No number is in two seats afterwards, since the first seat keeps the others alone.
pub(crate) struct SplitPass;

impl<N, F> Split<SeatKnowledge<N, F>> for SplitPass {
    ghost use Rattle.mely_lock.specs.Steps.{kept_of, dealt_of};

    ghost left = { kept_of };

    ghost right = { dealt_of };
}

/// The join of two seats that are outside, made by `close` for each pass: one has the claims of
/// both, and the other none.
pub(crate) struct JoinPass;

impl<N, F> Join<SeatKnowledge<N, F>> for JoinPass {
    ghost use Rattle.mely_lock.specs.Steps.{join_knowledge};
    ghost use Rattle.mely_lock.specs.Views.{nobody};

    ghost both = { join_knowledge };

    ghost spent = { nobody };
}
