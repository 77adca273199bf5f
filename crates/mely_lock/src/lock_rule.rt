//! The rule of a lock, as the base crate asks for it.
use crate::lock_key::LockKey;
use crate::seat_knowledge::SeatKnowledge;
use atomic_table::{Seat, Table, TableRule};
use mely_event::Kept;
use std::alloc::Global;
use std::marker::PhantomData;

/// The rule of a lock round a kept value, which holds between any two steps.
pub struct LockRule<V> {
    kept: PhantomData<V>,
}

impl<V: Kept> TableRule<Option<V>, SeatKnowledge<V::Note, V::Frame>, LockKey<V>> for LockRule<V> {
    ghost use Rattle.mely_lock.specs.Rule.{Locked};
    ghost use Rattle.mely_lock.specs.Views.{initial_view};

    ghost holds = { λ about.
        Locked V.history_of V.pass_of V.frame_of (V.frame_of about.value.value) about.passes };

    ghost first = { λ about. initial_view about.passes (V.frame_of about.value.value) };
}

/// The seat of a pass.
pub type PassSeat<V> = Seat<Option<V>, SeatKnowledge<<V as Kept>::Note, <V as Kept>::Frame>>;

/// How many words of 64 bits lie unused before those of a lock, and behind them and its slot:
/// those of a line of 64 bytes.
///
/// A processor takes memory from another by such lines. Where the words or slots of two locks lie
/// on one, a step on one lock takes the line from who is inside the other, though the locks share
/// nothing: this is called false sharing. As an allocator mostly gives one place behind another, so
/// much room on both sides keeps other locks off the line, wherever it begins. It is under no part
/// of the rule, and costs time alone where an allocator does otherwise.
pub(crate) const SPARE: usize = 8;

/// The word that says who is inside: 0 for nobody, and otherwise one more
/// than the number of the pass.
pub(crate) const INSIDE: usize = 8;

/// The word that has the length of the history.
pub(crate) const NOTES: usize = 9;

/// How many words a lock has, with the [`SPARE`] ones before `INSIDE`, which nobody touches.
pub(crate) const WORDS: usize = 10;

/// The words and the slot of a lock.
pub type LockTable<V> = Table<
    Option<V>,
    SeatKnowledge<<V as Kept>::Note, <V as Kept>::Frame>,
    LockKey<V>,
    LockRule<V>,
    Global,
>;
