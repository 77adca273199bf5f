//! The lock itself: making it with its passes, entering it, and closing it.
ghost use Rattle.std.specs.Prelude.{◌≡◌};
ghost use Rattle.mely_lock.specs.Rule.{lock_words};

use crate::closing::{gather, take_back};
use crate::dealing::{deal, lay_round};
use crate::held::Held;
use crate::lock_key::LockKey;
use crate::lock_rule::{LockTable, SPARE};
use crate::pass::Pass;
use mely_event::{Kept, Memory};
use std::alloc::Global;
use std::marker::PhantomData;
use std::snapshot::Snapshot;
use std::sync::Wait;
use std::sync::atomic::AtomicU32;

/// A lock round a kept value, which is entered with a pass. One pass at a time is inside,
/// with the value in its hand.
///
/// Callers share it by `&`. Its passes are made with it, and no others fit it.
#[derive(Drop)]
pub struct Ticketed<V: Kept> {
    pub(crate) room: LockTable<V>,
    pub(crate) passes: u16,
    /// How many passes sleep, or look once more before they do. It is under no part of the rule: it
    /// only saves the call that wakes a sleeper where there is none.
    pub(crate) sleepers: AtomicU32,
    /// Empty for good: all it is for is its room, which lies behind the words and the
    /// slot, as [`SPARE`] says.
    pub(crate) apart: Vec<u64>,
    ghost sized: { (room.shared.table_id.words ≡ lock_words) × (room.shared.table_id.slots ≡ 1) },
    ghost counted: { room.shared.key.passes ≡ passes },
}

impl<V: Kept + Drop> Ticketed<V> {
    ghost use Rattle.std.specs.Prelude.{ℕ, ◌<◌, [], length, slice_index_or, IfOk, IfErr, All};
    ghost use Rattle.mely_lock.specs.Words.{initial_value, front, IsPassOf, IsOutside};

    /// A lock round `value`, whose history is empty, and its passes, 1 to 65,535, numbered from 0
    /// in the order of the list.
    ///
    /// Each is outside and has seen nothing.
    ///
    /// # Errors
    ///
    /// There was no memory: the value is dropped. [`new_or_back`](Ticketed::new_or_back) hands it
    /// back.
    pub fn new(alloc: Global, value: V, passes: u16) -> Result<(Ticketed<V>, Vec<Pass<V>>), Memory>
        requires some { 0 < passes }
        requires empty { V.history_of value ≡ [] }
        ensures frame { IfOk result (λ r. V.frame_of (initial_value r.0) ≡ V.frame_of value) }
        ensures count { IfOk result (λ r. (r.0.passes ≡ passes) × (length r.1.items ≡ passes)) }
        ensures each { IfOk result (λ r. All (λ p. IsPassOf V.frame_of r.0 p × IsOutside p
            × (front p ≡ [])) r.1.items) }
        ensures numbers { IfOk result (λ r. (n : ℕ) (p : _) → n < passes
            → (slice_index_or r.1.items n p).number ≡ n) }
    {
        match Ticketed::new_or_back(alloc, value, passes) {
            Ok(made) => Ok(made),
            Err(_) => Err(Memory),
        }
    }

    /// What [`new`](Ticketed::new) makes, or the value again.
    ///
    /// # Errors
    ///
    /// There was no memory: the value is handed back as it came.
    pub fn new_or_back(
        alloc: Global,
        value: V,
        passes: u16,
    ) -> Result<(Ticketed<V>, Vec<Pass<V>>), V>
        requires some { 0 < passes }
        requires empty { V.history_of value ≡ [] }
        ensures frame { IfOk result (λ r. V.frame_of (initial_value r.0) ≡ V.frame_of value) }
        ensures count { IfOk result (λ r. (r.0.passes ≡ passes) × (length r.1.items ≡ passes)) }
        ensures each { IfOk result (λ r. All (λ p. IsPassOf V.frame_of r.0 p × IsOutside p
            × (front p ≡ [])) r.1.items) }
        ensures numbers { IfOk result (λ r. (n : ℕ) (p : _) → n < passes
            → (slice_index_or r.1.items n p).number ≡ n) }
        ensures back { IfErr result (λ back. back ≡ value) }
    {
        let Ok(apart) = Vec::with_capacity(alloc, SPARE) else {
            return Err(value);
        };
        let Ok(dealt) = Vec::with_capacity(alloc, passes as usize) else {
            return Err(value);
        };
        let Ok(slots) = Vec::with_capacity(alloc, 1) else {
            return Err(value);
        };
        let about = LockKey {
            value: Snapshot::of(&value),
            passes,
        };
        let (room, mut rest) = lay_round(alloc, value, &about, slots)?;
        let dealt = deal(&room, &mut rest, passes, dealt);
        let sleepers = AtomicU32::new(0);
        Ok((
            Ticketed {
                room,
                passes,
                sleepers,
                apart,
            },
            dealt,
        ))
    }
}

impl<V: Kept> Ticketed<V> {
    ghost use Rattle.std.specs.Prelude.{ℕ, ◌<◌, ◌≤◌, [], length, All, Any};
    ghost use Rattle.mely_lock.specs.Seen.{notes_of, OthersSince};
    ghost use Rattle.mely_lock.specs.Words.{initial_value, front, own, IsPassOf, IsOutside, IsInside};

    /// Waits until nobody is inside, and goes in.
    ///
    /// `pass` is one of this lock's and is outside. The history of the value then begins with
    /// all that the pass had seen, and only other passes made notes since; the pass has now
    /// seen the whole. The frame is as it was when the lock was made. It takes no memory.
    /// Between two tries it may sleep until somebody leaves. Nothing is promised of when it
    /// comes in, or who is first.
    pub fn enter<'a, R: Wait>(&'a self, rt: &R, pass: &mut Pass<V>) -> Held<'a, V>
        requires { IsPassOf V.frame_of self.now pass.old × IsOutside pass.old }
        ensures pass { IsPassOf V.frame_of self.now pass.new × IsInside pass.new
            × (pass.new.number ≡ pass.old.number) }
        ensures point { OthersSince V.pass_of pass.old.number (front pass.old) (front pass.new) }
        ensures seen { front pass.new ≡ V.history_of result.value }
        ensures held { (result.lock.now ≡ self.now)
            × (V.frame_of result.value ≡ V.frame_of (initial_value self.now)) }
    {
        let value = self.go_in(rt, &mut pass.place, pass.number);
        pass.seen = value.notes();
        Held {
            lock: self,
            value,
            exclusive: PhantomData,
        }
    }

    /// Gives the value back, once all passes are: as many as the lock was made with, each
    /// of this lock, none inside.
    ///
    /// The history of the value begins with what each pass had seen. Its notes of a pass's number
    /// are that pass's own, in their order; each number that was dealt out is that of one of the
    /// passes, and there are no notes of another number. The frame is as it was when the lock was
    /// made. It takes no memory.
    pub fn close(self, passes: Vec<Pass<V>>) -> V
        requires all { length passes.items ≡ self.passes }
        requires each { All (λ p. IsPassOf V.frame_of self p × IsOutside p) passes.items }
        ensures frame { V.frame_of result ≡ V.frame_of (initial_value self) }
        ensures fronts { All (λ p.
            OthersSince V.pass_of p.number (front p) (V.history_of result)) passes.items }
        ensures own { All (λ p. notes_of V.pass_of p.number (V.history_of result)
            ≡ own V.pass_of p) passes.items }
        ensures numbers { (n : ℕ) → n < self.passes → Any (λ p. p.number ≡ n) passes.items }
        ensures strangers { (n : ℕ) → self.passes ≤ n
            → notes_of V.pass_of n (V.history_of result) ≡ [] }
    {
        let Ticketed {
            room,
            passes: _,
            sleepers: _,
            apart: _,
        } = self;
        let seat = gather(&room, passes);
        take_back(room, seat)
    }
}
