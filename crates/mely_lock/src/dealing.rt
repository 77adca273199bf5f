//! How a new lock's table is laid round its value, and its passes are dealt out.
ghost use Rattle.std.specs.Prelude.{◌≡◌, ℕ, ◌<◌, ◌≤◌, [], length, IfOk, IfErr, vec_capacity};
ghost use mathlib.Core.Option.{some};
ghost use lib.ListN.{get_elem?};
ghost use Rattle.mely_lock.specs.Rule.{lock_words};
ghost use Rattle.mely_lock.specs.Views.{initial_view};
ghost use Rattle.mely_lock.specs.Words.{front, told_frame, IsOutside};

use crate::lock_key::LockKey;
use crate::lock_rule::{LockTable, PassSeat, WORDS};
use crate::pass::Pass;
use crate::steps::SplitPass;
use atomic_table::Table;
use mely_event::Kept;
use std::alloc::Global;

/// The table of a lock with the value in its one slot, and the first seat, which has all claims.
/// `slots` is empty, with room for it.
///
/// # Errors
///
/// There was no memory: the value is handed back.
pub(crate) fn lay_round<V: Kept>(
    alloc: Global,
    value: V,
    about: &LockKey<V>,
    slots: Vec<Option<V>>,
) -> Result<(LockTable<V>, PassSeat<V>), V>
where
    V: Drop,
    requires told { about.now.value.value ≡ value }
    requires empty { V.history_of value ≡ [] }
    requires slots { slots.items ≡ [] }
    requires reserved { 0 < vec_capacity slots }
    ensures sized { IfOk result (λ r. (r.0.shared.table_id.words ≡ lock_words)
        × (r.0.shared.table_id.slots ≡ 1)) }
    ensures key { IfOk result (λ r. r.0.shared.key ≡ about.now) }
    ensures table { IfOk result (λ r. r.1.table_id ≡ r.0.shared.table_id) }
    ensures first { IfOk result (λ r. r.1.me
        ≡ (initial_view about.now.passes (V.frame_of value), [])) }
    ensures back { IfErr result (λ back. back ≡ value) }
{
    let mut slots = slots;
    slots.push_reserved(Some(value));
    match Table::new(alloc, &[0; WORDS], slots, about) {
        Ok(made) => Ok(made),
        Err(refused) => {
            let mut slots = refused.slots;
            let Some(Some(value)) = slots.pop() else {
                unreachable!()
            };
            Err(value)
        }
    }
}

/// One pass for each number, out of the first seat, which has all claims. They come into the
/// emptied list, which has room for them.
pub(crate) fn deal<V: Kept>(
    room: &LockTable<V>,
    rest: &mut PassSeat<V>,
    passes: u16,
    dealt: Vec<Pass<V>>,
) -> Vec<Pass<V>>
    requires table { (rest.old.table_id ≡ room.now.shared.table_id)
        × (0 < room.now.shared.table_id.words) }
    requires first { rest.old.me
        ≡ (initial_view passes (V.frame_of room.now.shared.key.value.value), []) }
    requires none { dealt.items ≡ [] }
    requires reserved { passes ≤ vec_capacity dealt }
    ensures count { length result.items ≡ passes }
    ensures each { (k : ℕ) (p : _) → get_elem? result.items k ≡ some p → (p.number ≡ k)
        × (front p ≡ []) × IsOutside p × (p.place.table_id ≡ room.now.shared.table_id)
        × (told_frame p ≡ Some (V.frame_of room.now.shared.key.value.value)) }
{
    let mut dealt = dealt;
    for number in 0..passes {
        let place = room.shared.split_seat::<SplitPass>(rest);
        dealt.push_reserved(Pass {
            number,
            seen: 0,
            place,
        });
    }
    dealt
}
