//! How the passes of a lock come together again.
ghost use Rattle.std.specs.Prelude.{◌≡◌, ◌==◌, ℕ, ◌<◌, false, length, count_by};
ghost use mathlib.Core.Option.{some};
ghost use lib.ListN.{get_elem?};
ghost use Rattle.mely_lock.specs.Rule.{inside_word};
ghost use Rattle.mely_lock.specs.Steps.{Closes};
ghost use Rattle.mely_lock.specs.Views.{HasClaim, shares_of};
ghost use Rattle.mely_lock.specs.Words.{front, IsOutside};

use crate::lock_rule::{INSIDE, LockTable, PassSeat};
use crate::pass::Pass;
use crate::steps::{JoinPass, NewSeat};
use mely_event::Kept;

/// A seat that is outside, with the claims of all these passes.
pub(crate) fn gather<V: Kept>(room: &LockTable<V>, passes: Vec<Pass<V>>) -> PassSeat<V>
    requires size { inside_word < room.now.shared.table_id.words }
    requires each { (k : ℕ) (p : _) → get_elem? passes.items k ≡ some p
        → (p.place.table_id ≡ room.now.shared.table_id) × IsOutside p }
    ensures table { result.table_id ≡ room.now.shared.table_id }
    ensures outside { result.me.0.inside ≡ false }
    ensures many { length result.me.0.claims ≡ length passes.items }
    ensures shares { (n : ℕ) → shares_of n result.me.0.claims
        ≡ count_by (λ p. p.number == n) passes.items }
    ensures each { (k : ℕ) (p : _) → get_elem? passes.items k ≡ some p
        → HasClaim result.me.0.claims p.number (front p) }
{
    let mut passes = passes;
    let (_, mut seat) = room.shared.load_new_seat::<NewSeat>(INSIDE);
    while let Some(pass) = passes.pop() {
        let Pass {
            number: _,
            seen: _,
            place,
        } = pass;
        room.shared.join_seat::<JoinPass>(&mut seat, place);
    }
    seat
}

/// Closes the lock with a seat that has the claims of all passes, and takes the value out.
pub(crate) fn take_back<V: Kept>(room: LockTable<V>, seat: PassSeat<V>) -> V
    requires table { seat.table_id ≡ room.shared.table_id }
    requires slot { room.shared.table_id.slots ≡ 1 }
    requires outside { seat.me.0.inside ≡ false }
    requires all { length seat.me.0.claims ≡ room.shared.key.passes }
    ensures { Closes V.history_of V.pass_of V.frame_of (V.frame_of room.shared.key.value.value)
        room.shared.key.passes seat.me.0.claims result }
{
    let mut closed = room.close_with(seat);
    let slot = closed.take(0);
    closed.free();
    let Some(value) = slot else { unreachable!() };
    value
}
