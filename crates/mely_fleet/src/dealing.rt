//! How locks are made, and their passes dealt out.
ghost use Rattle.std.specs.Prelude.{◌≡◌, ◌<◌, ◌+◌, [], ℕ, Some, length, vec_len, vec_capacity, IfOk, OnOk, All, slice_get, slice_index_or};
ghost use Rattle.mely_lock.specs.Words.{initial_value};
ghost use Rattle.mely_fleet.specs.Dealing.{IsAdded, IsInitialRow};
ghost use Rattle.mely_fleet.specs.Rows.{HavePasses};

use crate::closing::hand_in;
use crate::room::columns;
use mely_event::{Kept, Memory};
use mely_lock::{Pass, Ticketed};
use std::alloc::Global;

/// Puts a lock round one more value behind the others, and its passes behind those in the rows, one
/// for each number. The lists have room for them.
fn add_lock<V: Kept + Drop>(
    alloc: Global,
    value: V,
    passes: u16,
    locks: &mut Vec<Ticketed<V>>,
    rows: &mut Vec<Vec<Pass<V>>>,
) -> Result<(), Memory>
    requires some { 0 < passes }
    requires empty { V.history_of value ≡ [] }
    requires many { length rows.old.items ≡ passes }
    requires room { vec_len locks.old < vec_capacity locks.old }
    requires row_room { (n : ℕ) (d : _) → n < passes →
        vec_len (slice_index_or rows.old.items n d) < vec_capacity
        (slice_index_or rows.old.items n d) }
    ensures many { length rows.new.items ≡ passes }
    ensures added { OnOk result (IsAdded V.frame_of passes value locks.old.items
        locks.new.items) }
    ensures rows { OnOk result ((n : ℕ) (d : _) → n < passes
        → IsInitialRow V.frame_of locks.old.items n (slice_index_or rows.old.items n d).items
        → IsInitialRow V.frame_of locks.new.items n (slice_index_or rows.new.items n d).items) }
    ensures len { OnOk result (vec_len locks.new ≡ vec_len locks.old + 1) }
    ensures capacity { OnOk result (vec_capacity locks.new ≡ vec_capacity locks.old) }
    ensures row_len { OnOk result ((n : ℕ) (d : _) → n < passes →
        vec_len (slice_index_or rows.new.items n d)
        ≡ vec_len (slice_index_or rows.old.items n d) + 1) }
    ensures row_capacity { OnOk result ((n : ℕ) (d : _) → n < passes →
        vec_capacity (slice_index_or rows.new.items n d)
        ≡ vec_capacity (slice_index_or rows.old.items n d)) }
{
    let (lock, dealt) = Ticketed::new(alloc, value, passes)?;
    hand_in(dealt, rows);
    locks.push_reserved(lock);
    Ok(())
}

/// A lock round each value, and as many rows of passes, one for each number.
pub(crate) fn lock_all<V: Kept + Drop>(
    alloc: Global,
    values: Vec<V>,
    passes: u16,
) -> Result<(Vec<Ticketed<V>>, Vec<Vec<Pass<V>>>), Memory>
    requires some { 0 < passes }
    requires empty { All (λ v. V.history_of v ≡ []) values.items }
    ensures locks { IfOk result (λ r. length r.0.items ≡ length values.items) }
    ensures many { IfOk result (λ r. length r.1.items ≡ passes) }
    ensures rows { IfOk result (λ r. (n : ℕ) (d : _) → n < passes →
        IsInitialRow V.frame_of r.0.items n (slice_index_or r.1.items n d).items) }
    ensures frames { IfOk result (λ r. (k : ℕ) (lock : _) (value : _)
        → slice_get r.0.items k ≡ Some lock
        → slice_get values.items k ≡ Some value
        → V.frame_of (initial_value lock) ≡ V.frame_of value) }
    ensures dealt { IfOk result (λ r. HavePasses passes r.0.items) }
{
    let many = values.len();
    let mut rows = columns(alloc, passes, many)?;
    let mut locks = Vec::with_capacity(alloc, many)?;
    'locks: for value in values {
        add_lock(alloc, value, passes, &mut locks, &mut rows)?;
    }
    Ok((locks, rows))
}
