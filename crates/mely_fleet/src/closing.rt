//! How the locks of a fleet are closed.
ghost use Rattle.std.specs.Prelude.{◌≡◌, ◌≤◌, ◌<◌, ◌+◌, ◌++◌, ◌∷◌, [], ℕ, Some, length, map, slice_get, slice_index_or, vec_len, vec_capacity};
ghost use Rattle.mely_fleet.specs.Closed.{AreAllPasses, AreColumns, AreFilled, IsClosed, IsTakenOut};

use crate::passes::PassesOf;
use mely_core::CoreQueue;
use mely_event::{Fits, Kept, Trail};
use mely_kept::KeptShard;
use mely_kept_chain::KeptChain;
use mely_lock::{Pass, Ticketed};
use mely_shard::Shard;

/// Puts each pass of a row behind those of its lock, in lists that have room.
pub(crate) fn hand_in<V: Kept>(row: Vec<Pass<V>>, columns: &mut Vec<Vec<Pass<V>>>)
    requires as_many { length columns.old.items ≡ length row.items }
    requires room { (k : ℕ) (d : _) → k < length columns.old.items →
        vec_len (slice_index_or columns.old.items k d) < vec_capacity
        (slice_index_or columns.old.items k d) }
    ensures many { length columns.new.items ≡ length columns.old.items }
    ensures each { (k : ℕ) (d : _) (p : _) → k < length columns.old.items →
        (slice_index_or columns.new.items k d).items
        ≡ (slice_index_or columns.old.items k d).items ++ slice_index_or row.items k p ∷ [] }
    ensures len { (k : ℕ) (d : _) → k < length columns.old.items →
        vec_len (slice_index_or columns.new.items k d)
        ≡ vec_len (slice_index_or columns.old.items k d) + 1 }
    ensures capacity { (k : ℕ) (d : _) → k < length columns.old.items →
        vec_capacity (slice_index_or columns.new.items k d)
        ≡ vec_capacity (slice_index_or columns.old.items k d) }
{
    let mut row = row;
    'hand: while let Some(pass) = row.pop() {
        let place = row.len();
        let column = &mut columns[place];
        column.push_reserved(pass);
    }
}

/// Closes each lock with all its passes. The values come in the order of the locks, into a
/// list that has room for them.
pub(crate) fn close_all<V: Kept + Drop>(
    locks: Vec<Ticketed<V>>,
    columns: Vec<Vec<Pass<V>>>,
    values: Vec<V>,
) -> Vec<V>
    requires as_many { length columns.items ≡ length locks.items }
    requires all { (k : ℕ) (lock : _) (column : _) → slice_get locks.items k ≡ Some lock
        → slice_get columns.items k ≡ Some column → AreAllPasses V.frame_of lock column.items }
    requires empty { values.items ≡ [] }
    requires room { length locks.items ≤ vec_capacity values }
    ensures many { length result.items ≡ length locks.items }
    ensures each { (k : ℕ) (lock : _) (value : _) → slice_get locks.items k ≡ Some lock
        → slice_get result.items k ≡ Some value
        → (column : _) → slice_get columns.items k ≡ Some column
        → IsClosed V.history_of V.pass_of V.frame_of lock column.items value }
{
    let mut values = values;
    let mut columns_left = columns;
    columns_left.reverse();
    'locks: for lock in locks {
        let Some(column) = columns_left.pop() else {
            unreachable!()
        };
        values.push_reserved(lock.close(column));
    }
    values
}

/// Puts the passes of all callers into the lists of their locks, which are empty and have room.
pub(crate) fn hand_in_all<V: Kept + Drop>(
    passes: Vec<PassesOf<V>>,
    shard_columns: &mut Vec<Vec<Pass<V>>>,
    chain_columns: &mut Vec<Vec<Pass<KeptChain>>>,
)
    requires shards { (n : ℕ) (own : _) → slice_get passes.items n ≡ Some own
        → length own.shards.items ≡ length shard_columns.old.items }
    requires chains { (n : ℕ) (own : _) → slice_get passes.items n ≡ Some own
        → length own.chains.items ≡ length chain_columns.old.items }
    requires shard_room { let many = length passes.items in
        AreFilled (λ list. list.items) vec_len vec_capacity [] many shard_columns.old.items }
    requires chain_room { let many = length passes.items in
        AreFilled (λ list. list.items) vec_len vec_capacity [] many chain_columns.old.items }
    ensures many { (length shard_columns.new.items ≡ length shard_columns.old.items)
        × (length chain_columns.new.items ≡ length chain_columns.old.items) }
    ensures shard_columns { let rows = map (λ own. own.shards.items) passes.items in
        AreColumns (λ list. list.items) rows shard_columns.new.items }
    ensures chain_columns { let rows = map (λ own. own.chains.items) passes.items in
        AreColumns (λ list. list.items) rows chain_columns.new.items }
{
    'rows: for own in passes {
        let PassesOf {
            number: _,
            shards,
            chains,
        } = own;
        hand_in(shards, shard_columns);
        hand_in(chains, chain_columns);
    }
}

/// The shards that locks kept, into a list that has room for them.
pub(crate) fn shards_out<S: Fits<P> + Drop, P: Drop>(
    kept: Vec<KeptShard<S, P>>,
    shards: Vec<Shard<S, P>>,
) -> Vec<Shard<S, P>>
    requires empty { shards.items ≡ [] }
    requires room { length kept.items ≤ vec_capacity shards }
    ensures many { length result.items ≡ length kept.items }
    ensures each { (k : ℕ) (one : _) (has : _) → slice_get kept.items k ≡ Some one
        → slice_get result.items k ≡ Some has → IsTakenOut S.frame_of one has }
{
    let mut shards = shards;
    'kept: for one in kept {
        shards.push_reserved(one.into_shard());
    }
    shards
}

/// The chains that locks kept, into a list that has room for them.
pub(crate) fn chains_out(kept: Vec<KeptChain>, chains: Vec<CoreQueue>) -> Vec<CoreQueue>
    requires empty { chains.items ≡ [] }
    requires room { length kept.items ≤ vec_capacity chains }
    ensures many { length result.items ≡ length kept.items }
    ensures each { (k : ℕ) (one : _) (queue : _) → slice_get kept.items k ≡ Some one
        → slice_get result.items k ≡ Some queue → queue ≡ one.has }
{
    let mut chains = chains;
    'kept: for one in kept {
        chains.push_reserved(one.into_queue());
    }
    chains
}
