//! Room for all that closing a fleet takes.
ghost use Rattle.std.specs.Prelude.{◌≡◌, ◌≤◌, [], IfOk, length, vec_len, vec_capacity};
ghost use Rattle.mely_history.specs.Setup.{shape_of};
ghost use Rattle.mely_fleet.specs.Closed.{AreFilled};

use mely_core::CoreQueue;
use mely_event::{Fits, Kept, Memory};
use mely_history::Setup;
use mely_kept::KeptShard;
use mely_kept_chain::KeptChain;
use mely_lock::Pass;
use mely_shard::Shard;
use mely_weave::WeaveRoom;
use std::alloc::Global;

/// Room for closing the locks of one kind. `V` is what a lock keeps, `T` what comes out of that.
#[derive(Drop)]
pub(crate) struct LocksRoom<T, V: Kept> {
    /// Empty lists with room for what all locks kept, and for what comes out of it.
    pub(crate) kept: Vec<V>,
    pub(crate) out: Vec<T>,

    /// For each lock an empty list with room for its passes.
    pub(crate) columns: Vec<Vec<Pass<V>>>,
}

/// Room for all that closing a fleet of a setup with so many passes takes, made beforehand, so that
/// [`close`](crate::FleetOf::close) takes no memory. `V` is what the locks of the shards keep.
#[derive(Drop)]
pub struct RoomOf<S: Fits<P>, P, V: Kept> {
    pub(crate) setup: Setup,
    pub(crate) passes: u16,
    pub(crate) weave: WeaveRoom<S, P>,
    pub(crate) shards: LocksRoom<Shard<S, P>, V>,
    pub(crate) chains: LocksRoom<CoreQueue, KeptChain>,
    ghost for_weave: { weave ≡ setup },
    ghost for_kept_shards: { (shards.kept.items ≡ [])
        × ((shape_of setup).shards ≤ vec_capacity shards.kept) },
    ghost for_shards: { (shards.out.items ≡ [])
        × ((shape_of setup).shards ≤ vec_capacity shards.out) },
    ghost for_kept_chains: { (chains.kept.items ≡ [])
        × ((shape_of setup).cores ≤ vec_capacity chains.kept) },
    ghost for_chains: { (chains.out.items ≡ [])
        × ((shape_of setup).cores ≤ vec_capacity chains.out) },
    ghost column_for_each_shard: { length shards.columns.items ≡ (shape_of setup).shards },
    ghost column_for_each_core: { length chains.columns.items ≡ (shape_of setup).cores },
    ghost for_shard_passes: { AreFilled (λ list. list.items) vec_len vec_capacity [] passes
        shards.columns.items },
    ghost for_chain_passes: { AreFilled (λ list. list.items) vec_len vec_capacity [] passes
        chains.columns.items },
}

/// Room for all that closing a [`Fleet`](crate::Fleet) takes, made beforehand.
pub type Room<S, P> = RoomOf<S, P, KeptShard<S, P>>;

impl<S: Fits<P> + Drop, P: Drop> RoomOf<S, P, KeptShard<S, P>> {
    ghost use Rattle.std.specs.Prelude.{◌+◌};

    /// Room for a fleet of this setup, with the passes of its cores and of so many other callers.
    ///
    /// # Errors
    ///
    /// There was no memory.
    pub fn new(alloc: Global, setup: &Setup, outsiders: u16) -> Result<Room<S, P>, Memory>
        requires few { (shape_of setup.now).cores + outsiders ≤ 65535 }
        ensures setup { IfOk result (λ room. room.setup ≡ setup.now) }
        ensures passes { IfOk result (λ room. room.passes
            ≡ (shape_of setup.now).cores + outsiders) }
    {
        let cores = setup.cores();
        let passes = cores + outsiders;
        let weave = WeaveRoom::new(alloc, setup)?;
        let shards = LocksRoom::new(alloc, setup.shards(), passes)?;
        let chains = LocksRoom::new(alloc, cores, passes)?;
        Ok(RoomOf {
            setup: *setup,
            passes,
            weave,
            shards,
            chains,
        })
    }
}

impl<T: Drop, V: Kept + Drop> LocksRoom<T, V> {
    /// Room for so many locks, each with so many passes.
    ///
    /// # Errors
    ///
    /// There was no memory.
    fn new(alloc: Global, locks: u16, passes: u16) -> Result<LocksRoom<T, V>, Memory>
        ensures kept { IfOk result (λ room. (room.kept.items ≡ [])
            × (locks ≤ vec_capacity room.kept)) }
        ensures out { IfOk result (λ room. (room.out.items ≡ [])
            × (locks ≤ vec_capacity room.out)) }
        ensures many { IfOk result (λ room. length room.columns.items ≡ locks) }
        ensures columns { IfOk result (λ room. AreFilled (λ list. list.items) vec_len vec_capacity []
            passes room.columns.items) }
    {
        let kept = Vec::with_capacity(alloc, locks as usize)?;
        let out = Vec::with_capacity(alloc, locks as usize)?;
        let columns = columns(alloc, locks, passes as usize)?;
        Ok(LocksRoom { kept, out, columns })
    }
}

/// So many empty lists, each with room for so many passes.
pub(crate) fn columns<V: Kept + Drop>(
    alloc: Global,
    lists: u16,
    room: usize,
) -> Result<Vec<Vec<Pass<V>>>, Memory>
    ensures many { IfOk result (λ columns. length columns.items ≡ lists) }
    ensures room { IfOk result (λ columns.
        AreFilled (λ list. list.items) vec_len vec_capacity [] room columns.items) }
{
    let mut columns = Vec::with_capacity(alloc, lists as usize)?;
    'lists: for _list in 0..lists {
        columns.push_reserved(Vec::with_capacity(alloc, room)?);
    }
    Ok(columns)
}
