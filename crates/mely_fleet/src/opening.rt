//! How a fleet is made.
ghost use Rattle.std.specs.Prelude.{◌≡◌, ◌<◌, ◌≤◌, ℕ, [], Some, IfOk, length, slice_get, slice_index_or};
ghost use Rattle.mely_core.specs.CoreQueue.{empty_core};
ghost use Rattle.mely_shard.specs.Shard.{givens};
ghost use Rattle.mely_history.specs.Setup.{shape_of};
ghost use Rattle.mely_weave.specs.Dealing.{AtEach};
ghost use Rattle.mely_weave.specs.Making.{AreInitial};
ghost use Rattle.mely_kept.specs.Frames.{HaveFrame, shard_frame};
ghost use Rattle.mely_kept_chain.specs.Frames.{chain_frame};
ghost use Rattle.mely_note.specs.ShowsNotes.{IsUntouched};
ghost use Rattle.mely_fleet.specs.Dealing.{IsInitialRow};
ghost use Rattle.mely_fleet.specs.Fleets.{chain_frame_for};
ghost use Rattle.mely_fleet.specs.Opening.{AreShardLocks};
ghost use Rattle.mely_fleet.specs.Rows.{AreFramed, HavePasses};

use crate::dealing::lock_all;
use crate::fleet::{Fleet, FleetOf};
use crate::passes::{Passes, PassesOf};
use mely_bell::Bell;
use mely_core::CoreQueue;
use mely_event::{Fits, Kept, Memory, Trail};
use mely_history::Setup;
use mely_kept::KeptShard;
use mely_kept_chain::KeptChain;
use mely_lock::{Pass, Ticketed};
use mely_shard::Shard;
use mely_weave::{ShardsRoom, chains_of};
use std::alloc::Global;
use std::snapshot::Snapshot;

/// The shards as their locks keep them.
fn keep_shards<S: Fits<P> + Drop, P: Drop>(
    alloc: Global,
    shards: Vec<Shard<S, P>>,
    given: &Snapshot<S>,
) -> Result<Vec<KeptShard<S, P>>, Memory>
    requires framed { let frame = S.frame_of given.now.value in
        AtEach (λ k has. HaveFrame S.frame_of frame (givens has)) shards.items }
    requires untouched { AtEach (λ k has. IsUntouched has) shards.items }
    ensures many { IfOk result (λ kept. length kept.items ≡ length shards.items) }
    ensures each { IfOk result (λ kept. (k : ℕ) (has : _) (one : _)
        → slice_get shards.items k ≡ Some has
        → slice_get kept.items k ≡ Some one
        → one ≡ record { has = has; notes = []; sample = given.now.value }) }
{
    let mut kept = Vec::with_capacity(alloc, shards.len())?;
    'shards: for shard in shards {
        let one = KeptShard::new(alloc, shard, given)?;
        kept.push_reserved(one);
    }
    Ok(kept)
}

/// The chains as their locks keep them.
fn keep_chains(alloc: Global, chains: Vec<CoreQueue>) -> Result<Vec<KeptChain>, Memory>
    requires { AtEach (λ k queue. queue
        ≡ empty_core queue.colours queue.cost queue.pinned) chains.items }
    ensures many { IfOk result (λ kept. length kept.items ≡ length chains.items) }
    ensures each { IfOk result (λ kept. (k : ℕ) (queue : _) (one : _)
        → slice_get chains.items k ≡ Some queue
        → slice_get kept.items k ≡ Some one → one ≡ record { has = queue; changes = [] }) }
{
    let mut kept = Vec::with_capacity(alloc, chains.len())?;
    'chains: for chain in chains {
        let one = KeptChain::new(alloc, chain)?;
        kept.push_reserved(one);
    }
    Ok(kept)
}

/// The passes of each number.
fn pair_up<V: Kept + Drop>(
    alloc: Global,
    shard_rows: Vec<Vec<Pass<V>>>,
    chain_rows: Vec<Vec<Pass<KeptChain>>>,
) -> Result<Vec<PassesOf<V>>, Memory>
    requires as_many { length chain_rows.items ≡ length shard_rows.items }
    requires few { length shard_rows.items ≤ 65535 }
    ensures many { IfOk result (λ all. length all.items ≡ length shard_rows.items) }
    ensures numbers { IfOk result (λ all. AtEach (λ n passes. passes.number ≡ n) all.items) }
    ensures shards { IfOk result (λ all. (n : ℕ) (row : _) (passes : _)
        → slice_get shard_rows.items n ≡ Some row
        → slice_get all.items n ≡ Some passes → passes.shards ≡ row) }
    ensures chains { IfOk result (λ all. (n : ℕ) (row : _) (passes : _)
        → slice_get chain_rows.items n ≡ Some row
        → slice_get all.items n ≡ Some passes → passes.chains ≡ row) }
{
    let mut all = Vec::with_capacity(alloc, shard_rows.len())?;
    let mut chains_left = chain_rows;
    chains_left.reverse();
    let mut number = 0u16;
    'rows: for shards in shard_rows {
        let Some(chains) = chains_left.pop() else {
            unreachable!()
        };
        all.push_reserved(PassesOf {
            number,
            shards,
            chains,
        });
        number = number.wrapping_add(1);
    }
    Ok(all)
}

/// The first state, for contracts alone.
fn first_given<S>(states: &Vec<S>) -> Snapshot<S>
    requires { 0 < length states.now.items }
    ensures { (state : _) → slice_get states.now.items 0 ≡ Some state → result.value ≡ state }
{
    Snapshot::of(&states[0])
}

/// A lock round each shard of a setup with these states, and for each number a row of passes.
fn lock_shards<S: Fits<P> + Drop, P: Drop>(
    alloc: Global,
    setup: &Setup,
    states: Vec<S>,
    passes: u16,
) -> Result<
    (
        Vec<Ticketed<KeptShard<S, P>>>,
        Vec<Vec<Pass<KeptShard<S, P>>>>,
    ),
    Memory,
>
    requires first { AreInitial S.Trail setup.now states.items }
    requires some { 0 < passes }
    ensures locks { IfOk result (λ r. AreShardLocks (shard_frame S.frame_of) S.frame_of setup.now
        states.items r.0.items) }
    ensures dealt { IfOk result (λ r. HavePasses passes r.0.items) }
    ensures many { IfOk result (λ r. length r.1.items ≡ passes) }
    ensures rows { IfOk result (λ r. (n : ℕ) (d : _) → n < passes →
        IsInitialRow (shard_frame S.frame_of) r.0.items n (slice_index_or r.1.items n d).items) }
{
    let given = first_given(&states);
    let room = ShardsRoom::new(alloc, setup)?;
    let shards = room.fill(states);
    let kept = keep_shards(alloc, shards, &given)?;
    let locked = lock_all(alloc, kept, passes)?;
    Ok(locked)
}

/// A lock round the empty chain of each core, and for each number a row of passes.
fn lock_chains(
    alloc: Global,
    setup: &Setup,
    passes: u16,
) -> Result<(Vec<Ticketed<KeptChain>>, Vec<Vec<Pass<KeptChain>>>), Memory>
    requires some { 0 < passes }
    ensures count { IfOk result (λ r. length r.0.items ≡ (shape_of setup.now).cores) }
    ensures framed { IfOk result (λ r.
        AreFramed chain_frame (λ _. chain_frame_for setup.now) r.0.items) }
    ensures dealt { IfOk result (λ r. HavePasses passes r.0.items) }
    ensures many { IfOk result (λ r. length r.1.items ≡ passes) }
    ensures rows { IfOk result (λ r. (n : ℕ) (d : _) → n < passes →
        IsInitialRow chain_frame r.0.items n (slice_index_or r.1.items n d).items) }
{
    let chains = chains_of(alloc, setup)?;
    let kept = keep_chains(alloc, chains)?;
    let locked = lock_all(alloc, kept, passes)?;
    Ok(locked)
}

impl<S: Fits<P> + Drop, P: Drop> FleetOf<KeptShard<S, P>> {
    ghost use Rattle.std.specs.Prelude.{◌+◌};
    ghost use Rattle.mely_fleet.specs.Opening.{IsOpened};

    /// A fleet at first, and the passes of its callers by number: those of the
    /// cores, and of so many others.
    ///
    /// There is a state for each colour, in ascending order, each with an empty trail, all with one
    /// frame. Nothing was registered and the chains are empty. The passes have seen nothing.
    ///
    /// # Errors
    ///
    /// There was no memory: the states are dropped.
    pub fn new(
        alloc: Global,
        setup: &Setup,
        states: Vec<S>,
        outsiders: u16,
    ) -> Result<(Fleet<S, P>, Vec<Passes<S, P>>), Memory>
        requires first { AreInitial S.Trail setup.now states.items }
        requires few { (shape_of setup.now).cores + outsiders ≤ 65535 }
        ensures { let callers = (shape_of setup.now).cores + outsiders in
            IfOk result (λ opened.
            IsOpened (shard_frame S.frame_of) S.frame_of setup.now states.items callers
            opened.0 opened.1.items) }
    {
        let count = setup.cores() + outsiders;
        let (shards, shard_rows) = lock_shards(alloc, setup, states, count)?;
        let (chains, chain_rows) = lock_chains(alloc, setup, count)?;
        let passes = pair_up(alloc, shard_rows, chain_rows)?;
        let bell = Bell::new(alloc, setup.cores())?;
        let fleet = FleetOf {
            setup: *setup,
            passes: count,
            shards,
            chains,
            bell,
        };
        Ok((fleet, passes))
    }
}
