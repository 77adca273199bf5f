//! A weave at first, and what it is made of.
ghost use Rattle.std.specs.Prelude.{◌≡◌, ℕ, IfOk, IfErr, Some, [], length, slice_get};
ghost use Rattle.mely_history.specs.Setup.{shape_of};
ghost use Rattle.mely_shard.specs.Shard.{AreInitialStates, IsInitialShard};
ghost use Rattle.mely_weave.specs.Dealing.{AreDealt, AtEach};
ghost use Rattle.mely_weave.specs.Making.{AreInitial, IsInitialWeave, empty_chain, initial_idle_worker, initial_worker};

use crate::room::WeaveRoom;
use crate::shards_room::ShardsRoom;
use crate::weave::Weave;
use mely_core::CoreQueue;
use mely_event::{Fits, Memory, Trail};
use mely_history::Setup;
use mely_shard::Shard;
use mely_steal::victims;
use mely_worker::{IdleWorker, Worker};
use std::alloc::Global;

impl<S: Fits<P> + Drop, P: Drop> Weave<S, P> {
    ghost use Rattle.mely_weave.specs.StandsWell.{StandsWell};

    /// A weave at first: nothing was registered, the chains are empty, and the workers are
    /// free. There is a state for each colour, in ascending order, each with an empty
    /// trail, all with one frame.
    ///
    /// # Errors
    ///
    /// There was no memory: the states are dropped. [`new_or_back`](Weave::new_or_back) hands them
    /// back.
    pub fn new(alloc: Global, setup: &Setup, states: Vec<S>) -> Result<Weave<S, P>, Memory>
        requires { AreInitial S.Trail setup.now states.items }
        ensures first { IfOk result (λ weave. IsInitialWeave setup.now states.items weave) }
        ensures stands { IfOk result (λ weave. StandsWell S.Trail S.fits_under weave) }
    {
        match Weave::new_or_back(alloc, setup, states) {
            Ok(made) => Ok(made),
            Err(_) => Err(Memory),
        }
    }

    /// What [`new`](Weave::new) makes, or the states again.
    ///
    /// # Errors
    ///
    /// There was no memory: the states are handed back as they came.
    pub fn new_or_back(alloc: Global, setup: &Setup, states: Vec<S>) -> Result<Weave<S, P>, Vec<S>>
        requires { AreInitial S.Trail setup.now states.items }
        ensures first { IfOk result (λ weave. IsInitialWeave setup.now states.items weave) }
        ensures stands { IfOk result (λ weave. StandsWell S.Trail S.fits_under weave) }
        ensures back { IfErr result (λ back. back ≡ states) }
    {
        let Ok(room) = WeaveRoom::new(alloc, setup) else {
            return Err(states);
        };
        let Ok(shards_room) = ShardsRoom::new(alloc, setup) else {
            return Err(states);
        };
        let Ok(chains) = chains_of(alloc, setup) else {
            return Err(states);
        };
        let Ok(workers) = workers_of(alloc, setup) else {
            return Err(states);
        };
        let shards = shards_room.fill(states);
        Ok(Weave::gather(room, shards, chains, workers))
    }
}

/// Deals states, one for each colour in ascending order, to the shards of a setup: that of colour
/// `c` goes to pile `c % shards`, where it lies at place `c / shards`.
///
/// # Errors
///
/// There was no memory: the states are dropped.
pub fn deal<S: Drop>(alloc: Global, setup: &Setup, states: Vec<S>) -> Result<Vec<Vec<S>>, Memory>
    ensures { let shards = (shape_of setup.now).shards in
        IfOk result (λ by_shard. AreDealt (λ pile. pile.items) shards states.items by_shard.items) }
{
    let mut by_shard = empty_piles(alloc, setup.shards())?;
    let mut number = 0;
    for state in states {
        let place = number % setup.shards() as usize;
        by_shard[place].push(state)?;
        number += 1;
    }
    Ok(by_shard)
}

/// This many empty lists.
fn empty_piles<S: Drop>(alloc: Global, count: u16) -> Result<Vec<Vec<S>>, Memory>
    ensures many { IfOk result (λ piles. length piles.items ≡ count) }
    ensures empty { IfOk result (λ piles. AtEach (λ i pile. pile.items ≡ []) piles.items) }
{
    let mut piles = Vec::with_capacity(alloc, count as usize)?;
    for number in 0..count {
        piles.push_reserved(Vec::new(alloc));
    }
    Ok(piles)
}

/// The shards of a setup at first, in order, each with the states of its own colours in ascending
/// order, as [`deal`] gives them. Nothing was registered in them. Whoever proves a call of it has
/// the condition of dealt initial states from the lemma `first_piles`.
///
/// # Errors
///
/// There was no memory: the states are dropped.
pub fn shards_of<S: Fits<P> + Drop, P: Drop>(
    alloc: Global,
    setup: &Setup,
    by_shard: Vec<Vec<S>>,
) -> Result<Vec<Shard<S, P>>, Memory>
    requires many { length by_shard.items ≡ (shape_of setup.now).shards }
    requires first { AtEach (λ shard pile.
        AreInitialStates S.Trail setup.now shard pile.items) by_shard.items }
    ensures many { IfOk result (λ shards. length shards.items ≡ (shape_of setup.now).shards) }
    ensures first { IfOk result (λ shards. (shard : ℕ) (pile : _) (has : _)
        → slice_get by_shard.items shard ≡ Some pile
        → slice_get shards.items shard ≡ Some has → IsInitialShard setup.now shard pile.items has) }
{
    let mut shards = Vec::with_capacity(alloc, by_shard.len())?;
    let mut number = 0;
    for states in by_shard {
        shards.push_reserved(Shard::new(alloc, setup, number, states)?);
        number += 1;
    }
    Ok(shards)
}

/// An empty chain for each core of a setup, with room for a mark of every colour.
///
/// # Errors
///
/// There was no memory.
pub fn chains_of(alloc: Global, setup: &Setup) -> Result<Vec<CoreQueue>, Memory>
    ensures many { IfOk result (λ chains. length chains.items ≡ (shape_of setup.now).cores) }
    ensures empty { IfOk result (λ chains.
        AtEach (λ core queue. queue ≡ empty_chain setup.now) chains.items) }
{
    let mut chains = Vec::with_capacity(alloc, setup.cores() as usize)?;
    for core in 0..setup.cores() {
        chains.push_reserved(CoreQueue::new(
            alloc,
            setup.colours(),
            setup.steal_cost(),
            setup.pinned(),
        )?);
    }
    Ok(chains)
}

/// A free worker for each core.
fn workers_of<S, P: Drop>(alloc: Global, setup: &Setup) -> Result<Vec<Worker<S, P>>, Memory>
    ensures many { IfOk result (λ workers. length workers.items ≡ (shape_of setup.now).cores) }
    ensures first { IfOk result (λ workers.
        AtEach (λ core w. w ≡ initial_worker setup.now core) workers.items) }
{
    let rested = rested_of(alloc, setup)?;
    let mut workers = Vec::with_capacity(alloc, rested.len())?;
    for worker in rested {
        workers.push_reserved(worker.wake());
    }
    Ok(workers)
}

/// A worker at rest for each core of a setup, in order, with the setup's batch and the core's
/// victims in the order in which it hunts. Unlike a worker it may be let go, as it must be where
/// there is no memory for the next one, and so it may cross into a thread.
///
/// # Errors
///
/// There was no memory.
pub fn rested_of<P: Drop>(alloc: Global, setup: &Setup) -> Result<Vec<IdleWorker<P>>, Memory>
    ensures many { IfOk result (λ rested. length rested.items ≡ (shape_of setup.now).cores) }
    ensures first { IfOk result (λ rested.
        AtEach (λ core rest. rest ≡ initial_idle_worker setup.now core) rested.items) }
{
    let mut rested = Vec::with_capacity(alloc, setup.cores() as usize)?;
    for core in 0..setup.cores() {
        let order = victims(alloc, core, setup.cores(), setup.group())?;
        let worker: Worker<(), P> = Worker::new(alloc, core, order, setup.batch())?;
        rested.push_reserved(worker.rest());
    }
    Ok(rested)
}
