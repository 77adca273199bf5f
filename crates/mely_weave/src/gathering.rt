//! A weave of what comes back from elsewhere.
ghost use Rattle.std.specs.Prelude.{◌≡◌, ◌<◌, ℕ, [], Some, length, slice_get};
ghost use Rattle.mely_core.specs.CoreQueue.{HoldTogether};
ghost use Rattle.mely_history.specs.Setup.{shape_of, colours_of};
ghost use Rattle.mely_shard.specs.Shard.{IsConsistent, lane_at};
ghost use Rattle.mely_weave.specs.Dealing.{AtEach};
ghost use Rattle.mely_weave.specs.Gathering.{AreChained, AreChainedAnew, IsFirstAtRest, IsOwnShard, MayGather, MayGatherChain};
ghost use Rattle.mely_weave.specs.Making.{empty_chain};
ghost use Rattle.mely_weave.specs.Side.{readiness_for};
ghost use Rattle.mely_weave.specs.SideStands.{ChainStands};

use crate::room::WeaveRoom;
use crate::side::Shared;
use crate::weave::Weave;
use mely_core::CoreQueue;
use mely_event::{Colour, Fits, Mark, Trail};
use mely_history::Setup;
use mely_shard::Shard;
use mely_worker::Worker;
use std::snapshot::Snapshot;

impl<S: Fits<P>, P> Weave<S, P> {
    ghost use Rattle.mely_weave.specs.StandsWell.{StandsWell};

    /// A weave of these shards, chains and workers, which are those of the room's setup, in order.
    /// No colour runs, and each worker is free. Whatever the chains hold is dropped, and each
    /// colour that is ready is chained anew on its owner, in ascending order. Histories, states,
    /// queues and workers stay as they are. It takes no memory.
    pub fn gather(
        room: WeaveRoom<S, P>,
        shards: Vec<Shard<S, P>>,
        mut chains: Vec<CoreQueue>,
        workers: Vec<Worker<S, P>>,
    ) -> Weave<S, P>
        requires { MayGather S.Trail S.fits_under room shards.items chains.items workers.items }
        ensures setup { result.setup ≡ room }
        ensures shards { result.shards ≡ shards.items }
        ensures workers { result.workers ≡ workers.items }
        ensures chains { AreChainedAnew result.setup result.shards result.chains }
        ensures stands { StandsWell S.Trail S.fits_under result }
    {
        let setup = room.setup;
        are_kept(&shards);
        let given = first_state(&shards);
        empty_all(&setup, &mut chains);
        chain_ready(&setup, &shards, &mut chains);
        Weave {
            shared: Shared {
                setup,
                given,
                shards,
                chains,
            },
            workers,
            room,
        }
    }
}

/// What the type of each shard keeps, for contracts alone: shards are read and stay.
fn are_kept<S: Fits<P>, P>(shards: &[Shard<S, P>])
    ensures { AtEach (λ number has. IsConsistent S.Trail S.fits_under has) shards.now }
{
    for shard in shards {
        let _history = shard.history();
    }
}

/// The state of colour 0, for contracts alone.
fn first_state<S: Fits<P>, P>(shards: &[Shard<S, P>]) -> Snapshot<S>
    requires some { 0 < length shards.now }
    requires kept { (has : _) → slice_get shards.now 0 ≡ Some has
        → IsConsistent S.Trail S.fits_under has }
    requires at_rest { (has : _) → slice_get shards.now 0 ≡ Some has → IsFirstAtRest has }
    ensures { (has : _) (lane : _) → slice_get shards.now 0 ≡ Some has
        → lane_at has (record { 0 = 0 }) ≡ Some lane
        → S.frame_of result.value ≡ S.frame_of lane.given }
{
    match shards[0].state(Colour(0)) {
        Some(state) => Snapshot::of(state),
        None => unreachable!(),
    }
}

/// Drops all marks of all chains.
fn empty_all(setup: &Setup, chains: &mut [CoreQueue])
    requires own { AtEach (λ core queue. MayGatherChain setup.now queue) chains.old }
    ensures empty { AtEach (λ core queue. queue ≡ empty_chain setup.now) chains.new }
    ensures stand { AtEach (λ core queue. ChainStands setup.now queue) chains.new }
{
    for chain in chains.iter_mut() {
        empty(chain);
    }
}

/// Drops all marks of a chain.
fn empty(chain: &mut CoreQueue)
    ensures empty { chain.new ≡ record chain.old { chain = []; worthy = [] } }
    ensures together { HoldTogether chain.new }
{
    while let Some(_) = chain.pop() {}
}

/// Chains each ready colour on its owner, in ascending order.
fn chain_ready<S: Fits<P>, P>(setup: &Setup, shards: &[Shard<S, P>], chains: &mut [CoreQueue])
    requires many { length shards.now ≡ (shape_of setup.now).shards }
    requires own { AtEach (λ number has. IsOwnShard setup.now number has) shards.now }
    requires empty { AreChained setup.now (readiness_for setup.now shards.now) 0 chains.old }
    requires stand { AtEach (λ core queue. ChainStands setup.now queue) chains.old }
    ensures chained { AreChained setup.now (readiness_for setup.now shards.now)
        (colours_of setup.now) chains.new }
    ensures stand { AtEach (λ core queue. ChainStands setup.now queue) chains.new }
{
    for number in 0..setup.colours() {
        let colour = Colour(number as u16);
        let place = setup.shard_of(colour);
        if let Some((owner, started, worth)) = shards[place].ready(colour) {
            let mark = Mark {
                colour,
                started,
                worth,
            };
            let Ok(()) = chains[owner as usize].push(mark) else {
                unreachable!()
            };
        }
    }
}
