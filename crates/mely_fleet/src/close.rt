//! How a fleet is closed into a weave.
ghost use Rattle.std.specs.Prelude.{◌≡◌, ◌<◌, None, length};
ghost use Rattle.mely_history.specs.Setup.{shape_of};
ghost use Rattle.mely_weave.specs.Dealing.{AtEach};
ghost use Rattle.mely_weave.specs.Gathering.{MayGatherWorker};
ghost use Rattle.mely_fleet.specs.Fleets.{ArePasses, frame_in};
ghost use Rattle.mely_kept.specs.Frames.{shard_frame};
ghost use Rattle.mely_fleet.specs.Work.{HasFinishedBut, standpoint};

use crate::closing::{chains_out, close_all, hand_in_all, shards_out};
use crate::fleet::FleetOf;
use crate::passes::Passes;
use crate::room::{LocksRoom, Room, RoomOf};
use mely_event::{Fits, Kept, Trail};
use mely_kept::KeptShard;
use mely_weave::Weave;
use mely_worker::Worker;

impl<S: Fits<P> + Drop, P: Drop> FleetOf<KeptShard<S, P>> {
    ghost use Rattle.mely_fleet.specs.ClosesHome.{IsClosedInto};

    /// The weave of this fleet, once the passes of all callers are back and each core's worker is
    /// free, with the finish of each turn that its core took. The room is one for this fleet's
    /// setup and number of passes.
    ///
    /// No colour runs, and every state is at home. Each history begins with what each caller had
    /// seen of it, and the entries of a number are those of that caller. Its notes say with which
    /// load each event waits, and which state each colour has. Each colour that is ready
    /// is chained anew on its owner. The workers are the weave's, with what they lost; one that was
    /// halted stays so. Where the cores' passes have seen a shard drained, what waits there was
    /// registered since, by others. It takes no memory.
    pub fn close(
        self,
        room: Room<S, P>,
        passes: Vec<Passes<S, P>>,
        workers: Vec<Worker<S, P>>,
    ) -> Weave<S, P>
        requires of_setup { room.setup ≡ self.setup }
        requires of_passes { room.passes ≡ self.passes }
        requires all { length passes.items ≡ self.passes }
        requires each { AtEach (λ n own. ArePasses (shard_frame S.frame_of) self own) passes.items }
        requires finished { AtEach (λ n own. own.number < (shape_of self.setup).cores
            → HasFinishedBut (standpoint (shard_frame S.frame_of) self own) None) passes.items }
        requires worker_count { length workers.items ≡ (shape_of self.setup).cores }
        requires workers { let frame = frame_in (shard_frame S.frame_of) self in
            AtEach (λ core w. MayGatherWorker S.fits_under self.setup frame core w) workers.items }
        ensures closed { IsClosedInto S.Trail S.fits_under self passes.items result }
        ensures workers { result.workers ≡ workers.items }
    {
        let FleetOf {
            setup: _,
            passes: _,
            shards: shard_locks,
            chains: chain_locks,
            bell: _,
        } = self;
        let RoomOf {
            setup: _,
            passes: _,
            weave,
            shards: of_shards,
            chains: of_chains,
        } = room;
        let LocksRoom {
            kept: kept_shard_list,
            out: shard_list,
            columns: mut shard_columns,
        } = of_shards;
        let LocksRoom {
            kept: kept_chain_list,
            out: chain_list,
            columns: mut chain_columns,
        } = of_chains;
        hand_in_all(passes, &mut shard_columns, &mut chain_columns);
        let kept_shards = close_all(shard_locks, shard_columns, kept_shard_list);
        let kept_chains = close_all(chain_locks, chain_columns, kept_chain_list);
        let shards = shards_out(kept_shards, shard_list);
        let chains = chains_out(kept_chains, chain_list);
        Weave::gather(weave, shards, chains, workers)
    }
}
