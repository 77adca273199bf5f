//! The access of a worker in a fleet.
ghost use Rattle.std.specs.Prelude.{◌≡◌, MatchResult};
ghost use Rattle.mely_worker.specs.Access.{Stays, FitsSetup, IsSpent, StillOwes, NamesCore, GivesBack};
ghost use Rattle.mely_weave.specs.Side.{shard_of};
ghost use Rattle.mely_kept.specs.Calls.{RegistersAt, TakesAt, FinishesAt, StealsAt};
ghost use Rattle.mely_kept_chain.specs.Chains.{PushesAt, PopsAt, RetellsAt, PicksAt};
ghost use Rattle.mely_fleet.specs.Rows.{fronts};
ghost use Rattle.mely_kept.specs.Frames.{shard_frame};
ghost use Rattle.mely_fleet.specs.Fleets.{ArePasses, frame_in, given_in, ReachesOn, SeesOn, owed_by};

use crate::fleet::Fleet;
use crate::passes::Passes;
use mely_event::{Colour, Event, Fits, Kept, Mark, There, Trail, Unregistered};
use mely_history::{After, NoSteal, NoTake, Registered, Stolen};
use mely_kept::{KeptShard, ShardFrame};
use mely_note::Note;
use mely_queue::Turn;
use mely_worker::Access;
use std::sync::Wait;

/// A fleet with the passes of one caller, as they are lent for a step of a core's worker, or for a
/// delivery.
#[derive(Drop)]
pub(crate) struct Side<'a, S: Fits<P>, P, R: Wait>
where
    KeptShard<S, P>: Kept<Note = Note<S, P>, Frame = ShardFrame<S, S::Frame>>,
{
    pub(crate) rt: &'a R,
    pub(crate) fleet: &'a Fleet<S, P>,
    pub(crate) passes: &'a mut Passes<S, P>,
    ghost are: { ArePasses ⟦<KeptShard<S, P> as Kept>⟧.frame_of fleet.now passes.now },
}

impl<'a, S: Fits<P> + Drop, P: Drop, R: Wait> Access<S, P> for Side<'a, S, P, R> {
    ghost setup_of = { λ a. a.fleet.now.setup };

    ghost core_of = { λ a. a.passes.now.number };

    ghost frame_of = { λ a. frame_in (shard_frame S.frame_of) a.fleet.now };

    ghost owes = { λ a c core count trail. owed_by a.fleet.now a.passes.now c core count trail };

    ghost keeps = { λ a b. (b.passes.ghost_name ≡ a.passes.ghost_name)
        × (b.fleet.now ≡ a.fleet.now) };

    ghost registers = { λ a c event load answer b.
        SeesOn a.fleet.now (shard_of a.fleet.now.setup c) a.passes.now b.passes.now
        (λ setup n. RegistersAt setup n c event load answer) };

    ghost takes = { λ a c answer b.
        SeesOn a.fleet.now (shard_of a.fleet.now.setup c) a.passes.now b.passes.now
        (λ setup n. TakesAt S.Trail S.fits_under setup
        (frame_in (shard_frame S.frame_of) a.fleet.now)
        (given_in (shard_frame S.frame_of) a.fleet.now c) n c answer) };

    ghost finishes = { λ a turn answer b.
        SeesOn a.fleet.now (shard_of a.fleet.now.setup turn.colour) a.passes.now b.passes.now
        (λ setup n. FinishesAt setup n turn answer) };

    ghost steals = { λ a c answer b.
        SeesOn a.fleet.now (shard_of a.fleet.now.setup c) a.passes.now b.passes.now
        (λ setup n. StealsAt setup n c answer) };

    ghost pushes = { λ a core mark answer b.
        (fronts b.passes.now.shards.items ≡ fronts a.passes.now.shards.items)
        × ReachesOn a.fleet.now core a.passes.now b.passes.now (λ of n.
        PushesAt of n mark answer) };

    ghost pops = { λ a answer b.
        (fronts b.passes.now.shards.items ≡ fronts a.passes.now.shards.items)
        × ReachesOn a.fleet.now a.passes.now.number a.passes.now b.passes.now (λ of n.
        PopsAt of n answer) };

    ghost retells = { λ a core c started worth found b.
        (fronts b.passes.now.shards.items ≡ fronts a.passes.now.shards.items)
        × ReachesOn a.fleet.now core a.passes.now b.passes.now (λ of n.
        RetellsAt of n c started worth found) };

    ghost picks = { λ a core answer b.
        (fronts b.passes.now.shards.items ≡ fronts a.passes.now.shards.items)
        × ReachesOn a.fleet.now core a.passes.now b.passes.now (λ of n. PicksAt of n answer) };

    fn core(&self) -> u16 {
        self.passes.number()
    }

    fn register(
        &mut self,
        colour: Colour,
        event: Event,
        load: Option<P>,
    ) -> Result<Registered, Unregistered<P>>
        requires fits { let frame = frame_in (shard_frame S.frame_of) self.old.fleet.now in
            FitsSetup S.fits_under self.old.fleet.now.setup frame (colour, event, load) }
        ensures called { let before = self.old in
            SeesOn before.fleet.now (shard_of before.fleet.now.setup colour) before.passes.now
            self.new.passes.now
            (λ setup n. RegistersAt setup n colour event load result) }
        ensures answer { MatchResult result (NamesCore self.old.fleet.now.setup)
            (GivesBack event load) }
        ensures stays { Stays (λ a. a.fleet.now.setup) (λ a. a.passes.now.number)
            (λ a. frame_in (shard_frame S.frame_of) a.fleet.now) self.old self.new }
        ensures kept { (self.new.passes.ghost_name ≡ self.old.passes.ghost_name)
            × (self.new.fleet.now ≡ self.old.fleet.now) }
        ensures owed { StillOwes (λ a c core count trail.
            owed_by a.fleet.now a.passes.now c core count trail)
            self.old self.new }
    {
        self.fleet
            .register(self.rt, self.passes, colour, event, load)
    }

    fn take(&mut self, colour: Colour) -> Result<Turn<S, P>, NoTake> {
        self.fleet.take(self.rt, self.passes, colour)
    }

    fn finish(&mut self, turn: Turn<S, P>) -> After
        requires spent { IsSpent S.Trail (λ a. a.fleet.now.setup)
            (λ a. frame_in (shard_frame S.frame_of) a.fleet.now)
            (λ a c core count trail.
            owed_by a.fleet.now a.passes.now c core count trail) self.old turn }
        ensures called { let before = self.old in
            SeesOn before.fleet.now (shard_of before.fleet.now.setup turn.colour) before.passes.now
            self.new.passes.now
            (λ setup n. FinishesAt setup n turn result) }
        ensures stays { Stays (λ a. a.fleet.now.setup) (λ a. a.passes.now.number)
            (λ a. frame_in (shard_frame S.frame_of) a.fleet.now) self.old self.new }
        ensures kept { (self.new.passes.ghost_name ≡ self.old.passes.ghost_name)
            × (self.new.fleet.now ≡ self.old.fleet.now) }
    {
        self.fleet.finish(self.rt, self.passes, turn)
    }

    fn steal(&mut self, colour: Colour) -> Result<Stolen, NoSteal> {
        self.fleet.steal(self.rt, self.passes, colour)
    }

    // Inlined, these two lie in the worker's loop, although a post makes them too.
    #[inline(always)]
    fn push(&mut self, core: u16, mark: Mark) -> Result<(), There> {
        self.fleet.push(self.rt, self.passes, core, mark)
    }

    fn pop(&mut self) -> Option<Mark> {
        let core = self.passes.number();
        self.fleet.pop(self.rt, self.passes, core)
    }

    #[inline(always)]
    fn retell(&mut self, core: u16, colour: Colour, started: u64, worth: u128) -> bool {
        self.fleet
            .retell(self.rt, self.passes, core, colour, started, worth)
    }

    fn pick(&mut self, core: u16) -> Option<Mark> {
        self.fleet.pick(self.rt, self.passes, core)
    }

    ghost use Rattle.std.proofs.Common.{refl};

    ghost keeps_itself = { λ a. (refl, refl) };
}
