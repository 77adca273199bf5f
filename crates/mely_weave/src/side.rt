//! Shards and chains, from the side of one core.
ghost use Rattle.std.specs.Prelude.{◌≡◌, ◌<◌, ℕ, List, Option, Result, IfOk, IfErr, IfSome, MatchResult};
ghost use Rattle.mely_weave.specs.SideStands.{SideStands};
ghost use Rattle.mely_weave.specs.Side.{side_at};
ghost use Rattle.mely_worker.specs.Access.{IsColour, IsCore, FitsSetup, Stays, StillOwes, IsTaken, IsSpent, NamesCore, GivesBack};

use mely_core::CoreQueue;
use mely_event::{Colour, Event, Fits, Mark, There, Trail, Unregistered};
use mely_history::{After, NoSteal, NoTake, Registered, Setup, Stolen};
use mely_queue::Turn;
use mely_shard::Shard;
use mely_worker::{Access, App, Delivery, Made, OpenGate, Worker};
use std::marker::Model;
use std::snapshot::Snapshot;

/// The shards and the chains of a runtime. Any core may be lent them.
pub(crate) struct Shared<S: Fits<P>, P> {
    pub(crate) setup: Setup,

    /// A state as it was given at first, for its frame. It is for contracts alone.
    pub(crate) given: Snapshot<S>,
    pub(crate) shards: Vec<Shard<S, P>>,
    pub(crate) chains: Vec<CoreQueue>,
}

impl<S: Fits<P>, P> Model for Shared<S, P> {
    ghost use Rattle.mely_weave.specs.Shared.{SharedState};

    ghost Value = { SharedState S P };

    ghost use Rattle.mely_weave.specs.SideStands.{PartsStand};

    ghost view = { λ s. record {
      setup = s.setup;
      given = s.given.value;
      shards = s.shards.items;
      chains = s.chains.items;
    } };

    ghost invariant = { λ s. PartsStand S.Trail S.fits_under s.setup s.given.value s.shards.items
        s.chains.items };
}

/// The shards and the chains from the side of one core, as they are lent for a step of its worker.
#[derive(Drop)]
pub(crate) struct Side<'a, S: Fits<P>, P> {
    shared: &'a mut Shared<S, P>,
    core: u16,
}

impl<S: Fits<P> + Drop, P: Drop> Shared<S, P> {
    ghost use Rattle.mely_worker.specs.Conditions.{MayStep, AppServes};
    ghost use Rattle.mely_worker.specs.Delivery.{Delivers, MayDeliver};
    ghost use Rattle.mely_worker.specs.Step.{Steps};
    ghost use Rattle.mely_weave.specs.Calls.{IsOut, side_words};
    ghost use Rattle.mely_weave.specs.Posting.{PostAs};

    /// Lends the side of a core for one step of its worker.
    pub(crate) fn step<R: App<State = S, Load = P>>(
        &mut self,
        core: u16,
        worker: &mut Worker<S, P>,
        app: &R,
    ) -> Made
        requires may { MayStep S.Trail S.fits_under self.old.setup core
            (S.frame_of self.old.given) (IsOut (side_at self.old core)) worker.old }
        requires served { AppServes R.App self.old.setup (S.frame_of self.old.given) app.now }
        ensures steps { Steps (side_words S.Trail (SideStands S.Trail S.fits_under)) R.App app.now
            (side_at self.old core) worker.old result (side_at self.new core) worker.new }
        ensures may { MayStep S.Trail S.fits_under self.new.setup core
            (S.frame_of self.new.given) (IsOut (side_at self.new core)) worker.new }
        ensures stands { SideStands S.Trail S.fits_under (side_at self.new core) }
    {
        // Where a field is read, contracts know what the shards and the
        // chains keep before the step.
        let _setup = &self.setup;
        let mut side = Side { shared: self, core };
        side.step(worker, app)
    }

    /// Registers an event as the pass after the cores', and delivers the
    /// mark or the report at once.
    pub(crate) fn post(
        &mut self,
        colour: Colour,
        event: Event,
        load: Option<P>,
    ) -> Result<Registered, Unregistered<P>>
        requires fits { FitsSetup S.fits_under self.old.setup (S.frame_of self.old.given)
            (colour, event, load) }
        ensures posts { PostAs (side_words S.Trail (SideStands S.Trail S.fits_under)) colour event
            load result (side_at self.old 0) (side_at self.new 0) }
        ensures back { IfErr result (λ refused. (refused.event ≡ event) × (refused.load ≡ load)) }
        ensures stands { SideStands S.Trail S.fits_under (side_at self.new 0) }
    {
        let place = self.setup.shard_of(colour);
        let by = self.setup.cores();
        match self.shards[place].register(colour, event, load, by) {
            Ok(reply) => {
                self.deliver(Delivery::after(colour, &reply));
                Ok(reply)
            }
            Err(refused) => Err(refused),
        }
    }

    /// Lends a side to deliver what follows a registration: any core's will do,
    /// and there is a first one.
    fn deliver(&mut self, delivery: Delivery) -> bool
        requires may { MayDeliver self.old.setup delivery }
        ensures delivers { Delivers (side_words S.Trail (SideStands S.Trail S.fits_under))
            (side_at self.old 0) delivery result (side_at self.new 0) }
        ensures stands { SideStands S.Trail S.fits_under (side_at self.new 0) }
    {
        let _setup = &self.setup;
        let mut side = Side {
            shared: self,
            core: 0,
        };
        side.deliver(delivery)
    }
}

impl<'a, S: Fits<P> + Drop, P: Drop> Side<'a, S, P> {
    ghost use Rattle.mely_worker.specs.Conditions.{MayStep, AppServes};
    ghost use Rattle.mely_worker.specs.Delivery.{Delivers, MayDeliver};
    ghost use Rattle.mely_worker.specs.Step.{Steps};
    ghost use Rattle.mely_weave.specs.Calls.{IsOut, side_words};
    ghost use Rattle.mely_weave.specs.Sides.{side_state, IsLentOn};

    /// Makes one step of the worker of this core.
    // The check takes the call over any access only in a function that didn't make the side.
    fn step<R: App<State = S, Load = P>>(&mut self, worker: &mut Worker<S, P>, app: &R) -> Made
        requires may { let side = side_state self.old in
            MayStep S.Trail S.fits_under side.setup side.core (S.frame_of side.given) (IsOut side)
            worker.old }
        requires served { let side = side_state self.old in
            AppServes R.App side.setup (S.frame_of side.given) app.now }
        ensures steps { Steps (side_words S.Trail (SideStands S.Trail S.fits_under)) R.App app.now
            (side_state self.old) worker.old result (side_state self.new) worker.new }
        ensures may { let side = side_state self.new in
            MayStep S.Trail S.fits_under side.setup side.core (S.frame_of side.given) (IsOut side)
            worker.new }
        ensures core { self.new.core ≡ self.old.core }
        ensures kept { IsLentOn S.Trail S.fits_under self.old self.new }
    {
        worker.step(self, app, &OpenGate)
    }

    /// Delivers what follows a registration.
    fn deliver(&mut self, delivery: Delivery) -> bool
        requires may { MayDeliver (side_state self.old).setup delivery }
        ensures delivers { Delivers (side_words S.Trail (SideStands S.Trail S.fits_under))
            (side_state self.old) delivery result (side_state self.new) }
        ensures core { self.new.core ≡ self.old.core }
        ensures kept { IsLentOn S.Trail S.fits_under self.old self.new }
    {
        delivery.deliver(self)
    }
}

impl<'a, S: Fits<P> + Drop, P: Drop> Access<S, P> for Side<'a, S, P> {
    ghost use Rattle.std.specs.Prelude.{◌≡◌, ◌<◌, ℕ, List, Option, Result, Some, None, Ok, Err};
    ghost use Rattle.mely_weave.specs.Calls.{AtShard, AtChain, RegisterAs, TakeAs, FinishAs, StealAs, PushAs, PopAs, RetellAs, PickAs, IsOut};
    ghost use Rattle.mely_weave.specs.Sides.{side_state, IsLentOn};

    ghost setup_of = { λ a. a.shared.now.setup };

    ghost core_of = { λ a. a.core };

    ghost frame_of = { λ a. S.frame_of a.shared.now.given };

    ghost owes = { λ a c core count trail. IsOut (side_state a) c core count trail };

    ghost keeps = { λ a b. IsLentOn S.Trail S.fits_under a b };

    ghost registers = { λ a c event load answer b.
        AtShard (side_state a) (side_state b) c (RegisterAs c event load a.core answer) };

    ghost takes = { λ a c answer b.
        AtShard (side_state a) (side_state b) c (TakeAs c a.core answer) };

    ghost finishes = { λ a turn answer b.
        AtShard (side_state a) (side_state b) turn.colour (FinishAs turn answer) };

    ghost steals = { λ a c answer b.
        AtShard (side_state a) (side_state b) c (StealAs c a.core answer) };

    ghost pushes = { λ a core mark answer b.
        AtChain (side_state a) (side_state b) core (PushAs mark answer) };

    ghost pops = { λ a answer b. AtChain (side_state a) (side_state b) a.core (PopAs answer) };

    ghost retells = { λ a core c started worth found b.
        AtChain (side_state a) (side_state b) core (RetellAs c started worth found) };

    ghost picks = { λ a core answer b. AtChain (side_state a) (side_state b) core (PickAs answer) };

    fn core(&self) -> u16 {
        self.core
    }

    fn register(
        &mut self,
        colour: Colour,
        event: Event,
        load: Option<P>,
    ) -> Result<Registered, Unregistered<P>>
        requires own { IsCore self.old.shared.now.setup self.old.core }
        requires fits { FitsSetup S.fits_under self.old.shared.now.setup
            (S.frame_of self.old.shared.now.given) (colour, event, load) }
        ensures called { AtShard (side_state self.old) (side_state self.new) colour
            (RegisterAs colour event load self.old.core result) }
        ensures answer { MatchResult result (NamesCore self.old.shared.now.setup)
            (GivesBack event load) }
        ensures stays { Stays (λ a. a.shared.now.setup) (λ a. a.core) (λ a.
            S.frame_of a.shared.now.given) self.old self.new }
        ensures kept { IsLentOn S.Trail S.fits_under self.old self.new }
        ensures owed { StillOwes (λ a c core count trail.
            IsOut (side_state a) c core count trail) self.old self.new }
    {
        let shared = &mut *self.shared;
        let place = shared.setup.shard_of(colour);
        let by = self.core;
        shared.shards[place].register(colour, event, load, by)
    }

    fn take(&mut self, colour: Colour) -> Result<Turn<S, P>, NoTake> {
        let shared = &mut *self.shared;
        let place = shared.setup.shard_of(colour);
        let core = self.core;
        shared.shards[place].take(colour, core)
    }

    fn finish(&mut self, turn: Turn<S, P>) -> After
        requires spent { IsSpent S.Trail (λ a. a.shared.now.setup) (λ a.
            S.frame_of a.shared.now.given) (λ a c core count trail.
            IsOut (side_state a) c core count trail) self.old turn }
        ensures called { AtShard (side_state self.old) (side_state self.new) turn.colour
            (FinishAs turn result) }
        ensures stays { Stays (λ a. a.shared.now.setup) (λ a. a.core) (λ a.
            S.frame_of a.shared.now.given) self.old self.new }
        ensures kept { IsLentOn S.Trail S.fits_under self.old self.new }
    {
        let shared = &mut *self.shared;
        let place = shared.setup.shard_of(turn.colour());
        shared.shards[place].finish(turn)
    }

    fn steal(&mut self, colour: Colour) -> Result<Stolen, NoSteal> {
        let shared = &mut *self.shared;
        let place = shared.setup.shard_of(colour);
        let to = self.core;
        shared.shards[place].steal(colour, to)
    }

    fn push(&mut self, core: u16, mark: Mark) -> Result<(), There> {
        let shared = &mut *self.shared;
        shared.chains[core as usize].push(mark)
    }

    fn pop(&mut self) -> Option<Mark> {
        let shared = &mut *self.shared;
        let place = self.core as usize;
        shared.chains[place].pop()
    }

    fn retell(&mut self, core: u16, colour: Colour, started: u64, worth: u128) -> bool {
        let shared = &mut *self.shared;
        shared.chains[core as usize].retell(colour, started, worth)
    }

    fn pick(&mut self, core: u16) -> Option<Mark> {
        let shared = &mut *self.shared;
        shared.chains[core as usize].pick()
    }

    ghost use Rattle.std.proofs.Common.{refl};

    ghost keeps_itself = { λ a. record { same = refl; stand = λ h. h } };
}
