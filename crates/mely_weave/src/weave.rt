//! All shards, chains and workers as one value.
ghost use Rattle.std.specs.Prelude.{◌≡◌, ◌<◌, ◌∷◌, ◌++◌, [], ℕ, List, Option, Some, length, IfErr, slice_get, option_copied};

use crate::room::WeaveRoom;
use crate::side::Shared;
use mely_event::{Colour, Event, Fits, Mark, Trail, Unregistered};
use mely_history::{History, Registered};
use mely_worker::{App, Made, Worker};
use std::marker::Model;

/// All shards, the chain of each core and the worker of each core, as one plain value.
///
/// Contracts see a weave as its setup, a state as it was given at first, what its shards and chains
/// have, and its workers by core. The type keeps that the weave stands well. As a worker may hold a
/// turn, a weave has no `Drop`: one whose workers are free is spent by
/// [`into_parts`](Weave::into_parts).
///
/// What it can do, by the files that have it:
///
/// | call | file |
/// |---|---|
/// | [`new`](Weave::new), of states | `making.rt` |
/// | [`gather`](Weave::gather), of shards, chains and workers | `gathering.rt` |
/// | [`post`](Weave::post), [`step`](Weave::step), and what there is to see | here |
/// | [`run`](Weave::run), by a schedule | `running.rt` |
/// | [`drain`](Weave::drain), to its end | `draining.rt` |
/// | [`into_parts`](Weave::into_parts) | `parts.rt` |
pub struct Weave<S: Fits<P>, P> {
    pub(crate) shared: Shared<S, P>,
    pub(crate) workers: Vec<Worker<S, P>>,
    pub(crate) room: WeaveRoom<S, P>,
}

impl<S: Fits<P>, P> Model for Weave<S, P> {
    ghost use Rattle.mely_weave.specs.Weave.{WeaveState};

    ghost Value = { WeaveState S P };

    ghost use Rattle.std.specs.Prelude.{◌≡◌};
    ghost use Rattle.mely_weave.specs.StandsWell.{StandsWell};

    ghost view = { λ w. record {
      setup = w.shared.setup;
      given = w.shared.given;
      shards = w.shared.shards;
      chains = w.shared.chains;
      workers = w.workers.items;
    } };

    ghost invariant = { λ w.
        StandsWell S.Trail S.fits_under (record {
          setup = w.shared.setup;
          given = w.shared.given;
          shards = w.shared.shards;
          chains = w.shared.chains;
          workers = w.workers.items;
        })
        × (w.room ≡ w.shared.setup) };
}

impl<S: Fits<P>, P> Weave<S, P> {
    ghost use Rattle.mely_history.specs.Setup.{shape_of, colours_of, is_listed};
    ghost use Rattle.mely_weave.specs.Lanes.{lane_for};
    ghost use Rattle.mely_weave.specs.StandsWell.{StandsWell};
    ghost use Rattle.mely_weave.specs.WeaveStands.{WeaveStands};

    /// The law of this type, for contracts alone: whatever steps were made, refused or not, the
    /// weave stands well. `keeps` is the form that each step is proved to keep, `parts` the eight
    /// rules that it says: on histories, marks, their owners, what they tell, reports, turns,
    /// states and registrations. A call does nothing.
    pub fn stands_well(&self)
        ensures keeps { StandsWell S.Trail S.fits_under self.now }
        ensures parts { WeaveStands S.Trail S.fits_under self.now }
    {
        let _shared = &self.shared;
    }

    /// The history of a shard so far, whose entries can be read where the setup lists them.
    pub fn history(&self, shard: u16) -> &History
        requires { shard < (shape_of self.now.setup).shards }
        ensures value { (has : _) → slice_get self.now.shards shard ≡ Some has
            → result.now.items ≡ has.history }
        ensures listed { result.now.listed ≡ is_listed self.now.setup }
    {
        self.shared.shards[shard as usize].history()
    }

    /// The state of a colour, where it does not run.
    pub fn state(&self, colour: Colour) -> Option<&S>
        requires { colour.0 < colours_of self.now.setup }
        ensures { (lane : _) → lane_for self.now.setup self.now.shards colour ≡ Some lane
            → option_copied result ≡ lane.state }
    {
        let place = self.shared.setup.shard_of(colour);
        self.shared.shards[place].state(colour)
    }

    /// The mark at this place of the chain of a core, and nothing exactly where the chain isn't
    /// longer. The next to run is at place 0.
    pub fn chain_at(&self, core: u16, place: usize) -> Option<Mark>
        requires { core < (shape_of self.now.setup).cores }
        ensures { (queue : _) → slice_get self.now.chains core ≡ Some queue
            → result ≡ slice_get queue.chain place }
    {
        self.shared.chains[core as usize].at(place)
    }
}

impl<S: Fits<P> + Drop, P: Drop> Weave<S, P> {
    ghost use Rattle.mely_history.specs.Setup.{shape_of, colours_of};
    ghost use Rattle.mely_worker.specs.Access.{FitsSetup};
    ghost use Rattle.mely_worker.specs.Conditions.{AppServes};
    ghost use Rattle.mely_weave.specs.StandsWell.{StandsWell, WasntRefused};
    ghost use Rattle.mely_weave.specs.WeaveRun.{StepCall, PostCall};
    ghost use Rattle.mely_weave.specs.Runs.{KeepsSetup};

    /// Registers an event from outside, and delivers the mark or the report at once.
    ///
    /// # Errors
    ///
    /// There was no memory: event and load are handed back.
    pub fn post(
        &mut self,
        colour: Colour,
        event: Event,
        load: Option<P>,
    ) -> Result<Registered, Unregistered<P>>
        requires fits { FitsSetup S.fits_under self.old.setup (S.frame_of self.old.given)
            (colour, event, load) }
        ensures call { PostCall S.Trail S.fits_under colour event load result self.old self.new }
        ensures back { IfErr result (λ refused. (refused.event ≡ event) × (refused.load ≡ load)) }
        ensures same { KeepsSetup self.old self.new }
        ensures stands { StandsWell S.Trail S.fits_under self.new }
    {
        self.shared.post(colour, event, load)
    }

    /// Makes one step by the rule of the core's worker, and names it.
    pub fn step<R: App<State = S, Load = P>>(&mut self, core: u16, app: &R) -> Made
        requires core { core < (shape_of self.old.setup).cores }
        requires served { AppServes R.App self.old.setup (S.frame_of self.old.given) app.now }
        ensures call { StepCall S.Trail S.fits_under R.App app.now core result self.old self.new }
        ensures accepted { WasntRefused result }
        ensures same { KeepsSetup self.old self.new }
        ensures stands { StandsWell S.Trail S.fits_under self.new }
    {
        let worker = &mut self.workers[core as usize];
        self.shared.step(core, worker, app)
    }
}
