//! The laws over the runs that a weave's workers made.
ghost use Rattle.std.specs.Prelude.{◌≡◌, ℕ, List, [], ◌∷◌, Option, Some, Result, length, map, slice_get};
ghost use Rattle.mely_event.specs.declared.colour.Colour.{Colour};
ghost use Rattle.mely_event.specs.declared.event.Event.{Event};
ghost use Rattle.mely_event.specs.declared.unregistered.Unregistered.{Unregistered};
ghost use Rattle.mely_history.specs.Setup.{colours_of};
ghost use Rattle.mely_history.specs.declared.registered.Registered.{Registered};
ghost use Rattle.mely_history.specs.declared.setup.Setup.{Setup};
ghost use Rattle.mely_tally.specs.Account.{and_posted};
ghost use Rattle.mely_weave.specs.declared.draining.Drained.{Drained};
ghost use Rattle.mely_weave.specs.declared.running.Went.{Went};
ghost use Rattle.mely_weave.specs.Drains.{AllFree, Drains, HistoriesAreDrained};
ghost use Rattle.mely_weave.specs.Lanes.{AreByColour};
ghost use Rattle.mely_weave.specs.Making.{AreInitial, IsInitialWeave};
ghost use Rattle.mely_weave.specs.Runs.{RunsTo, StepsWell};
ghost use Rattle.mely_weave.specs.StandsWell.{StandsWell};
ghost use Rattle.mely_weave.specs.Weave.{WeaveState};
ghost use Rattle.mely_weave.specs.WeaveRun.{PostCall};
ghost use Rattle.mely_worker.specs.declared.made.Made.{Made};
ghost use Rattle.mely_chain.specs.Ended.{NoneLost, RanInOrder};
ghost use Rattle.mely_chain.specs.WeaveTold.{IsTold};

use mely_event::{Fits, Trail};
use mely_worker::App;

/// The notes of a weave's histories tell the runs of its workers: at first, when there are none,
/// and after each post, each step, each run of a schedule and each drain. So the turns of a colour
/// follow one another on its state, and the pass of a core registered what its runs put, in that
/// order.
pub fn notes_tell_what_the_workers_ran<S: Fits<P>, P, R: App<State = S, Load = P>>()
    ensures first { (app : R) (setup : Setup) (states : List S) (weave : WeaveState S P)
        → AreInitial S.Trail setup states → IsInitialWeave setup states weave
        → StandsWell S.Trail S.fits_under weave
        → IsTold S.Trail S.fits_under R.App app (λ c. slice_get states c.0) [] weave }
    ensures post { (app : R) (given : Colour → Option S)
        (posted : List (Colour × Event × Option P)) (colour : Colour) (event : Event)
        (load : Option P) (answer : Result Registered (Unregistered P))
        (before after : WeaveState S P) → StandsWell S.Trail S.fits_under before
        → PostCall S.Trail S.fits_under colour event load answer before after
        → IsTold S.Trail S.fits_under R.App app given posted before
        → IsTold S.Trail S.fits_under R.App app given
        (and_posted (colour, event, load) answer posted) after }
    ensures step { (app : R) (given : Colour → Option S)
        (posted : List (Colour × Event × Option P)) (core : ℕ) (step : Made)
        (before after : WeaveState S P) → StandsWell S.Trail S.fits_under before
        → StepsWell S.Trail S.fits_under R.App app before core step after
        → IsTold S.Trail S.fits_under R.App app given posted before
        → IsTold S.Trail S.fits_under R.App app given posted after }
    ensures run { (app : R) (given : Colour → Option S)
        (posted : List (Colour × Event × Option P)) (cores : List ℕ) (went : Went)
        (before after : WeaveState S P) → StandsWell S.Trail S.fits_under before
        → RunsTo S.Trail S.fits_under R.App app before cores went after
        → IsTold S.Trail S.fits_under R.App app given posted before
        → IsTold S.Trail S.fits_under R.App app given posted after }
    ensures drain { (app : R) (given : Colour → Option S)
        (posted : List (Colour × Event × Option P)) (drained : Drained)
        (before after : WeaveState S P) → StandsWell S.Trail S.fits_under before
        → Drains S.Trail S.fits_under R.App app before drained after
        → IsTold S.Trail S.fits_under R.App app given posted before
        → IsTold S.Trail S.fits_under R.App app given posted after }
{}

/// Where one event was posted, every worker is free, nothing is queued and nothing was refused for
/// want of memory, the runs of the handlers are in their order: on each colour one after another,
/// on what was registered there, from the state that was given to the one that is at home now; and
/// those of each core as its pass registered what they put.
pub fn what_a_drained_weave_ran_is_in_order<S: Fits<P>, P, R: App<State = S, Load = P>>()
    ensures { (app : R) (begin : Colour × Event × Option P) (given left : List S)
        (weave : WeaveState S P) → StandsWell S.Trail S.fits_under weave
        → IsTold S.Trail S.fits_under R.App app (λ c. slice_get given c.0) (begin ∷ []) weave
        → AllFree weave → HistoriesAreDrained weave → NoneLost weave
        → length given ≡ colours_of weave.setup
        → AreByColour (λ lane. lane.state) weave.setup weave.shards (map (λ state. Some state) left)
        → RanInOrder S.Trail S.fits_under R.App app weave begin (λ c. slice_get given c.0)
        (λ c. slice_get left c.0) }
{}
