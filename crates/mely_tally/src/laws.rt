//! The laws over all states and all events under way.
ghost use Rattle.std.specs.Prelude.{◌≡◌, ℕ, List, [], Option, Some, Result, map, flat_map};
ghost use Rattle.mely_event.specs.declared.colour.Colour.{Colour};
ghost use Rattle.mely_event.specs.declared.event.Event.{Event};
ghost use Rattle.mely_event.specs.declared.unregistered.Unregistered.{Unregistered};
ghost use Rattle.mely_history.specs.declared.entry.Entry.{Entry};
ghost use Rattle.mely_history.specs.declared.registered.Registered.{Registered};
ghost use Rattle.mely_history.specs.declared.setup.Setup.{Setup};
ghost use Rattle.mely_worker.specs.declared.made.Made.{Made};
ghost use Rattle.mely_weave.specs.declared.draining.Drained.{Drained};
ghost use Rattle.mely_weave.specs.declared.running.Went.{Went};
ghost use Rattle.mely_weave.specs.Drains.{AllFree, Drains, HistoriesAreDrained};
ghost use Rattle.mely_weave.specs.Lanes.{AreByColour};
ghost use Rattle.mely_weave.specs.Making.{AreInitial, IsInitialWeave};
ghost use Rattle.mely_weave.specs.Runs.{RunsTo, StepsWell};
ghost use Rattle.mely_weave.specs.StandsWell.{StandsWell};
ghost use Rattle.mely_weave.specs.Weave.{WeaveState};
ghost use Rattle.mely_weave.specs.WeaveRun.{PostCall, StepCall};
ghost use Rattle.mely_weave.specs.WeaveStands.{WeaveStands};
ghost use Rattle.mely_tally.specs.Account.{IsAccounted, and_posted};
ghost use Rattle.mely_tally.specs.Tallies.{Carried, under_way, refused_in};
ghost use Rattle.mely_tally.specs.Tells.{HandlersKeep, StepTells, PostTells, BeginsAs, IsTakenApart, PartsFit, total_of};

use mely_event::{Fits, Trail};
use mely_worker::App;

/// An initial weave has the states that it was given, nothing is under way, its workers are free,
/// and the states have the frame that is kept of it.
pub fn an_initial_weave_has_what_it_was_given<S: Fits<P>, P>()
    ensures { (setup : Setup) (states : List S) (weave : WeaveState S P)
        → AreInitial S.Trail setup states
        → IsInitialWeave setup states weave → StandsWell S.Trail S.fits_under weave
        → BeginsAs S.Trail states weave }
{}

/// A post moves no state. What was posted is under way then, and after a
/// refused post all is as before.
pub fn a_post_brings_its_event<S: Fits<P>, P>()
    ensures { (colour : Colour) (event : Event) (load : Option P)
        (answer : Result Registered (Unregistered P))
        (before after : WeaveState S P)
        → PostCall S.Trail S.fits_under colour event load answer before after
        → PostTells event load answer before after }
{}

/// A step runs one event, which was under way and which fitted, on the state of its
/// colour: that state becomes the one that the handler left, the event is no longer under
/// way, and what the handler put is. Every other step only moves states and events.
pub fn a_step_runs_one_event_or_only_moves<S: Fits<P>, P, R: App<State = S, Load = P>>()
    ensures { (app : R) (core : ℕ) (step : Made) (before after : WeaveState S P)
        → StandsWell S.Trail S.fits_under before
        → StepCall S.Trail S.fits_under R.App app core step before after
        → StepTells S.Trail S.fits_under R.App app before after }
{}

/// Where each handler leaves in its state, or hands on by what it puts, as much as was in the
/// state and its event brought, the whole weave keeps its total: over a step, over a schedule that
/// is run, and over a drain.
pub fn what_each_handler_keeps_a_run_keeps<S: Fits<P>, P, R: App<State = S, Load = P>>()
    ensures step { (app : R) (had : S → ℕ) (brought : Carried P → ℕ)
        → HandlersKeep S.Trail S.fits_under R.App app had brought
        → (core : ℕ) (step : Made) (before after : WeaveState S P)
        → StandsWell S.Trail S.fits_under before
        → StepCall S.Trail S.fits_under R.App app core step before after
        → total_of had brought after ≡ total_of had brought before }
    ensures run { (app : R) (had : S → ℕ) (brought : Carried P → ℕ)
        → HandlersKeep S.Trail S.fits_under R.App app had brought
        → (cores : List ℕ) (went : Went) (before after : WeaveState S P)
        → StandsWell S.Trail S.fits_under before
        → RunsTo S.Trail S.fits_under R.App app before cores went after
        → total_of had brought after ≡ total_of had brought before }
    ensures drain { (app : R) (had : S → ℕ) (brought : Carried P → ℕ)
        → HandlersKeep S.Trail S.fits_under R.App app had brought
        → (drained : Drained) (before after : WeaveState S P)
        → StandsWell S.Trail S.fits_under before
        → Drains S.Trail S.fits_under R.App app before drained after
        → total_of had brought after ≡ total_of had brought before }
{}

/// Where every worker is free and nothing is queued, only what was refused for memory is under way.
pub fn a_drained_weave_has_only_what_was_refused<S: Fits<P>, P>()
    ensures { (weave : WeaveState S P) → StandsWell S.Trail S.fits_under weave → AllFree weave
        → HistoriesAreDrained weave → under_way weave ≡ refused_in weave }
{}

/// The parts that a weave is taken apart into have its states, and all that is under way: what is
/// queued, and what was refused for memory. The histories are legal, and drained where the weave's
/// were; each state is that of its colour, has the frame, and its trail is what was run of it.
pub fn the_parts_are_what_the_weave_had<S: Fits<P>, P>()
    ensures { (weave : WeaveState S P) (histories : List (List Entry)) (states : List S)
        (queued : List (List (Carried P))) (lost : List (Colour × Event × Option P))
        → StandsWell S.Trail S.fits_under weave
        → WeaveStands S.Trail S.fits_under weave → AllFree weave
        → histories ≡ map (λ has. has.history) weave.shards
        → AreByColour (λ lane. lane.state) weave.setup weave.shards
        (map (λ state. Some state) states)
        → AreByColour (λ lane. lane.events) weave.setup weave.shards queued
        → lost ≡ flat_map (λ w. w.lost) weave.workers
        → IsTakenApart S.Trail weave histories states queued lost }
{}

/// What is queued in the parts that a weave is taken apart into fits the colour whose queue it is,
/// and what was refused for memory is of a colour and a handler of the setup, and fits.
pub fn what_is_left_in_the_parts_fits<S: Fits<P>, P>()
    ensures { (weave : WeaveState S P) (queued : List (List (Carried P)))
        (lost : List (Colour × Event × Option P))
        → WeaveStands S.Trail S.fits_under weave
        → AreByColour (λ lane. lane.events) weave.setup weave.shards queued
        → lost ≡ flat_map (λ w. w.lost) weave.workers
        → PartsFit S.Trail S.fits_under weave queued lost }
{}

/// All that handlers put and that was posted is accounted for, of an initial weave with nothing, and
/// so after each post, each step, each run of a schedule and each drain: it is registered, left of a
/// turn, or was refused for memory; and what handlers were run on are the events that were taken,
/// each by its place in the order of its colour. A post that was refused brings nothing.
pub fn what_handlers_put_is_accounted_for<S: Fits<P>, P, R: App<State = S, Load = P>>()
    ensures first { (app : R) (setup : Setup) (states : List S) (weave : WeaveState S P)
        → IsInitialWeave setup states weave
        → IsAccounted S.Trail S.fits_under R.App app [] weave }
    ensures post { (app : R) (posted : List (Colour × Event × Option P)) (colour : Colour)
        (event : Event) (load : Option P) (answer : Result Registered (Unregistered P))
        (before after : WeaveState S P) → StandsWell S.Trail S.fits_under before
        → PostCall S.Trail S.fits_under colour event load answer before after
        → IsAccounted S.Trail S.fits_under R.App app posted before
        → IsAccounted S.Trail S.fits_under R.App app
        (and_posted (colour, event, load) answer posted) after }
    ensures step { (app : R) (posted : List (Colour × Event × Option P)) (core : ℕ) (step : Made)
        (before after : WeaveState S P) → StandsWell S.Trail S.fits_under before
        → StepsWell S.Trail S.fits_under R.App app before core step after
        → IsAccounted S.Trail S.fits_under R.App app posted before
        → IsAccounted S.Trail S.fits_under R.App app posted after }
    ensures run { (app : R) (posted : List (Colour × Event × Option P)) (cores : List ℕ)
        (went : Went) (before after : WeaveState S P) → StandsWell S.Trail S.fits_under before
        → RunsTo S.Trail S.fits_under R.App app before cores went after
        → IsAccounted S.Trail S.fits_under R.App app posted before
        → IsAccounted S.Trail S.fits_under R.App app posted after }
    ensures drain { (app : R) (posted : List (Colour × Event × Option P)) (drained : Drained)
        (before after : WeaveState S P) → StandsWell S.Trail S.fits_under before
        → Drains S.Trail S.fits_under R.App app before drained after
        → IsAccounted S.Trail S.fits_under R.App app posted before
        → IsAccounted S.Trail S.fits_under R.App app posted after }
{}
