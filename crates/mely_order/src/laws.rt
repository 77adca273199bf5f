//! The laws over all weaves, all apps and all streams.
ghost use Rattle.std.specs.Prelude.{◌≡◌, ◌+◌, ℕ, [], ◌∷◌, List, Option, Some, Result, map, flat_map, length};
ghost use Rattle.std.specs.List.{range_with_len};
ghost use Rattle.mely_event.specs.declared.colour.Colour.{Colour};
ghost use Rattle.mely_event.specs.declared.event.Event.{Event};
ghost use Rattle.mely_event.specs.declared.unregistered.Unregistered.{Unregistered};
ghost use Rattle.mely_history.specs.declared.registered.Registered.{Registered};
ghost use Rattle.mely_history.specs.declared.setup.Setup.{Setup};
ghost use Rattle.mely_worker.specs.declared.made.Made.{Made};
ghost use Rattle.mely_weave.specs.declared.draining.Drained.{Drained};
ghost use Rattle.mely_weave.specs.declared.running.Went.{Went};
ghost use Rattle.mely_weave.specs.Drains.{AllFree, Drains};
ghost use Rattle.mely_weave.specs.Lanes.{AreByColour};
ghost use Rattle.mely_weave.specs.Making.{AreInitial, IsInitialWeave};
ghost use Rattle.mely_weave.specs.Runs.{RunsTo};
ghost use Rattle.mely_weave.specs.StandsWell.{StandsWell};
ghost use Rattle.mely_weave.specs.Weave.{WeaveState};
ghost use Rattle.mely_weave.specs.WeaveRun.{PostCall, StepCall};
ghost use Rattle.mely_tally.specs.Tallies.{Carried};
ghost use Rattle.mely_order.specs.Rising.{Rises, IsAscending, AreBetween};
ghost use Rattle.mely_order.specs.Steps.{StepSeen, PostSeen};
ghost use Rattle.mely_order.specs.Stream.{Stream, ServesStream, numbers_put};
ghost use Rattle.mely_order.specs.InOrder.{InOrder, BeginsInOrder, EndsInOrder};

use mely_event::{Fits, Trail};
use mely_worker::App;

/// Numbers that rise are in strictly ascending order, each above the low one and at most the high
/// one; and where they are as many as there are numbers between, they are all of those.
pub fn what_rises_is_in_order()
    ensures ascending { (low high : ℕ) (numbers : List ℕ) → Rises low numbers high
        → IsAscending numbers }
    ensures between { (low high : ℕ) (numbers : List ℕ) → Rises low numbers high
        → AreBetween low numbers high }
    ensures all { (low high : ℕ) (numbers : List ℕ) → Rises low numbers high
        → low + length numbers ≡ high → numbers ≡ range_with_len (low + 1) (length numbers) }
{}

/// Each colour's events are run in the order of its line, and enter it in the order in which they
/// are registered. A step runs the first event of a line, or registers the first of what a turn has
/// left, or nothing is seen of it.
pub fn a_step_goes_by_the_lines<S: Fits<P>, P, R: App<State = S, Load = P>>()
    ensures { (app : R) (core : ℕ) (step : Made) (before after : WeaveState S P)
        → StandsWell S.Trail S.fits_under before
        → StepCall S.Trail S.fits_under R.App app core step before after
        → StepSeen S.Trail S.fits_under R.App app step before after }
{}

/// What is posted enters the line of its colour behind all others. A refused post changes no line.
pub fn a_post_enters_a_line<S: Fits<P>, P>()
    ensures { (colour : Colour) (event : Event) (load : Option P)
        (answer : Result Registered (Unregistered P))
        (before after : WeaveState S P)
        → PostCall S.Trail S.fits_under colour event load answer before after
        → PostSeen colour event load answer before after }
{}

/// A stream that is in order in the states that were given is in order in an initial weave.
pub fn an_initial_stream_is_in_order<S: Fits<P>, P>()
    ensures { (stream : Stream S P) (setup : Setup) (states : List S) (weave : WeaveState S P)
        → BeginsInOrder stream states → AreInitial S.Trail setup states
        → IsInitialWeave setup states weave → StandsWell S.Trail S.fits_under weave
        → InOrder stream weave }
{}

/// A post of something that isn't of the stream keeps its order.
pub fn a_post_keeps_a_stream_in_order<S: Fits<P>, P>()
    ensures { (stream : Stream S P) (colour : Colour) (event : Event) (load : Option P)
        (answer : Result Registered (Unregistered P)) (before after : WeaveState S P)
        → PostCall S.Trail S.fits_under colour event load answer before after
        → numbers_put stream ((colour, event, load) ∷ []) ≡ []
        → InOrder stream before → InOrder stream after }
{}

/// What a colour sends to another in ascending order is received in ascending order, whatever
/// workers run the two, also where their colours are stolen, and where registrations are refused
/// for memory: a stream stays in order over a step, over a schedule that is run, and over a drain.
pub fn what_is_sent_in_order_is_received_in_order<S: Fits<P>, P, R: App<State = S, Load = P>>()
    ensures step { (app : R) (stream : Stream S P) (core : ℕ) (step : Made)
        (before after : WeaveState S P)
        → ServesStream S.Trail S.fits_under R.App app (S.Trail.frame_of before.given) stream
        → StandsWell S.Trail S.fits_under before
        → StepCall S.Trail S.fits_under R.App app core step before after
        → InOrder stream before → InOrder stream after }
    ensures run { (app : R) (stream : Stream S P) (cores : List ℕ) (went : Went)
        (before after : WeaveState S P)
        → ServesStream S.Trail S.fits_under R.App app (S.Trail.frame_of before.given) stream
        → StandsWell S.Trail S.fits_under before
        → RunsTo S.Trail S.fits_under R.App app before cores went after
        → InOrder stream before → InOrder stream after }
    ensures drain { (app : R) (stream : Stream S P) (drained : Drained)
        (before after : WeaveState S P)
        → ServesStream S.Trail S.fits_under R.App app (S.Trail.frame_of before.given) stream
        → StandsWell S.Trail S.fits_under before
        → Drains S.Trail S.fits_under R.App app before drained after
        → InOrder stream before → InOrder stream after }
{}

/// What the receiver has when a weave with free workers is taken apart is in order, and so it is
/// with what is still queued for it. Where the numbers have no gaps, it is all that was sent but
/// what is queued or was refused for memory.
pub fn what_is_left_of_a_stream_is_in_order<S: Fits<P>, P>()
    ensures { (stream : Stream S P) (weave : WeaveState S P) (states : List S)
        (queued : List (List (Carried P))) (lost : List (Colour × Event × Option P))
        → InOrder stream weave → AllFree weave
        → AreByColour (λ lane. lane.state) weave.setup weave.shards
        (map (λ state. Some state) states)
        → AreByColour (λ lane. lane.events) weave.setup weave.shards queued
        → lost ≡ flat_map (λ w. w.lost) weave.workers
        → EndsInOrder stream states queued lost }
{}
