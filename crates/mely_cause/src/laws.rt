//! The laws over what a weave's workers ran.
ghost use Rattle.std.specs.Prelude.{◌≡◌, ℕ, List, [], ◌∷◌, Option, Some, length, map, slice_get};
ghost use Rattle.mely_event.specs.declared.colour.Colour.{Colour};
ghost use Rattle.mely_event.specs.declared.event.Event.{Event};
ghost use Rattle.mely_history.specs.Setup.{colours_of};
ghost use Rattle.mely_weave.specs.Drains.{AllFree, HistoriesAreDrained};
ghost use Rattle.mely_weave.specs.Lanes.{AreByColour};
ghost use Rattle.mely_weave.specs.StandsWell.{StandsWell};
ghost use Rattle.mely_weave.specs.Weave.{WeaveState};
ghost use Rattle.mely_chain.specs.Ended.{NoneLost};
ghost use Rattle.mely_chain.specs.WeaveTold.{IsTold};
ghost use Rattle.mely_cause.specs.Causes.{AreCaused, Registration};
ghost use Rattle.mely_cause.specs.Ended.{RanWithCauses};
ghost use Rattle.mely_tally.specs.Account.{HandlerRun};

use mely_event::{Fits, Trail};
use mely_worker::App;

/// Where one event was posted, every worker is free, nothing is queued and nothing was refused for
/// want of memory, the runs of the handlers are in their order
/// ([`what_a_drained_weave_ran_is_in_order`](mely_chain::what_a_drained_weave_ran_is_in_order)),
/// and each registration but that of the event that was posted was put by one of them. And all the
/// runs can be put in one order, that of each colour kept, by which a single thread might have made
/// them from the event that was posted and the states that were given: each run is of an event that
/// was under way by then, on the state that the run of its colour before it left.
pub fn what_a_drained_weave_ran_has_causes<S: Fits<P>, P, R: App<State = S, Load = P>>()
    ensures { (app : R) (begin : Colour × Event × Option P) (given left : List S)
        (weave : WeaveState S P) → StandsWell S.Trail S.fits_under weave
        → IsTold S.Trail S.fits_under R.App app (λ c. slice_get given c.0) (begin ∷ []) weave
        → AllFree weave → HistoriesAreDrained weave → NoneLost weave
        → length given ≡ colours_of weave.setup
        → AreByColour (λ lane. lane.state) weave.setup weave.shards (map (λ state. Some state) left)
        → RanWithCauses S.Trail S.fits_under R.App app weave begin (λ c. slice_get given c.0)
        (λ c. slice_get left c.0) }
{}

/// No two events are put each by the run of the other. So histories that show it, although each of
/// them counts right, are those of no run.
pub fn no_two_events_put_each_other<S, P>()
    ensures { (begin : Colour × Event × Option P) (loaded : Colour → List (Event × Option P))
        (runs : Colour → List (HandlerRun S P)) (are : AreCaused begin loaded runs)
        (c d : Colour) (i j : ℕ) (one two : Registration P)
        → slice_get (are.came c) i ≡ Some one → slice_get (are.came d) j ≡ Some two
        → one.cause ≡ Some (d, j) → two.cause ≡ Some (c, i) → ⊥ }
{}
