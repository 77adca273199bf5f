//! An app on threads, from its initial states to its end.
ghost use Rattle.std.specs.Prelude.{◌≡◌, IfOk, Some, map, slice_get};
ghost use Rattle.std.specs.List.{AllByRecursion};
ghost use Rattle.mely_history.specs.Setup.{is_listed};
ghost use Rattle.mely_weave.specs.Making.{AreInitial};
ghost use Rattle.mely_worker.specs.Access.{FitsSetup};
ghost use Rattle.mely_worker.specs.Conditions.{AppServes};
ghost use Rattle.mely_app.specs.InOrder.{RanInOrder, RanFromInitial};
ghost use Rattle.mely_app.specs.Puts.{HasPutAll};
ghost use Rattle.mely_app.specs.RanAll.{AllFramed, RanAll};
ghost use Rattle.mely_app.specs.Unfinished.{IfNotStarted, IfCutShort, RanInPart, HasPutInPart, RanInOrderSoFar, RanFromInitialSoFar, histories_left, waiting_left};

use crate::initial::{Initial, initial_states};
use crate::run_error::{RunError, Unfinished};
use mely_crew::run_open;
use mely_event::{Colour, Event, Fits, Trail};
use mely_history::{History, Setup};
use mely_tally::{the_parts_are_what_the_weave_had, what_is_left_in_the_parts_fits};
use mely_weave::{Drained, WeaveParts};
use mely_worker::App;
use std::alloc::Global;
use std::sync::Wait;
use std::thread::Threads;

/// What a run leaves that came to its end.
#[derive(Drop)]
pub struct Ended<S> {
    /// The state of each colour.
    pub states: Vec<S>,

    /// The history of each shard, whose entries can be read where the setup lists them; those of a
    /// colour stand in that of its number modulo the number of shards.
    pub histories: Vec<History>,
}

/// Runs an app on initial states, from its first event on, with a thread for each core, until
/// nothing is left. It need not return: an app may register for ever.
///
/// # Errors
///
/// There was no memory, to start or on the way: see [`RunError`], which hands back all that there is.
pub fn run_app<
    R: Threads + Wait + Sync,
    S: Initial<P> + Drop + Send,
    P: Drop + Send,
    A: App<State = S, Load = P> + Sync,
>(
    rt: &R,
    alloc: Global,
    setup: &Setup,
    app: &A,
    colour: Colour,
    event: Event,
    load: Option<P>,
) -> Result<Ended<S>, RunError<S, P>>
    requires served { AppServes A.App setup.now S.initial_frame app.now }
    requires fits { FitsSetup S.fits_under setup.now S.initial_frame (colour, event, load) }
    ensures ran { IfOk result (λ ended. RanAll S.Trail setup.now colour event
        (map (λ history. history.items) ended.histories.items) ended.states.items) }
    ensures listed { IfOk result (λ ended. AllByRecursion (λ history. history.listed
        ≡ is_listed setup.now) ended.histories.items) }
    ensures framed { IfOk result (λ ended.
        AllFramed S.Trail S.initial_frame ended.states.items) }
    ensures puts { IfOk result (λ ended. HasPutAll S.Trail S.fits_under A.App app.now
        setup.now S.initial_frame (colour, event, load)
        (map (λ history. history.items) ended.histories.items)) }
    ensures in_order { IfOk result (λ ended. RanFromInitial S.Trail S.fits_under A.App app.now
        setup.now S.initial_frame (colour, event, load)
        (map (λ history. history.items) ended.histories.items) ended.states.items) }
    ensures not_started { IfNotStarted result (λ back. back ≡ load) }
    ensures in_part { IfCutShort result (λ left. RanInPart S.Trail S.fits_under setup.now
        S.initial_frame colour event (histories_left left) left.states.items (waiting_left left)
        left.refused.items) }
    ensures puts_in_part { IfCutShort result (λ left. HasPutInPart S.Trail S.fits_under A.App
        app.now setup.now S.initial_frame (colour, event, load) (histories_left left)
        left.refused.items) }
    ensures order_so_far { IfCutShort result (λ left. RanFromInitialSoFar S.Trail S.fits_under
        A.App app.now setup.now S.initial_frame (colour, event, load) (histories_left left)
        left.states.items (waiting_left left) left.refused.items) }
{
    let Ok(states) = initial_states::<S, P>(alloc, setup) else {
        return Err(RunError::NotStarted(load));
    };
    run_states(rt, alloc, setup, states, app, colour, event, load)
}

/// Runs an app as [`run_app`] does, on initial states that the caller has made: so what they begin
/// with may be the app's own.
///
/// # Errors
///
/// There was no memory, to start or on the way: see [`RunError`], which hands back all that there is
/// but the states of a run that didn't start.
pub fn run_states<
    R: Threads + Wait + Sync,
    S: Fits<P> + Drop + Send,
    P: Drop + Send,
    A: App<State = S, Load = P> + Sync,
>(
    rt: &R,
    alloc: Global,
    setup: &Setup,
    states: Vec<S>,
    app: &A,
    colour: Colour,
    event: Event,
    load: Option<P>,
) -> Result<Ended<S>, RunError<S, P>>
    requires first { AreInitial S.Trail setup.now states.items }
    requires served { (state : _) → slice_get states.items 0 ≡ Some state
        → AppServes A.App setup.now (S.frame_of state) app.now }
    requires fits { (state : _) → slice_get states.items 0 ≡ Some state
        → FitsSetup S.fits_under setup.now (S.frame_of state) (colour, event, load) }
    ensures ran { IfOk result (λ ended. RanAll S.Trail setup.now colour event
        (map (λ history. history.items) ended.histories.items) ended.states.items) }
    ensures listed { IfOk result (λ ended. AllByRecursion (λ history. history.listed
        ≡ is_listed setup.now) ended.histories.items) }
    ensures framed { IfOk result (λ ended. (first : _) → slice_get states.items 0 ≡ Some first
        → AllFramed S.Trail (S.frame_of first) ended.states.items) }
    ensures puts { IfOk result (λ ended. (first : _) → slice_get states.items 0 ≡ Some first
        → HasPutAll S.Trail S.fits_under A.App app.now
        setup.now (S.frame_of first) (colour, event, load)
        (map (λ history. history.items) ended.histories.items)) }
    ensures in_order { IfOk result (λ ended. (first : _) → slice_get states.items 0 ≡ Some first
        → RanInOrder S.Trail S.fits_under A.App app.now
        setup.now (S.frame_of first) (colour, event, load) states.items
        (map (λ history. history.items) ended.histories.items) ended.states.items) }
    ensures not_started { IfNotStarted result (λ back. back ≡ load) }
    ensures in_part { IfCutShort result (λ left. (first : _)
        → slice_get states.items 0 ≡ Some first
        → RanInPart S.Trail S.fits_under setup.now (S.frame_of first) colour event
        (histories_left left) left.states.items (waiting_left left) left.refused.items) }
    ensures puts_in_part { IfCutShort result (λ left. (first : _)
        → slice_get states.items 0 ≡ Some first
        → HasPutInPart S.Trail S.fits_under A.App app.now setup.now (S.frame_of first)
        (colour, event, load) (histories_left left) left.refused.items) }
    ensures order_so_far { IfCutShort result (λ left. (first : _)
        → slice_get states.items 0 ≡ Some first
        → RanInOrderSoFar S.Trail S.fits_under A.App app.now setup.now (S.frame_of first)
        (colour, event, load) states.items (histories_left left) left.states.items
        (waiting_left left) left.refused.items) }
{
    let ran = run_open(rt, alloc, setup, states, (colour, event, load), app);
    let (weave, drained) = match ran {
        Ok(ran) => ran,
        Err(back) => return Err(RunError::NotStarted(back.load)),
    };
    weave.stands_well();
    the_parts_are_what_the_weave_had::<S, P>();
    what_is_left_in_the_parts_fits::<S, P>();
    let WeaveParts {
        histories,
        states,
        queued: waiting,
        lost: refused,
    } = weave.into_parts();
    match drained {
        Drained::Empty if refused.is_empty() => Ok(Ended { states, histories }),
        _ => Err(RunError::CutShort(Unfinished {
            states,
            histories,
            waiting,
            refused,
        })),
    }
}
