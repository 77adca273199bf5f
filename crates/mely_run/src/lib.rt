//! A run of a weave is the run of the machine, for an app that is specified by a pure function.
//!
//! `mely_machine` defines which histories a run writes, where the app is a function. A weave has
//! queues, owners, classes and states in its place, and its app is code. This crate ties the two:
//! where what the app has in a weave agrees with what it is by its function ([`Told`]), a run of
//! the weave, from its first post to the end of its drain, writes the histories of the machine
//! ([`a_run_is_the_machines`]), and the machine writes one list of histories
//! ([`a_machine_has_one_run`]).
//!
//! An app's author says what the function is and when what the app has agrees with it, and proves
//! three things of a handler's run (`IsTold`, in `specs/Pieces.antt`): no shard, chain or worker
//! occurs in them. [`run_whole`] is the whole run as a call.
//!
//! ```text
//! a_run_is_the_machines::<State, Load, App>();
//! let parts = run_whole(&rt, alloc, &setup, states, &app, colour, event, load, &schedule);
//! ```
#![tactic(auto)]

ghost use Rattle.std.specs.Prelude.{◌≡◌, ◌<◌, ◌^◌, ℕ, All, IfSome, Some, List, map, sum_by, length, slice_get};
ghost use Rattle.std.specs.List.{AllByRecursion};
ghost use Rattle.mely_history.specs.Setup.{shape_of, is_listed};
ghost use Rattle.mely_worker.specs.Access.{FitsSetup};
ghost use Rattle.mely_worker.specs.Conditions.{AppServes};
ghost use Rattle.mely_weave.specs.Making.{AreInitial};
ghost use Rattle.mely_run.specs.WholeRuns.{IsWholeRun};

mod told;

use mely_event::{Colour, Event, Fits, Trail};
use mely_history::Setup;
pub use mely_machine::a_machine_has_one_run;
use mely_weave::{Drained, Weave, WeaveParts, Went};
use mely_worker::App;
use std::alloc::Global;
use std::sync::Wait;
pub use told::{Told, a_run_is_the_machines};

/// A run of an app on a weave: the weave is made of the states, an event is posted, the steps of a
/// schedule are made, and the weave is drained. It answers the parts of the weave, with the
/// histories by shard, which can be read where the setup lists them, and the states that are left,
/// or nothing for want of memory. It need not return, since a drain need not.
pub fn run_whole<W: Wait, S: Fits<P> + Drop, P: Drop, R: App<State = S, Load = P>>(
    rt: &W,
    alloc: Global,
    setup: &Setup,
    states: Vec<S>,
    app: &R,
    colour: Colour,
    event: Event,
    load: Option<P>,
    schedule: &[(u16, u32)],
) -> Option<WeaveParts<S, P>>
    requires states { AreInitial S.Trail setup.now states.items }
    requires some { 0 < length states.items }
    requires fits { (state : S) → slice_get states.items 0 ≡ Some state
        → FitsSetup S.fits_under setup.now (S.frame_of state) (colour, event, load) }
    requires served { (state : S) → slice_get states.items 0 ≡ Some state
        → AppServes R.App setup.now (S.frame_of state) app.now }
    requires cores { All (λ part. part.0 < (shape_of setup.now).cores) schedule.now }
    requires count { sum_by (λ part. part.1) schedule.now < 2 ^ 64 }
    ensures runs { IfSome result (λ parts. IsWholeRun S.Trail S.fits_under R.App app.now setup.now
        states.items colour event load schedule.now
        (map (λ history. history.items) parts.histories.items) parts.states.items) }
    ensures listed { IfSome result (λ parts. AllByRecursion (λ history.
        history.listed ≡ is_listed setup.now) parts.histories.items) }
{
    let Ok(mut weave) = Weave::new(alloc, setup, states) else {
        return None;
    };
    let Ok(_reply) = weave.post(colour, event, load) else {
        weave.drain(rt, app);
        weave.into_parts();
        return None;
    };
    let went = weave.run(schedule, app);
    let drained = weave.drain(rt, app);
    let parts = weave.into_parts();
    match (went, drained) {
        (Went::All, Drained::Empty) => Some(parts),
        _ => None,
    }
}
