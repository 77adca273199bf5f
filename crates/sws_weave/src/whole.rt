//! A whole run of the server on a weave: from the world and the hall to the weave's parts.
ghost use Rattle.std.specs.Prelude.{◌≡◌, ◌++◌, IfOk, IfErr, [], map};
ghost use Rattle.std.specs.List.{AllByRecursion};
ghost use Rattle.mely_history.specs.Setup.{is_listed, shape_of};
ghost use Rattle.sws_weave.specs.Begins.{IsAtRest, IsScheduleOf, IsSetFor};
ghost use Rattle.sws_weave.specs.LogStream.{LogsInOrder};
ghost use Rattle.sws_weave.specs.Passed.{StatesPassed, WeavePassed};
ghost use Rattle.sws_weave.specs.RunFact.{RunFact};
ghost use Rattle.sws_weave.specs.RunFits.{RunFits};
ghost use Rattle.sws_weave.specs.RunParts.{RunParts};
ghost use Rattle.sws_weave.specs.ServedRun.{HasRunOut, IsOfPaths};

use crate::gated::Gated;
use crate::running::run_through;
use crate::starting::start;
use mely_event::{Fits, Trail};
use mely_history::Setup;
use mely_order::what_is_left_of_a_stream_is_in_order;
use mely_tally::{
    the_parts_are_what_the_weave_had, what_handlers_put_is_accounted_for,
    what_is_left_in_the_parts_fits,
};
use mely_weave::{Drained, Weave, WeaveParts};
use mely_worker::{App, Gate};
use std::alloc::Global;
use std::sync::Wait;
use sws_conn::Talk;
use sws_handlers::{Load, Place, initial_places};
use sws_link::{Link, World};

/// Serves all links of a world over a weave: the schedule's steps, and then
/// rounds until nothing is left. The gate is passed before each handler.
///
/// # Errors
///
/// There was no memory to begin: the world comes back.
pub fn run_whole<'g, R: Wait, W: World + Drop, T: Talk<W::Link> + Drop, G: Gate>(
    rt: &R,
    alloc: Global,
    setup: &Setup,
    hall: T::Hall,
    world: W,
    schedule: &[(u16, u32)],
    gate: &'g G,
    log: bool,
) -> Result<(Weave<Place<W, T>, Load<W, W::Link>>, Drained), W>
    requires set { IsSetFor W.World setup.now world log }
    requires schedule { IsScheduleOf (shape_of setup.now).cores schedule.now }
    ensures stands { IfOk result (λ ran. RunFact W.World T.Talk world ran.0) }
    ensures ordered { IfOk result (λ ran.
        LogsInOrder T.Talk (W.tells world).total log ran.0) }
    ensures of_hall { IfOk result (λ ran. ran.0.given.hall ≡ T.contents_of hall) }
    ensures rests { IfOk result (λ ran. IsAtRest setup.now ran.0 ran.1) }
    ensures passed { IfOk result (λ ran. WeavePassed (G.passes gate.now 0) ran.0) }
    ensures out { IfOk result (λ ran. ran.1 ≡ Drained.Empty
        → HasRunOut W.World T.Talk ⟦<Place<W, T> as Trail>⟧
        ⟦<Place<W, T> as Fits<Load<W, W::Link>>>⟧.fits_under
        ⟦<Gated<'g, W, T, G> as App>⟧ (λ gated. gated.app.total) (λ gated. gated.app.log) log
        setup.now world (T.contents_of hall) schedule.now ran.0) }
    ensures back { IfErr result (λ back. back ≡ world) }
{
    let total = world.total();
    let Ok(states) = initial_places(alloc, hall, &world, total, log) else {
        return Err(world);
    };
    let mut weave = start(alloc, setup, states, world, total, log)?;
    let app = Gated::new(total, log, gate);
    what_handlers_put_is_accounted_for::<Place<W, T>, Load<W, W::Link>, Gated<'g, W, T, G>>();
    let drained = run_through(rt, &mut weave, &app, schedule);
    Ok((weave, drained))
}

/// Makes a weave of the server, runs it by the schedule to its end, and takes it apart. The gate is
/// passed before each handler.
///
/// # Errors
///
/// There was no memory to begin: the world comes back.
pub fn run_apart<R: Wait, W: World + Drop, T: Talk<W::Link> + Drop, G: Gate>(
    rt: &R,
    alloc: Global,
    setup: &Setup,
    hall: T::Hall,
    world: W,
    schedule: &[(u16, u32)],
    gate: &G,
    log: bool,
) -> Result<(WeaveParts<Place<W, T>, Load<W, W::Link>>, Drained), W>
    requires set { IsSetFor W.World setup.now world log }
    requires schedule { IsScheduleOf (shape_of setup.now).cores schedule.now }
    ensures ran { IfOk result (λ ran. RunParts W.World T.Talk setup.now world log ran.1
        (map (λ history. history.items) ran.0.histories.items) ran.0.states.items
        (map (λ queue. queue.items) ran.0.queued.items) ran.0.lost.items) }
    ensures fits { IfOk result (λ ran.
        RunFits W.World W.Link.Link world (T.contents_of hall) ran.0.states.items
        (map (λ queue. queue.items) ran.0.queued.items) ran.0.lost.items) }
    ensures model { IfOk result (λ ran.
        IsOfPaths W.World T.Talk W.Link.Link (T.contents_of hall) setup.now world log
        schedule.now ran.1 (map (λ history. history.items) ran.0.histories.items)
        ran.0.states.items) }
    ensures passed { IfOk result (λ ran. StatesPassed (G.passes gate.now 0) ran.0.states.items) }
    ensures listed { IfOk result (λ ran. AllByRecursion
        (λ history. history.listed ≡ is_listed setup.now) ran.0.histories.items) }
    ensures back { IfErr result (λ back. back ≡ world) }
{
    let (weave, drained) = run_whole(rt, alloc, setup, hall, world, schedule, gate, log)?;
    weave.stands_well();
    T::a_run_serves();
    the_parts_are_what_the_weave_had::<Place<W, T>, Load<W, W::Link>>();
    what_is_left_in_the_parts_fits::<Place<W, T>, Load<W, W::Link>>();
    what_is_left_of_a_stream_is_in_order::<Place<W, T>, Load<W, W::Link>>();
    Ok((weave.into_parts(), drained))
}
