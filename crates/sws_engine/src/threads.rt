//! The server with a thread for each worker, from the world and the hall to what the run leaves.
//! One worker needs no thread: it runs over a weave.
ghost use Rattle.std.specs.Prelude.{◌≡◌, ◌≢◌, ◌≤◌, ◌+◌, [], ◌∷◌, Some, IfOk, IfErr, map, slice_get};
ghost use Rattle.std.specs.List.{AllByRecursion};
ghost use Rattle.mely_chain.specs.WeaveTold.{IsTold};
ghost use Rattle.mely_crew.specs.Crew.{IsRegistered, RanBehind};
ghost use Rattle.mely_history.specs.Setup.{is_listed};
ghost use Rattle.mely_tally.specs.Account.{IsAccounted};
ghost use Rattle.mely_weave.specs.Dealing.{AtEach};
ghost use Rattle.mely_weave.specs.Drains.{SomeHalted};
ghost use Rattle.mely_weave.specs.Making.{AreInitial};
ghost use Rattle.mely_worker.specs.Access.{FitsSetup};
ghost use Rattle.mely_worker.specs.Conditions.{AppServes};
ghost use Rattle.sws_weave.specs.Begins.{AreInitialFor, IsAtRest, IsSetFor, IsShapedFor};
ghost use Rattle.sws_handlers.specs.Counting.{colours_over};
ghost use Rattle.sws_weave.specs.CrewEnds.{CrewEnds};
ghost use Rattle.sws_engine.specs.CrewLeaves.{CrewLeaves, HandlersRan, IsAccountedBy, IsToldBy, first_put};
ghost use Rattle.sws_engine.specs.Gated.{IsGated, RanBehindBy, ThreadsPassed};
ghost use Rattle.sws_handlers.specs.Initial.{AreInitialPlacesOver, first_poll};
ghost use Rattle.sws_handlers.specs.Invariant.{IsConsistent};
ghost use Rattle.sws_weave.specs.RunFits.{RunFits};
ghost use Rattle.sws_weave.specs.PartsKept.{PartsKept};
ghost use Rattle.sws_weave.specs.ServerLeaves.{ServerLeaves};
ghost use Rattle.sws_link.specs.Limits.{conn_limit};
ghost use Rattle.sws_weave.specs.Modelled.{IsModelled};
ghost use Rattle.sws_weave.specs.Scripted.{IsScheduled};

use mely_crew::run_crew;
use mely_event::{Colour, Event, Fits, Trail, Unregistered};
use mely_history::{Setup, Shape};
use mely_tally::{the_parts_are_what_the_weave_had, what_is_left_in_the_parts_fits};
use mely_weave::{Drained, Weave, WeaveParts};
use mely_worker::{App, Gate};
use std::alloc::Global;
use std::sync::Wait;
use std::thread::Threads;
use sws_conn::{Conn, Talk};
use sws_handlers::{
    EndRoom, Ended, Load, Place, Sws, WorldLoad, a_state_is_consistent, colour_count, conclude,
    first_event, initial_places,
};
use sws_link::World;
use sws_site::Site;
use sws_weave::{each_path_opens_once, setup_of, talk_gated, unbegun};

/// What the type of each state keeps, for contracts alone: states are read and stay.
fn are_kept<W: World, T: Talk<W::Link>>(places: &[Place<W, T>])
    ensures { AtEach (λ number place. IsConsistent W.World W.Link.Link T.Talk place) places.now }
{
    for place in places {
        a_state_is_consistent(place);
    }
}

/// Runs a crew of the states of a list, which are taken out of it. Who is generic in a part of the
/// states lends their list.
///
/// # Errors
///
/// There was no memory to begin: event and load are handed back.
fn run_lent<
    R: Threads + Wait + Sync,
    S: Fits<P> + Drop + Send,
    P: Drop + Send,
    A: App<State = S, Load = P> + Sync,
    G: Gate + Sync,
>(
    rt: &R,
    alloc: Global,
    setup: &Setup,
    states: &mut Vec<S>,
    begin: (Colour, Event, Option<P>),
    app: &A,
    gate: &G,
) -> Result<(Weave<S, P>, Drained), Unregistered<P>>
    requires first { AreInitial S.Trail setup.now states.old.items }
    requires fits { (state : _) → slice_get states.old.items 0 ≡ Some state
        → FitsSetup S.fits_under setup.now (S.frame_of state) begin }
    requires served { (state : _) → slice_get states.old.items 0 ≡ Some state
        → AppServes A.App setup.now (S.frame_of state) app.now }
    ensures framed { IfOk result (λ ran. (state : _) → slice_get states.old.items 0 ≡ Some state
        → S.frame_of ran.0.given ≡ S.frame_of state) }
    ensures rests { IfOk result (λ ran. IsAtRest setup.now ran.0 ran.1) }
    ensures begun { IfOk result (λ ran. IsRegistered begin.0 begin.1 ran.0) }
    ensures accounted { IfOk result (λ ran.
        IsAccounted S.Trail S.fits_under A.App app.now (begin ∷ []) ran.0) }
    ensures told { IfOk result (λ ran. IsTold S.Trail S.fits_under A.App app.now
        (λ c. slice_get states.old.items c.0) (begin ∷ []) ran.0) }
    ensures gated { IfOk result (λ ran. RanBehind S.Trail S.fits_under A.App app.now
        (G.passes gate.now) (λ c. slice_get states.old.items c.0) (begin ∷ []) ran.1 ran.0) }
    ensures memory { IfOk result (λ ran. ran.1 ≡ Drained.Memory → SomeHalted ran.0) }
    ensures back { IfErr result (λ refused. refused ≡ record { event = begin.1; load = begin.2 }) }
{
    let given = std::mem::replace(states, Vec::new(alloc));
    run_crew(rt, alloc, setup, given, begin, app, gate)
}

/// Serves all links of a world over a fleet of these initial states, with a thread for each core.
///
/// # Errors
///
/// There was no memory to begin: the world comes back.
fn run_places<
    R: Threads + Wait + Sync,
    W: World + Drop + Send,
    T: Talk<W::Link> + Drop + Send,
    G: Gate + Sync,
>(
    rt: &R,
    alloc: Global,
    setup: &Setup,
    states: &mut Vec<Place<W, T>>,
    world: W,
    total: u16,
    gate: &G,
    log: bool,
) -> Result<(Weave<Place<W, T>, Load<W, W::Link>>, Drained), W>
where
    W::Link: Send,
    T::Hall: Send,
    requires set { AreInitialFor W.World T.Talk setup.now world total log states.old.items }
    requires few { total ≤ conn_limit }
    ensures of_world { IfOk result (λ ran. ran.0.given.first ≡ world) }
    ensures of_hall { (hall : _)
        → AreInitialPlacesOver T.Talk world hall total (colours_over total log) states.old.items
        → IfOk result (λ ran. ran.0.given.hall ≡ hall) }
    ensures rests { IfOk result (λ ran. IsAtRest setup.now ran.0 ran.1) }
    ensures begun { IfOk result (λ ran.
        IsRegistered (record { 0 = 0 }) (first_poll total) ran.0) }
    ensures accounted { IfOk result (λ ran. IsAccountedBy ⟦<Place<W, T> as Trail>⟧
        ⟦<Place<W, T> as Fits<Load<W, W::Link>>>⟧.fits_under ⟦<Sws<W, T> as App>⟧
        (λ app. app.total) (λ app. app.log) total log (first_put total world ∷ []) ran.0) }
    ensures told { IfOk result (λ ran. IsToldBy ⟦<Place<W, T> as Trail>⟧
        ⟦<Place<W, T> as Fits<Load<W, W::Link>>>⟧.fits_under ⟦<Sws<W, T> as App>⟧
        (λ app. app.total) (λ app. app.log) (λ c. slice_get states.old.items c.0) total log
        (first_put total world ∷ []) ran.0) }
    ensures gated { IfOk result (λ ran. RanBehindBy ⟦<Place<W, T> as Trail>⟧
        ⟦<Place<W, T> as Fits<Load<W, W::Link>>>⟧.fits_under ⟦<Sws<W, T> as App>⟧
        (λ app. app.total) (λ app. app.log) (G.passes gate.now)
        (λ c. slice_get states.old.items c.0) total log (first_put total world ∷ []) ran.1
        ran.0) }
    ensures memory { IfOk result (λ ran. ran.1 ≡ Drained.Memory → SomeHalted ran.0) }
    ensures back { IfErr result (λ back. back ≡ world) }
{
    let app = Sws::new(total, log);
    let load = Load::World(WorldLoad {
        world,
        accepted: 0,
        failed: false,
    });
    let begin = (Colour(0), first_event(total), Some(load));
    match run_lent(rt, alloc, setup, states, begin, &app, gate) {
        Ok(ran) => Ok(ran),
        Err(refused) => match refused.load {
            Some(Load::World(held)) => Err(held.world),
            Some(Load::Link(_)) => unreachable!(),
            Some(Load::Line(_)) => unreachable!(),
            None => unreachable!(),
        },
    }
}

/// Serves all links of a world over a fleet, with a thread for each core, and the weave that
/// it leaves is taken apart.
///
/// # Errors
///
/// There was no memory to begin: the world comes back.
fn run_threads<
    R: Threads + Wait + Sync,
    W: World + Drop + Send,
    T: Talk<W::Link> + Drop + Send,
    G: Gate + Sync,
>(
    rt: &R,
    alloc: Global,
    setup: &Setup,
    hall: T::Hall,
    world: W,
    gate: &G,
    log: bool,
) -> Result<(WeaveParts<Place<W, T>, Load<W, W::Link>>, Drained), W>
where
    W::Link: Send,
    T::Hall: Send,
    requires { IsSetFor W.World setup.now world log }
    ensures kept { IfOk result (λ ran. PartsKept W.World T.Talk setup.now world log ran.1
        (map (λ history. history.items) ran.0.histories.items) ran.0.states.items
        (map (λ queue. queue.items) ran.0.queued.items)) }
    ensures fits { IfOk result (λ ran. RunFits W.World W.Link.Link world (T.contents_of hall)
        ran.0.states.items (map (λ queue. queue.items) ran.0.queued.items) ran.0.lost.items) }
    ensures handled { IfOk result (λ ran. HandlersRan W.World W.Link.Link T.Talk
        (T.contents_of hall) world log setup.now
        (map (λ history. history.items) ran.0.histories.items) ran.0.lost.items) }
    ensures ends { IfOk result (λ ran. ran.1 ≡ Drained.Empty → ran.0.lost.items ≡ []
        → CrewEnds T.Talk (W.tells world).total log ran.0.states.items) }
    ensures gated { IfOk result (λ ran. ThreadsPassed T.Talk ⟦<Place<W, T> as Trail>⟧
        ⟦<Place<W, T> as Fits<Load<W, W::Link>>>⟧.fits_under ⟦<Sws<W, T> as App>⟧
        (λ app. app.total) (λ app. app.log) (G.passes gate.now) (T.contents_of hall) world
        (W.tells world).total log (map (λ history. history.items) ran.0.histories.items)) }
    ensures listed { IfOk result (λ ran. AllByRecursion
        (λ history. history.listed ≡ is_listed setup.now) ran.0.histories.items) }
    ensures back { IfErr result (λ back. back ≡ world) }
{
    let total = world.total();
    let Ok(mut states) = initial_places(alloc, hall, &world, total, log) else {
        return Err(world);
    };
    let (weave, drained) = run_places::<R, W, T, G>(
        rt,
        alloc,
        setup,
        &mut states,
        world,
        total,
        gate,
        log,
    )?;
    weave.stands_well();
    the_parts_are_what_the_weave_had::<Place<W, T>, Load<W, W::Link>>();
    what_is_left_in_the_parts_fits::<Place<W, T>, Load<W, W::Link>>();
    let parts = weave.into_parts();
    are_kept(&parts.states);
    Ok((parts, drained))
}

/// Serves all links of a world by talks of one hall, with a thread for each worker; the gate
/// is passed before each handler. All room for what the run leaves is made before its first
/// event. The histories are listed or not, as is asked. It need not return.
///
/// No connection is ever lost, on one worker or on several: the verdict is never
/// [`Verdict::Apart`](crate::Verdict::Apart).
///
/// One worker runs over a weave, on the thread of the caller and with no lock. It leaves what
/// [`talk_steps`](crate::talk_steps) leaves of an empty schedule.
///
/// What is left over where the fleet of several is closed, because memory was refused to a worker,
/// is run by one core after another then, and passes no gate.
pub fn talk_all<
    R: Threads + Wait + Sync,
    W: World + Drop + Send,
    T: Talk<W::Link> + Drop + Send,
    G: Gate + Sync,
>(
    rt: &R,
    alloc: Global,
    hall: T::Hall,
    shape: &Shape,
    world: W,
    gate: &G,
    log: bool,
    listed: bool,
) -> Ended<W>
where
    W::Link: Send,
    T::Hall: Send,
    requires { IsShapedFor W.World shape.now world log }
    ensures leaves { ServerLeaves W.World W.Link.Link T.Talk shape.now (T.contents_of hall)
        world log result }
    ensures crew { shape.now.cores ≢ 1 → CrewLeaves W.World W.Link.Link T.Talk shape.now
        (T.contents_of hall) world log result }
    ensures gated { IsGated T.Talk ⟦<Place<W, T> as Trail>⟧
        ⟦<Place<W, T> as Fits<Load<W, W::Link>>>⟧.fits_under ⟦<Sws<W, T> as App>⟧
        (λ app. app.total) (λ app. app.log) (G.passes gate.now) (T.contents_of hall) world
        (W.tells world).total log shape.now.cores result }
    ensures model { shape.now.cores ≡ 1 → IsModelled W.World W.Link.Link T.Talk
        (T.contents_of hall) shape.now world log [] result }
    ensures listed { AllByRecursion (λ history. history.listed ≡ listed)
        result.histories.items }
{
    if shape.cores == 1 {
        return talk_gated::<R, W, T, G>(rt, alloc, hall, shape, world, &[], gate, log, listed);
    }
    let total = world.total();
    let Ok(room) = EndRoom::new(alloc, total) else {
        return unbegun(alloc, world);
    };
    let colours = colour_count(total, log);
    let setup = setup_of(shape, colours, listed);
    match run_threads::<R, W, T, G>(rt, alloc, &setup, hall, world, gate, log) {
        Ok((parts, drained)) => conclude(room, total, parts, drained, log),
        Err(world) => unbegun(alloc, world),
    }
}

/// Serves all links of a world out of a site, with a thread for each worker; the gate is passed
/// before each handler. The histories are listed or not, as is asked. It need not return.
///
/// Unless memory was refused, each connection that was accepted was served, and no line of the access
/// log is out of its turn, on one worker or on several: the verdict is never
/// [`Verdict::Apart`](crate::Verdict::Apart).
///
/// Several workers begin with the first poll of the world, and run the server's handlers alone, with
/// the access log where it is asked for: what these put was registered, or was refused for memory.
///
/// One worker runs over a weave, on the thread of the caller and with no lock. It leaves what
/// [`serve_steps`](crate::serve_steps) leaves of an empty schedule: where the world's links answer by
/// scripts, the histories at `Ok` are those of the definition of a run, and no others.
pub fn serve_all<'s, R: Threads + Wait + Sync, W: World + Drop + Send, G: Gate + Sync>(
    rt: &R,
    alloc: Global,
    site: &'s Site,
    shape: &Shape,
    world: W,
    gate: &G,
    log: bool,
    listed: bool,
) -> Ended<W>
where
    W::Link: Send,
    requires { IsShapedFor W.World shape.now world log }
    ensures leaves { ServerLeaves W.World W.Link.Link ⟦<Conn<'s, W::Link> as Talk<W::Link>>⟧
        shape.now site.now world log result }
    ensures crew { shape.now.cores ≢ 1
        → CrewLeaves W.World W.Link.Link ⟦<Conn<'s, W::Link> as Talk<W::Link>>⟧
        shape.now site.now world log result }
    ensures gated { IsGated ⟦<Conn<'s, W::Link> as Talk<W::Link>>⟧
        ⟦<Place<W, Conn<'s, W::Link>> as Trail>⟧
        ⟦<Place<W, Conn<'s, W::Link>> as Fits<Load<W, W::Link>>>⟧.fits_under
        ⟦<Sws<W, Conn<'s, W::Link>> as App>⟧ (λ app. app.total) (λ app. app.log)
        (G.passes gate.now) site.now world (W.tells world).total log shape.now.cores result }
    ensures scheduled { shape.now.cores ≡ 1
        → IsScheduled W.World site.now shape.now world log [] result }
    ensures listed { AllByRecursion (λ history. history.listed ≡ listed)
        result.histories.items }
{
    site.limits();
    each_path_opens_once();
    talk_all::<R, W, Conn<'s, W::Link>, G>(rt, alloc, site, shape, world, gate, log, listed)
}
