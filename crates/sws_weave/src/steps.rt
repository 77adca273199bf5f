//! The server over a weave, from the world and the hall to what the run leaves.
ghost use Rattle.std.specs.Prelude.{◌≡◌, None, length};
ghost use Rattle.std.specs.List.{AllByRecursion};
ghost use Rattle.mely_event.specs.HandlerTable.{rows_of};
ghost use Rattle.mely_history.specs.Setup.{colours_of, first_out_of_range, handlers_of, is_listed, pinned_of, shape_of};
ghost use Rattle.sws_weave.specs.Begins.{IsScheduleOf, IsShapedFor};
ghost use Rattle.sws_weave.specs.ServerLeaves.{HasNotBegun, ServerLeaves};
ghost use Rattle.sws_weave.specs.ServerRun.{handler_rows};
ghost use Rattle.sws_handlers.specs.Tasks.{handler_count};
ghost use Rattle.sws_weave.specs.Modelled.{IsModelled};
ghost use Rattle.sws_weave.specs.Passed.{HandlersPassed};

use crate::whole::run_apart;
use mely_event::Handlers;
use mely_history::{Setup, Shape};
use mely_worker::{Gate, OpenGate};
use std::alloc::Global;
use std::sync::Wait;
use sws_conn::Talk;
use sws_handlers::{EndRoom, Ended, Verdict, colour_count, conclude};
use sws_link::{Link, World};

/// How many handlers there are: one for each [`Task`](sws_handlers::Task).
const HANDLER_COUNT: usize = 11;

/// The time and the penalty of each handler, in the order of their numbers: Poll, Wait, Accept,
/// Open, Read, Parse, Look, Write, Close, Resume, Log.
const HANDLERS: [(u32, u32); HANDLER_COUNT] = [
    (40, 4),
    (10, 1),
    (40, 4),
    (20, 1),
    (60, 2),
    (80, 1),
    (50, 1),
    (100, 2),
    (30, 1),
    (60, 2),
    (10, 1),
];

/// The handlers of the server: eleven, as every run of it and every journal of one has them.
pub fn handler_table() -> Handlers
    ensures rows { rows_of result ≡ handler_rows }
    ensures count { length (rows_of result) ≡ handler_count }
{
    match Handlers::new(&HANDLERS) {
        Ok(handlers) => handlers,
        Err(_) => unreachable!(),
    }
}

/// The setup of a run with this shape and so many colours: the server's handlers, and colour 0
/// pinned. Its histories are listed or not, as is asked.
pub fn setup_of(shape: &Shape, colours: u16, listed: bool) -> Setup
    requires { first_out_of_range shape.now colours 1 ≡ None }
    ensures shape { shape_of result ≡ shape.now }
    ensures colours { colours_of result ≡ colours }
    ensures rows { rows_of (handlers_of result) ≡ handler_rows }
    ensures count { length (rows_of (handlers_of result)) ≡ handler_count }
    ensures pinned { pinned_of result ≡ 1 }
    ensures listed { is_listed result ≡ listed }
{
    let Ok(setup) = Setup::new(shape, u32::from(colours), handler_table(), 1) else {
        unreachable!()
    };
    if listed { setup.listed() } else { setup }
}

/// What is left where there was no memory to begin: the world, and empty lists.
pub fn unbegun<W: World>(alloc: Global, world: W) -> Ended<W>
    ensures { HasNotBegun world result }
{
    Ended {
        verdict: Verdict::Memory,
        world: Some(world),
        accepted: 0,
        failed: false,
        served: Vec::new(alloc),
        histories: Vec::new(alloc),
        trails: Vec::new(alloc),
        log: Vec::new(alloc),
    }
}

/// Serves all links of a world by talks of one hall over a weave: the schedule's steps of each
/// core, and then rounds of one step a core until nothing is left. The gate is passed before each
/// handler, as by core 0. All room for what the run leaves is made before its first event. The
/// histories are listed or not, as is asked.
pub fn talk_gated<R: Wait, W: World + Drop, T: Talk<W::Link> + Drop, G: Gate>(
    rt: &R,
    alloc: Global,
    hall: T::Hall,
    shape: &Shape,
    world: W,
    schedule: &[(u16, u32)],
    gate: &G,
    log: bool,
    listed: bool,
) -> Ended<W>
    requires shape { IsShapedFor W.World shape.now world log }
    requires schedule { IsScheduleOf shape.now.cores schedule.now }
    ensures leaves { ServerLeaves W.World W.Link.Link T.Talk shape.now
        (T.contents_of hall) world log result }
    ensures model { IsModelled W.World W.Link.Link T.Talk (T.contents_of hall) shape.now
        world log schedule.now result }
    ensures passed { HandlersPassed (G.passes gate.now 0) result }
    ensures listed { AllByRecursion (λ history. history.listed ≡ listed)
        result.histories.items }
{
    let total = world.total();
    let Ok(room) = EndRoom::new(alloc, total) else {
        return unbegun(alloc, world);
    };
    let colours = colour_count(total, log);
    let setup = setup_of(shape, colours, listed);
    match run_apart::<R, W, T, G>(rt, alloc, &setup, hall, world, schedule, gate, log) {
        Ok((parts, drained)) => conclude(room, total, parts, drained, log),
        Err(world) => unbegun(alloc, world),
    }
}

/// Serves all links of a world by talks of one hall: the schedule's steps of each core, and
/// then rounds of one step a core until nothing is left. All room for what the run leaves is
/// made before its first event. The histories are listed or not, as is asked.
///
/// Where the world is scripted, the histories at [`Verdict::Ok`] are those of the definition of a
/// run, and no others.
pub fn talk_steps<R: Wait, W: World + Drop, T: Talk<W::Link> + Drop>(
    rt: &R,
    alloc: Global,
    hall: T::Hall,
    shape: &Shape,
    world: W,
    schedule: &[(u16, u32)],
    log: bool,
    listed: bool,
) -> Ended<W>
    requires shape { IsShapedFor W.World shape.now world log }
    requires schedule { IsScheduleOf shape.now.cores schedule.now }
    ensures leaves { ServerLeaves W.World W.Link.Link T.Talk shape.now
        (T.contents_of hall) world log result }
    ensures model { IsModelled W.World W.Link.Link T.Talk (T.contents_of hall) shape.now
        world log schedule.now result }
    ensures listed { AllByRecursion (λ history. history.listed ≡ listed)
        result.histories.items }
{
    talk_gated::<R, W, T, OpenGate>(
        rt, alloc, hall, shape, world, schedule, &OpenGate, log, listed,
    )
}
