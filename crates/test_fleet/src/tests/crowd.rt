//! Callers in threads of their own, all on one fleet.
ghost use Rattle.std.specs.Prelude.{◌≡◌, ◌<◌, ◌≤◌, ◌+◌, ◌↔◌, IfOk, IsTrue, Some, length, slice_get};
ghost use Rattle.mely_history.specs.Setup.{shape_of, colours_of};
ghost use Rattle.mely_weave.specs.Dealing.{AtEach};
ghost use Rattle.mely_weave.specs.Making.{initial_idle_worker};
ghost use Rattle.mely_worker.specs.Phase.{is_free};
ghost use Rattle.mely_fleet.specs.Fleets.{ArePasses};
ghost use Rattle.mely_kept.specs.Frames.{shard_frame};
ghost use Rattle.mely_fleet.specs.Seats.{IsOutsider};
ghost use Rattle.test_fleet.specs.Callers.{AreCallers, IsCaller, IsOpen, IsRow};

use super::{fleet_of, listed_setup_of, setup_of};
use example_counting::{Passing, Tally};
use mely_event::{Colour, Event, Fits, Kept, Memory, Trail};
use mely_fleet::{Fleet, Passes, Room, Seat, SeatOf, Worked};
use mely_history::{Entry, History, Judged, Setup, Shape, judge};
use mely_steal::victims;
use mely_weave::{Drained, Weave, WeaveParts};
use mely_worker::{IdleWorker, OpenGate, Worker};
use std::alloc::Global;
use std::sync::Wait;
use std::sync::atomic::{AtomicU64, Ordering};
use std::thread;
use std::thread::Threads;

/// What the threads of a run do, and what came of it.
#[derive(Drop)]
pub(super) struct Run {
    pub(super) app: Passing,

    /// What each caller that is no core's posts: so many events, on all colours in turn but on the
    /// one that is skipped. Each is passed on so often.
    posts: u16,
    passes: u16,
    skipped: Option<u16>,

    /// How many workers answered that all is quiet, and how many posts were refused.
    pub(super) quiet: AtomicU64,
    pub(super) refused: AtomicU64,
}

impl Run {
    pub(super) fn new(colours: u16, posts: u16, passes: u16, skipped: Option<u16>) -> Run
        ensures { result.app.colours ≡ colours }
    {
        Run {
            app: Passing {
                colours,
                stays: false,
                rounds: 0,
                ran: AtomicU64::new(0),
            },
            posts,
            passes,
            skipped,
            quiet: AtomicU64::new(0),
            refused: AtomicU64::new(0),
        }
    }
}

/// The worker of a core, at rest, and none for a number that is no core's.
fn worker_for(alloc: Global, setup: &Setup, number: u16) -> Result<Option<IdleWorker<u8>>, Memory>
    ensures { IfOk result (λ worker. number < (shape_of setup.now).cores
        → worker ≡ Some (initial_idle_worker setup.now number)) }
{
    if number >= setup.cores() {
        return Ok(None);
    }
    let order = victims(alloc, number, setup.cores(), setup.group())?;
    let worker: Worker<(), u8> = Worker::new(alloc, number, order, setup.batch())?;
    Ok(Some(worker.rest()))
}

/// The callers of a fleet: each with its passes, and a core's with its worker.
fn callers_of(
    alloc: Global,
    fleet: &Fleet<Tally, u8>,
    setup: &Setup,
    passes: Vec<Passes<Tally, u8>>,
) -> Result<Vec<Seat<Tally, u8>>, Memory>
    requires are { AreCallers (shard_frame ⟦<Tally as Trail>⟧.frame_of) setup.now fleet.now.passes
        fleet.now passes.items }
    ensures many { IfOk result (λ callers. length callers.items ≡ length passes.items) }
    ensures each { IfOk result (λ callers. AtEach (λ n caller. IsCaller ⟦<Tally as Trail>⟧.frame_of
        ⟦<Tally as Fits<u8>>⟧.fits_under fleet.now n caller.passes caller.worker) callers.items) }
{
    let mut callers = Vec::new(alloc);
    'passes: for own in passes {
        let worker = worker_for(alloc, setup, own.number())?;
        callers.push(SeatOf {
            passes: own,
            worker,
        })?;
    }
    Ok(callers)
}

/// Posts what a caller is to post.
fn post_all<R: Wait>(rt: &R, fleet: &Fleet<Tally, u8>, own: &mut Passes<Tally, u8>, run: &Run)
    requires colours { run.now.app.colours ≡ colours_of fleet.now.setup }
    requires row { IsRow (shape_of fleet.now.setup).cores
        (colours_of fleet.now.setup) fleet.now.setup }
    requires own { ArePasses (shard_frame ⟦<Tally as Trail>⟧.frame_of) fleet.now own.old }
    ensures own { ArePasses (shard_frame ⟦<Tally as Trail>⟧.frame_of) fleet.now own.new }
    ensures number { own.new.number ≡ own.old.number }
{
    if run.app.colours == 0 {
        return;
    }
    let event = Event {
        handler: 0,
        arg: run.passes,
    };
    'posts: for number in 0..run.posts {
        let colour = Colour(number % run.app.colours);
        if run.skipped == Some(colour.0) {
            continue;
        }
        if fleet.post(rt, own, colour, event, None).is_err() {
            run.refused.fetch_add(1, Ordering::SeqCst);
        }
    }
}

/// Which callers act.
#[derive(Clone, Copy, PartialEq, Eq)]
pub(super) enum Who {
    Others,
    FirstCore,
    Cores,
    All,
}

/// What one caller does in its thread: a core works, and another posts.
fn act<R: Wait>(
    rt: &R,
    fleet: &Fleet<Tally, u8>,
    setup: &Setup,
    number: usize,
    caller: &mut Seat<Tally, u8>,
    run: &Run,
    who: Who,
)
    requires of_setup { fleet.now.setup ≡ setup.now }
    requires colours { run.now.app.colours ≡ colours_of setup.now }
    requires row { IsRow (shape_of setup.now).cores (colours_of setup.now) setup.now }
    requires caller { IsCaller ⟦<Tally as Trail>⟧.frame_of
        ⟦<Tally as Fits<u8>>⟧.fits_under fleet.now number
        caller.old.passes caller.old.worker }
    ensures { IsCaller ⟦<Tally as Trail>⟧.frame_of ⟦<Tally as Fits<u8>>⟧.fits_under fleet.now number
        caller.new.passes caller.new.worker }
{
    if number >= setup.cores() as usize {
        if who == Who::Cores || who == Who::FirstCore {
            return;
        }
        post_all(rt, fleet, &mut caller.passes, run);
        return;
    }
    if who == Who::Others || (who == Who::FirstCore && number != 0) {
        return;
    }
    if fleet.work_at(rt, caller, &run.app, &OpenGate) == Worked::Quiet {
        run.quiet.fetch_add(1, Ordering::SeqCst);
    }
}

/// All of some callers at once, each in a thread of its own.
fn act_all<R: Threads + Wait + Sync>(
    rt: &R,
    fleet: &Fleet<Tally, u8>,
    setup: &Setup,
    callers: &mut Vec<Seat<Tally, u8>>,
    run: &Run,
    who: Who,
)
    requires of_setup { fleet.now.setup ≡ setup.now }
    requires colours { run.now.app.colours ≡ colours_of setup.now }
    requires row { IsRow (shape_of setup.now).cores (colours_of setup.now) setup.now }
    requires callers { AtEach (λ n caller. IsCaller ⟦<Tally as Trail>⟧.frame_of
        ⟦<Tally as Fits<u8>>⟧.fits_under fleet.now n caller.passes caller.worker)
        callers.old.items }
    ensures many { length callers.new.items ≡ length callers.old.items }
    ensures callers { AtEach (λ n caller. IsCaller ⟦<Tally as Trail>⟧.frame_of
        ⟦<Tally as Fits<u8>>⟧.fits_under fleet.now n caller.passes caller.worker)
        callers.new.items }
{
    let threads = callers.len();
    if threads == 0 {
        return;
    }
    thread::for_each_mut(
        rt,
        callers,
        threads,
        &|number, caller: &mut Seat<Tally, u8>|
            requires of_setup { fleet.now.setup ≡ setup.now }
            requires colours { run.now.app.colours ≡ colours_of setup.now }
            requires row { IsRow (shape_of setup.now).cores (colours_of setup.now) setup.now }
            requires caller { IsCaller (λ s. tt) (λ f c e l. Unit {0}) fleet.now number
                caller.now.passes caller.now.worker }
            ensures { IsCaller (λ s. tt) (λ f c e l. Unit {0}) fleet.entry.now number
                caller.exit.now.passes caller.exit.now.worker }
        { act(rt, fleet, setup, number, caller, run, who) },
    );
}

/// Takes the callers that are no cores off the end, and gives their passes.
fn part(
    alloc: Global,
    fleet: &Fleet<Tally, u8>,
    setup: &Setup,
    callers: &mut Vec<Seat<Tally, u8>>,
) -> Result<Vec<Passes<Tally, u8>>, Memory>
    requires of_setup { fleet.now.setup ≡ setup.now }
    requires some { (shape_of setup.now).cores ≤ length callers.old.items }
    requires callers { AtEach (λ n caller. IsCaller ⟦<Tally as Trail>⟧.frame_of
        ⟦<Tally as Fits<u8>>⟧.fits_under fleet.now n caller.passes caller.worker)
        callers.old.items }
    ensures callers { AtEach (λ n caller. IsCaller ⟦<Tally as Trail>⟧.frame_of
        ⟦<Tally as Fits<u8>>⟧.fits_under fleet.now n caller.passes caller.worker)
        callers.new.items }
    ensures cores { IfOk result (λ _. length callers.new.items ≡ (shape_of setup.now).cores) }
    ensures all { IfOk result (λ outside. length outside.items + length callers.new.items
        ≡ length callers.old.items) }
    ensures outside { IfOk result (λ outside.
        AtEach (λ n own. IsOutsider (shard_frame ⟦<Tally as Trail>⟧.frame_of) fleet.now own)
        outside.items) }
{
    let cores = setup.cores() as usize;
    let mut outside = Vec::with_capacity(alloc, callers.len())?;
    'part: while callers.len() > cores {
        let Some(caller) = callers.pop() else {
            unreachable!()
        };
        let SeatOf { passes, worker } = caller;
        drop(worker);
        outside.push_reserved(passes);
    }
    Ok(outside)
}

/// A fleet with all its callers, and room to close it.
#[derive(Drop)]
pub(super) struct Opened {
    room: Room<Tally, u8>,
    fleet: Fleet<Tally, u8>,
    callers: Vec<Seat<Tally, u8>>,
}

/// A new fleet of so many colours, with the callers of its cores and so many others.
pub(super) fn open_fleet(
    alloc: Global,
    setup: &Setup,
    colours: u16,
    outsiders: u16,
) -> Result<Opened, Memory>
    requires colours { colours_of setup.now ≡ colours }
    requires few { (shape_of setup.now).cores + outsiders ≤ 65535 }
    ensures { IfOk result (λ opened.
        IsOpen ⟦<Tally as Trail>⟧.frame_of ⟦<Tally as Fits<u8>>⟧.fits_under setup.now
        opened.room opened.fleet opened.callers.items) }
{
    let room = Room::new(alloc, setup, outsiders)?;
    let (fleet, passes) = fleet_of(alloc, setup, colours, outsiders)?;
    let callers = callers_of(alloc, &fleet, setup, passes)?;
    Ok(Opened {
        room,
        fleet,
        callers,
    })
}

/// All of some callers at once, each in a thread of its own.
pub(super) fn act_in<R: Threads + Wait + Sync>(
    rt: &R,
    setup: &Setup,
    opened: &mut Opened,
    run: &Run,
    who: Who,
)
    requires colours { run.now.app.colours ≡ colours_of setup.now }
    requires row { IsRow (shape_of setup.now).cores (colours_of setup.now) setup.now }
    requires opened { IsOpen ⟦<Tally as Trail>⟧.frame_of ⟦<Tally as Fits<u8>>⟧.fits_under setup.now
        opened.old.room opened.old.fleet opened.old.callers.items }
    ensures { IsOpen ⟦<Tally as Trail>⟧.frame_of ⟦<Tally as Fits<u8>>⟧.fits_under setup.now
        opened.new.room opened.new.fleet opened.new.callers.items }
{
    act_all(rt, &opened.fleet, setup, &mut opened.callers, run, who);
}

/// The weave that a fleet leaves.
pub(super) fn close_fleet(
    alloc: Global,
    setup: &Setup,
    opened: Opened,
) -> Result<Weave<Tally, u8>, Memory>
    requires { IsOpen ⟦<Tally as Trail>⟧.frame_of ⟦<Tally as Fits<u8>>⟧.fits_under setup.now
        opened.room opened.fleet opened.callers.items }
    ensures free { IfOk result (λ weave.
        AtEach (λ core w. IsTrue (is_free w.phase)) weave.workers) }
    ensures setup { IfOk result (λ weave. weave.setup ≡ setup.now) }
{
    let Opened {
        room,
        fleet,
        mut callers,
    } = opened;
    let outside = part(alloc, &fleet, setup, &mut callers)?;
    match fleet.close_seats(alloc, room, callers, outside) {
        Ok(weave) => Ok(weave),
        Err(_) => Err(Memory),
    }
}

/// Who act at once, and how many handlers have run when they are back, where that is known.
pub(super) type Stage = (Who, Option<u64>);

/// One stage after another; whether as many handlers had run after each.
fn act_out<R: Threads + Wait + Sync>(
    rt: &R,
    setup: &Setup,
    opened: &mut Opened,
    run: &Run,
    stages: &[Stage],
) -> bool
    requires colours { run.now.app.colours ≡ colours_of setup.now }
    requires row { IsRow (shape_of setup.now).cores (colours_of setup.now) setup.now }
    requires opened { IsOpen ⟦<Tally as Trail>⟧.frame_of ⟦<Tally as Fits<u8>>⟧.fits_under setup.now
        opened.old.room opened.old.fleet opened.old.callers.items }
    ensures { IsOpen ⟦<Tally as Trail>⟧.frame_of ⟦<Tally as Fits<u8>>⟧.fits_under setup.now
        opened.new.room opened.new.fleet opened.new.callers.items }
{
    let mut is_right = true;
    'stages: for &(who, ran) in stages {
        act_in(rt, setup, opened, run, who);
        if let Some(count) = ran {
            is_right = is_right && run.app.ran.load(Ordering::SeqCst) == count;
        }
    }
    is_right
}

/// What came of a run: whether as many handlers had run after each stage, how many workers answered
/// that all is quiet, and how many posts were refused.
type Ran = (bool, u64, u64);

/// Lets callers of a new fleet act, one stage after another, closes the fleet, and runs what is left
/// behind the workers: what is left then, what came of the run, and of the rest.
fn run_out<R: Threads + Wait + Sync>(
    rt: &R,
    alloc: Global,
    setup: &Setup,
    colours: u16,
    outsiders: u16,
    run: &Run,
    stages: &[Stage],
) -> Result<(WeaveParts<Tally, u8>, Ran, Drained), Memory>
    requires colours { colours_of setup.now ≡ colours }
    requires app { run.now.app.colours ≡ colours }
    requires row { IsRow (shape_of setup.now).cores colours setup.now }
    requires few { (shape_of setup.now).cores + outsiders ≤ 65535 }
{
    let mut opened = open_fleet(alloc, setup, colours, outsiders)?;
    let is_right = act_out(rt, setup, &mut opened, run, stages);
    let mut weave = close_fleet(alloc, setup, opened)?;
    let drained = weave.drain(rt, &run.app);
    let quiet = run.quiet.load(Ordering::SeqCst);
    let refused = run.refused.load(Ordering::SeqCst);
    Ok((weave.into_parts(), (is_right, quiet, refused), drained))
}

/// Whether no event waits on any colour.
pub(super) fn none_waits(queued: &[Vec<(Event, Option<u8>)>]) -> bool {
    queued.iter().all(|events| events.is_empty())
}

/// How many registrations and how many finished events a history has.
fn counts(history: &[Entry]) -> (u64, u64) {
    let mut registered = 0u64;
    let mut finished = 0u64;
    for entry in history {
        match entry {
            Entry::Reg { .. } => registered = registered.wrapping_add(1),
            Entry::Fin { count, .. } => finished = finished.wrapping_add(u64::from(*count)),
            _ => {}
        }
    }
    (registered, finished)
}

/// How many handlers ran on a state: each draws one number, by one step of a linear congruential
/// generator, which begins with the number of the colour. Its period is 2^32.
fn draws_of(state: &Tally) -> u64 {
    let mut seed = u32::from(state.log.colour().0);
    for count in 0..10_000u64 {
        if seed == state.value {
            return count;
        }
        seed = seed.wrapping_mul(1_664_525).wrapping_add(1_013_904_223);
    }
    u64::MAX
}

/// Whether so many handlers ran on each of the states.
fn drew(states: &[Tally], draws: &[u64]) -> bool {
    for (state, count) in states.iter().zip(draws) {
        if draws_of(state) != *count {
            return false;
        }
    }
    states.len() == draws.len()
}

/// Whether one outsider's thirty posts on three colours, or on those that aren't skipped, are run by
/// two workers in these stages, of which so many end where all is quiet, and by whoever drains what
/// they leave: so many in all, and so many on each colour.
pub(super) fn are_run<R: Threads + Wait + Sync>(
    rt: &R,
    alloc: Global,
    steal_cost: u32,
    skipped: Option<u16>,
    stages: &[Stage],
    quiet: u64,
    draws: &[u64],
) -> Result<bool, Memory> {
    let shape = Shape {
        cores: 2,
        shards: 1,
        batch: 1,
        steal_cost,
        group: 2,
    };
    let setup = setup_of(&shape, 3, 10)?;
    let run = Run::new(3, 30, 0, skipped);
    let (parts, ran, drained) = run_out(rt, alloc, &setup, 3, 1, &run, stages)?;
    Ok(
        ran == (true, quiet, 0)
            && drained == Drained::Empty
            && drew(&parts.states, draws)
            && run.app.ran.load(Ordering::SeqCst) == drawn(&parts.states),
    )
}

/// An outsider posts, and two workers run it.
static POSTED: [Stage; 2] = [(Who::Others, Some(0)), (Who::Cores, Some(20))];

#[test]
fn two_workers_run_what_one_outsider_posted(rt: HostRuntime) {
    let are_so = are_run(&rt, rt.alloc(), 5, Some(1), &POSTED, 2, &[10, 0, 10]);
    assert!(rt; are_so == Ok(true));
}

/// An outsider posts, and the worker of the first core alone works.
static ALONE: [Stage; 2] = [(Who::Others, Some(0)), (Who::FirstCore, Some(20))];

/// A machine that refuses a thread leaves a fleet like this.
#[test]
fn a_worker_whose_fellow_never_begins_gives_up_and_nothing_is_lost(rt: HostRuntime) {
    let are_so = are_run(&rt, rt.alloc(), 1_000_000, None, &ALONE, 0, &[10, 10, 10]);
    assert!(rt; are_so == Ok(true));
}

/// How many events the histories of a run have registered and finished, where each of them is legal.
fn counted(setup: &Setup, histories: &[History]) -> Option<(u64, u64)> {
    let mut registered = 0u64;
    let mut finished = 0u64;
    for history in histories {
        let entries = history.entries()?;
        if judge(setup, entries) != Judged::Legal {
            return None;
        }
        let (here, ended) = counts(entries);
        registered = registered.wrapping_add(here);
        finished = finished.wrapping_add(ended);
    }
    Some((registered, finished))
}

/// How many handlers ran on all of the states.
fn drawn(states: &[Tally]) -> u64 {
    let mut ran = 0u64;
    for state in states {
        ran = ran.wrapping_add(draws_of(state));
    }
    ran
}

/// All act at once, and then the cores alone.
static CROWD: [Stage; 2] = [(Who::All, None), (Who::Cores, None)];

/// Eight workers and three outsiders at once: whether each history is legal, and each of so many
/// events was registered and run.
fn crowd_is_right<R: Threads + Wait + Sync>(
    rt: &R,
    alloc: Global,
    shards: u16,
) -> Result<bool, Memory> {
    let shape = Shape {
        cores: 8,
        shards,
        batch: 3,
        steal_cost: 5,
        group: 4,
    };
    let setup = listed_setup_of(&shape, 12, 10)?;
    let run = Run::new(12, 24, 4, None);
    let (parts, ran, drained) = run_out(rt, alloc, &setup, 12, 3, &run, &CROWD)?;
    Ok(
        ran == (true, 16, 0)
            && drained == Drained::Empty
            && counted(&setup, &parts.histories) == Some((360, 360))
            && drawn(&parts.states) == 360
            && run.app.ran.load(Ordering::SeqCst) == 360,
    )
}

#[test]
fn eight_workers_and_three_outsiders_leave_legal_histories(rt: HostRuntime) {
    for time in 0..50 {
        assert!(rt;
            crowd_is_right(&rt, rt.alloc(), 1) == Ok(true),
            "time {time}"
        );
        assert!(rt;
            crowd_is_right(&rt, rt.alloc(), 4) == Ok(true),
            "time {time}"
        );
    }
}
