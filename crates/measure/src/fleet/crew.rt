//! The workers of a fleet in threads.
ghost use Rattle.std.specs.Prelude.{◌≡◌, IfOk, IfSome};
ghost use Rattle.mely_fleet.specs.Fleets.{ArePasses};
ghost use Rattle.mely_kept.specs.Frames.{shard_frame};
ghost use Rattle.mely_fleet.specs.Seats.{IsSeatOf};
ghost use Rattle.mely_weave.specs.Dealing.{AtEach};
ghost use Rattle.measure.specs.FleetLoops.{IsLoop};

use example_counting::{Passing, Tally, initial_states};
use mely_event::{Colour, Event, Fits, Handlers, Memory, Trail};
use mely_fleet::{Fleet, Passes, Room, Seat, Worked};
use mely_history::{Setup, Shape};
use mely_weave::Drained;
use mely_worker::OpenGate;
use std::alloc::Global;
use std::sync::Wait;
use std::sync::atomic::{AtomicU64, Ordering};
use std::thread;
use std::thread::Threads;

/// What the run is shaped by.
#[derive(Clone, Copy)]
pub struct Order {
    pub workers: u16,
    pub shards: u16,
    pub colours: u16,
    pub passes: u16,
    pub rounds: u32,
    pub batch: u16,

    /// Whether an event stays on its colour.
    pub stays: bool,
}

/// A core for each worker, in groups of four; a colour is worth a steal where three events wait.
fn setup_of(order: &Order) -> Option<Setup>
    ensures { IfSome result (λ setup. IsLoop order.now.colours setup) }
{
    let shape = Shape {
        cores: order.workers,
        shards: order.shards,
        batch: order.batch,
        steal_cost: 20,
        group: 4,
    };
    let Ok(handlers) = Handlers::new(&[(10, 1)]) else {
        return None;
    };
    match Setup::new(&shape, u32::from(order.colours), handlers, 0) {
        Ok(setup) => Some(setup),
        Err(_) => None,
    }
}

/// Registers an event on each colour; whether there was memory.
fn post_all<R: Wait>(
    rt: &R,
    fleet: &Fleet<Tally, u8>,
    outside: &mut Passes<Tally, u8>,
    colours: u16,
    passes: u16,
) -> bool
    requires shaped { IsLoop colours fleet.now.setup }
    requires passes { ArePasses (shard_frame ⟦<Tally as Trail>⟧.frame_of) fleet.now outside.old }
    ensures passes { ArePasses (shard_frame ⟦<Tally as Trail>⟧.frame_of) fleet.now outside.new }
    ensures number { outside.new.number ≡ outside.old.number }
{
    let event = Event {
        handler: 0,
        arg: passes,
    };
    'colours: for colour in 0..colours {
        if fleet
            .post(rt, outside, Colour(colour), event, None)
            .is_err()
        {
            return false;
        }
    }
    true
}

/// What a run comes to.
#[derive(Clone, Copy)]
pub struct Ran {
    /// How many handlers ran.
    pub events: u64,

    /// Whether each worker answered that all is quiet; else some events were run behind them.
    pub is_quiet: bool,
}

/// What the workers of a run count: the handlers that they ran, and how many of them answered that
/// all is quiet.
#[derive(Drop)]
struct Counts {
    ran: AtomicU64,
    quiet: AtomicU64,
}

/// The app of the loop, which has run nothing.
fn passing(order: &Order) -> Passing
    ensures { result.colours ≡ order.now.colours }
{
    Passing {
        colours: order.colours,
        stays: order.stays,
        rounds: order.rounds,
        ran: AtomicU64::new(0),
    }
}

/// The work of one core, in its thread, with an app of its own: a count that the workers shared
/// would be a line of memory that each event takes from another core.
fn work_one<R: Wait>(
    rt: &R,
    fleet: &Fleet<Tally, u8>,
    number: usize,
    seat: &mut Seat<Tally, u8>,
    order: &Order,
    counts: &Counts,
)
    requires shaped { IsLoop order.now.colours fleet.now.setup }
    requires seat { IsSeatOf ⟦<Tally as Trail>⟧.frame_of ⟦<Tally as Fits<u8>>⟧.fits_under
        fleet.now number seat.old.passes seat.old.worker }
    ensures { IsSeatOf ⟦<Tally as Trail>⟧.frame_of ⟦<Tally as Fits<u8>>⟧.fits_under
        fleet.now number seat.new.passes seat.new.worker }
{
    let app = passing(order);
    let worked = fleet.work_at(rt, seat, &app, &OpenGate);
    counts
        .ran
        .fetch_add(app.ran.load(Ordering::SeqCst), Ordering::SeqCst);
    if worked == Worked::Quiet {
        counts.quiet.fetch_add(1, Ordering::SeqCst);
    }
}

/// The work of all cores, each in a thread of its own.
fn work_all<R: Threads + Wait + Sync>(
    rt: &R,
    fleet: &Fleet<Tally, u8>,
    seats: &mut [Seat<Tally, u8>],
    order: &Order,
    counts: &Counts,
)
    requires shaped { IsLoop order.now.colours fleet.now.setup }
    requires seats { AtEach (λ n seat. IsSeatOf ⟦<Tally as Trail>⟧.frame_of
        ⟦<Tally as Fits<u8>>⟧.fits_under fleet.now n seat.passes seat.worker) seats.old }
    ensures { AtEach (λ n seat. IsSeatOf ⟦<Tally as Trail>⟧.frame_of
        ⟦<Tally as Fits<u8>>⟧.fits_under fleet.now n seat.passes seat.worker) seats.new }
{
    let threads = seats.len();
    if threads == 0 {
        return;
    }
    thread::for_each_mut(
        rt,
        seats,
        threads,
        &|number, seat: &mut Seat<Tally, u8>|
            requires shaped { IsLoop order.now.colours fleet.now.setup }
            requires seat { IsSeatOf (λ s. tt) (λ f c e l. Unit {0}) fleet.now number
                seat.now.passes seat.now.worker }
            ensures { IsSeatOf (λ s. tt) (λ f c e l. Unit {0}) fleet.entry.now number
                seat.exit.now.passes seat.exit.now.worker }
        { work_one(rt, fleet, number, seat, order, counts) },
    );
}

/// Runs an event on each of so many colours, passed on so often, and answers what came of it. Once
/// the workers are back the fleet is closed, and what they left is run here. Nothing for want of
/// memory, or where a number is out of its range.
pub fn run<R: Threads + Wait + Sync>(rt: &R, alloc: Global, order: &Order) -> Option<Ran> {
    let setup = setup_of(order)?;
    let states = initial_states(alloc, order.colours).ok()?;
    let Ok((fleet, mut passes)) = Fleet::new(alloc, &setup, states, 1) else {
        return None;
    };
    let mut outside = passes.pop()?;
    let Ok(room) = Room::new(alloc, &setup, 1) else {
        return None;
    };
    let Ok(mut seats) = fleet.seats(alloc, passes) else {
        return None;
    };
    let Ok(mut outsiders) = Vec::with_capacity(alloc, 1) else {
        return None;
    };
    let counts = Counts {
        ran: AtomicU64::new(0),
        quiet: AtomicU64::new(0),
    };
    let is_posted = post_all(rt, &fleet, &mut outside, order.colours, order.passes);
    work_all(rt, &fleet, &mut seats, order, &counts);
    outsiders.push_reserved(outside);
    let Ok(mut weave) = fleet.close_seats(alloc, room, seats, outsiders) else {
        return None;
    };
    let app = passing(order);
    let drained = weave.drain(rt, &app);
    drop(weave.into_parts());
    if !is_posted || drained != Drained::Empty {
        return None;
    }
    let on_threads = counts.ran.load(Ordering::SeqCst);
    Some(Ran {
        events: on_threads.wrapping_add(app.ran.load(Ordering::SeqCst)),
        is_quiet: counts.quiet.load(Ordering::SeqCst) == u64::from(order.workers),
    })
}
