//! A whole run: a fleet with a thread for each core, from the states to the weave that they leave.
ghost use Rattle.std.specs.Prelude.{◌≡◌, ◌≤◌, ◌+◌, ◌∷◌, [], IfOk, IfErr, Some, slice_get, vec_capacity};
ghost use Rattle.mely_history.specs.Setup.{shape_of};
ghost use Rattle.mely_weave.specs.Dealing.{AtEach};
ghost use Rattle.mely_weave.specs.Drains.{AllFree, HistoriesAreDrained, SomeHalted};
ghost use Rattle.mely_weave.specs.Making.{AreInitial};
ghost use Rattle.mely_weave.specs.StandsWell.{StandsWell};
ghost use Rattle.mely_worker.specs.Access.{FitsSetup};
ghost use Rattle.mely_worker.specs.Conditions.{AppServes};
ghost use Rattle.mely_fleet.specs.Fleets.{frame_in};
ghost use Rattle.mely_kept.specs.Frames.{shard_frame};
ghost use Rattle.mely_tally.specs.Account.{IsAccounted};
ghost use Rattle.mely_chain.specs.WeaveTold.{IsTold};
ghost use Rattle.mely_fleet.specs.Seats.{IsSeatOf, HasMade, HaveMade};
ghost use Rattle.mely_worker.specs.Gated.{behind};
ghost use Rattle.mely_crew.specs.Crew.{IsManned, IsRegistered, RanBehind};

use crate::settling::settle;
use mely_event::{Colour, Event, Fits, Kept, Memory, Trail, Unregistered};
use mely_fleet::{Fleet, FleetOf, KeptShard, PassesOf, Room, RoomOf, Seat, SeatOf};
use mely_history::Setup;
use mely_weave::{Drained, Weave};
use mely_worker::{App, Gate, IdleWorker, OpenGate, Worker};
use std::alloc::Global;
use std::sync::Wait;
use std::sync::atomic::{AtomicBool, Ordering};
use std::thread;
use std::thread::Threads;

/// A fleet with a seat for each core and the passes of one other caller. `V` is what the locks of the
/// shards keep.
#[derive(Drop)]
struct MannedOf<V: Kept, P> {
    fleet: FleetOf<V>,
    seats: Vec<SeatOf<V, Option<IdleWorker<P>>>>,
    outside: PassesOf<V>,
}

/// A fleet with a seat for each core and the passes of one other caller.
type Manned<S, P> = MannedOf<KeptShard<S, P>, P>;

/// Room for all that closing a crew takes, but for its workers. `V` is what the locks of the shards
/// keep.
#[derive(Drop)]
struct CrewRoomOf<S: Fits<P>, P, V: Kept> {
    room: RoomOf<S, P, V>,

    /// Empty lists with room for all callers, and for a worker at rest of each core.
    outsiders: Vec<PassesOf<V>>,
    rested: Vec<IdleWorker<P>>,
}

/// Room for all that closing a crew takes, but for its workers.
type CrewRoom<S, P> = CrewRoomOf<S, P, KeptShard<S, P>>;

/// A manned fleet, and room for all that closing it takes. `V` is what the locks of the shards keep.
struct CrewOf<S: Fits<P>, P, V: Kept> {
    manned: MannedOf<V, P>,
    spare: CrewRoomOf<S, P, V>,

    /// An empty list with room for a worker of each core.
    workers: Vec<Worker<S, P>>,
}

/// A manned fleet, and room for all that closing it takes.
type Crew<S, P> = CrewOf<S, P, KeptShard<S, P>>;

/// Room for a crew of this setup.
///
/// # Errors
///
/// There was no memory.
fn make_room<S: Fits<P> + Drop, P: Drop>(
    alloc: Global,
    setup: &Setup,
) -> Result<CrewRoom<S, P>, Memory>
    ensures room { IfOk result (λ spare. (spare.room.setup ≡ setup.now)
        × (spare.room.passes ≡ (shape_of setup.now).cores + 1)) }
    ensures outsiders { IfOk result (λ spare. (spare.outsiders.items ≡ [])
        × ((shape_of setup.now).cores + 1 ≤ vec_capacity spare.outsiders)) }
    ensures rested { IfOk result (λ spare. (spare.rested.items ≡ [])
        × ((shape_of setup.now).cores ≤ vec_capacity spare.rested)) }
{
    let cores = setup.cores() as usize;
    let outsiders = Vec::with_capacity(alloc, cores + 1)?;
    let rested = Vec::with_capacity(alloc, cores)?;
    let room = Room::new(alloc, setup, 1)?;
    Ok(CrewRoomOf {
        room,
        outsiders,
        rested,
    })
}

/// A fleet of these states, with a seat for each core and the passes of one other caller.
///
/// # Errors
///
/// There was no memory: the states are dropped.
fn man_fleet<S: Fits<P> + Drop, P: Drop>(
    alloc: Global,
    setup: &Setup,
    states: Vec<S>,
) -> Result<Manned<S, P>, Memory>
    requires first { AreInitial S.Trail setup.now states.items }
    ensures { IfOk result (λ manned. IsManned S.frame_of S.fits_under setup.now states.items
        manned.fleet manned.seats.items manned.outside) }
{
    let (fleet, mut passes) = Fleet::new(alloc, setup, states, 1)?;
    let Some(outside) = passes.pop() else {
        unreachable!()
    };
    let Ok(seats) = fleet.seats(alloc, passes) else {
        return Err(Memory);
    };
    Ok(MannedOf {
        fleet,
        seats,
        outside,
    })
}

/// A crew for these states.
///
/// # Errors
///
/// There was no memory: the states are dropped.
fn make_crew<S: Fits<P> + Drop, P: Drop>(
    alloc: Global,
    setup: &Setup,
    states: Vec<S>,
) -> Result<Crew<S, P>, Memory>
    requires first { AreInitial S.Trail setup.now states.items }
    ensures manned { IfOk result (λ crew. IsManned S.frame_of S.fits_under setup.now states.items
        crew.manned.fleet crew.manned.seats.items crew.manned.outside) }
    ensures room { IfOk result (λ crew. (crew.spare.room.setup ≡ setup.now)
        × (crew.spare.room.passes ≡ (shape_of setup.now).cores + 1)) }
    ensures outsiders { IfOk result (λ crew. (crew.spare.outsiders.items ≡ [])
        × ((shape_of setup.now).cores + 1 ≤ vec_capacity crew.spare.outsiders)) }
    ensures rested { IfOk result (λ crew. (crew.spare.rested.items ≡ [])
        × ((shape_of setup.now).cores ≤ vec_capacity crew.spare.rested)) }
    ensures workers { IfOk result (λ crew. (crew.workers.items ≡ [])
        × ((shape_of setup.now).cores ≤ vec_capacity crew.workers)) }
{
    let spare = make_room(alloc, setup)?;
    let manned = man_fleet(alloc, setup, states)?;
    let workers = Vec::with_capacity(alloc, setup.cores() as usize)?;
    Ok(CrewOf {
        manned,
        spare,
        workers,
    })
}

/// Lets the worker of a seat work, unless that of another seat is back already: then nothing is left
/// to do, or what is left is run once the fleet is closed. So no worker begins alone whose thread was
/// refused or came late.
fn work_one<R: Wait, S: Fits<P> + Drop, P: Drop, A: App<State = S, Load = P>, G: Gate>(
    rt: &R,
    fleet: &Fleet<S, P>,
    number: usize,
    seat: &mut Seat<S, P>,
    is_one_back: &AtomicBool,
    app: &A,
    gate: &G,
)
    requires seat { IsSeatOf S.frame_of S.fits_under fleet.now number
        seat.old.passes seat.old.worker }
    requires served { let frame = frame_in (shard_frame S.frame_of) fleet.now in
        AppServes A.App fleet.now.setup frame app.now }
    ensures seat { IsSeatOf S.frame_of S.fits_under fleet.now number
        seat.new.passes seat.new.worker }
    ensures made { HasMade S.Trail S.fits_under
        (behind S.Trail (G.passes gate.now number) A.App) app.now fleet.now
        seat.old.passes seat.old.worker seat.new.passes seat.new.worker }
{
    if is_one_back.load(Ordering::SeqCst) {
        return;
    }
    drop(fleet.work_at(rt, seat, app, gate));
    is_one_back.store(true, Ordering::SeqCst);
}

/// Lets all cores work, each in a thread of its own, until nothing is left to do or they give up;
/// or leaves all to be run once the fleet is closed.
fn work_all<
    R: Threads + Wait + Sync,
    S: Fits<P> + Drop + Send,
    P: Drop + Send,
    A: App<State = S, Load = P> + Sync,
    G: Gate + Sync,
>(rt: &R, fleet: &Fleet<S, P>, seats: &mut [Seat<S, P>], app: &A, gate: &G, leaves_all: bool)
    requires seats { AtEach (λ n seat.
        IsSeatOf S.frame_of S.fits_under fleet.now n seat.passes seat.worker) seats.old }
    requires served { let frame = frame_in (shard_frame S.frame_of) fleet.now in
        AppServes A.App fleet.now.setup frame app.now }
    ensures seats { AtEach (λ n seat.
        IsSeatOf S.frame_of S.fits_under fleet.now n seat.passes seat.worker) seats.new }
    ensures made { HaveMade S.Trail S.fits_under
        (λ n. behind S.Trail (G.passes gate.now n) A.App) app.now fleet.now seats.old seats.new }
{
    let threads = seats.len();
    if leaves_all || threads == 0 {
        return;
    }
    let is_one_back = AtomicBool::new(false);
    thread::for_each_mut(
        rt,
        seats,
        threads,
        &|number, seat: &mut Seat<S, P>|
            requires seat { IsSeatOf S.frame_of S.fits_under fleet.now number
                seat.now.passes seat.now.worker }
            requires served { AppServes A.App fleet.now.setup
                (frame_in (shard_frame S.frame_of) fleet.now) app.now }
            ensures seat { IsSeatOf S.frame_of S.fits_under fleet.entry.now number
                seat.exit.now.passes seat.exit.now.worker }
            ensures made { HasMade S.Trail S.fits_under
                (behind S.Trail (G.passes gate.entry.now number) A.App) app.entry.now
                fleet.entry.now seat.entry.now.passes seat.entry.now.worker
                seat.exit.now.passes seat.exit.now.worker }
        { work_one(rt, fleet, number, seat, &is_one_back, app, gate) },
    );
}

/// Runs an app over a fleet as [`run_crew`] does, or leaves all to the thread of the caller.
///
/// # Errors
///
/// There was no memory to begin: event and load are handed back, and nothing was run.
fn run_made<
    R: Threads + Wait + Sync,
    S: Fits<P> + Drop + Send,
    P: Drop + Send,
    A: App<State = S, Load = P> + Sync,
    G: Gate + Sync,
>(
    rt: &R,
    alloc: Global,
    setup: &Setup,
    states: Vec<S>,
    begin: (Colour, Event, Option<P>),
    app: &A,
    gate: &G,
    leaves_all: bool,
) -> Result<(Weave<S, P>, Drained), Unregistered<P>>
    requires first { AreInitial S.Trail setup.now states.items }
    requires fits { (state : _) → slice_get states.items 0 ≡ Some state
        → FitsSetup S.fits_under setup.now (S.frame_of state) begin }
    requires served { (state : _) → slice_get states.items 0 ≡ Some state
        → AppServes A.App setup.now (S.frame_of state) app.now }
    ensures of_setup { IfOk result (λ ran. ran.0.setup ≡ setup.now) }
    ensures framed { IfOk result (λ ran. (state : _) → slice_get states.items 0 ≡ Some state
        → S.frame_of ran.0.given ≡ S.frame_of state) }
    ensures begun { IfOk result (λ ran. IsRegistered begin.0 begin.1 ran.0) }
    ensures accounted { IfOk result (λ ran.
        IsAccounted S.Trail S.fits_under A.App app.now (begin ∷ []) ran.0) }
    ensures told { IfOk result (λ ran. IsTold S.Trail S.fits_under A.App app.now
        (λ c. slice_get states.items c.0) (begin ∷ []) ran.0) }
    ensures gated { IfOk result (λ ran. RanBehind S.Trail S.fits_under A.App app.now
        (G.passes gate.now) (λ c. slice_get states.items c.0) (begin ∷ []) ran.1 ran.0) }
    ensures stands { IfOk result (λ ran. StandsWell S.Trail S.fits_under ran.0) }
    ensures free { IfOk result (λ ran. AllFree ran.0) }
    ensures drained { IfOk result (λ ran. ran.1 ≡ Drained.Empty → HistoriesAreDrained ran.0) }
    ensures memory { IfOk result (λ ran. ran.1 ≡ Drained.Memory → SomeHalted ran.0) }
    ensures back { IfErr result (λ refused. refused ≡ record { event = begin.1; load = begin.2 }) }
{
    let (colour, event, load) = begin;
    let Ok(crew) = make_crew(alloc, setup, states) else {
        return Err(Unregistered { event, load });
    };
    let CrewOf {
        manned,
        spare,
        workers,
    } = crew;
    let MannedOf {
        fleet,
        mut seats,
        mut outside,
    } = manned;
    let CrewRoomOf {
        room,
        mut outsiders,
        rested,
    } = spare;
    if let Err(refused) = fleet.post(rt, &mut outside, colour, event, load) {
        workers.destroy_empty();
        return Err(refused);
    }
    work_all(rt, &fleet, &mut seats, app, gate, leaves_all);
    outsiders.push_reserved(outside);
    let mut weave = fleet.close_home(room, seats, outsiders, rested, workers);
    settle(rt, &mut weave, setup.cores(), app);
    let drained = weave.drain(rt, app);
    Ok((weave, drained))
}

/// Runs an app over a fleet of these states, from its first event on, with a thread for each core,
/// until nothing is left: the fleet is closed then, and what is left of it drained. All room is
/// made before the event is posted. It need not return: an app may register for ever. Each thread
/// passes the gate before each handler, with its core.
///
/// Where the machine refuses a thread, or starts one a tenth of a second late or more, the others
/// give up, and the thread of the caller runs what is left, whatever it is, with no gate: a turn of
/// one core after another.
///
/// # Errors
///
/// There was no memory to begin: event and load are handed back, and nothing was run.
pub fn run_crew<
    R: Threads + Wait + Sync,
    S: Fits<P> + Drop + Send,
    P: Drop + Send,
    A: App<State = S, Load = P> + Sync,
    G: Gate + Sync,
>(
    rt: &R,
    alloc: Global,
    setup: &Setup,
    states: Vec<S>,
    begin: (Colour, Event, Option<P>),
    app: &A,
    gate: &G,
) -> Result<(Weave<S, P>, Drained), Unregistered<P>>
    requires first { AreInitial S.Trail setup.now states.items }
    requires fits { (state : _) → slice_get states.items 0 ≡ Some state
        → FitsSetup S.fits_under setup.now (S.frame_of state) begin }
    requires served { (state : _) → slice_get states.items 0 ≡ Some state
        → AppServes A.App setup.now (S.frame_of state) app.now }
    ensures of_setup { IfOk result (λ ran. ran.0.setup ≡ setup.now) }
    ensures framed { IfOk result (λ ran. (state : _) → slice_get states.items 0 ≡ Some state
        → S.frame_of ran.0.given ≡ S.frame_of state) }
    ensures begun { IfOk result (λ ran. IsRegistered begin.0 begin.1 ran.0) }
    ensures accounted { IfOk result (λ ran.
        IsAccounted S.Trail S.fits_under A.App app.now (begin ∷ []) ran.0) }
    ensures told { IfOk result (λ ran. IsTold S.Trail S.fits_under A.App app.now
        (λ c. slice_get states.items c.0) (begin ∷ []) ran.0) }
    ensures gated { IfOk result (λ ran. RanBehind S.Trail S.fits_under A.App app.now
        (G.passes gate.now) (λ c. slice_get states.items c.0) (begin ∷ []) ran.1 ran.0) }
    ensures stands { IfOk result (λ ran. StandsWell S.Trail S.fits_under ran.0) }
    ensures free { IfOk result (λ ran. AllFree ran.0) }
    ensures drained { IfOk result (λ ran. ran.1 ≡ Drained.Empty → HistoriesAreDrained ran.0) }
    ensures memory { IfOk result (λ ran. ran.1 ≡ Drained.Memory → SomeHalted ran.0) }
    ensures back { IfErr result (λ refused. refused ≡ record { event = begin.1; load = begin.2 }) }
{
    run_made(rt, alloc, setup, states, begin, app, gate, false)
}

/// Runs an app as [`run_crew`] does, behind no gate. A crew of one core makes no thread: the caller's
/// runs all, without a lock in its way.
///
/// # Errors
///
/// There was no memory to begin: event and load are handed back, and nothing was run.
pub fn run_open<
    R: Threads + Wait + Sync,
    S: Fits<P> + Drop + Send,
    P: Drop + Send,
    A: App<State = S, Load = P> + Sync,
>(
    rt: &R,
    alloc: Global,
    setup: &Setup,
    states: Vec<S>,
    begin: (Colour, Event, Option<P>),
    app: &A,
) -> Result<(Weave<S, P>, Drained), Unregistered<P>>
    requires first { AreInitial S.Trail setup.now states.items }
    requires fits { (state : _) → slice_get states.items 0 ≡ Some state
        → FitsSetup S.fits_under setup.now (S.frame_of state) begin }
    requires served { (state : _) → slice_get states.items 0 ≡ Some state
        → AppServes A.App setup.now (S.frame_of state) app.now }
    ensures of_setup { IfOk result (λ ran. ran.0.setup ≡ setup.now) }
    ensures framed { IfOk result (λ ran. (state : _) → slice_get states.items 0 ≡ Some state
        → S.frame_of ran.0.given ≡ S.frame_of state) }
    ensures begun { IfOk result (λ ran. IsRegistered begin.0 begin.1 ran.0) }
    ensures accounted { IfOk result (λ ran.
        IsAccounted S.Trail S.fits_under A.App app.now (begin ∷ []) ran.0) }
    ensures told { IfOk result (λ ran. IsTold S.Trail S.fits_under A.App app.now
        (λ c. slice_get states.items c.0) (begin ∷ []) ran.0) }
    ensures stands { IfOk result (λ ran. StandsWell S.Trail S.fits_under ran.0) }
    ensures free { IfOk result (λ ran. AllFree ran.0) }
    ensures drained { IfOk result (λ ran. ran.1 ≡ Drained.Empty → HistoriesAreDrained ran.0) }
    ensures memory { IfOk result (λ ran. ran.1 ≡ Drained.Memory → SomeHalted ran.0) }
    ensures back { IfErr result (λ refused. refused ≡ record { event = begin.1; load = begin.2 }) }
{
    let is_alone = setup.cores() == 1;
    run_made(rt, alloc, setup, states, begin, app, &OpenGate, is_alone)
}
