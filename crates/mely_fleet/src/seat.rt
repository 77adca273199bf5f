//! The threads of a fleet's cores.
ghost use Rattle.std.specs.Prelude.{◌≡◌, ◌≤◌, ◌+◌, ◌++◌, ◌↔◌, [], ℕ, Some, true, IfErr, IfOk, IfSome, IsSome, OnOk, length, map, slice_get, vec_len, vec_capacity};
ghost use Rattle.mely_history.specs.Setup.{shape_of};
ghost use Rattle.mely_worker.specs.Conditions.{AppServes};
ghost use Rattle.mely_worker.specs.Gated.{behind};
ghost use Rattle.mely_weave.specs.Dealing.{AtEach};
ghost use Rattle.mely_fleet.specs.Fleets.{frame_in};
ghost use Rattle.mely_kept.specs.Frames.{shard_frame};
ghost use Rattle.mely_fleet.specs.Opening.{AreInitialPasses};
ghost use Rattle.mely_fleet.specs.Seats.{MaySit, IsSeatOf, IsFresh, HasMade};
ghost use Rattle.mely_worker.specs.IdleWorker.{resumed_worker};
ghost use Rattle.mely_fleet.specs.Work.{SeesAllDrained, SeesMore, standpoint};

use crate::fleet::FleetOf;
use crate::passes::{Passes, PassesOf};
use crate::room::{Room, RoomOf};
use crate::working::Worked;
use mely_event::{Fits, Kept, Memory, Trail};
use mely_kept::KeptShard;
use mely_weave::{Weave, rested_of};
use mely_worker::{App, Gate, IdleWorker, Worker};
use std::alloc::Global;
use std::sync::Wait;

/// What the thread of a core is given, and gives back: the passes of the core, and its worker. `V`
/// is what the locks of the shards keep, `W` the worker at rest.
#[derive(Drop)]
pub struct SeatOf<V: Kept, W> {
    pub passes: PassesOf<V>,
    pub worker: W,
}

/// What the thread of a core is given, and gives back: the passes of the core, and its worker at
/// rest, which is missing only while it works.
pub type Seat<S, P> = SeatOf<KeptShard<S, P>, Option<IdleWorker<P>>>;

/// Passes and workers side by side.
///
/// # Errors
///
/// There was no memory: the passes are handed back.
fn seat_all<V: Kept + Drop, P: Drop>(
    alloc: Global,
    passes: Vec<PassesOf<V>>,
    rested: Vec<IdleWorker<P>>,
) -> Result<Vec<SeatOf<V, Option<IdleWorker<P>>>>, Vec<PassesOf<V>>>
    requires as_many { length rested.items ≡ length passes.items }
    ensures many { IfOk result (λ seats. length seats.items ≡ length passes.items) }
    ensures passes { IfOk result (λ seats. (n : ℕ) (own : _) (seat : _)
        → slice_get passes.items n ≡ Some own
        → slice_get seats.items n ≡ Some seat → seat.passes ≡ own) }
    ensures workers { IfOk result (λ seats. (n : ℕ) (rest : _) (seat : _)
        → slice_get rested.items n ≡ Some rest
        → slice_get seats.items n ≡ Some seat → seat.worker ≡ Some rest) }
    ensures back { IfErr result (λ back. back.items ≡ passes.items) }
{
    let Ok(mut seats) = Vec::with_capacity(alloc, passes.len()) else {
        return Err(passes);
    };
    let mut left = rested;
    left.reverse();
    'passes: for own in passes {
        let Some(worker) = left.pop() else {
            unreachable!()
        };
        seats.push_reserved(SeatOf {
            passes: own,
            worker: Some(worker),
        });
    }
    Ok(seats)
}

impl<S: Fits<P> + Drop, P: Drop> FleetOf<KeptShard<S, P>> {
    /// A seat for each core, of the cores' passes as they were made with the fleet.
    ///
    /// # Errors
    ///
    /// There was no memory: the passes are handed back.
    pub fn seats(
        &self,
        alloc: Global,
        passes: Vec<Passes<S, P>>,
    ) -> Result<Vec<Seat<S, P>>, Vec<Passes<S, P>>>
        requires many { length passes.items ≡ (shape_of self.now.setup).cores }
        requires first { AtEach (λ n own.
            AreInitialPasses (shard_frame S.frame_of) self.now n own) passes.items }
        ensures many { IfOk result (λ seats. length seats.items ≡ (shape_of self.now.setup).cores) }
        ensures each { IfOk result (λ seats.
            AtEach (λ n seat. IsSeatOf S.frame_of S.fits_under self.now n seat.passes seat.worker)
            seats.items) }
        ensures fresh { IfOk result (λ seats.
            AtEach (λ n seat. IsFresh seat.passes seat.worker) seats.items) }
        ensures back { IfErr result (λ back. back.items ≡ passes.items) }
    {
        let Ok(rested) = rested_of(alloc, &self.setup) else {
            return Err(passes);
        };
        let seats = seat_all(alloc, passes, rested)?;
        Ok(seats)
    }

    /// Lets the worker of a seat work until nothing is left to do, as [`work`](FleetOf::work) does.
    /// It is at rest again afterwards.
    pub fn work_at<R: Wait, A: App<State = S, Load = P>, G: Gate>(
        &self,
        rt: &R,
        seat: &mut Seat<S, P>,
        app: &A,
        gate: &G,
    ) -> Worked
        requires seat { MaySit S.frame_of S.fits_under self.now seat.old.passes seat.old.worker }
        requires served { let frame = frame_in (shard_frame S.frame_of) self.now in
            AppServes A.App self.now.setup frame app.now }
        ensures seat { MaySit S.frame_of S.fits_under self.now seat.new.passes seat.new.worker }
        ensures made { HasMade S.Trail S.fits_under
            (behind S.Trail (G.passes gate.now seat.old.passes.number) A.App) app.now self.now
            seat.old.passes seat.old.worker seat.new.passes seat.new.worker }
        ensures memory { IfSome seat.new.worker (λ rest.
            (result ≡ Worked.Memory) ↔ (rest.halted ≡ true)) }
        ensures number { seat.new.passes.number ≡ seat.old.passes.number }
        ensures more { let at = standpoint (shard_frame S.frame_of) self.now in
            SeesMore (at seat.old.passes) (at seat.new.passes) }
        ensures quiet { let seen = standpoint (shard_frame S.frame_of) self.now seat.new.passes in
            result ≡ Worked.Quiet → SeesAllDrained seen }
    {
        let Some(rested) = seat.worker.take() else {
            unreachable!()
        };
        let mut worker = rested.wake();
        let worked = self.work(rt, &mut worker, &mut seat.passes, app, gate);
        seat.worker = Some(worker.rest());
        worked
    }
}

/// The passes of seats, behind those in a list that has room, and their workers.
fn leave_all<V: Kept + Drop, P: Drop>(
    seats: Vec<SeatOf<V, Option<IdleWorker<P>>>>,
    passes: Vec<PassesOf<V>>,
    rested: Vec<IdleWorker<P>>,
) -> (Vec<PassesOf<V>>, Vec<IdleWorker<P>>)
    requires rest { AtEach (λ n seat. IsSome seat.worker) seats.items }
    requires empty { rested.items ≡ [] }
    requires room { vec_len passes + length seats.items ≤ vec_capacity passes }
    requires rested_room { length seats.items ≤ vec_capacity rested }
    ensures passes { result.0.items ≡ passes.items ++ map (λ seat. seat.passes) seats.items }
    ensures rested { map (λ rest. Some rest) result.1.items
        ≡ map (λ seat. seat.worker) seats.items }
{
    let mut passes = passes;
    let mut rested = rested;
    'seats: for seat in seats {
        let SeatOf {
            passes: own,
            worker,
        } = seat;
        let Some(worker) = worker else { unreachable!() };
        passes.push_reserved(own);
        rested.push_reserved(worker);
    }
    (passes, rested)
}

/// Workers that were at rest, into a list that has room for them.
fn wake_all<S, P: Drop>(rested: Vec<IdleWorker<P>>, workers: Vec<Worker<S, P>>) -> Vec<Worker<S, P>>
    requires empty { workers.items ≡ [] }
    requires room { length rested.items ≤ vec_capacity workers }
    ensures { result.items ≡ map (λ rest. resumed_worker rest) rested.items }
{
    let mut workers = workers;
    'rested: for rest in rested {
        workers.push_reserved(rest.wake());
    }
    workers
}

/// What a fleet is to be closed with. `V` is what the locks of the shards keep.
#[derive(Drop)]
pub struct UnclosedOf<S: Fits<P>, P, V: Kept> {
    pub fleet: FleetOf<V>,
    pub room: RoomOf<S, P, V>,
    pub seats: Vec<SeatOf<V, Option<IdleWorker<P>>>>,
    pub outsiders: Vec<PassesOf<V>>,
}

/// What [`close_seats`](FleetOf::close_seats) was given, where there was no memory.
pub type Unclosed<S, P> = UnclosedOf<S, P, KeptShard<S, P>>;

/// Room for so many further callers in a list, and lists with room for so many workers at rest and
/// awake.
///
/// # Errors
///
/// There was no memory: the list of callers is as it was.
fn make_lists<V: Kept, S, P: Drop>(
    alloc: Global,
    many: usize,
    callers: &mut Vec<PassesOf<V>>,
) -> Result<(Vec<IdleWorker<P>>, Vec<Worker<S, P>>), Memory>
    ensures callers { callers.new.items ≡ callers.old.items }
    ensures room { OnOk result (vec_len callers.new + many ≤ vec_capacity callers.new) }
    ensures rested { IfOk result (λ lists. (lists.0.items ≡ []) × (many ≤ vec_capacity lists.0)) }
    ensures workers { IfOk result (λ lists. (lists.1.items ≡ [])
        × (many ≤ vec_capacity lists.1)) }
{
    callers.reserve(many)?;
    let rested = Vec::with_capacity(alloc, many)?;
    let workers = Vec::with_capacity(alloc, many)?;
    Ok((rested, workers))
}

impl<S: Fits<P> + Drop, P: Drop> FleetOf<KeptShard<S, P>> {
    ghost use Rattle.mely_fleet.specs.ClosesHome.{MayCloseHome, IsClosedHome};

    /// The weave of this fleet, once the threads of all cores are back: [`close`](FleetOf::close)
    /// with the passes and the workers of their seats, and the passes of the other callers. The
    /// list of these has room for the seats, and `rested` and `workers` are empty with room for a
    /// worker of each core, so it takes no memory.
    pub fn close_home(
        self,
        room: Room<S, P>,
        seats: Vec<Seat<S, P>>,
        outsiders: Vec<Passes<S, P>>,
        rested: Vec<IdleWorker<P>>,
        workers: Vec<Worker<S, P>>,
    ) -> Weave<S, P>
        requires home { MayCloseHome S.frame_of S.fits_under self room
            seats.items outsiders.items }
        requires callers_room { vec_len outsiders + length seats.items ≤ vec_capacity outsiders }
        requires none_rested { rested.items ≡ [] }
        requires rested_room { length seats.items ≤ vec_capacity rested }
        requires no_workers { workers.items ≡ [] }
        requires workers_room { length seats.items ≤ vec_capacity workers }
        ensures home { IsClosedHome S.Trail S.fits_under self seats.items outsiders.items result }
    {
        let (callers, rested) = leave_all(seats, outsiders, rested);
        let workers = wake_all(rested, workers);
        self.close(room, callers, workers)
    }

    /// Ends a fleet as [`close_home`](FleetOf::close_home) does, with lists of passes and
    /// workers that are made here.
    ///
    /// # Errors
    ///
    /// There was no memory for the lists of passes and workers: all that was given is handed back,
    /// and may be closed later.
    pub fn close_seats(
        self,
        alloc: Global,
        room: Room<S, P>,
        seats: Vec<Seat<S, P>>,
        outsiders: Vec<Passes<S, P>>,
    ) -> Result<Weave<S, P>, Unclosed<S, P>>
        requires home { MayCloseHome S.frame_of S.fits_under self room
            seats.items outsiders.items }
        ensures home { IfOk result (λ weave.
            IsClosedHome S.Trail S.fits_under self seats.items outsiders.items weave) }
        ensures fleet { IfErr result (λ back. (back.fleet ≡ self) × (back.room ≡ room)) }
        ensures seats { IfErr result (λ back. back.seats.items ≡ seats.items) }
        ensures outsiders { IfErr result (λ back. back.outsiders.items ≡ outsiders.items) }
    {
        let mut callers = outsiders;
        match make_lists(alloc, seats.len(), &mut callers) {
            Ok((rested, workers)) => Ok(self.close_home(room, seats, callers, rested, workers)),
            Err(_) => Err(UnclosedOf {
                fleet: self,
                room,
                seats,
                outsiders: callers,
            }),
        }
    }
}
