//! Going in and out of each kind of lock, from so many threads.
ghost use Rattle.std.specs.Prelude.{◌≡◌, ◌<◌, IfSome, length, All};
ghost use Rattle.mely_history.specs.Setup.{shape_of, colours_of};
ghost use Rattle.mely_lock.specs.Words.{IsPassOf, IsOutside};
ghost use Rattle.mely_fleet.specs.Fleets.{ArePasses};
ghost use Rattle.mely_kept.specs.Frames.{shard_frame};
ghost use Rattle.measure.specs.Callers.{AreAllPasses};

use example_counting::{Tally, initial_states};
use mely_event::{Fits, Handlers, Kept, Memory, Trail};
use mely_fleet::{Fleet, Passes};
use mely_history::{Setup, Shape};
use mely_lock::{Pass, Ticketed};
use std::alloc::Global;
use std::sync::{Mutex, Wait};
use std::thread;
use std::thread::Threads;

/// A value with an empty history.
#[derive(Drop)]
struct Board {
    notes: Vec<u8>,
}

impl Kept for Board {
    type Note = u8;

    type Frame = ();

    ghost history_of = { λ b. b.notes.items };

    ghost pass_of = { λ note. note };

    ghost frame_of = { λ b. tt };

    fn notes(&self) -> u64 {
        self.notes.len() as u64
    }
}

/// Goes in and out so many times.
fn pass_through<R: Wait>(rt: &R, lock: &Ticketed<Board>, pass: &mut Pass<Board>, count: u64)
    requires { IsPassOf ⟦<Board as Kept>⟧.frame_of lock.now pass.old × IsOutside pass.old }
    ensures { IsPassOf ⟦<Board as Kept>⟧.frame_of lock.now pass.new × IsOutside pass.new }
{
    for _turn in 0..count {
        let held = lock.enter(rt, pass);
        held.leave(pass);
    }
}

/// Each pass goes in and out so many times, from a thread of its own.
fn pass_from_threads<R: Threads + Wait + Sync>(
    rt: &R,
    lock: &Ticketed<Board>,
    passes: &mut [Pass<Board>],
    threads: usize,
    count: u64,
)
    requires threads { 0 < threads }
    requires passes { All (λ p. IsPassOf ⟦<Board as Kept>⟧.frame_of lock.now p
        × IsOutside p) passes.old }
{
    thread::for_each_mut(
        rt,
        passes,
        threads,
        &|_, pass: &mut Pass<Board>|
            requires { IsPassOf (λ (b : Board). tt) lock.now pass.now × IsOutside pass.now }
            ensures { IsPassOf (λ (b : Board). tt) lock.entry.now pass.exit.now
                × IsOutside pass.exit.now }
        { pass_through(rt, lock, pass, count) },
    );
}

/// So many threads go into the lock that is entered with a pass.
pub fn through_ticketed<R: Threads + Wait + AllocGlobal + Sync>(
    rt: &R,
    threads: u16,
    count: u64,
) -> Result<(), Memory>
    requires { 0 < threads }
{
    let alloc = rt.alloc();
    let board = Board {
        notes: Vec::new(alloc),
    };
    let (lock, mut passes) = Ticketed::new(alloc, board, threads)?;
    pass_from_threads(rt, &lock, &mut passes, threads as usize, count);
    Ok(())
}

/// Goes into a mutex and out so many times.
fn lock_often<R: Wait>(rt: &R, lock: &Mutex<u64>, count: u64) {
    for _turn in 0..count {
        let mut value = lock.lock(rt);
        *value = value.wrapping_add(1);
    }
}

/// So many threads go into std's mutex.
pub fn through_mutex<R: Threads + Wait + AllocGlobal + Sync>(
    rt: &R,
    threads: u16,
    count: u64,
) -> Result<(), Memory>
    requires { 0 < threads }
{
    let mut slots = Vec::new(rt.alloc());
    for slot in 0..threads {
        slots.push(slot)?;
    }
    let lock = Mutex::new(0u64);
    thread::for_each_mut(
        rt,
        &mut slots,
        threads as usize,
        &|_, _slot: &mut u16| { lock_often(rt, &lock, count) },
    );
    Ok(())
}

/// One colour in one shard, for one core and so many other callers.
fn setup_of() -> Option<Setup>
    ensures one { IfSome result (λ setup. colours_of setup ≡ 1) }
    ensures core { IfSome result (λ setup. (shape_of setup).cores ≡ 1) }
{
    let shape = Shape {
        cores: 1,
        shards: 1,
        batch: 1,
        steal_cost: 0,
        group: 1,
    };
    let Ok(handlers) = Handlers::new(&[(1, 1)]) else {
        return None;
    };
    match Setup::new(&shape, 1, handlers, 0) {
        Ok(setup) => Some(setup),
        Err(_) => None,
    }
}

/// Goes into the lock of a shard and out so many times, by a call that makes no room.
fn reserve_often<R: Wait>(rt: &R, fleet: &Fleet<Tally, u8>, own: &mut Passes<Tally, u8>, count: u64)
    requires some { 0 < (shape_of fleet.now.setup).shards }
    requires own { ArePasses (shard_frame ⟦<Tally as Trail>⟧.frame_of) fleet.now own.old }
{
    'turns: for _turn in 0..count {
        let _ = fleet.reserve(rt, own, 0, 0);
    }
}

/// Each caller goes into the lock of a shard so many times, from a thread of its own.
fn reserve_from_threads<R: Threads + Wait + Sync>(
    rt: &R,
    fleet: &Fleet<Tally, u8>,
    passes: &mut [Passes<Tally, u8>],
    threads: usize,
    count: u64,
)
    requires threads { 0 < threads }
    requires some { 0 < (shape_of fleet.now.setup).shards }
    requires passes { AreAllPasses (shard_frame ⟦<Tally as Trail>⟧.frame_of) fleet.now passes.old }
{
    thread::for_each_mut(
        rt,
        passes,
        threads,
        &|_, own: &mut Passes<Tally, u8>|
            requires some { 0 < (shape_of fleet.now.setup).shards }
            requires own { ArePasses (shard_frame (λ s. tt)) fleet.now own.now }
        { reserve_often(rt, fleet, own, count) },
    );
}

/// So many threads go into the lock of a shard of a fleet.
pub fn through_shard<R: Threads + Wait + AllocGlobal + Sync>(
    rt: &R,
    threads: u16,
    count: u64,
) -> Result<(), Memory>
    requires { 0 < threads }
{
    let alloc = rt.alloc();
    let Some(setup) = setup_of() else {
        return Err(Memory);
    };
    let states = initial_states(alloc, 1)?;
    let (fleet, mut passes) = Fleet::new(alloc, &setup, states, threads - 1)?;
    reserve_from_threads(rt, &fleet, &mut passes, threads as usize, count);
    Ok(())
}
