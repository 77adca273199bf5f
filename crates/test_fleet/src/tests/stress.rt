//! Round after round over one fleet, with many more workers than processors.
ghost use Rattle.std.specs.Prelude.{◌≡◌, IfOk};
ghost use Rattle.mely_history.specs.Setup.{shape_of, colours_of};
ghost use Rattle.test_fleet.specs.Callers.{IsOpen, IsRow};

use super::crowd::{Opened, Run, Stage, Who, act_in, are_run, close_fleet, none_waits, open_fleet};
use example_counting::Tally;
use mely_event::{Fits, Handlers, Kept, Memory, Trail};
use mely_history::{Setup, Shape};
use std::alloc::Global;
use std::rt::Clock;
use std::sync::Wait;
use std::sync::atomic::Ordering;
use std::thread::Threads;
use std::time::Instant;

/// After how many seconds no more rounds begin.
const SECONDS: u64 = 10;

/// 64 cores with a pinned colour each, and twice as many colours that are worth a steal where two
/// events wait.
fn crowded_setup() -> Result<Setup, Memory>
    ensures { IfOk result (λ setup. IsRow 64 192 setup) }
{
    let shape = Shape {
        cores: 64,
        shards: 8,
        batch: 2,
        steal_cost: 15,
        group: 8,
    };
    let Ok(handlers) = Handlers::new(&[(10, 1)]) else {
        return Err(Memory);
    };
    match Setup::new(&shape, 192, handlers, 64) {
        Ok(setup) => Ok(setup),
        Err(_) => Err(Memory),
    }
}

/// So many rounds, or as many as the time allows; how many. In each the callers that are no cores
/// post before the workers begin, and while they work.
fn work_rounds<R: Threads + Wait + Sync + Clock>(
    rt: &R,
    setup: &Setup,
    opened: &mut Opened,
    run: &Run,
    rounds: u64,
) -> u64
    requires colours { run.now.app.colours ≡ colours_of setup.now }
    requires row { IsRow (shape_of setup.now).cores (colours_of setup.now) setup.now }
    requires opened { IsOpen ⟦<Tally as Trail>⟧.frame_of ⟦<Tally as Fits<u8>>⟧.fits_under setup.now
        opened.old.room opened.old.fleet opened.old.callers.items }
    ensures { IsOpen ⟦<Tally as Trail>⟧.frame_of ⟦<Tally as Fits<u8>>⟧.fits_under setup.now
        opened.new.room opened.new.fleet opened.new.callers.items }
{
    let Ok(begun) = Instant::now(rt) else {
        return 0;
    };
    'rounds: for round in 0..rounds {
        match begun.elapsed(rt) {
            Ok(past) if past.as_secs() < SECONDS => {}
            _ => return round,
        }
        act_in(rt, setup, opened, run, Who::Others);
        act_in(rt, setup, opened, run, Who::All);
    }
    rounds
}

/// The rounds over a new fleet, and what its workers still do once all is posted: how many rounds,
/// and whether nothing waits then.
fn all_rounds<R: Threads + Wait + Sync + Clock>(
    rt: &R,
    alloc: Global,
    setup: &Setup,
    run: &Run,
) -> Result<(u64, bool), Memory>
    requires colours { run.now.app.colours ≡ 192 }
    requires row { IsRow 64 192 setup.now }
{
    let mut opened = open_fleet(alloc, setup, 192, 1)?;
    let rounds = work_rounds(rt, setup, &mut opened, run, 200);
    run.quiet.store(0, Ordering::SeqCst);
    act_in(rt, setup, &mut opened, run, Who::Cores);
    let parts = close_fleet(alloc, setup, opened)?.into_parts();
    Ok((rounds, none_waits(&parts.queued)))
}

/// Whether the workers of 64 cores end round after round, and run every event.
fn run_every_event<R: Threads + Wait + Sync + Clock>(
    rt: &R,
    alloc: Global,
) -> Result<bool, Memory> {
    let setup = crowded_setup()?;
    let run = Run::new(192, 192, 1, None);
    let (rounds, is_empty) = all_rounds(rt, alloc, &setup, &run)?;
    Ok(
        run.quiet.load(Ordering::SeqCst) == 64
            && run.refused.load(Ordering::SeqCst) == 0
            && rounds > 0
            && run.app.ran.load(Ordering::SeqCst) == rounds.wrapping_mul(768)
            && is_empty,
    )
}

#[test]
fn workers_of_64_cores_end_round_after_round_and_run_every_event(rt: HostRuntime) {
    assert!(rt; run_every_event(&rt, rt.alloc()) == Ok(true));
}

/// The others post, the first core works until it gives up, and then both cores work.
static GAVE_UP: [Stage; 3] = [
    (Who::Others, Some(0)),
    (Who::FirstCore, Some(20)),
    (Who::Cores, Some(30)),
];

#[test]
fn a_worker_that_gave_up_works_on_once_its_fellow_does(rt: HostRuntime) {
    let are_so = are_run(&rt, rt.alloc(), 1_000_000, None, &GAVE_UP, 2, &[10, 10, 10]);
    assert!(rt; are_so == Ok(true));
}
