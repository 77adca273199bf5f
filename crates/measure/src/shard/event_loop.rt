//! The loop: register, take, run, finish.
ghost use Rattle.std.specs.Prelude.{◌≡◌, ◌<◌, ℕ, All, IfOk, IfSome};
ghost use Rattle.mely_shard.specs.Shard.{IsOwn, KeepsFrame, TurnStands};
ghost use Rattle.measure.specs.ShardLoops.{IsLoop, AreInitial};
ghost use Rattle.measure.specs.declared.shard.event_loop.TheConstants.{COLOURS};

use mely_event::{Colour, Event, Fits, Handlers, Memory, Trail, TrailLog};
use mely_history::{After, Registered, Setup, Shape};
use mely_queue::Turn;
use mely_shard::Shard;
use std::alloc::Global;
use std::collections::VecDeque;

/// How many colours there are.
const COLOURS: u16 = 1024;

/// A state for each colour.
fn initial_states(alloc: Global) -> Result<Vec<TrailLog>, Memory>
    ensures { IfOk result (λ states. AreInitial states.items) }
{
    let mut states = Vec::new(alloc);
    for colour in 0..COLOURS {
        states.push(TrailLog::new(Colour(colour)))?;
    }
    Ok(states)
}

/// The one shard, on one core.
fn make_shard(alloc: Global, batch: u16) -> Option<Shard<TrailLog, u32>>
    ensures { IfSome result IsLoop }
{
    let shape = Shape {
        cores: 1,
        shards: 1,
        batch,
        steal_cost: 0,
        group: 1,
    };
    let Ok(handlers) = Handlers::new(&[(1, 1)]) else {
        return None;
    };
    let Ok(setup) = Setup::new(&shape, u32::from(COLOURS), handlers, 0) else {
        return None;
    };
    let Ok(states) = initial_states(alloc) else {
        return None;
    };
    match Shard::new(alloc, &setup, 0, states) {
        Ok(shard) => Some(shard),
        Err(_) => None,
    }
}

/// Registers one event, and notes its colour where that woke.
fn register(
    shard: &mut Shard<TrailLog, u32>,
    colour: u16,
    ready: &mut VecDeque<u16>,
) -> Result<(), Memory>
    requires is { IsLoop shard.old }
    requires colour { colour < COLOURS }
    requires known { All (λ c. c < COLOURS) ready.old.items }
    ensures is { IsLoop shard.new }
    ensures known { All (λ c. c < COLOURS) ready.new.items }
{
    let event = Event { handler: 0, arg: 0 };
    match shard.register(Colour(colour), event, None, 0) {
        Ok(Registered::Woke { .. }) => Ok(ready.push_back(colour)?),
        Ok(_) => Ok(()),
        Err(_) => Err(Memory),
    }
}

/// Registers so many events on the colours in turn.
fn register_all(
    shard: &mut Shard<TrailLog, u32>,
    events: u32,
    ready: &mut VecDeque<u16>,
) -> Result<(), Memory>
    requires is { IsLoop shard.old }
    requires known { All (λ c. c < COLOURS) ready.old.items }
    ensures is { IsLoop shard.new }
    ensures known { All (λ c. c < COLOURS) ready.new.items }
{
    'events: for number in 0..events {
        let colour = (number % u32::from(COLOURS)) as u16;
        register(shard, colour, ready)?;
    }
    Ok(())
}

/// Runs what a turn has on an empty handler, which only records the event,
/// and takes its state home.
fn run_and_finish(shard: &mut Shard<TrailLog, u32>, mut turn: Turn<TrailLog, u32>) -> After
    requires own { IsOwn shard.old turn.colour }
    requires stands { TurnStands ⟦<TrailLog as Trail>⟧
        ⟦<TrailLog as Fits<u32>>⟧.fits_under shard.old turn }
    ensures { KeepsFrame shard.old shard.new }
{
    while let Some((event, _load)) = turn.next() {
        turn.state().push(event);
    }
    shard.finish(turn)
}

/// Takes a colour, runs what was taken and finishes, and answers how many events that were.
fn take_turn(shard: &mut Shard<TrailLog, u32>, colour: u16) -> Option<(u16, After)>
    requires is { IsLoop shard.old }
    requires colour { colour < COLOURS }
    ensures { IsLoop shard.new }
{
    let turn = shard.take(Colour(colour), 0).ok()?;
    let count = turn.count();
    Some((count, run_and_finish(shard, turn)))
}

/// Takes the next ready colour, and notes it again where more of it waits; answers
/// how many events were run.
fn step(shard: &mut Shard<TrailLog, u32>, ready: &mut VecDeque<u16>) -> Option<u16>
    requires is { IsLoop shard.old }
    requires known { All (λ c. c < COLOURS) ready.old.items }
    ensures is { IsLoop shard.new }
    ensures known { All (λ c. c < COLOURS) ready.new.items }
{
    let colour = ready.pop_front()?;
    match take_turn(shard, colour) {
        Some((count, After::More { .. })) => {
            ready.push_back(colour).ok()?;
            Some(count)
        }
        Some((count, After::Idle)) => Some(count),
        None => None,
    }
}

/// Registers so many events on the colours, runs them all in turns of at most `batch`, and answers
/// how many were run; nothing for want of memory, or where the batch is out of its range.
pub fn run(alloc: Global, events: u32, batch: u16) -> Option<u64> {
    let mut shard = make_shard(alloc, batch)?;
    let mut ready = VecDeque::new(alloc);
    register_all(&mut shard, events, &mut ready).ok()?;
    let mut ran = 0u64;
    'turns: for _ in 0..events {
        match step(&mut shard, &mut ready) {
            Some(count) => ran = ran.saturating_add(u64::from(count)),
            None => break 'turns,
        }
    }
    if shard.is_drained() { Some(ran) } else { None }
}
