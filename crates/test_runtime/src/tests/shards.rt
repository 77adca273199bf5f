ghost use Rattle.std.specs.Prelude.{◌≡◌, ◌<◌, ◌++◌, ◌∷◌, [], IfOk};
ghost use Rattle.mely_history.specs.Setup.{shape_of, colours_of, handlers_of};
ghost use Rattle.mely_shard.specs.Shard.{IsOwn, KeepsFrame, TurnStands};
ghost use Rattle.test_runtime.specs.ShardExamples.{IsExample};

use mely_event::{Colour, Event, Fits, Handlers, Memory, Trail, TrailLog};
use mely_history::{After, Entry, NoSteal, NoTake, Registered, Setup, Shape, Stolen};
use mely_queue::Turn;
use mely_shard::Shard;
use std::alloc::Global;

/// A state that adds up the loads.
#[derive(Drop)]
struct Counter {
    log: TrailLog,
    total: u64,
}

impl Trail for Counter {
    type Frame = ();

    ghost trail_of = { λ s. s.log.events };

    ghost colour_of = { λ s. s.log.colour };

    ghost frame_of = { λ s. tt };
}

impl Fits<u32> for Counter {
    ghost fits_under = { λ frame colour event load. Unit {0} };
}

impl Counter {
    /// A state on which nothing was run.
    fn new(colour: u16) -> Counter
        ensures { result.log ≡ record { colour = record { 0 = colour }; events = [] } }
    {
        Counter {
            log: TrailLog::new(Colour(colour)),
            total: 0,
        }
    }

    /// Runs an event, whose load is added.
    fn run(&mut self, event: Event, load: Option<u32>)
        ensures { self.new.log
            ≡ record self.old.log { events = self.old.log.events ++ event ∷ [] } }
    {
        self.log.push(event);
        self.total = self.total.wrapping_add(u64::from(load.unwrap_or(0)));
    }
}

/// Runs what a turn has, and takes its state home.
fn run_and_finish(shard: &mut Shard<Counter, u32>, mut turn: Turn<Counter, u32>) -> After
    requires own { IsOwn shard.old turn.colour }
    requires stands { TurnStands ⟦<Counter as Trail>⟧
        ⟦<Counter as Fits<u32>>⟧.fits_under shard.old turn }
    ensures { KeepsFrame shard.old shard.new }
{
    while let Some((event, load)) = turn.next() {
        turn.state().run(event, load);
    }
    shard.finish(turn)
}

/// The same setup, with histories that are listed where they are to be.
fn listed_where(setup: Setup, listed: bool) -> Setup
    ensures shape { shape_of result ≡ shape_of setup }
    ensures colours { colours_of result ≡ colours_of setup }
    ensures handlers { handlers_of result ≡ handlers_of setup }
{
    if listed { setup.listed() } else { setup }
}

/// Four colours on two cores in one shard, batch 10, and one handler of weight 30. Its history is
/// listed or not.
fn example(
    alloc: Global,
    steal_cost: u32,
    pinned: u32,
    listed: bool,
) -> Result<Shard<Counter, u32>, Memory>
    ensures { IfOk result IsExample }
{
    let shape = Shape {
        cores: 2,
        shards: 1,
        batch: 10,
        steal_cost,
        group: 1,
    };
    let Ok(handlers) = Handlers::new(&[(60, 2)]) else {
        return Err(Memory);
    };
    let Ok(setup) = Setup::new(&shape, 4, handlers, pinned) else {
        return Err(Memory);
    };
    let setup = listed_where(setup, listed);
    let mut states = Vec::new(alloc);
    states.push(Counter::new(0))?;
    states.push(Counter::new(1))?;
    states.push(Counter::new(2))?;
    states.push(Counter::new(3))?;
    match Shard::new(alloc, &setup, 0, states) {
        Ok(shard) => Ok(shard),
        Err(_) => Err(Memory),
    }
}

/// Registers an event of handler 0 by pass 2.
fn register(shard: &mut Shard<Counter, u32>, colour: u16) -> Option<Registered>
    requires is { IsExample shard.old }
    requires colour { colour < 4 }
    ensures { IsExample shard.new }
{
    let event = Event { handler: 0, arg: 0 };
    shard.register(Colour(colour), event, Some(5), 2).ok()
}

/// Takes a colour, runs what was taken and finishes, and answers how many events that were.
fn take_turn(
    shard: &mut Shard<Counter, u32>,
    colour: u16,
    core: u16,
) -> Result<(u16, After), NoTake>
    requires is { IsExample shard.old }
    requires colour { colour < 4 }
    ensures { IsExample shard.new }
{
    let turn = shard.take(Colour(colour), core)?;
    let count = turn.count();
    Ok((count, run_and_finish(shard, turn)))
}

fn steal(shard: &mut Shard<Counter, u32>, colour: u16, to: u16) -> Result<Stolen, NoSteal>
    requires is { IsExample shard.old }
    requires colour { colour < 4 }
    requires core { to < 2 }
    ensures { IsExample shard.new }
{
    shard.steal(Colour(colour), to)
}

fn ready(shard: &Shard<Counter, u32>, colour: u16) -> Option<(u16, u64, u128)>
    requires is { IsExample shard.now }
    requires colour { colour < 4 }
{
    shard.ready(Colour(colour))
}

/// What the loads that were run on a colour add up to.
fn total_at(shard: &Shard<Counter, u32>, colour: u16) -> Option<u64>
    requires is { IsExample shard.now }
    requires colour { colour < 4 }
{
    Some(shard.state(Colour(colour))?.total)
}

fn register_meanwhile(
    shard: &mut Shard<Counter, u32>,
    turn: &Turn<Counter, u32>,
    colour: u16,
) -> Option<Registered>
    requires is { IsExample shard.old }
    requires colour { colour < 4 }
    requires stands { TurnStands ⟦<Counter as Trail>⟧
        ⟦<Counter as Fits<u32>>⟧.fits_under shard.old turn.now }
    ensures is { IsExample shard.new }
    ensures frame { KeepsFrame shard.old shard.new }
    ensures stands { TurnStands ⟦<Counter as Trail>⟧
        ⟦<Counter as Fits<u32>>⟧.fits_under shard.new turn.now }
{
    let _history = shard.history();
    let event = Event { handler: 0, arg: 0 };
    match shard.register(Colour(colour), event, Some(5), 2) {
        Ok(reply) => Some(reply),
        Err(_) => None,
    }
}

/// A take of the colour of a turn that is out.
fn take_meanwhile(shard: &mut Shard<Counter, u32>, turn: &Turn<Counter, u32>) -> Option<NoTake>
    requires is { IsExample shard.old }
    requires own { IsOwn shard.old turn.now.colour }
    requires stands { TurnStands ⟦<Counter as Trail>⟧
        ⟦<Counter as Fits<u32>>⟧.fits_under shard.old turn.now }
    ensures is { IsExample shard.new }
    ensures frame { KeepsFrame shard.old shard.new }
    ensures stands { TurnStands ⟦<Counter as Trail>⟧
        ⟦<Counter as Fits<u32>>⟧.fits_under shard.new turn.now }
{
    match shard.take(turn.colour(), 0) {
        Err(refusal) => Some(refusal),
        Ok(_) => unreachable!(),
    }
}

/// A steal of the colour of a turn that is out.
fn steal_meanwhile(shard: &mut Shard<Counter, u32>, turn: &Turn<Counter, u32>) -> Option<NoSteal>
    requires is { IsExample shard.old }
    requires own { IsOwn shard.old turn.now.colour }
    requires stands { TurnStands ⟦<Counter as Trail>⟧
        ⟦<Counter as Fits<u32>>⟧.fits_under shard.old turn.now }
    ensures is { IsExample shard.new }
    ensures frame { KeepsFrame shard.old shard.new }
    ensures stands { TurnStands ⟦<Counter as Trail>⟧
        ⟦<Counter as Fits<u32>>⟧.fits_under shard.new turn.now }
{
    match shard.steal(turn.colour(), 1) {
        Err(refusal) => Some(refusal),
        Ok(_) => unreachable!(),
    }
}

/// What the calls on a running colour answer.
#[derive(Clone, Copy)]
struct Meanwhile {
    count: u16,
    registered: Option<Registered>,
    no_take: Option<NoTake>,
    no_steal: Option<NoSteal>,
    after: After,
}

/// Takes a colour, registers, takes and steals it while it runs, and finishes.
fn take_turn_with_calls(shard: &mut Shard<Counter, u32>, colour: u16) -> Result<Meanwhile, NoTake>
    requires is { IsExample shard.old }
    requires colour { colour < 4 }
    ensures { IsExample shard.new }
{
    let turn = shard.take(Colour(colour), 0)?;
    let registered = register_meanwhile(shard, &turn, colour);
    let no_take = take_meanwhile(shard, &turn);
    let no_steal = steal_meanwhile(shard, &turn);
    Ok(Meanwhile {
        count: turn.count(),
        registered,
        no_take,
        no_steal,
        after: run_and_finish(shard, turn),
    })
}

/// The answers to the first and the second registration on a colour of core 0.
const WOKE: Registered = Registered::Woke {
    owner: 0,
    started: 0,
    worth: 30,
};

const TOLD: Registered = Registered::Told {
    owner: 0,
    started: 0,
    worth: 60,
};

/// The answers to a finish that leaves one event, and to a steal of that one.
const MORE: After = After::More {
    started: 2,
    worth: 30,
};

const TAKEN_OVER: Stolen = Stolen {
    from: 0,
    started: 2,
    worth: 30,
};

/// Whether what is called while colour 2 runs is answered so, where two of its events wait.
fn answers_meanwhile(shard: &mut Shard<Counter, u32>) -> bool
    requires { IsExample shard.old }
    ensures { IsExample shard.new }
{
    let Ok(turn) = take_turn_with_calls(shard, 2) else {
        return false;
    };
    turn.count == 2
        && turn.registered == Some(Registered::Running { core: 0 })
        && turn.no_take == Some(NoTake::Busy { core: 0 })
        && turn.no_steal == Some(NoSteal::Busy { core: 0 })
        && turn.after == MORE
}

/// A call of the example's shard, with what it answers.
#[derive(Clone, Copy)]
enum Call {
    Register(u16, Registered),
    Registers(u16),
    Reserve,

    /// A turn of a colour by a core: how many events it had, and how it was finished.
    Turn(u16, u16, Result<(u16, After), NoTake>),

    /// A turn of colour 2, with calls while it runs.
    TurnWithCalls,

    Steal(u16, u16, Result<Stolen, NoSteal>),
    Steals(u16, u16),
    Ready(u16, Option<(u16, u64, u128)>),

    /// What the loads that were run on a colour add up to.
    Total(u16, u64),

    IsDrained(bool),

    /// How long the history is.
    Entries(u64),
}

/// Makes a call, and says whether it answers so.
fn answers(shard: &mut Shard<Counter, u32>, call: Call) -> bool
    requires { IsExample shard.old }
    ensures { IsExample shard.new }
{
    match call {
        Call::Register(colour, answer) if colour < 4 => register(shard, colour) == Some(answer),
        Call::Registers(colour) if colour < 4 => register(shard, colour).is_some(),
        Call::Reserve => shard.reserve(1) == Ok(()),
        Call::Turn(colour, core, answer) if colour < 4 => {
            take_turn(shard, colour, core) == answer
        }
        Call::TurnWithCalls => answers_meanwhile(shard),
        Call::Steal(colour, to, answer) if colour < 4 && to < 2 => {
            steal(shard, colour, to) == answer
        }
        Call::Steals(colour, to) if colour < 4 && to < 2 => steal(shard, colour, to).is_ok(),
        Call::Ready(colour, answer) if colour < 4 => ready(shard, colour) == answer,
        Call::Total(colour, total) if colour < 4 => total_at(shard, colour) == Some(total),
        Call::IsDrained(is_so) => shard.is_drained() == is_so,
        Call::Entries(count) => shard.history().len() == count,
        _ => false,
    }
}

/// The first of these calls of a shard that doesn't answer so.
fn first_wrong(shard: &mut Shard<Counter, u32>, calls: &[Call]) -> Option<usize>
    requires { IsExample shard.old }
    ensures { IsExample shard.new }
{
    'calls: for (number, call) in calls.iter().enumerate() {
        if !answers(shard, *call) {
            return Some(number);
        }
    }
    None
}

/// The first of these calls of a new shard, at this cost and with so many pinned colours, that doesn't
/// answer so.
fn first_wrong_of(
    alloc: Global,
    steal_cost: u32,
    pinned: u32,
    calls: &[Call],
) -> Result<Option<usize>, Memory> {
    let mut shard = example(alloc, steal_cost, pinned, false)?;
    Ok(first_wrong(&mut shard, calls))
}

static IN_ORDER: [Call; 12] = [
    Call::Register(2, WOKE),
    Call::Register(2, TOLD),
    Call::Turn(2, 1, Err(NoTake::Elsewhere { owner: 0 })),
    Call::TurnWithCalls,
    Call::Steal(2, 0, Err(NoSteal::Own)),
    Call::Reserve,
    Call::Steal(2, 1, Ok(TAKEN_OVER)),
    Call::Turn(2, 1, Ok((1, After::Idle))),
    Call::Turn(2, 1, Err(NoTake::Empty { registered: 3 })),
    Call::Steal(2, 0, Err(NoSteal::Empty { registered: 3 })),
    Call::Steal(0, 1, Err(NoSteal::Empty { registered: 0 })),
    Call::Entries(8),
];

#[test]
fn calls_on_one_shard_answer_in_order(rt: HostRuntime) {
    assert!(rt; first_wrong_of(rt.alloc(), 20, 0, &IN_ORDER) == Ok(None));
}

static AT_THE_COST: [Call; 6] = [
    Call::IsDrained(true),
    Call::Ready(2, None),
    Call::Registers(2),
    Call::IsDrained(false),
    Call::Ready(2, Some((0, 0, 30))),
    Call::Steal(2, 1, Err(NoSteal::Cheap { worth: 30 })),
];

#[test]
fn a_steal_at_the_cost_is_cheap(rt: HostRuntime) {
    assert!(rt; first_wrong_of(rt.alloc(), 30, 0, &AT_THE_COST) == Ok(None));
}

/// What a steal of colour 0 answers where it is pinned.
const PINNED: Result<Stolen, NoSteal> = Err(NoSteal::Pinned { colour: Colour(0) });

static ONE_IS_PINNED: [Call; 8] = [
    Call::Steal(0, 1, PINNED),
    Call::Steal(0, 0, PINNED),
    Call::Registers(0),
    Call::Registers(2),
    Call::Steal(0, 1, PINNED),
    Call::Steals(2, 1),
    Call::Turn(0, 0, Ok((1, After::Idle))),
    Call::Steal(0, 1, PINNED),
];

#[test]
fn a_pinned_colour_is_never_stolen(rt: HostRuntime) {
    assert!(rt; first_wrong_of(rt.alloc(), 20, 1, &ONE_IS_PINNED) == Ok(None));
}

/// Whether the loads of each state add up to these.
fn add_up(states: &[Counter], totals: &[u64]) -> bool {
    for (state, total) in states.iter().zip(totals) {
        if state.total != *total {
            return false;
        }
    }
    states.len() == totals.len()
}

/// Whether a drained shard comes apart into so many entries, states whose loads add up to these, and so
/// many lists of queued events; or nothing where it isn't drained.
fn comes_apart(
    shard: Shard<Counter, u32>,
    entries: u64,
    totals: &[u64],
    lists: usize,
) -> Option<bool> {
    if !shard.is_drained() {
        return None;
    }
    let (history, states, queues) = shard.into_parts();
    Some(history.len() == entries && add_up(&states, totals) && queues.len() == lists)
}

/// Whether a new shard of cost 30 comes apart so after these calls.
fn comes_apart_after(
    alloc: Global,
    calls: &[Call],
    entries: u64,
    totals: &[u64],
    lists: usize,
) -> Result<Option<bool>, Memory> {
    let mut shard = example(alloc, 30, 0, false)?;
    let wrong = first_wrong(&mut shard, calls);
    shard.events_stand_once();
    match wrong {
        Some(_) => Ok(Some(false)),
        None => Ok(comes_apart(shard, entries, totals, lists)),
    }
}

static ONE_RAN: [Call; 3] = [
    Call::Registers(3),
    Call::Turn(3, 1, Ok((1, After::Idle))),
    Call::Total(3, 5),
];

/// The entries that these calls write.
static ONE_RAN_WRITES: [Entry; 3] = [
    Entry::Reg {
        colour: Colour(3),
        event: Event { handler: 0, arg: 0 },
        by: 2,
    },
    Entry::Take {
        colour: Colour(3),
        core: 1,
        count: 1,
    },
    Entry::Fin {
        colour: Colour(3),
        core: 1,
        count: 1,
    },
];

/// Whether the history of these calls has three entries, and shows these where it is listed, and none
/// otherwise.
fn is_listed(
    alloc: Global,
    listed: bool,
    calls: &[Call],
    written: &[Entry],
) -> Result<bool, Memory> {
    let mut shard = example(alloc, 30, 0, listed)?;
    let wrong = first_wrong(&mut shard, calls);
    let shown = listed.then_some(written);
    Ok(wrong == None && shard.history().len() == 3 && shard.history().entries() == shown)
}

#[test]
fn a_history_is_listed_where_the_setup_asks(rt: HostRuntime) {
    for listed in [false, true] {
        let is_so = is_listed(rt.alloc(), listed, &ONE_RAN, &ONE_RAN_WRITES);
        assert!(rt; is_so == Ok(true), "listed: {listed}");
    }
}

#[test]
fn a_shard_comes_apart_into_what_it_held(rt: HostRuntime) {
    let whole = comes_apart_after(rt.alloc(), &ONE_RAN, 3, &[0, 0, 0, 5], 4);
    assert!(rt; whole == Ok(Some(true)));
    let none = comes_apart_after(rt.alloc(), &[Call::Registers(3)], 1, &[], 4);
    assert!(rt; none == Ok(None));
}
