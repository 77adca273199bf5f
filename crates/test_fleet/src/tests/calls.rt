//! The calls of a fleet one after another, by three callers.
ghost use Rattle.std.specs.Prelude.{◌≡◌, ◌<◌, ◌≤◌, ◌+◌, IfOk, length};
ghost use Rattle.mely_weave.specs.Dealing.{AtEach};
ghost use Rattle.mely_history.specs.Setup.{shape_of, colours_of};
ghost use Rattle.mely_fleet.specs.Fleets.{ArePasses};
ghost use Rattle.mely_kept.specs.Frames.{shard_frame};
ghost use Rattle.mely_fleet.specs.Opening.{AreInitialPasses};
ghost use Rattle.test_fleet.specs.Callers.{IsRow, MayFinish};

use super::{EVENT, fleet_of, setup_of};
use example_counting::{Tally, draw};
use mely_event::{Colour, Fits, Kept, Memory, Trail};
use mely_fleet::{Fleet, KeptShard, Passes};
use mely_history::{After, NoSteal, NoTake, Registered, Shape, Stolen};
use mely_queue::Turn;
use std::alloc::Global;
use std::sync::Wait;

/// The replies to the first and the second registration on a colour of core 0.
const WOKE: Registered = Registered::Woke {
    owner: 0,
    started: 0,
    worth: 30,
};

const TOLD: Registered = Registered::Told {
    owner: 0,
    started: 0,
    worth: 60,
};

/// The replies to a finish that leaves one event, and to a steal of that one.
const MORE: After = After::More {
    started: 2,
    worth: 30,
};

const TAKEN_OVER: Stolen = Stolen {
    from: 0,
    started: 2,
    worth: 30,
};

fn register<R: Wait>(
    rt: &R,
    fleet: &Fleet<Tally, u8>,
    own: &mut Passes<Tally, u8>,
    colour: u16,
) -> Option<Registered>
    requires row { IsRow 2 4 fleet.now.setup }
    requires colour { colour < 4 }
    requires own { ArePasses (shard_frame ⟦<Tally as Trail>⟧.frame_of) fleet.now own.old }
    ensures own { ArePasses (shard_frame ⟦<Tally as Trail>⟧.frame_of) fleet.now own.new }
    ensures number { own.new.number ≡ own.old.number }
{
    fleet.register(rt, own, Colour(colour), EVENT, None).ok()
}

fn steal<R: Wait>(
    rt: &R,
    fleet: &Fleet<Tally, u8>,
    own: &mut Passes<Tally, u8>,
    colour: u16,
) -> Result<Stolen, NoSteal>
    requires row { IsRow 2 4 fleet.now.setup }
    requires colour { colour < 4 }
    requires core { own.old.number < 2 }
    requires own { ArePasses (shard_frame ⟦<Tally as Trail>⟧.frame_of) fleet.now own.old }
    ensures own { ArePasses (shard_frame ⟦<Tally as Trail>⟧.frame_of) fleet.now own.new }
    ensures number { own.new.number ≡ own.old.number }
{
    fleet.steal(rt, own, Colour(colour))
}

fn take<R: Wait>(
    rt: &R,
    fleet: &Fleet<Tally, u8>,
    own: &mut Passes<Tally, u8>,
    colour: u16,
) -> Result<Turn<Tally, u8>, NoTake>
    requires row { IsRow 2 4 fleet.now.setup }
    requires colour { colour < 4 }
    requires core { own.old.number < 2 }
    requires own { ArePasses (shard_frame ⟦<Tally as Trail>⟧.frame_of) fleet.now own.old }
    ensures own { ArePasses (shard_frame ⟦<Tally as Trail>⟧.frame_of) fleet.now own.new }
    ensures number { own.new.number ≡ own.old.number }
    ensures turn { IfOk result (MayFinish ⟦<Tally as Trail>⟧ fleet.now own.new) }
{
    fleet.take(rt, own, Colour(colour))
}

/// A take of the colour of a turn that is out, by the core that has it.
fn take_meanwhile<R: Wait>(
    rt: &R,
    fleet: &Fleet<Tally, u8>,
    own: &mut Passes<Tally, u8>,
    turn: &Turn<Tally, u8>,
) -> Option<NoTake>
    requires core { own.old.number < (shape_of fleet.now.setup).cores }
    requires own { ArePasses (shard_frame ⟦<Tally as Trail>⟧.frame_of) fleet.now own.old }
    requires turn { MayFinish ⟦<Tally as Trail>⟧ fleet.now own.old turn.now }
    ensures own { ArePasses (shard_frame ⟦<Tally as Trail>⟧.frame_of) fleet.now own.new }
    ensures number { own.new.number ≡ own.old.number }
    ensures turn { MayFinish ⟦<Tally as Trail>⟧ fleet.now own.new turn.now }
{
    match fleet.take(rt, own, turn.colour()) {
        Err(refusal) => Some(refusal),
        Ok(other) => {
            drop(other.into_state());
            None
        }
    }
}

/// Runs what a turn has, and takes its state home.
fn run_and_finish<R: Wait>(
    rt: &R,
    fleet: &Fleet<Tally, u8>,
    own: &mut Passes<Tally, u8>,
    mut turn: Turn<Tally, u8>,
) -> After
    requires own { ArePasses (shard_frame ⟦<Tally as Trail>⟧.frame_of) fleet.now own.old }
    requires turn { MayFinish ⟦<Tally as Trail>⟧ fleet.now own.old turn }
    ensures own { ArePasses (shard_frame ⟦<Tally as Trail>⟧.frame_of) fleet.now own.new }
    ensures number { own.new.number ≡ own.old.number }
{
    while let Some((event, _load)) = turn.next() {
        draw(turn.state(), event, 0);
    }
    fleet.finish(rt, own, turn)
}

/// Takes a colour, runs what was taken and finishes, and answers how many events that were.
fn take_turn<R: Wait>(
    rt: &R,
    fleet: &Fleet<Tally, u8>,
    own: &mut Passes<Tally, u8>,
    colour: u16,
) -> Result<(u16, After), NoTake>
    requires row { IsRow 2 4 fleet.now.setup }
    requires colour { colour < 4 }
    requires core { own.old.number < 2 }
    requires own { ArePasses (shard_frame ⟦<Tally as Trail>⟧.frame_of) fleet.now own.old }
    ensures own { ArePasses (shard_frame ⟦<Tally as Trail>⟧.frame_of) fleet.now own.new }
    ensures number { own.new.number ≡ own.old.number }
{
    let turn = take(rt, fleet, own, colour)?;
    let count = turn.count();
    Ok((count, run_and_finish(rt, fleet, own, turn)))
}

/// Takes the passes of the last caller off the list.
fn last_of(
    fleet: &Fleet<Tally, u8>,
    passes: &mut Vec<Passes<Tally, u8>>,
) -> Result<Passes<Tally, u8>, Memory>
    requires { AtEach (λ n own.
        AreInitialPasses (shard_frame ⟦<Tally as Trail>⟧.frame_of) fleet.now n own)
        passes.old.items }
    ensures rest { AtEach (λ n own.
        AreInitialPasses (shard_frame ⟦<Tally as Trail>⟧.frame_of) fleet.now n own)
        passes.new.items }
    ensures own { IfOk result (λ own.
        ArePasses (shard_frame ⟦<Tally as Trail>⟧.frame_of) fleet.now own) }
    ensures number { IfOk result (λ own. own.number ≡ length passes.new.items) }
    ensures fewer { IfOk result (λ _. length passes.old.items ≡ length passes.new.items + 1) }
{
    let Some(own) = passes.pop() else {
        return Err(Memory);
    };
    Ok(own)
}

/// Two cores, four colours, batches of 10 and one handler of weight 30.
fn shape_of(shards: u16, steal_cost: u32) -> Shape
    ensures { result.cores ≡ 2 }
{
    Shape {
        cores: 2,
        shards,
        batch: 10,
        steal_cost,
        group: 1,
    }
}

/// Who makes a call: one of the cores, or the caller that is none.
#[derive(Clone, Copy)]
enum By {
    Zero,
    One,
    Two,
}

/// A call, with what it answers.
#[derive(Clone, Copy)]
enum Call {
    Register(Option<Registered>),

    /// A take, and the finish once what was taken was run: how many events these were.
    Turn(Result<(u16, After), NoTake>),
    Steal(Result<Stolen, NoSteal>),

    /// Room for an entry.
    Reserve,
}

/// Makes a call on a colour, and says whether it answers so. Only a core takes and steals.
fn answers<R: Wait>(
    rt: &R,
    fleet: &Fleet<Tally, u8>,
    own: &mut Passes<Tally, u8>,
    colour: u16,
    call: Call,
) -> bool
    requires row { IsRow 2 4 fleet.now.setup }
    requires own { ArePasses (shard_frame ⟦<Tally as Trail>⟧.frame_of) fleet.now own.old }
    ensures own { ArePasses (shard_frame ⟦<Tally as Trail>⟧.frame_of) fleet.now own.new }
    ensures number { own.new.number ≡ own.old.number }
{
    if colour >= 4 {
        return false;
    }
    match call {
        Call::Register(reply) => register(rt, fleet, own, colour) == reply,
        Call::Turn(answer) if own.number() < 2 => take_turn(rt, fleet, own, colour) == answer,
        Call::Steal(answer) if own.number() < 2 => steal(rt, fleet, own, colour) == answer,
        Call::Reserve => fleet.reserve(rt, own, 0, 1).is_ok(),
        _ => false,
    }
}

/// Makes the calls one after another, each by its caller on its colour; whether all answer so.
fn all_answer<R: Wait>(
    rt: &R,
    fleet: &Fleet<Tally, u8>,
    zero: &mut Passes<Tally, u8>,
    one: &mut Passes<Tally, u8>,
    two: &mut Passes<Tally, u8>,
    calls: &[(By, u16, Call)],
) -> bool
    requires row { IsRow 2 4 fleet.now.setup }
    requires zero { ArePasses (shard_frame ⟦<Tally as Trail>⟧.frame_of) fleet.now zero.old }
    requires one { ArePasses (shard_frame ⟦<Tally as Trail>⟧.frame_of) fleet.now one.old }
    requires two { ArePasses (shard_frame ⟦<Tally as Trail>⟧.frame_of) fleet.now two.old }
    ensures zero { ArePasses (shard_frame ⟦<Tally as Trail>⟧.frame_of) fleet.now zero.new }
    ensures one { ArePasses (shard_frame ⟦<Tally as Trail>⟧.frame_of) fleet.now one.new }
    ensures two { ArePasses (shard_frame ⟦<Tally as Trail>⟧.frame_of) fleet.now two.new }
    ensures numbers { (zero.new.number ≡ zero.old.number) × (one.new.number ≡ one.old.number) }
{
    let mut all = true;
    'calls: for &(by, colour, call) in calls {
        let answered = match by {
            By::Zero => answers(rt, fleet, zero, colour, call),
            By::One => answers(rt, fleet, one, colour, call),
            By::Two => answers(rt, fleet, two, colour, call),
        };
        all = all && answered;
    }
    all
}

/// What is called while core 0 has the turn of colour 2, which two events wait on.
fn meanwhile_answers<R: Wait>(
    rt: &R,
    fleet: &Fleet<Tally, u8>,
    zero: &mut Passes<Tally, u8>,
    one: &mut Passes<Tally, u8>,
    two: &mut Passes<Tally, u8>,
) -> bool
    requires row { IsRow 2 4 fleet.now.setup }
    requires zero { ArePasses (shard_frame ⟦<Tally as Trail>⟧.frame_of) fleet.now zero.old }
    requires one { ArePasses (shard_frame ⟦<Tally as Trail>⟧.frame_of) fleet.now one.old }
    requires two { ArePasses (shard_frame ⟦<Tally as Trail>⟧.frame_of) fleet.now two.old }
    requires cores { (zero.old.number < 2) × (one.old.number < 2) }
    ensures zero { ArePasses (shard_frame ⟦<Tally as Trail>⟧.frame_of) fleet.now zero.new }
    ensures one { ArePasses (shard_frame ⟦<Tally as Trail>⟧.frame_of) fleet.now one.new }
    ensures two { ArePasses (shard_frame ⟦<Tally as Trail>⟧.frame_of) fleet.now two.new }
    ensures numbers { (zero.new.number ≡ zero.old.number) × (one.new.number ≡ one.old.number) }
{
    let Ok(turn) = take(rt, fleet, zero, 2) else {
        return false;
    };
    let count = turn.count();
    let meanwhile = register(rt, fleet, two, 2);
    let busy = take_meanwhile(rt, fleet, zero, &turn);
    let not_stolen = steal(rt, fleet, one, 2);
    let finished = run_and_finish(rt, fleet, zero, turn);
    count == 2
        && meanwhile == Some(Registered::Running { core: 0 })
        && busy == Some(NoTake::Busy { core: 0 })
        && not_stolen == Err(NoSteal::Busy { core: 0 })
        && finished == MORE
}

/// The calls before core 0 takes the turn of colour 2, and those behind its finish.
static BEFORE: [(By, u16, Call); 3] = [
    (By::Two, 2, Call::Register(Some(WOKE))),
    (By::Two, 2, Call::Register(Some(TOLD))),
    (By::One, 2, Call::Turn(Err(NoTake::Elsewhere { owner: 0 }))),
];

static BEHIND: [(By, u16, Call); 7] = [
    (By::Zero, 2, Call::Steal(Err(NoSteal::Own))),
    (By::Two, 2, Call::Reserve),
    (By::One, 2, Call::Steal(Ok(TAKEN_OVER))),
    (By::One, 2, Call::Turn(Ok((1, After::Idle)))),
    (By::One, 2, Call::Turn(Err(NoTake::Empty { registered: 3 }))),
    (
        By::Zero,
        2,
        Call::Steal(Err(NoSteal::Empty { registered: 3 })),
    ),
    (
        By::One,
        0,
        Call::Steal(Err(NoSteal::Empty { registered: 0 })),
    ),
];

/// The calls where a steal costs as much as an event is worth.
static CHEAP: [(By, u16, Call); 2] = [
    (By::Two, 2, Call::Register(Some(WOKE))),
    (By::One, 2, Call::Steal(Err(NoSteal::Cheap { worth: 30 }))),
];

/// The replies on one colour, in the order of the calls.
fn replies_are_right<R: Wait>(
    rt: &R,
    fleet: &Fleet<Tally, u8>,
    zero: &mut Passes<Tally, u8>,
    one: &mut Passes<Tally, u8>,
    two: &mut Passes<Tally, u8>,
    is_cheap: bool,
) -> bool
    requires row { IsRow 2 4 fleet.now.setup }
    requires zero { ArePasses (shard_frame ⟦<Tally as Trail>⟧.frame_of) fleet.now zero.old }
    requires one { ArePasses (shard_frame ⟦<Tally as Trail>⟧.frame_of) fleet.now one.old }
    requires two { ArePasses (shard_frame ⟦<Tally as Trail>⟧.frame_of) fleet.now two.old }
    requires cores { (zero.old.number < 2) × (one.old.number < 2) }
{
    if is_cheap {
        return all_answer(rt, fleet, zero, one, two, &CHEAP);
    }
    let before = all_answer(rt, fleet, zero, one, two, &BEFORE);
    let meanwhile = meanwhile_answers(rt, fleet, zero, one, two);
    let behind = all_answer(rt, fleet, zero, one, two, &BEHIND);
    before && meanwhile && behind
}

/// Whether three callers of a new fleet get the replies, or those where a steal costs as much as an
/// event is worth.
fn three_get_replies<R: Wait>(
    rt: &R,
    alloc: Global,
    shards: u16,
    steal_cost: u32,
    is_cheap: bool,
) -> Result<bool, Memory> {
    let setup = setup_of(&shape_of(shards, steal_cost), 4, 30)?;
    let (fleet, mut passes) = fleet_of(alloc, &setup, 4, 1)?;
    let mut two = last_of(&fleet, &mut passes)?;
    let mut one = last_of(&fleet, &mut passes)?;
    let mut zero = last_of(&fleet, &mut passes)?;
    Ok(replies_are_right(rt, &fleet, &mut zero, &mut one, &mut two, is_cheap))
}

/// So many shards, what a steal costs, and whether an event is worth no more than that.
static ROWS: [(u16, u32, bool); 4] = [(1, 20, false), (1, 30, true), (4, 20, false), (4, 30, true)];

#[test]
fn passes_of_three_callers_get_the_replies_of_a_shard(rt: HostRuntime) {
    for &(shards, steal_cost, is_cheap) in &ROWS {
        let are_so = three_get_replies(&rt, rt.alloc(), shards, steal_cost, is_cheap);
        assert!(rt; are_so == Ok(true), "{shards} shards, cost {steal_cost}");
    }
}
