//! A worker on an access with given answers, in whose runs every line of the table occurs.
ghost use Rattle.std.specs.Prelude.{◌≡◌, IfOk, length};
ghost use Rattle.mely_event.specs.HandlerTable.{rows_of};
ghost use Rattle.mely_history.specs.Setup.{shape_of, colours_of, handlers_of};
ghost use Rattle.mely_worker.specs.Conditions.{MayStepAt, AppServesAt};

mod ledger;
mod lent;
mod script;

use ledger::{Forwarding, Ledger, NOTE, Pass};
use lent::{step_lent, steps_lent};
use mely_event::{Colour, Event, Fits, Handlers, Mark, Memory, Trail};
use mely_history::{After, NoSteal, NoTake, Registered, Setup, Shape, Stolen};
use mely_steal::victims;
use mely_worker::{Access, App, Delivery, IdleWorker, Made, Outs, Worker};
use script::{Call, Script};
use std::alloc::Global;
use std::process::Abort;

/// Two cores, four colours, batch 2 and two handlers, with these calls to come.
fn script_of(alloc: Global, calls: &[Call]) -> Result<Script, Memory>
    ensures cores { IfOk result (λ script. (shape_of script.setup).cores ≡ 2) }
    ensures colours { IfOk result (λ script. colours_of script.setup ≡ 4) }
    ensures handlers { IfOk result (λ script. length (rows_of (handlers_of script.setup)) ≡ 2) }
{
    let shape = Shape {
        cores: 2,
        shards: 1,
        batch: 2,
        steal_cost: 0,
        group: 2,
    };
    let Ok(handlers) = Handlers::new(&[(60, 2), (7, 2)]) else {
        return Err(Memory);
    };
    let Ok(setup) = Setup::new(&shape, 4, handlers, 0) else {
        return Err(Memory);
    };
    Ok(Script {
        alloc,
        setup,
        calls: calls.to_vec(alloc)?,
        made: 0,
        astray: false,
    })
}

/// Makes a step for each of these names, and answers whether each was named so.
fn follows(
    worker: &mut Worker<Ledger, u8>,
    script: &mut Script,
    app: &Forwarding,
    steps: &[Made],
) -> bool
    requires may { MayStepAt ⟦<Ledger as Trail>⟧ ⟦<Ledger as Fits<u8>>⟧.fits_under
        ⟦<Script as Access<Ledger, u8>>⟧ script.old worker.old }
    requires served { AppServesAt ⟦<Script as Access<Ledger, u8>>⟧
        ⟦<Forwarding as App>⟧ script.old app.now }
{
    for made in steps {
        if worker.step(script, app, app) != *made {
            return false;
        }
    }
    true
}

/// A colour with an event and its load.
type Put = (Colour, Event, Option<u8>);

/// Whether a worker of core 0 with victim 1 follows a script to its end, loses these, and passes the
/// gate so.
fn comes_so(
    rt: &(impl AllocGlobal + Abort),
    calls: &[Call],
    steps: &[Made],
    lost: &[Put],
    passes: &[Option<Pass>],
) -> Result<bool, Memory> {
    let mut script = script_of(rt.alloc(), calls)?;
    let mut victims = Vec::new(rt.alloc());
    victims.push(1)?;
    let mut worker = Worker::new(rt.alloc(), 0, victims, 2)?;
    let app = Forwarding::new();
    let is_followed = follows(&mut worker, &mut script, &app, steps) && script.is_done();
    assert!(rt; worker.is_free());
    let puts = worker.into_lost();
    let seen = app.seen();
    Ok(is_followed && puts.as_slice() == lost && seen.as_slice() == passes)
}

/// Whether a worker follows a script to its end in which it runs nothing.
fn is_followed(
    rt: &(impl AllocGlobal + Abort),
    calls: &[Call],
    steps: &[Made],
) -> Result<bool, Memory> {
    comes_so(rt, calls, steps, &[], &NO_PASSES)
}

/// Nobody passed the gate.
static NO_PASSES: [Option<Pass>; 3] = [None; 3];

const C0: Colour = Colour(0);

const C1: Colour = Colour(1);

const C2: Colour = Colour(2);

const C3: Colour = Colour(3);

/// A mark of colour 2, which is stolen, and what it is afterwards.
const STOLEN: Mark = Mark {
    colour: C2,
    started: 4,
    worth: 50,
};

const LANDED: Mark = Mark {
    colour: C2,
    started: 5,
    worth: 60,
};

/// The mark of what waits of it once its turn is finished.
const MORE: Mark = Mark {
    colour: C2,
    started: 7,
    worth: 20,
};

/// What is called in a run in which every line of the table is made, and the names of its steps.
static EVERY_CALL: [Call; 15] = [
    Call::Pop(None),
    Call::Pick(1, Some(STOLEN)),
    Call::Steal(
        C2,
        Ok(Stolen {
            from: 1,
            started: 5,
            worth: 60,
        }),
    ),
    Call::Push(0, LANDED),
    Call::Pop(Some(LANDED)),
    Call::Take(C2, None),
    Call::Register(
        C0,
        NOTE,
        Some(7),
        Some(Registered::Woke {
            owner: 1,
            started: 0,
            worth: 30,
        }),
    ),
    Call::Push(
        1,
        Mark {
            colour: C0,
            started: 0,
            worth: 30,
        },
    ),
    Call::Register(
        C1,
        NOTE,
        None,
        Some(Registered::Told {
            owner: 1,
            started: 3,
            worth: 40,
        }),
    ),
    Call::Retell(1, C1, 3, 40, true),
    Call::Finish(
        C2,
        7,
        After::More {
            started: 7,
            worth: 20,
        },
    ),
    Call::Push(0, MORE),
    Call::Pop(Some(MORE)),
    Call::Take(C2, Some(NoTake::Memory)),
    Call::Push(0, MORE),
];

static EVERY_STEP: [Made; 18] = [
    Made::NoneHere,
    Made::Picked {
        colour: C2,
        victim: 1,
    },
    Made::Stole {
        colour: C2,
        from: 1,
    },
    Made::Landed { colour: C2 },
    Made::Popped { colour: C2 },
    Made::Took {
        colour: C2,
        count: 2,
    },
    Made::Ran {
        colour: C2,
        handler: 1,
    },
    Made::Registered { colour: C0 },
    Made::Pushed {
        colour: C0,
        core: 1,
    },
    Made::Registered { colour: C1 },
    Made::Told {
        colour: C1,
        core: 1,
        found: true,
    },
    Made::Ran {
        colour: C2,
        handler: 0,
    },
    Made::Finished {
        colour: C2,
        more: true,
    },
    Made::Pushed {
        colour: C2,
        core: 0,
    },
    Made::Popped { colour: C2 },
    Made::Memory,
    Made::Pushed {
        colour: C2,
        core: 0,
    },
    Made::Halted,
];

/// Both events of a turn of colour 2 passed the gate on core 0, each once and before it was run.
static BOTH_OF_2: [Option<Pass>; 3] = [
    Some(Pass {
        core: 0,
        colour: C2,
        event: Event { handler: 1, arg: 5 },
        ran: 0,
    }),
    Some(Pass {
        core: 0,
        colour: C2,
        event: Event { handler: 0, arg: 6 },
        ran: 1,
    }),
    None,
];

#[test]
fn every_line_of_the_table_is_made(rt: HostRuntime) {
    let is_so = comes_so(&rt, &EVERY_CALL, &EVERY_STEP, &[], &BOTH_OF_2);
    assert!(rt; is_so == Ok(true));
}

/// A mark of colour 1.
const FOUND: Mark = Mark {
    colour: C1,
    started: 0,
    worth: 30,
};

/// Why a mark is not taken.
static NO_TAKES: [NoTake; 3] = [
    NoTake::Elsewhere { owner: 1 },
    NoTake::Busy { core: 1 },
    NoTake::Empty { registered: 3 },
];

/// Whether a mark that is not taken for this cause is dropped.
fn is_dropped_untaken(rt: &(impl AllocGlobal + Abort), why: NoTake) -> Result<bool, Memory> {
    let calls = [
        Call::Pop(Some(FOUND)),
        Call::Take(C1, Some(why)),
        Call::Pop(None),
    ];
    let steps = [
        Made::Popped { colour: C1 },
        Made::NotTaken { why },
        Made::NoneHere,
    ];
    is_followed(rt, &calls, &steps)
}

/// Why a mark is not stolen.
static NO_STEALS: [NoSteal; 5] = [
    NoSteal::Pinned { colour: C1 },
    NoSteal::Own,
    NoSteal::Busy { core: 1 },
    NoSteal::Empty { registered: 3 },
    NoSteal::Cheap { worth: 30 },
];

/// Whether a mark that is not stolen for this cause is dropped.
fn is_dropped_unstolen(rt: &(impl AllocGlobal + Abort), why: NoSteal) -> Result<bool, Memory> {
    let calls = [
        Call::Pop(None),
        Call::Pick(1, Some(FOUND)),
        Call::Steal(C1, Err(why)),
        Call::Pop(None),
        Call::Pick(1, None),
        Call::Pop(None),
    ];
    let steps = [
        Made::NoneHere,
        Made::Picked {
            colour: C1,
            victim: 1,
        },
        Made::NotStolen { why },
        Made::NoneHere,
        Made::NoneThere { victim: 1 },
        Made::NoneHere,
    ];
    is_followed(rt, &calls, &steps)
}

#[test]
fn a_mark_that_is_refused_is_dropped(rt: HostRuntime) {
    for &why in &NO_TAKES {
        assert!(rt; is_dropped_untaken(&rt, why) == Ok(true), "{why}");
    }
    for &why in &NO_STEALS {
        assert!(rt; is_dropped_unstolen(&rt, why) == Ok(true), "{why}");
    }
}

/// A mark of colour 3 that a steal without memory puts back.
const PUT_BACK: Mark = Mark {
    colour: C3,
    started: 2,
    worth: 90,
};

static STEAL_CALLS: [Call; 4] = [
    Call::Pop(None),
    Call::Pick(1, Some(PUT_BACK)),
    Call::Steal(C3, Err(NoSteal::Memory)),
    Call::Push(1, PUT_BACK),
];

static STEAL_STEPS: [Made; 6] = [
    Made::NoneHere,
    Made::Picked {
        colour: C3,
        victim: 1,
    },
    Made::Memory,
    Made::Pushed {
        colour: C3,
        core: 1,
    },
    Made::Halted,
    Made::Halted,
];

#[test]
fn without_memory_a_steal_puts_the_mark_back(rt: HostRuntime) {
    assert!(rt; is_followed(&rt, &STEAL_CALLS, &STEAL_STEPS) == Ok(true));
}

/// A registration without memory in a turn of colour 3.
static TURN_CALLS: [Call; 5] = [
    Call::Pop(Some(Mark {
        colour: C3,
        started: 0,
        worth: 60,
    })),
    Call::Take(C3, None),
    Call::Register(C0, NOTE, Some(7), None),
    Call::Register(C1, NOTE, None, Some(Registered::Running { core: 1 })),
    Call::Finish(C3, 7, After::Idle),
];

static TURN_STEPS: [Made; 8] = [
    Made::Popped { colour: C3 },
    Made::Took {
        colour: C3,
        count: 2,
    },
    Made::Ran {
        colour: C3,
        handler: 1,
    },
    Made::Memory,
    Made::Registered { colour: C1 },
    Made::Ran {
        colour: C3,
        handler: 0,
    },
    Made::Finished {
        colour: C3,
        more: false,
    },
    Made::Halted,
];

/// What was not registered.
static TURN_LOST: [Put; 1] = [(C0, NOTE, Some(7))];

/// Both events of a turn of colour 3 passed the gate on core 0, each once and before it was run.
static BOTH_OF_3: [Option<Pass>; 3] = [
    Some(Pass {
        core: 0,
        colour: C3,
        event: Event { handler: 1, arg: 5 },
        ran: 0,
    }),
    Some(Pass {
        core: 0,
        colour: C3,
        event: Event { handler: 0, arg: 6 },
        ran: 1,
    }),
    None,
];

#[test]
fn without_memory_a_registration_is_kept_and_the_turn_ended(rt: HostRuntime) {
    let is_so = comes_so(&rt, &TURN_CALLS, &TURN_STEPS, &TURN_LOST, &BOTH_OF_3);
    assert!(rt; is_so == Ok(true));
}

/// What is called where registrations on colour 3 are delivered.
static DELIVERED: [Call; 2] = [
    Call::Push(
        1,
        Mark {
            colour: C3,
            started: 4,
            worth: 50,
        },
    ),
    Call::Retell(1, C3, 4, 60, false),
];

/// What registrations on colour 3 answer: the colour woke, was told of, or runs.
const WOKE: Registered = Registered::Woke {
    owner: 1,
    started: 4,
    worth: 50,
};

const TOLD: Registered = Registered::Told {
    owner: 1,
    started: 4,
    worth: 60,
};

const RUNS: Registered = Registered::Running { core: 0 };

/// Whether the first and the last of these are delivered, and the other isn't, by these calls alone.
fn are_delivered(alloc: Global) -> Result<bool, Memory> {
    let mut script = script_of(alloc, &DELIVERED)?;
    let woke = Delivery::after(C3, &WOKE).deliver(&mut script);
    let told = Delivery::after(C3, &TOLD).deliver(&mut script);
    let runs = Delivery::after(C3, &RUNS).deliver(&mut script);
    Ok(woke && !told && runs && script.is_done())
}

#[test]
fn what_follows_a_registration_is_delivered(rt: HostRuntime) {
    assert!(rt; are_delivered(rt.alloc()) == Ok(true));
}

/// A worker may be lent to a thread wherever its states and loads may cross,
/// and move into one at rest.
fn crosses<S: Send, P: Send>(worker: &Worker<S, P>, rested: &IdleWorker<P>) {
    may_cross(worker);
    may_cross(rested);
}

fn may_cross<T: Send>(_value: &T) {}

/// Whether a worker rests and wakes without anything in it.
fn is_at_rest(rt: &(impl AllocGlobal + Abort)) -> Result<bool, Memory> {
    let order = victims(rt.alloc(), 3, 4, 2)?;
    let worker: Worker<Ledger, u8> = Worker::new(rt.alloc(), 3, order, 1000)?;
    let is_new = !worker.is_halted() && worker.lost().is_empty();
    assert!(rt; worker.is_free());
    let worker: Worker<Ledger, u8> = worker.rest().wake();
    assert!(rt; worker.is_free());
    let lost = worker.into_lost();
    Ok(is_new && lost.is_empty())
}

#[test]
fn a_worker_rests_and_wakes(rt: HostRuntime) {
    assert!(rt; is_at_rest(&rt) == Ok(true));
    assert!(rt; Outs::<u8>::new().is_empty());
}

/// Whether steps on an access that is lent are steps on the access.
fn is_lent(rt: &(impl AllocGlobal + Abort)) -> Result<bool, Memory> {
    let mut script = script_of(rt.alloc(), &[Call::Pop(None); 3])?;
    let mut worker: Worker<Ledger, u8> = Worker::new(rt.alloc(), 0, Vec::new(rt.alloc()), 2)?;
    let app = Forwarding::new();
    let made = step_lent(&mut worker, &mut script, &app);
    steps_lent(&mut worker, &mut script, &app, 2);
    assert!(rt; worker.is_free());
    let is_empty = worker.into_lost().is_empty();
    Ok(made == Made::NoneHere && script.is_done() && is_empty)
}

#[test]
fn a_step_on_a_lent_access_is_a_step_on_the_access(rt: HostRuntime) {
    assert!(rt; is_lent(&rt) == Ok(true));
}
