//! The app, and its run on two workers.
ghost use Rattle.std.specs.Prelude.{◌≡◌, ◌≤◌, ◌+◌, ◌++◌, ◌∷◌, [], IfOk, length};
ghost use Rattle.std.specs.List.{AllByRecursion};
ghost use Rattle.mely_worker.specs.Access.{FitsIn};
ghost use Rattle.example_hello.specs.declared.greeting.TheConstants.{COLOURS, HANDLERS};
ghost use Rattle.example_hello.specs.Greetings.{greetings_of};
ghost use Rattle.example_hello.specs.Counting.{AllCounted, AllGreeted};

use crate::counter::Counter;
use mely_app::{Ended, RunError, run_app};
use mely_event::{Colour, Event, Handlers};
use mely_history::{Setup, Shape};
use mely_worker::{App, Outs};
use std::alloc::Global;
use std::sync::Wait;
use std::thread::Threads;

const GREET: u8 = 0;

const HEAR: u8 = 1;

/// How many handlers the app has; their numbers are below this.
const HANDLERS: usize = 2;

/// How many colours the app has; their numbers are below this.
const COLOURS: u32 = 2;

/// Who greets has colour 0, and who hears it colour 1.
#[derive(Drop)]
pub struct Greeting;

impl App for Greeting {
    type Load = ();

    type State = Counter;

    ghost colours_of = { λ app. COLOURS };

    ghost handlers_of = { λ app. HANDLERS };

    ghost serves = { λ app frame. Unit {0} };

    ghost runs = { λ app before event load after puts. puts ≡ greetings_of event };

    fn run(&self, state: &mut Counter, event: Event, _load: Option<()>, outs: &mut Outs<()>)
        requires empty { outs.old ≡ [] }
        ensures ran { outs.new ≡ greetings_of event }
        ensures colour { state.new.log.colour ≡ state.old.log.colour }
        ensures frame { Unit {0} }
        ensures trail { state.new.log.events ≡ state.old.log.events ++ event ∷ [] }
        ensures puts { AllByRecursion (FitsIn COLOURS HANDLERS (λ colour event load. Unit {0}))
            outs.new }
        ensures few { length outs.new ≤ 2 }
    {
        state.run(event);
        if event.handler == GREET {
            let hear = Event {
                handler: HEAR,
                arg: 0,
            };
            outs.put(Colour(1), hear, None);
            if event.arg > 0 {
                let greet = Event {
                    handler: GREET,
                    arg: event.arg - 1,
                };
                outs.put(Colour(0), greet, None);
            }
        }
    }
}

/// Greets so often on two workers, each in a thread of its own. Each greeting is heard once.
///
/// # Errors
///
/// There was no memory: what was counted until then is handed back, and what is still to come.
pub fn greet<R: Threads + Wait + Sync>(
    rt: &R,
    alloc: Global,
    times: u16,
) -> Result<Ended<Counter>, RunError<Counter, ()>>
    requires { 1 ≤ times }
    ensures counted { IfOk result AllCounted }
    ensures greeted { IfOk result (AllGreeted times) }
{
    let shape = Shape {
        cores: 2,
        shards: 2,
        batch: 10,
        steal_cost: 20,
        group: 2,
    };
    let rows: [(u32, u32); HANDLERS] = [(10, 1), (10, 1)];
    let Ok(handlers) = Handlers::new(&rows) else {
        unreachable!()
    };
    let Ok(setup) = Setup::new(&shape, COLOURS, handlers, 0) else {
        unreachable!()
    };
    let first = Event {
        handler: GREET,
        arg: times - 1,
    };
    run_app(rt, alloc, &setup, &Greeting, Colour(0), first, None)
}
