//! A run of the loop: the weave is made, events are posted, and the cores make
//! steps until all were run.
ghost use Rattle.std.specs.Prelude.{◌≡◌, ◌<◌, ◌≤◌, ℕ, IfOk, IfSome};
ghost use Rattle.measure.specs.WeaveLoops.{IsLoop};

use super::hops::Hops;
use example_counting::{Tally, initial_states};
use mely_event::{Colour, Event, Handlers, Memory, Trail};
use mely_history::{Setup, Shape};
use mely_weave::Weave;
use mely_worker::Made;
use std::alloc::Global;
use std::sync::Wait;

/// How many cores there are.
const CORES: u16 = 4;

/// Four cores in one group, four shards, batches of 10; a colour is worth a steal
/// where three events wait.
fn setup_of(colours: u16) -> Option<Setup>
    ensures { IfSome result (λ setup. IsLoop colours setup) }
{
    let shape = Shape {
        cores: CORES,
        shards: 4,
        batch: 10,
        steal_cost: 20,
        group: 4,
    };
    let Ok(handlers) = Handlers::new(&[(10, 1)]) else {
        return None;
    };
    match Setup::new(&shape, u32::from(colours), handlers, 0) {
        Ok(setup) => Some(setup),
        Err(_) => None,
    }
}

/// The initial weave.
fn make_weave(alloc: Global, colours: u16) -> Option<Weave<Tally, u8>>
    ensures { IfSome result (λ weave. IsLoop colours weave.setup) }
{
    let setup = setup_of(colours)?;
    let states = initial_states(alloc, colours).ok()?;
    match Weave::new(alloc, &setup, states) {
        Ok(weave) => Some(weave),
        Err(_) => None,
    }
}

/// Registers an event on each colour; whether there was memory.
fn post_all(weave: &mut Weave<Tally, u8>, colours: u16, passes: u16) -> bool
    requires { IsLoop colours weave.old.setup }
    ensures { IsLoop colours weave.new.setup }
{
    let event = Event {
        handler: 0,
        arg: passes,
    };
    'colours: for colour in 0..colours {
        if weave.post(Colour(colour), event, None).is_err() {
            return false;
        }
    }
    true
}

/// Lets the cores make a step in turn until so many events were run, and answers how many steps and
/// events that were.
fn make_steps(weave: &mut Weave<Tally, u8>, app: &Hops, events: u32) -> (u32, u32)
    requires { IsLoop app.now.colours weave.old.setup }
    ensures { IsLoop app.now.colours weave.new.setup }
{
    let mut ran = 0u32;
    'steps: for number in 0..u32::MAX {
        if ran >= events {
            return (number, ran);
        }
        let core = (number % u32::from(CORES)) as u16;
        if let Made::Ran { .. } = weave.step(core, app) {
            ran = ran.saturating_add(1);
        }
    }
    (u32::MAX, ran)
}

/// Runs an event on each of so many colours, passed on so often, and answers how many steps were
/// made for how many events; nothing for want of memory, or where there is no colour.
pub fn run<R: Wait>(rt: &R, alloc: Global, colours: u16, passes: u16) -> Option<(u32, u32)> {
    let mut weave = make_weave(alloc, colours)?;
    let app = Hops { colours };
    let is_posted = post_all(&mut weave, colours, passes);
    let events = u32::from(colours) * (u32::from(passes) + 1);
    let went = make_steps(&mut weave, &app, events);
    weave.drain(rt, &app);
    let parts = weave.into_parts();
    if is_posted && parts.lost.is_empty() {
        Some(went)
    } else {
        None
    }
}
