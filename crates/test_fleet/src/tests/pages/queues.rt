//! The page of `mely_queue`.
ghost use Rattle.std.specs.Prelude.{◌≡◌, []};

use mely_event::{Colour, Event, Handlers, Logged, TrailLog};
use mely_queue::{ColourQueue, Turn};
use std::test::Fail;

const EVENT: Event = Event { handler: 1, arg: 7 };

/// A handler that keeps the argument of an event that comes with a load.
fn run(state: &mut Logged<u16>, event: Event, load: Option<u8>)
    ensures { state.new.log.colour ≡ state.old.log.colour }
{
    state.log.push(event);
    if load.is_some() {
        state.value = event.arg;
    }
}

/// Registers an event with a load on a new queue, and runs a turn of it: the state after it.
fn after_turn(queue: &mut ColourQueue<u8>) -> Result<Logged<u16>, Fail>
    requires { queue.old ≡ record { events = []; weights = []; started = 0; finished = 0 } }
{
    let handlers = Handlers::new(&[(60, 2), (7, 2)])?;
    let (colour, core, batch) = (Colour(2), 0, 10);
    let (event, load) = (EVENT, Some(5));
    let state = Logged {
        log: TrailLog::new(colour),
        value: 0,
    };
    queue.push(event, load, handlers.weight(event.handler))?;
    let mut turn = Turn::new(colour, core, state, queue.take_up_to(batch)?);
    while let Some((event, load)) = turn.next() {
        run(turn.state(), event, load);
    }
    queue.finish(turn.count());
    Ok(turn.into_state())
}

#[test]
fn a_turn_is_taken_run_and_finished(rt: HostRuntime) -> Result<(), Fail> {
    let mut queue = ColourQueue::new(rt.alloc());
    let state = after_turn(&mut queue)?;
    assert!(rt; state.value == EVENT.arg);
    assert!(rt; queue.started() == 1);
    assert!(rt; queue.finished() == 1);
    assert!(rt; queue.time_left() == 0);
    Ok(())
}
