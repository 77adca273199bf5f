//! The page of `mely_run`.
use super::{fin, reg, small_setup, take};
use crate::initial_states;
use crate::sending::Sending;
use mely_event::{Colour, Event, TrailLog};
use mely_run::{a_run_is_the_machines, run_whole};
use std::test::Fail;

type State = TrailLog;

type Load = u8;

type App = Sending;

#[test]
fn a_whole_run_is_a_call(rt: HostRuntime) -> Result<(), Fail> {
    let alloc = rt.alloc();
    let setup = small_setup()?;
    let states = initial_states(alloc, setup.colours())?;
    let (app, colour, load) = (Sending, Colour(0), None);
    let event = Event { handler: 1, arg: 1 };
    let schedule = [(0, 4), (1, 3)];
    a_run_is_the_machines::<State, Load, App>();
    let parts = run_whole(
        &rt, alloc, &setup, states, &app, colour, event, load, &schedule,
    );
    let parts = parts.ok_or("no memory")?;
    let sent = Event { handler: 0, arg: 0 };
    let written = [
        reg(0, event, 2),
        take(0),
        reg(1, sent, 0),
        fin(0),
        take(1),
        fin(1),
    ];
    assert!(rt; parts.histories.len() == 1);
    assert!(rt; parts.histories[0].entries() == Some(written.as_slice()));
    Ok(())
}
