//! A run, with the history that it writes.
ghost use Rattle.std.specs.Prelude.{◌≡◌, ◌<◌, ◌≤◌, IfOk, length};
ghost use Rattle.mely_event.specs.HandlerTable.{rows_of};
ghost use Rattle.mely_history.specs.Setup.{shape_of, colours_of, handlers_of};
ghost use Rattle.example_run.specs.Small.{IsSmall};

mod page;

use crate::run;
use mely_event::{Colour, Event, Handlers};
use mely_history::{Entry, Setup, Shape};
use std::test::Fail;

/// Two cores, a shard and two colours; a steal costs 5, each handler weighs 10, and the history is
/// listed.
fn small_setup() -> Result<Setup, Fail>
    ensures { IfOk result IsSmall }
{
    let shape = Shape {
        cores: 2,
        shards: 1,
        batch: 1,
        steal_cost: 5,
        group: 1,
    };
    let Ok(handlers) = Handlers::new(&[(10, 1), (20, 2)]) else {
        return Err(Fail::from("no table"));
    };
    match Setup::new(&shape, 2, handlers, 0) {
        Ok(setup) => Ok(setup.listed()),
        Err(_) => Err(Fail::from("no setup")),
    }
}

fn reg(colour: u16, event: Event, by: u16) -> Entry {
    Entry::Reg {
        colour: Colour(colour),
        event,
        by,
    }
}

/// The core of the same number takes one event of a colour.
fn take(colour: u16) -> Entry {
    Entry::Take {
        colour: Colour(colour),
        core: colour,
        count: 1,
    }
}

/// It has finished it.
fn fin(colour: u16) -> Entry {
    Entry::Fin {
        colour: Colour(colour),
        core: colour,
        count: 1,
    }
}

#[test]
fn an_event_that_sends_another(rt: HostRuntime) -> Result<(), Fail> {
    let setup = small_setup()?;
    let sends = Event { handler: 1, arg: 1 };
    let sent = Event { handler: 0, arg: 0 };
    let Some(histories) = run(&rt, rt.alloc(), &setup, Colour(0), sends, &[(0, 4), (1, 3)]) else {
        return Err(Fail::from("no memory"));
    };
    let written = [
        reg(0, sends, 2),
        take(0),
        reg(1, sent, 0),
        fin(0),
        take(1),
        fin(1),
    ];
    let Some(history) = histories.get(0) else {
        return Err(Fail::from("no history"));
    };
    assert!(rt; history.entries() == Some(written.as_slice()));
    Ok(())
}
