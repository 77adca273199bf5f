//! The page of `mely_history`.
use mely_event::{Colour, Event, Handlers};
use mely_history::{Entry, Judged, Setup, Shape, judge};
use std::test::Fail;

/// Says on standard output what a history of two colours on two cores is judged, and answers it.
fn said_of(rt: &HostRuntime, history: &[Entry]) -> Result<Judged, Fail> {
    let shape = Shape {
        cores: 2,
        shards: 1,
        batch: 1,
        steal_cost: 15,
        group: 1,
    };
    let handlers = Handlers::new(&[(10, 1)])?;
    let setup = Setup::new(&shape, 2, handlers, 0)?;
    match judge(&setup, &history) {
        Judged::Legal => println!(rt; "legal")?,
        Judged::NotAllowed { at } => println!(rt; "entry {at} may not follow those before it")?,
    }
    Ok(judge(&setup, history))
}

#[test]
fn a_history_is_judged(rt: HostRuntime) -> Result<(), Fail> {
    let registered = Entry::Reg {
        colour: Colour(1),
        event: Event { handler: 0, arg: 0 },
        by: 2,
    };
    let taken = Entry::Take {
        colour: Colour(1),
        core: 1,
        count: 1,
    };
    assert!(rt; said_of(&rt, &[registered, taken])? == Judged::Legal);
    assert!(rt; said_of(&rt, &[registered, taken, taken])? == Judged::NotAllowed { at: 2 });
    Ok(())
}
