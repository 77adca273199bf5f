//! The pages of `mely_weave` and `mely_fleet`.
use crate::tests::sowing::{Sowing, sown_states};
use crate::tests::wanting::{pair, sowing};
use mely_crew::run_crew;
use mely_event::Colour;
use mely_weave::{Drained, Weave};
use mely_worker::OpenGate;
use std::test::Fail;

#[test]
fn a_weave_is_run_and_drained(rt: HostRuntime) -> Result<(), Fail> {
    let alloc = rt.alloc();
    let setup = pair(2, 20)?;
    let states = sown_states(alloc)?;
    let (app, colour, event, load) = (Sowing, Colour(0), sowing(1), None);
    let mut weave = Weave::new(alloc, &setup, states)?;
    let posted = weave.post(colour, event, load);
    weave.step(0, &app); // one step of core 0
    weave.run(&[(0, 6), (1, 12)], &app); // a schedule
    weave.drain(&rt, &app); // rounds until nothing is left
    let parts = weave.into_parts();
    assert!(rt; posted.is_ok());
    assert!(rt; parts.histories.len() == 2);
    assert!(rt; parts.lost.is_empty());
    Ok(())
}

#[test]
fn a_fleet_is_run_by_its_crew(rt: HostRuntime) -> Result<(), Fail> {
    let alloc = rt.alloc();
    let setup = pair(2, 20)?;
    let states = sown_states(alloc)?;
    let (app, gate) = (Sowing, OpenGate);
    let (colour, event, load) = (Colour(0), sowing(1), None);
    let begin = (colour, event, load);
    let (weave, drained) = run_crew(&rt, alloc, &setup, states, begin, &app, &gate)?;
    let parts = weave.into_parts();
    assert!(rt; drained == Drained::Empty);
    assert!(rt; parts.histories.len() == 2);
    assert!(rt; parts.lost.is_empty());
    Ok(())
}
