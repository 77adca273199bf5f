//! Worked rows of a fleet, and many threads on one fleet.
ghost use Rattle.std.specs.Prelude.{◌≡◌, ◌<◌, ◌≤◌, ◌+◌, IfOk};
ghost use Rattle.mely_history.specs.Setup.{shape_of, colours_of};
ghost use Rattle.mely_fleet.specs.Fleets.{ArePasses};
ghost use Rattle.mely_kept.specs.Frames.{shard_frame};
ghost use Rattle.test_fleet.specs.Callers.{AreCallers, IsRow};

mod calls;
mod crowd;
mod pages;
mod sowing;
mod stress;
mod wanting;

use example_counting::{Tally, initial_states};
use mely_event::{Colour, Event, Fits, Handlers, Kept, Memory, Trail};
use mely_fleet::{Fleet, Passes};
use mely_history::{Setup, Shape};
use std::alloc::Global;

/// The event of all rows.
const EVENT: Event = Event { handler: 0, arg: 0 };

/// A setup with one handler of this weight.
fn setup_of(shape: &Shape, colours: u16, weight: u32) -> Result<Setup, Memory>
    ensures { IfOk result (λ setup. IsRow shape.now.cores colours setup) }
{
    let Ok(handlers) = Handlers::new(&[(weight, 1)]) else {
        return Err(Memory);
    };
    match Setup::new(shape, u32::from(colours), handlers, 0) {
        Ok(setup) => Ok(setup),
        Err(_) => Err(Memory),
    }
}

/// The same, with histories that are listed.
fn listed_setup_of(shape: &Shape, colours: u16, weight: u32) -> Result<Setup, Memory>
    ensures { IfOk result (λ setup. IsRow shape.now.cores colours setup) }
{
    Ok(setup_of(shape, colours, weight)?.listed())
}

/// A fleet of a setup of so many colours, and the passes of its cores and of so many other callers.
fn fleet_of(
    alloc: Global,
    setup: &Setup,
    colours: u16,
    outsiders: u16,
) -> Result<(Fleet<Tally, u8>, Vec<Passes<Tally, u8>>), Memory>
    requires colours { colours_of setup.now ≡ colours }
    requires few { (shape_of setup.now).cores + outsiders ≤ 65535 }
    ensures { let callers = (shape_of setup.now).cores + outsiders in IfOk result (λ opened.
        AreCallers (shard_frame ⟦<Tally as Trail>⟧.frame_of) setup.now callers
        opened.0 opened.1.items) }
{
    let Ok(states) = initial_states(alloc, colours) else {
        return Err(Memory);
    };
    match Fleet::new(alloc, setup, states, outsiders) {
        Ok(opened) => Ok(opened),
        Err(_) => Err(Memory),
    }
}
