//! A run of a small app, whose contract is the machine's run: how an app's author uses `mely_run`.
//!
//! `sending.rt` has the app and what specifies it, `specs/Sending.antt` the function;
//! [`run`] is all that is left.
#![tactic(auto)]

ghost use Rattle.std.specs.Prelude.{◌≡◌, ◌<◌, ◌≤◌, ◌^◌, ℕ, All, IfOk, IfSome, List, map, sum_by, length};
ghost use Rattle.std.specs.List.{AllByRecursion};
ghost use Rattle.mely_history.specs.Setup.{shape_of, colours_of, handlers_of, is_listed};
ghost use Rattle.mely_event.specs.HandlerTable.{rows_of};
ghost use Rattle.mely_weave.specs.Making.{AreInitialBelow};
ghost use Rattle.mely_machine.specs.Rules.{rules_of};
ghost use Rattle.mely_machine.specs.MachineRun.{RunsTo};
ghost use Rattle.example_run.specs.Sending.{sends};

mod sending;
#[cfg(test)]
mod tests;

use mely_event::{Colour, Event, Memory, TrailLog};
use mely_history::{History, Setup};
use mely_run::{a_run_is_the_machines, run_whole};
use sending::Sending;
use std::alloc::Global;
use std::sync::Wait;

/// A state for each colour, on which nothing was run.
fn initial_states(alloc: Global, colours: u32) -> Result<Vec<TrailLog>, Memory>
    requires { colours ≤ 65536 }
    ensures { IfOk result (λ states. AreInitialBelow (λ state. state.colour) (λ state. state.events)
        colours states.items) }
{
    let mut states = Vec::new(alloc);
    'colours: for colour in 0..colours {
        states.push(TrailLog::new(Colour(colour as u16)))?;
    }
    Ok(states)
}

/// Posts an event, makes the steps of a schedule and drains. The histories are those that the
/// machine writes, and no others, and can be read where the setup lists them; nothing for want of
/// memory.
pub fn run<W: Wait>(
    rt: &W,
    alloc: Global,
    setup: &Setup,
    colour: Colour,
    event: Event,
    schedule: &[(u16, u32)],
) -> Option<Vec<History>>
    requires colours { 2 ≤ colours_of setup.now }
    requires handlers { 2 ≤ length (rows_of (handlers_of setup.now)) }
    requires colour { colour.0 < colours_of setup.now }
    requires handler { event.handler < length (rows_of (handlers_of setup.now)) }
    requires cores { All (λ part. part.0 < (shape_of setup.now).cores) schedule.now }
    requires count { sum_by (λ part. part.1) schedule.now < 2 ^ 64 }
    ensures runs { IfSome result (λ histories. RunsTo (rules_of setup.now) sends tt (colour, event)
        schedule.now (map (λ history. history.items) histories.items)) }
    ensures listed { IfSome result (λ histories. AllByRecursion (λ history.
        history.listed ≡ is_listed setup.now) histories.items) }
{
    a_run_is_the_machines::<TrailLog, u8, Sending>();
    let states = initial_states(alloc, setup.colours()).ok()?;
    let parts = run_whole(
        rt, alloc, setup, states, &Sending, colour, event, None, schedule,
    )?;
    Some(parts.histories)
}
