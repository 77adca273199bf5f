//! Want of memory: whatever is refused, all that was registered is handed out.
ghost use Rattle.std.specs.Prelude.{◌≡◌, ◌<◌, ◌≤◌, IfOk};
ghost use Rattle.mely_history.specs.Setup.{shape_of, colours_of};
ghost use Rattle.test_fleet.specs.Callers.{IsRow};

use super::listed_setup_of;
use super::sowing::{Sowing, Sown, sown_states};
use mely_crew::run_crew;
use mely_event::{Colour, Event, Fits, Memory, Trail};
use mely_history::{Entry, History, Judged, Setup, Shape, judge};
use mely_weave::{Drained, Weave, WeaveParts};
use mely_worker::OpenGate;
use std::alloc::Global;
use std::process::Abort;
use std::sync::Wait;
use std::test::Fail;
use std::thread::Threads;

const C0: Colour = Colour(0);

const C1: Colour = Colour(1);

/// An event that sows so many.
pub(super) fn sowing(count: u16) -> Event
    ensures { result.handler ≡ 0 }
{
    Event {
        handler: 0,
        arg: count,
    }
}

/// Two cores and two colours, batches of 1, and one handler of weight 10. The histories are listed.
pub(super) fn pair(shards: u16, steal_cost: u32) -> Result<Setup, Memory>
    ensures { IfOk result (IsRow 2 2) }
{
    let shape = Shape {
        cores: 2,
        shards,
        batch: 1,
        steal_cost,
        group: 2,
    };
    listed_setup_of(&shape, 2, 10)
}

/// The event that an entry registers on a colour.
fn registered_by(entry: &Entry, sought: Colour) -> Option<Event> {
    match entry {
        Entry::Reg { colour, event, .. } if *colour == sought => Some(*event),
        _ => None,
    }
}

/// The events of a colour, in the order in which they were registered in its history.
fn registered(alloc: Global, history: &History, sought: Colour) -> Result<Vec<Event>, Memory> {
    let mut events = Vec::new(alloc);
    let Some(entries) = history.entries() else {
        return Err(Memory);
    };
    for entry in entries {
        if let Some(event) = registered_by(entry, sought) {
            events.push(event)?;
        }
    }
    Ok(events)
}

/// Of what a run left: how many events wait on colour 1, and how many registrations were lost.
#[derive(Clone, Copy)]
struct Remains {
    waiting: usize,
    lost: usize,
}

/// How many events a run registered or lost where it all began with one post: that one, and two for
/// each event that ran and sows.
fn sown_by(ran: &[Event]) -> usize {
    let mut count: usize = 1;
    for event in ran {
        if event.arg > 0 {
            count = count.wrapping_add(2);
        }
    }
    count
}

/// The events of a colour that the histories of a run registered. Whatever the run was refused, each
/// history is legal.
fn known_of(
    rt: &impl Abort,
    alloc: Global,
    setup: &Setup,
    histories: &[History],
    colour: Colour,
) -> Result<Vec<Event>, Memory> {
    let mut known = Vec::new(alloc);
    for history in histories {
        let Some(entries) = history.entries() else {
            return Err(Memory);
        };
        assert!(rt; judge(setup, entries) == Judged::Legal);
        let here = registered(alloc, history, colour)?;
        known.extend_from_slice(&here)?;
    }
    Ok(known)
}

/// The events that ran on a state, and then those that wait on its colour, which have their loads.
fn handed_of(
    rt: &impl Abort,
    alloc: Global,
    state: &Sown,
    queued: &[(Event, Option<u8>)],
) -> Result<Vec<Event>, Memory> {
    let mut handed = state.ran.to_vec(alloc)?;
    for (event, load) in queued {
        assert!(rt; *load == Some(7));
        handed.push(*event)?;
    }
    Ok(handed)
}

/// Whatever a run was refused, the events that were registered on a colour are those that ran and
/// then those that wait; how many these are.
fn waiting_on(
    rt: &impl Abort,
    alloc: Global,
    setup: &Setup,
    histories: &[History],
    colour: Colour,
    state: &Sown,
    queued: &[(Event, Option<u8>)],
) -> Result<usize, Memory> {
    let known = known_of(rt, alloc, setup, histories, colour)?;
    let handed = handed_of(rt, alloc, state, queued)?;
    assert!(rt; handed == known);
    Ok(queued.len())
}

/// What remains of a run, whatever it was refused; those that were lost have their loads.
fn remains_of(
    rt: &impl Abort,
    alloc: Global,
    setup: &Setup,
    parts: &WeaveParts<Sown, u8>,
) -> Result<Remains, Memory> {
    assert!(rt; (parts.states.len(), parts.queued.len()) == (2, 2));
    let mut waiting = 0;
    for (number, (state, queued)) in parts.states.iter().zip(&parts.queued).enumerate() {
        let colour = Colour((number % 2) as u16);
        // In the end that of the last, which is colour 1.
        waiting = waiting_on(rt, alloc, setup, &parts.histories, colour, state, queued)?;
    }
    for (_colour, _event, load) in &parts.lost {
        assert!(rt; *load == Some(7));
    }
    let lost = parts.lost.len();
    Ok(Remains { waiting, lost })
}

/// How many events a run registered or lost, by those that ran on colour 0.
fn sown_in(states: &[Sown]) -> usize {
    let mut sown: usize = 0;
    for state in states {
        if state.log.colour() == C0 {
            sown = sown_by(&state.ran);
        }
    }
    sown
}

/// What remains of a run: each event that was sown was registered or is among the lost.
fn harvest(
    rt: &impl Abort,
    alloc: Global,
    setup: &Setup,
    parts: &WeaveParts<Sown, u8>,
) -> Result<Remains, Memory> {
    let left = remains_of(rt, alloc, setup, parts)?;
    let mut known = left.lost;
    for history in &parts.histories {
        for colour in [C0, C1] {
            known = known.wrapping_add(registered(alloc, history, colour)?.len());
        }
    }
    assert!(rt; known == sown_in(&parts.states));
    Ok(left)
}

/// Two threads run what one event sows. How it ended, and what remains.
fn sow<R: AllocGlobal + Threads + Wait + Sync + Abort>(
    rt: &R,
    setup: &Setup,
) -> Result<Option<(Drained, Remains)>, Memory>
    requires { IsRow 2 2 setup.now }
{
    let alloc = rt.alloc();
    let Ok(states) = sown_states(alloc) else {
        return Err(Memory);
    };
    let begin = (C0, sowing(20), Some(7));
    let (weave, drained) = match run_crew(rt, alloc, setup, states, begin, &Sowing, &OpenGate) {
        Ok(ran) => ran,
        Err(refused) => {
            assert!(rt; (refused.event, refused.load) == (sowing(20), Some(7)));
            return Ok(None);
        }
    };
    let left = harvest(rt, alloc, setup, &weave.into_parts())?;
    Ok(Some((drained, left)))
}

/// One weave runs what one event sows, a step of one core after another.
fn sow_alone<R: AllocGlobal + Wait + Abort>(
    rt: &R,
    setup: &Setup,
) -> Result<Option<(Drained, Remains)>, Memory>
    requires { IsRow 2 2 setup.now }
{
    let alloc = rt.alloc();
    let Ok(states) = sown_states(alloc) else {
        return Err(Memory);
    };
    let Ok(mut weave) = Weave::new(alloc, setup, states) else {
        return Ok(None);
    };
    let is_posted = weave.post(C0, sowing(20), Some(7)).is_ok();
    let drained = weave.drain(rt, &Sowing);
    let parts = weave.into_parts();
    if !is_posted {
        return Ok(None);
    }
    let left = harvest(rt, alloc, setup, &parts)?;
    Ok(Some((drained, left)))
}

/// All was run, and nothing is left.
fn is_reaped(ran: Option<(Drained, Remains)>) -> bool {
    match ran {
        Some((Drained::Empty, left)) => left.waiting == 0 && left.lost == 0,
        _ => false,
    }
}

/// Nothing was run, or memory was refused, or all was run and nothing is left.
fn is_handed_out(ran: Option<(Drained, Remains)>) -> bool {
    match ran {
        Some((Drained::Memory, _)) => true,
        None => true,
        all => is_reaped(all),
    }
}

/// So many shards, and what a steal costs.
static PAIRS: [(u16, u32); 4] = [(1, 5), (2, 5), (1, 1_000_000), (2, 1_000_000)];

/// What comes of a run by two threads on so many shards, where a steal costs so much.
fn sown<R: AllocGlobal + Threads + Wait + Sync + Abort>(
    rt: &R,
    shards: u16,
    steal_cost: u32,
) -> Result<Option<(Drained, Remains)>, Memory> {
    let setup = pair(shards, steal_cost)?;
    sow(rt, &setup)
}

#[test]
fn threads_run_all_that_one_event_sows(rt: HostRuntime) {
    for &(shards, steal_cost) in &PAIRS {
        let ran = sown(&rt, shards, steal_cost);
        assert!(rt;
            ran.is_ok_and(is_reaped),
            "{shards} shards, cost {steal_cost}"
        );
    }
}

/// Whatever request for memory is refused, in the making of the fleet or in its run: nothing was
/// run, or all that was registered is handed out, and nothing is lost where all was run. By itself
/// the test refuses none: it is for `bench/memory.py --tests`.
#[test]
fn threads_that_are_refused_memory_hand_all_out(rt: HostRuntime) -> Result<(), Fail> {
    let ran = sown(&rt, 2, 5).ok().ok_or("no memory")?;
    assert!(rt; is_handed_out(ran));
    Ok(())
}

/// The same of a weave, whose steps are made in one order.
#[test]
fn a_weave_that_is_refused_memory_hands_all_out(rt: HostRuntime) -> Result<(), Fail> {
    let setup = pair(1, 5).ok().ok_or("no setup")?;
    let ran = sow_alone(&rt, &setup).ok().ok_or("no memory")?;
    assert!(rt; is_handed_out(ran));
    Ok(())
}
