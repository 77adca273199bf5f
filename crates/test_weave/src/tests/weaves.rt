//! Steps and posts of small weaves, with the histories that they write.
ghost use Rattle.std.specs.Prelude.{◌≡◌, ◌<◌, ◌≤◌, IfOk};
ghost use Rattle.mely_history.specs.Setup.{shape_of, colours_of};
ghost use Rattle.mely_weave.specs.Making.{AreInitialBelow};
ghost use Rattle.test_weave.specs.Examples.{IsExample};

pub(super) mod sending;

use mely_event::{Colour, Event, Fits, Handlers, Mark, Memory, Trail};
use mely_history::{Entry, History, Judged, Registered, Setup, Shape, judge};
use mely_weave::{Drained, Weave, WeaveParts, WeaveRoom, Went};
use mely_worker::Made;
use sending::{Listing, Sending, listing_of};
use std::alloc::Global;
use std::sync::Wait;

const C0: Colour = Colour(0);

const C1: Colour = Colour(1);

const C2: Colour = Colour(2);

/// One shard, cost 15, two handlers of weight 10, and no colour pinned.
fn setup_of(cores: u16, colours: u32, batch: u16) -> Result<Setup, Memory>
    ensures { IfOk result (IsExample cores colours) }
{
    setup_with(cores, colours, batch, 15, 0)
}

/// One shard, two handlers of weight 10, this cost of a steal, and so many colours pinned; the
/// history is listed.
fn setup_with(
    cores: u16,
    colours: u32,
    batch: u16,
    steal_cost: u32,
    pinned: u32,
) -> Result<Setup, Memory>
    ensures { IfOk result (IsExample cores colours) }
{
    let setup = unlisted_setup(cores, colours, batch, steal_cost, pinned)?;
    Ok(setup.listed())
}

/// The same, but that the history isn't listed.
fn unlisted_setup(
    cores: u16,
    colours: u32,
    batch: u16,
    steal_cost: u32,
    pinned: u32,
) -> Result<Setup, Memory>
    ensures { IfOk result (IsExample cores colours) }
{
    let shape = Shape {
        cores,
        shards: 1,
        batch,
        steal_cost,
        group: 1,
    };
    let Ok(handlers) = Handlers::new(&[(10, 1), (20, 2)]) else {
        return Err(Memory);
    };
    match Setup::new(&shape, colours, handlers, pinned) {
        Ok(setup) => Ok(setup),
        Err(_) => Err(Memory),
    }
}

/// A state for each colour of a setup, on which nothing was run.
pub(super) fn states_of(alloc: Global, setup: &Setup) -> Result<Vec<Listing>, Memory>
    ensures { IfOk result (λ states. AreInitialBelow (λ state. state.log.colour) (λ state.
        state.log.events) (colours_of setup.now) states.items) }
{
    let mut states = Vec::new(alloc);
    for colour in 0..setup.colours() {
        states.push(listing_of(alloc, colour as u16))?;
    }
    Ok(states)
}

/// A weave of a setup, at first.
fn weave_of(alloc: Global, setup: &Setup) -> Result<Weave<Listing, u8>, Memory>
    ensures { IfOk result (λ weave. weave.setup ≡ setup.now) }
{
    let states = states_of(alloc, setup)?;
    match Weave::new(alloc, setup, states) {
        Ok(weave) => Ok(weave),
        Err(_) => Err(Memory),
    }
}

fn post(weave: &mut Weave<Listing, u8>, colour: u16, handler: u8, arg: u16) -> Option<Registered>
    requires colour { colour < colours_of weave.old.setup }
    requires handler { handler < 2 }
    requires example { IsExample (shape_of weave.old.setup).cores
        (colours_of weave.old.setup) weave.old.setup }
    ensures { weave.new.setup ≡ weave.old.setup }
{
    weave
        .post(Colour(colour), Event { handler, arg }, None)
        .ok()
}

/// The entries of a history that is listed.
fn entries_of(history: &History) -> &[Entry] {
    history.entries().unwrap_or(&[])
}

/// A part of a run, with what comes of it.
#[derive(Clone, Copy)]
enum Part {
    /// A post of an event of this handler and argument on a colour, which is registered.
    Post(u16, u8, u16),

    /// A step of a core, and its name.
    Step(u16, Made),

    /// So many steps of a core, all of which are made.
    Run(u16, u32),

    /// The mark at a place of a core's chain.
    Chain(u16, usize, Option<Mark>),
}

/// Plays a part, and says whether it comes so.
fn comes_so(weave: &mut Weave<Listing, u8>, setup: &Setup, part: Part) -> bool
    requires of_setup { weave.old.setup ≡ setup.now }
    requires colours { 2 ≤ colours_of setup.now }
    requires example { IsExample (shape_of setup.now).cores (colours_of setup.now) setup.now }
    ensures { weave.new.setup ≡ weave.old.setup }
{
    match part {
        Part::Post(colour, handler, arg) if u32::from(colour) < setup.colours() && handler < 2 => {
            post(weave, colour, handler, arg).is_some()
        }
        Part::Step(core, made) if core < setup.cores() => weave.step(core, &Sending) == made,
        Part::Run(core, count) if core < setup.cores() => {
            weave.run(&[(core, count)], &Sending) == Went::All
        }
        Part::Chain(core, place, of) if core < setup.cores() => weave.chain_at(core, place) == of,
        _ => false,
    }
}

/// Plays these parts, and says whether each of them comes so.
fn play(weave: &mut Weave<Listing, u8>, setup: &Setup, parts: &[Part]) -> bool
    requires of_setup { weave.old.setup ≡ setup.now }
    requires colours { 2 ≤ colours_of setup.now }
    requires example { IsExample (shape_of setup.now).cores (colours_of setup.now) setup.now }
    ensures { weave.new.setup ≡ setup.now }
{
    'parts: for part in parts {
        if !comes_so(weave, setup, *part) {
            return false;
        }
    }
    true
}

/// How many entries these histories list.
fn listed_in(histories: &[History]) -> usize {
    let mut entries: usize = 0;
    for history in histories {
        entries = entries.wrapping_add(entries_of(history).len());
    }
    entries
}

/// Drains a weave. What it comes apart into, where nothing is lost.
fn drained<R: Wait>(rt: &R, mut weave: Weave<Listing, u8>) -> Option<WeaveParts<Listing, u8>>
    requires colours { 2 ≤ colours_of weave.setup }
    requires example { IsExample (shape_of weave.setup).cores
        (colours_of weave.setup) weave.setup }
{
    let is_empty = weave.drain(rt, &Sending) == Drained::Empty;
    let parts = weave.into_parts();
    if !is_empty || !parts.lost.is_empty() || parts.histories.len() != 1 {
        return None;
    }
    Some(parts)
}

/// A first event of handler 0 with argument 0 on colour 1, and one of handler 1
/// that registers such a one.
const FIRST: Event = Event { handler: 0, arg: 0 };

pub(super) const SENDS: Event = Event { handler: 1, arg: 1 };

/// The history that a late report writes.
static LATE_HISTORY: [Entry; 7] = [
    Entry::Reg {
        colour: C0,
        event: SENDS,
        by: 2,
    },
    Entry::Reg {
        colour: C1,
        event: FIRST,
        by: 2,
    },
    Entry::Take {
        colour: C0,
        core: 0,
        count: 1,
    },
    Entry::Reg {
        colour: C1,
        event: FIRST,
        by: 0,
    },
    Entry::Take {
        colour: C1,
        core: 1,
        count: 1,
    },
    Entry::Fin {
        colour: C1,
        core: 1,
        count: 1,
    },
    Entry::Fin {
        colour: C0,
        core: 0,
        count: 1,
    },
];

/// The mark of colour 1 after an event of it was run.
const AFTER_ONE: Mark = Mark {
    colour: C1,
    started: 1,
    worth: 10,
};

static LATE: [Part; 17] = [
    Part::Post(0, 1, 1),
    Part::Post(1, 0, 0),
    Part::Step(0, Made::Popped { colour: C0 }),
    Part::Step(
        0,
        Made::Took {
            colour: C0,
            count: 1,
        },
    ),
    Part::Step(
        0,
        Made::Ran {
            colour: C0,
            handler: 1,
        },
    ),
    Part::Step(0, Made::Registered { colour: C1 }),
    Part::Step(1, Made::Popped { colour: C1 }),
    Part::Step(
        1,
        Made::Took {
            colour: C1,
            count: 1,
        },
    ),
    Part::Step(
        1,
        Made::Ran {
            colour: C1,
            handler: 0,
        },
    ),
    Part::Step(
        1,
        Made::Finished {
            colour: C1,
            more: true,
        },
    ),
    Part::Step(
        1,
        Made::Pushed {
            colour: C1,
            core: 1,
        },
    ),
    Part::Step(
        0,
        Made::Told {
            colour: C1,
            core: 1,
            found: false,
        },
    ),
    Part::Step(
        0,
        Made::Finished {
            colour: C0,
            more: false,
        },
    ),
    Part::Step(0, Made::NoneHere),
    Part::Step(0, Made::NoneThere { victim: 1 }),
    Part::Chain(1, 0, Some(AFTER_ONE)),
    Part::Chain(1, 1, None),
];

/// Whether a weave is left by the late report: how many entries are listed, its states, and how many
/// lists of queued events.
fn is_left_late(parts: &WeaveParts<Listing, u8>) -> bool {
    listed_in(&parts.histories) == 9
        && has_run(parts.states.get(0), &[SENDS])
        && has_run(parts.states.get(1), &[FIRST, FIRST])
        && parts.queued.len() == 2
}

/// Whether the late report finds no mark, and writes its history.
fn is_late<R: Wait>(rt: &R, alloc: Global) -> Result<bool, Memory> {
    let setup = setup_of(2, 2, 1)?;
    let mut weave = weave_of(alloc, &setup)?;
    let are_so = play(&mut weave, &setup, &LATE);
    let is_written = are_so && entries_of(weave.history(0)) == LATE_HISTORY.as_slice();
    let is_legal = judge(&setup, entries_of(weave.history(0))) == Judged::Legal;
    match drained(rt, weave) {
        Some(parts) => Ok(is_written && is_legal && is_left_late(&parts)),
        None => Ok(false),
    }
}

#[test]
fn a_late_report_finds_no_mark_of_its_period(rt: HostRuntime) {
    assert!(rt; is_late(&rt, rt.alloc()) == Ok(true));
}

static BETWEEN: [Part; 12] = [
    Part::Post(1, 0, 0),
    Part::Post(1, 0, 0),
    Part::Post(0, 1, 1),
    Part::Run(1, 4),
    Part::Step(0, Made::Popped { colour: C0 }),
    Part::Step(
        0,
        Made::Took {
            colour: C0,
            count: 1,
        },
    ),
    Part::Step(
        0,
        Made::Ran {
            colour: C0,
            handler: 1,
        },
    ),
    Part::Step(0, Made::Registered { colour: C1 }),
    Part::Step(
        0,
        Made::Told {
            colour: C1,
            core: 1,
            found: false,
        },
    ),
    Part::Step(
        1,
        Made::Pushed {
            colour: C1,
            core: 1,
        },
    ),
    Part::Chain(1, 0, Some(AFTER_ONE)),
    Part::Chain(1, 1, None),
];

/// What a weave of a setup comes apart into after these parts, once it is drained, where each of
/// them comes so.
fn apart_after<R: Wait>(
    rt: &R,
    alloc: Global,
    setup: &Setup,
    parts: &[Part],
) -> Option<WeaveParts<Listing, u8>>
    requires colours { 2 ≤ colours_of setup.now }
    requires example { IsExample (shape_of setup.now).cores (colours_of setup.now) setup.now }
{
    let Ok(mut weave) = weave_of(alloc, setup) else {
        return None;
    };
    let are_so = play(&mut weave, setup, parts);
    let drained = drained(rt, weave);
    if are_so { drained } else { None }
}

/// Whether a registration between finish and push is told.
fn is_told_between<R: Wait>(rt: &R, alloc: Global) -> Result<bool, Memory> {
    let setup = setup_of(2, 2, 1)?;
    Ok(apart_after(rt, alloc, &setup, &BETWEEN).is_some())
}

#[test]
fn a_registration_between_finish_and_push_is_told(rt: HostRuntime) {
    assert!(rt; is_told_between(&rt, rt.alloc()) == Ok(true));
}

static PINNED: [Part; 6] = [
    Part::Post(0, 0, 0),
    Part::Post(2, 0, 0),
    Part::Step(1, Made::NoneHere),
    Part::Step(
        1,
        Made::Picked {
            colour: C2,
            victim: 0,
        },
    ),
    Part::Step(
        1,
        Made::Stole {
            colour: C2,
            from: 0,
        },
    ),
    Part::Step(1, Made::Landed { colour: C2 }),
];

/// What is in its history: colour 0 runs on its core, and colour 2 on the thief's.
static PINNED_HAS: [Entry; 4] = [
    Entry::Take {
        colour: C0,
        core: 0,
        count: 1,
    },
    Entry::Take {
        colour: C2,
        core: 1,
        count: 1,
    },
    Entry::Fin {
        colour: C0,
        core: 0,
        count: 1,
    },
    Entry::Fin {
        colour: C2,
        core: 1,
        count: 1,
    },
];

/// Whether all of these entries are among those.
fn are_among(some: &[Entry], entries: &[Entry]) -> bool {
    for entry in some {
        if !entries.contains(entry) {
            return false;
        }
    }
    true
}

/// Whether each of these histories has these entries.
fn have(histories: &[History], entries: &[Entry]) -> bool {
    for history in histories {
        if !are_among(entries, entries_of(history)) {
            return false;
        }
    }
    true
}

/// Whether a pinned colour stays on its core.
fn is_pinned<R: Wait>(rt: &R, alloc: Global) -> Result<bool, Memory> {
    let setup = setup_with(2, 4, 1, 5, 1)?;
    match apart_after(rt, alloc, &setup, &PINNED) {
        Some(parts) => {
            Ok(listed_in(&parts.histories) == 7 && have(&parts.histories, &PINNED_HAS))
        }
        None => Ok(false),
    }
}

#[test]
fn a_pinned_colour_stays_on_its_core(rt: HostRuntime) {
    assert!(rt; is_pinned(&rt, rt.alloc()) == Ok(true));
}

/// Posts ten events on colour 0, and then ten on colour 2.
fn post_twenty(weave: &mut Weave<Listing, u8>) -> bool
    requires colours { 2 < colours_of weave.old.setup }
    requires example { IsExample (shape_of weave.old.setup).cores
        (colours_of weave.old.setup) weave.old.setup }
    ensures { weave.new.setup ≡ weave.old.setup }
{
    for arg in 0..20 {
        let colour = if arg < 10 { 0 } else { 2 };
        if post(weave, colour, 0, arg % 10).is_none() {
            return false;
        }
    }
    true
}

/// The entry at a place behind twenty registrations: takes of so many events of colours 0 and 2 in
/// turn, each followed by its finish.
fn entry_at(at: usize, count: u16) -> Entry {
    let colour = if at % 4 < 2 { C0 } else { C2 };
    if at % 2 == 0 {
        Entry::Take {
            colour,
            core: 0,
            count,
        }
    } else {
        Entry::Fin {
            colour,
            core: 0,
            count,
        }
    }
}

/// Whether the entries behind the first twenty are takes and finishes in turn.
fn alternates(entries: &[Entry], count: u16) -> bool {
    for (at, entry) in entries.iter().enumerate() {
        if at >= 20 && *entry != entry_at(at, count) {
            return false;
        }
    }
    true
}

/// Whether the ten events were run on the state of a colour, in order.
fn has_run_ten(state: Option<&Listing>) -> bool {
    let Some(state) = state else {
        return false;
    };
    for (at, event) in state.value.iter().enumerate() {
        if event.handler != 0 || usize::from(event.arg) != at {
            return false;
        }
    }
    state.value.len() == 10
}

/// Whether these events were run on the state of a colour.
fn has_run(state: Option<&Listing>, events: &[Event]) -> bool {
    match state {
        Some(state) => state.value.as_slice() == events,
        None => false,
    }
}

/// Whether each of these histories has so many entries, which alternate.
fn alternate(histories: &[History], entries: usize, batch: u16) -> bool {
    for history in histories {
        let listed = entries_of(history);
        if listed.len() != entries || !alternates(listed, batch) {
            return false;
        }
    }
    true
}

/// Whether there is room for a weave of a setup.
fn has_room(alloc: Global, setup: &Setup) -> bool {
    let room: Result<WeaveRoom<Listing, u8>, Memory> = WeaveRoom::new(alloc, setup);
    room.is_ok()
}

/// Whether a weave is left by twenty events on two of its colours, in batches of this size.
fn is_left_by_batches(parts: &WeaveParts<Listing, u8>, batch: u16, entries: usize) -> bool {
    alternate(&parts.histories, entries, batch)
        && has_run_ten(parts.states.get(0))
        && has_run_ten(parts.states.get(2))
        && has_run(parts.states.get(1), &[])
}

/// Whether twenty events on two of three colours, in batches of this size, write so many entries in
/// turn.
fn batches_leave<R: Wait>(
    rt: &R,
    alloc: Global,
    batch: u16,
    entries: usize,
) -> Result<bool, Memory> {
    let setup = setup_of(1, 3, batch)?;
    let mut weave = weave_of(alloc, &setup)?;
    let is_posted = post_twenty(&mut weave) && weave.state(C1).is_some();
    match drained(rt, weave) {
        Some(parts) => {
            let is_left = is_left_by_batches(&parts, batch, entries);
            Ok(is_posted && is_left && has_room(alloc, &setup))
        }
        None => Ok(false),
    }
}

#[test]
fn batches_alternate_or_take_all(rt: HostRuntime) {
    assert!(rt; batches_leave(&rt, rt.alloc(), 1, 60) == Ok(true));
    assert!(rt;
        batches_leave(&rt, rt.alloc(), 10, 24) == Ok(true),
        "batches of ten"
    );
}

/// Whether each of these histories has three entries and doesn't list them.
fn are_counted(histories: Vec<History>) -> bool {
    for history in histories {
        if history.len() != 3 || history.into_entries().is_some() {
            return false;
        }
    }
    true
}

/// Whether a history that is not listed is only counted.
fn is_counted<R: Wait>(rt: &R, alloc: Global) -> Result<bool, Memory> {
    let setup = unlisted_setup(1, 2, 1, 15, 0)?;
    let mut weave = weave_of(alloc, &setup)?;
    let are_so = play(&mut weave, &setup, &[Part::Post(0, 0, 0)]);
    let is_one = are_so && weave.history(0).entries().is_none() && weave.history(0).len() == 1;
    match drained(rt, weave) {
        Some(parts) => Ok(is_one && are_counted(parts.histories)),
        None => Ok(false),
    }
}

#[test]
fn a_history_that_is_not_listed_is_only_counted(rt: HostRuntime) {
    assert!(rt; is_counted(&rt, rt.alloc()) == Ok(true));
}
