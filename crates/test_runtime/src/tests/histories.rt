use mely_event::{Colour, Event, Handlers, Memory};
use mely_history::{
    Entry, History, Judged, MAX_ENTRIES, MAX_NOTES, NoSteal, NoTake, Setup, SetupFault, Shape,
    judge,
};
use std::alloc::{AllocError, Global};
use std::fmt::Display;

/// The greatest numbers of a setup.
const MOST: Shape = Shape {
    cores: 64,
    shards: 64,
    batch: 1_000,
    steal_cost: 7,
    group: 64,
};

/// The least numbers of a setup.
const LEAST: Shape = Shape {
    cores: 1,
    shards: 1,
    batch: 1,
    steal_cost: 0,
    group: 1,
};

/// Two cores, one shard, batch 1 and cost 15.
const SMALL: Shape = Shape {
    cores: 2,
    shards: 1,
    batch: 1,
    steal_cost: 15,
    group: 4,
};

/// Two handlers of weight 10, and one of weight 20.
const TWO_OF_TEN: &[(u32, u32)] = &[(10, 1), (10, 1)];

const ONE_OF_TWENTY: &[(u32, u32)] = &[(20, 1)];

/// The small setup of two colours with these handlers, of which colours so many are pinned.
fn small(handlers: &[(u32, u32)], pinned: u32) -> Option<Setup> {
    let handlers = Handlers::new(handlers).ok()?;
    Setup::new(&SMALL, 2, handlers, pinned).ok()
}

/// An entry with its colour, and what stands with it.
#[derive(Clone, Copy)]
enum Row {
    /// A registration of an event of this handler and argument by a pass.
    Reg(u16, u8, u16, u16),

    /// A take of so many events by a core, and its finish.
    Take(u16, u16, u16),
    Fin(u16, u16, u16),

    /// A steal, from a core by another.
    Steal(u16, u16, u16),
}

fn entry_of(row: Row) -> Entry {
    match row {
        Row::Reg(colour, handler, arg, by) => Entry::Reg {
            colour: Colour(colour),
            event: Event { handler, arg },
            by,
        },
        Row::Take(colour, core, count) => Entry::Take {
            colour: Colour(colour),
            core,
            count,
        },
        Row::Fin(colour, core, count) => Entry::Fin {
            colour: Colour(colour),
            core,
            count,
        },
        Row::Steal(colour, from, to) => Entry::Steal {
            colour: Colour(colour),
            from,
            to,
        },
    }
}

/// The entries of the rows.
fn entries_of(alloc: Global, rows: &[Row]) -> Result<Vec<Entry>, AllocError> {
    let mut entries = Vec::new(alloc);
    for &row in rows {
        entries.push(entry_of(row))?;
    }
    Ok(entries)
}

/// How these entries are judged under the small setup.
fn judged_entries(handlers: &[(u32, u32)], pinned: u32, history: &[Entry]) -> Option<Judged> {
    match small(handlers, pinned) {
        Some(setup) => Some(judge(&setup, history)),
        None => None,
    }
}

/// How a history of these rows is judged under the small setup.
fn judged_under(
    alloc: Global,
    handlers: &[(u32, u32)],
    pinned: u32,
    rows: &[Row],
) -> Result<Option<Judged>, AllocError> {
    let history = entries_of(alloc, rows)?;
    Ok(judged_entries(handlers, pinned, &history))
}

/// How a history of these rows is judged where nothing is pinned.
fn judged(alloc: Global, rows: &[Row]) -> Result<Option<Judged>, AllocError> {
    judged_under(alloc, TWO_OF_TEN, 0, rows)
}

/// A worked history, and what it is without its third entry.
static WORKED: [(&[Row], Judged); 3] = [
    (
        &[
            Row::Reg(0, 1, 1, 2),
            Row::Reg(1, 0, 0, 2),
            Row::Take(0, 0, 1),
            Row::Reg(1, 0, 0, 0),
            Row::Take(1, 1, 1),
            Row::Fin(1, 1, 1),
            Row::Fin(0, 0, 1),
        ],
        Judged::Legal,
    ),
    (
        &[
            Row::Reg(0, 1, 1, 2),
            Row::Reg(1, 0, 0, 2),
            Row::Reg(1, 0, 0, 0),
            Row::Take(1, 1, 1),
            Row::Fin(1, 1, 1),
            Row::Fin(0, 0, 1),
        ],
        Judged::NotAllowed { at: 5 },
    ),
    (&[], Judged::Legal),
];

#[test]
fn the_worked_history_is_legal_and_its_take_is_needed(rt: HostRuntime) {
    for &(rows, want) in &WORKED {
        assert!(rt; judged(rt.alloc(), rows) == Ok(Some(want)));
    }
}

/// Two events wait on colour 1, which core 1 owns, and one was run on colour 0, where nothing waits.
static BEFORE: [Row; 5] = [
    Row::Reg(1, 0, 0, 2),
    Row::Reg(1, 1, 0, 2),
    Row::Reg(0, 0, 0, 2),
    Row::Take(0, 0, 1),
    Row::Fin(0, 0, 1),
];

/// How a history of these rows with one more behind them is judged.
fn judged_with(alloc: Global, row: Row) -> Result<Option<Judged>, AllocError> {
    let mut entries = entries_of(alloc, &BEFORE)?;
    entries.push(entry_of(row))?;
    Ok(judged_entries(TWO_OF_TEN, 0, &entries))
}

/// What is not allowed there.
static REFUSED: [(&str, Row); 11] = [
    ("a colour that is not there", Row::Reg(2, 0, 0, 0)),
    ("a handler that is not there", Row::Reg(1, 2, 0, 0)),
    ("a take by another core", Row::Take(1, 0, 1)),
    ("a take of more than the batch", Row::Take(1, 1, 2)),
    ("a take of nothing", Row::Take(0, 0, 0)),
    ("a finish of what does not run", Row::Fin(1, 1, 1)),
    ("a second finish", Row::Fin(0, 0, 1)),
    ("a steal from another than the owner", Row::Steal(1, 0, 1)),
    ("a steal to the owner", Row::Steal(1, 1, 1)),
    ("a steal to no core", Row::Steal(1, 1, 2)),
    ("a steal of an empty colour", Row::Steal(0, 0, 1)),
];

#[test]
fn each_row_of_the_table_refuses_what_it_should(rt: HostRuntime) {
    for &(what, row) in &REFUSED {
        let at_last = Ok(Some(Judged::NotAllowed { at: 5 }));
        assert!(rt; judged_with(rt.alloc(), row) == at_last, "{what}");
    }
}

/// Histories whose last entry is not allowed: two events wait on colour 1, which core 1 owns.
static RUNNING: [(&str, &[Row], usize); 4] = [
    (
        "a take while it runs",
        &[
            Row::Reg(1, 0, 0, 2),
            Row::Reg(1, 1, 0, 2),
            Row::Steal(1, 1, 0),
            Row::Take(1, 0, 1),
            Row::Take(1, 0, 1),
        ],
        4,
    ),
    (
        "a steal while it runs",
        &[
            Row::Reg(1, 0, 0, 2),
            Row::Reg(1, 1, 0, 2),
            Row::Reg(1, 0, 0, 2),
            Row::Take(1, 1, 1),
            Row::Steal(1, 1, 0),
        ],
        4,
    ),
    (
        "a finish by another core",
        &[
            Row::Reg(1, 0, 0, 2),
            Row::Reg(1, 1, 0, 2),
            Row::Take(1, 1, 1),
            Row::Fin(1, 0, 1),
        ],
        3,
    ),
    (
        "a steal below the cost",
        &[Row::Reg(1, 0, 0, 2), Row::Steal(1, 1, 0)],
        1,
    ),
];

#[test]
fn a_colour_that_runs_or_is_cheap_is_let_alone_by_others(rt: HostRuntime) {
    for &(what, rows, at) in &RUNNING {
        let want = Ok(Some(Judged::NotAllowed { at }));
        assert!(rt; judged(rt.alloc(), rows) == want, "{what}");
    }
}

/// A history in which both colours are stolen.
static STOLEN: [Row; 4] = [
    Row::Reg(0, 0, 0, 2),
    Row::Reg(1, 0, 0, 2),
    Row::Steal(1, 1, 0),
    Row::Steal(0, 0, 1),
];

/// How many colours are pinned, and how it is judged then.
static PINNED: [(u32, Judged); 3] = [
    (0, Judged::Legal),
    (1, Judged::NotAllowed { at: 3 }),
    (2, Judged::NotAllowed { at: 2 }),
];

#[test]
fn a_pinned_colour_is_never_stolen(rt: HostRuntime) {
    for &(pinned, want) in &PINNED {
        let judged = judged_under(rt.alloc(), ONE_OF_TWENTY, pinned, &STOLEN);
        assert!(rt; judged == Ok(Some(want)), "{pinned} are pinned");
    }
}

/// Entries of colour 3, and the pass of each.
static PASSES: [(Row, u16); 4] = [
    (Row::Reg(3, 0, 0, 5), 5),
    (Row::Take(3, 1, 2), 1),
    (Row::Fin(3, 1, 2), 1),
    (Row::Steal(3, 1, 0), 0),
];

#[test]
fn an_entry_tells_its_colour_and_its_pass(rt: HostRuntime) {
    for &(row, pass) in &PASSES {
        let entry = entry_of(row);
        assert!(rt; entry.colour() == Colour(3), "pass {pass}");
        assert!(rt; entry.pass() == pass, "pass {pass}");
    }
}

/// The numbers of a setup in the order of its shape, how many colours it has, how many of those are
/// pinned, and how many handlers it has.
fn numbers_of(setup: &Setup) -> [usize; 8] {
    [
        setup.cores() as usize,
        setup.shards() as usize,
        setup.batch() as usize,
        setup.steal_cost() as usize,
        setup.group() as usize,
        setup.colours() as usize,
        setup.pinned() as usize,
        setup.handlers().len(),
    ]
}

/// The setup of a shape with one handler.
fn setup_of(shape: &Shape, colours: u32, pinned: u32) -> Result<Setup, Option<SetupFault>> {
    match Handlers::new(&[(60, 2)]) {
        Ok(handlers) => Setup::new(shape, colours, handlers, pinned).map_err(Some),
        Err(_) => Err(None),
    }
}

/// Whether the greatest setup has these numbers, and this shard and place of its last colour.
fn is_greatest(numbers: [usize; 8], shard: usize, place: usize) -> bool {
    let Ok(setup) = setup_of(&MOST, 65_536, 3) else {
        return false;
    };
    let last = Colour(65_535);
    numbers_of(&setup) == numbers && (setup.shard_of(last), setup.place_of(last)) == (shard, place)
}

#[test]
fn a_setup_is_made_at_the_limits(rt: HostRuntime) {
    assert!(rt; setup_of(&LEAST, 1, 1).is_ok());
    assert!(rt; setup_of(&LEAST, 4, 4).is_ok());
    assert!(rt; is_greatest([64, 64, 1_000, 7, 64, 65_536, 3, 1], 63, 1_023));
}

/// Shapes with a number of colours and of pinned ones, and which number of them is the first that is
/// out of range.
static BEYOND: [(Shape, u32, u32, u8); 12] = [
    (Shape { cores: 0, ..MOST }, 1, 0, 1),
    (
        Shape {
            cores: 65,
            shards: 0,
            ..MOST
        },
        1,
        0,
        1,
    ),
    (Shape { shards: 0, ..MOST }, 1, 0, 2),
    (Shape { shards: 65, ..MOST }, 0, 0, 2),
    (MOST, 0, 0, 3),
    (Shape { batch: 0, ..MOST }, 65_537, 0, 3),
    (Shape { batch: 0, ..MOST }, 1, 0, 4),
    (
        Shape {
            batch: 1_001,
            group: 0,
            ..MOST
        },
        1,
        0,
        4,
    ),
    (Shape { group: 0, ..MOST }, 1, 0, 5),
    (Shape { group: 65, ..MOST }, 1, 0, 5),
    // more are pinned than there are
    (LEAST, 4, 5, 6),
    (Shape { group: 0, ..LEAST }, 4, 5, 5),
];

#[test]
fn a_setup_just_beyond_the_limits_is_refused(rt: HostRuntime) {
    for &(shape, colours, pinned, field) in &BEYOND {
        let fault = setup_of(&shape, colours, pinned).err();
        let want = Some(Some(SetupFault::OutOfRange { field }));
        assert!(rt; fault == want, "{colours} colours, number {field}");
    }
}

/// Whether the small setup lists histories where it is asked to, and only there.
fn is_listed_where_asked() -> bool {
    let Some(setup) = small(TWO_OF_TEN, 0) else {
        return false;
    };
    let listed = setup.listed();
    !setup.is_listed() && listed.is_listed() && numbers_of(&listed) == numbers_of(&setup)
}

#[test]
fn a_setup_lists_histories_where_it_is_asked_to(rt: HostRuntime) {
    assert!(rt; is_listed_where_asked());
}

/// Writes these entries, each of which finds room, and says whether they do.
fn writes(history: &mut History, entries: &[Entry]) -> bool {
    for entry in entries {
        if history.reserve(1) != Ok(()) {
            return false;
        }
        history.push(*entry);
    }
    true
}

/// Two entries.
static WRITTEN: [Entry; 2] = [
    Entry::Reg {
        colour: Colour(0),
        event: Event { handler: 0, arg: 0 },
        by: 2,
    },
    Entry::Take {
        colour: Colour(0),
        core: 0,
        count: 1,
    },
];

/// Whether a history gives the two entries as a list where it is listed, and none otherwise.
fn gives(history: History, listed: bool) -> bool {
    match history.into_entries() {
        Some(list) => listed && list.as_slice() == WRITTEN.as_slice(),
        None => !listed,
    }
}

/// Whether a history of the two entries has two, and shows them where it is listed, and not otherwise.
fn is_read(alloc: Global, listed: bool) -> bool {
    let mut history = History::new(alloc, listed);
    let is_written = writes(&mut history, &WRITTEN);
    let is_shown = match history.entries() {
        Some(entries) => listed && entries == WRITTEN.as_slice(),
        None => !listed,
    };
    let has_two = history.len() == 2;
    let is_given = gives(history, listed);
    is_written && is_shown && has_two && is_given
}

#[test]
fn a_history_is_read_where_it_is_listed(rt: HostRuntime) {
    assert!(rt; is_read(rt.alloc(), false));
    assert!(rt; is_read(rt.alloc(), true), "listed");
}

/// Whether a history of one entry has no room for so many more, and still room for nine.
fn has_room_up_to(alloc: Global, listed: bool, most: u64) -> bool {
    let mut history = History::new(alloc, listed);
    let is_written = writes(&mut history, &[entry_of(Row::Steal(1, 1, 0))]);
    let has_room = history.reserve(most) == Err(Memory) && history.reserve(9) == Ok(());
    is_written && has_room && history.len() == 1
}

/// Whether a history without entries has room for so many.
fn has_room_for(alloc: Global, most: u64) -> bool {
    History::new(alloc, false).reserve(most) == Ok(())
}

#[test]
fn a_history_has_room_up_to_its_limit(rt: HostRuntime) {
    assert!(rt; has_room_up_to(rt.alloc(), false, MAX_NOTES));
    assert!(rt; has_room_up_to(rt.alloc(), true, MAX_ENTRIES), "listed");
    assert!(rt; has_room_for(rt.alloc(), MAX_NOTES));
}

/// Whether a refusal prints so.
pub(super) fn is_printed<T: Display>(alloc: Global, refusal: &T, text: &str) -> bool {
    match refusal.to_string(alloc) {
        Ok(printed) => printed.as_str() == text,
        Err(_) => false,
    }
}

static NO_TAKES: [(NoTake, &str); 4] = [
    (NoTake::Elsewhere { owner: 3 }, "the colour is core 3's"),
    (NoTake::Busy { core: 2 }, "the colour runs on core 2"),
    (
        NoTake::Empty { registered: 7 },
        "none of 7 events of the colour waits",
    ),
    (NoTake::Memory, "there was no memory"),
];

static NO_STEALS: [(NoSteal, &str); 6] = [
    (NoSteal::Pinned { colour: Colour(1) }, "colour 1 is pinned"),
    (NoSteal::Own, "the core owns the colour already"),
    (NoSteal::Busy { core: 2 }, "the colour runs on core 2"),
    (
        NoSteal::Empty { registered: 0 },
        "none of 0 events of the colour waits",
    ),
    (
        NoSteal::Cheap { worth: 20 },
        "a time left of 20 is not worth a steal",
    ),
    (NoSteal::Memory, "there was no memory"),
];

#[test]
fn refusals_print_their_cause(rt: HostRuntime) {
    for (refusal, text) in &NO_TAKES {
        assert!(rt; is_printed(rt.alloc(), refusal, text), "{text}");
    }
    for (refusal, text) in &NO_STEALS {
        assert!(rt; is_printed(rt.alloc(), refusal, text), "{text}");
    }
    let fault = SetupFault::OutOfRange { field: 3 };
    let text = "number 3 of the setup is out of range";
    assert!(rt; is_printed(rt.alloc(), &fault, text));
}
