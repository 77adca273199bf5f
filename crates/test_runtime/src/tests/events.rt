ghost use Rattle.std.specs.Prelude.{◌≡◌};

use super::histories::is_printed;
use mely_event::{
    Colour, Event, Fits, Handlers, Kept, Logged, Mark, Memory, TableFault, There, TrailLog,
    Unregistered,
};
use std::alloc::Global;
use std::mem::size_of;

/// What a lock keeps: a list, which is noted event by event.
#[derive(Drop)]
struct Noted {
    events: Vec<Event>,
}

impl Kept for Noted {
    type Note = Event;

    type Frame = ();

    ghost history_of = { λ s. s.events.items };

    ghost pass_of = { λ event. event.arg };

    ghost frame_of = { λ s. tt };

    fn notes(&self) -> u64 {
        self.events.len() as u64
    }
}

/// Hands on a state whose events carry bytes, by its bound alone.
fn handed_on<S: Fits<Vec<u8>>>(state: S) -> S
    ensures trail { S.trail_of result ≡ S.trail_of state }
    ensures colour { S.colour_of result ≡ S.colour_of state }
{
    state
}

/// A table's handlers, with the time, the penalty and the weight of each.
static WEIGHTS: [(u8, u32, u32, u32); 2] = [(0, 60, 2, 30), (1, 7, 2, 3)];

/// Whether a handler of a table has this time, penalty and weight.
fn has_weight(handlers: &Handlers, row: (u8, u32, u32, u32)) -> bool {
    let (handler, time, penalty, weight) = row;
    usize::from(handler) < handlers.len()
        && handlers.time(handler) == time
        && handlers.penalty(handler) == penalty
        && handlers.weight(handler) == weight
}

/// Whether a table of two handlers has two, with their weights.
fn has_weights() -> bool {
    let Ok(handlers) = Handlers::new(&[(60, 2), (7, 2)]) else {
        return false;
    };
    for &row in &WEIGHTS {
        if !has_weight(&handlers, row) {
            return false;
        }
    }
    handlers.len() == 2
}

#[test]
fn weight_is_the_time_over_the_penalty_rounded_down(rt: HostRuntime) {
    assert!(rt; has_weights());
}

/// Tables, and why each is refused.
static TABLES: [(&[(u32, u32)], Option<TableFault>); 3] = [
    (&[], None),
    (
        &[(60, 2), (5, 0)],
        Some(TableFault::ZeroPenalty { handler: 1 }),
    ),
    (
        &[(1, 1), (1, 0), (1, 0)],
        Some(TableFault::ZeroPenalty { handler: 1 }),
    ),
];

/// More handlers than a table has, and as many of penalty 0.
static MANY: [(u32, u32); 33] = [(1, 1); 33];

static MANY_ZERO: [(u32, u32); 33] = [(1, 0); 33];

#[test]
fn a_table_has_at_most_32_rows_and_no_penalty_0(rt: HostRuntime) {
    for (table, &(rows, fault)) in TABLES.iter().enumerate() {
        assert!(rt; Handlers::new(rows).err() == fault, "table {table}");
    }
    let too_many = Some(TableFault::TooMany { count: 33 });
    assert!(rt; Handlers::new(&MANY[..32]).is_ok());
    assert!(rt; Handlers::new(&MANY).err() == too_many);
    assert!(rt; Handlers::new(&MANY_ZERO).err() == too_many);
}

#[test]
fn a_log_has_a_value_beside_it(rt: HostRuntime) {
    let mut ledger = Logged {
        log: TrailLog::new(Colour(2)),
        value: 7,
    };
    for arg in 7..9 {
        ledger.log.push(Event { handler: 0, arg });
    }
    let ledger = handed_on(ledger);
    assert!(rt; ledger.log.colour() == Colour(2));
    assert!(rt; ledger.value == 7);
}

#[test]
fn a_trail_is_a_state_of_the_size_of_its_colour(rt: HostRuntime) {
    let mut log = TrailLog::new(Colour(5));
    log.push(Event { handler: 3, arg: 7 });
    let log = handed_on(log);
    assert!(rt; log.colour() == Colour(5));
    assert!(rt; size_of::<TrailLog>() == 2);
    assert!(rt; size_of::<TrailLog>() == size_of::<Colour>());
}

/// Whether there is no note at first, and one more behind each of two events.
fn counts_notes(alloc: Global) -> bool {
    let mut noted = Noted {
        events: Vec::new(alloc),
    };
    if noted.notes() != 0 {
        return false;
    }
    for arg in 0..2u16 {
        let is_pushed = noted.events.push(Event { handler: 0, arg }).is_ok();
        if !is_pushed || noted.notes() != u64::from(arg) + 1 {
            return false;
        }
    }
    true
}

#[test]
fn what_a_lock_keeps_counts_its_notes(rt: HostRuntime) {
    assert!(rt; counts_notes(rt.alloc()));
}

/// Faults of a table, and how each prints.
static FAULTS: [(TableFault, &str); 2] = [
    (
        TableFault::TooMany { count: 33 },
        "a table of 33 handlers is too long",
    ),
    (
        TableFault::ZeroPenalty { handler: 1 },
        "the penalty of handler 1 is 0",
    ),
];

#[test]
fn faults_print_their_cause(rt: HostRuntime) {
    for (fault, text) in &FAULTS {
        assert!(rt; is_printed(rt.alloc(), fault, text), "{text}");
    }
    assert!(rt; is_printed(rt.alloc(), &Memory, "there was no memory"));
}

/// A refusal of a mark, and one of a registration.
static THERE: There = There {
    mark: Mark {
        colour: Colour(2),
        started: 0,
        worth: 30,
    },
};

static UNREGISTERED: Unregistered<u32> = Unregistered {
    event: Event { handler: 0, arg: 0 },
    load: Some(7),
};

#[test]
fn refusals_print_their_cause(rt: HostRuntime) {
    let text = "there is a mark of colour 2 already";
    assert!(rt; is_printed(rt.alloc(), &THERE, text));
    let text = "there was no memory to register an event";
    assert!(rt; is_printed(rt.alloc(), &UNREGISTERED, text));
}
