//! The web server on threads at work: whatever the threads do, each connection is
//! served as if it were alone.
use super::replaying::{Client, Part, entries_of, is_printed};
use super::watched::serve;
use super::{A, ASKS, G, Left, PLAIN, THREE, THREE_SHOWN, have_left};
use mely_event::{Colour, Event};
use mely_history::{Entry, History, Shape};
use mely_worker::{Gate, OpenGate};
use std::process::Abort;
use std::sync::Wait;
use std::sync::atomic::{AtomicU64, Ordering};
use std::thread;
use std::thread::Threads;
use std::time::Duration;
use sws_conn::End;
use sws_engine::Verdict;

/// Four workers, and two shards.
const FOUR: Shape = Shape {
    cores: 4,
    shards: 2,
    batch: 10,
    steal_cost: 20,
    group: 4,
};

/// A gate that counts how often it is passed.
#[derive(Drop)]
struct Counting {
    passed: AtomicU64,
}

impl Gate for Counting {
    ghost passes = { λ gate core colour event. Unit {0} };

    fn pass(&self, _core: u16, _colour: Colour, _event: Event) {
        self.passed.fetch_add(1, Ordering::SeqCst);
    }
}

/// The number of the handler that answers a head.
const LOOK: u8 = 6;

/// Whether a handler makes a call of its connection's link: it reads, writes, closes, or does again
/// a read or a write that found the link not ready. It makes one.
fn calls_link(handler: u8) -> bool {
    handler == 4 || handler == 7 || handler == 8 || handler == 9
}

/// A gate that compares how many calls the only link had with how many the handlers make that have
/// passed it before, each time that a handler of these passes. One that has run by its own pass is
/// one call ahead. They are all of one colour, so no two of them run at once.
#[derive(Drop)]
struct Before<'r> {
    calls: &'r AtomicU64,
    due: AtomicU64,
    is_late: AtomicU64,
}

impl Gate for Before<'_> {
    ghost passes = { λ gate core colour event. Unit {0} };

    fn pass(&self, _core: u16, _colour: Colour, event: Event) {
        if !calls_link(event.handler) {
            return;
        }
        if self.calls.load(Ordering::SeqCst) != self.due.load(Ordering::SeqCst) {
            self.is_late.store(1, Ordering::SeqCst);
        }
        self.due.fetch_add(1, Ordering::SeqCst);
    }
}

/// How often a handler that is held looks again.
const TURNS: u32 = 100_000;

/// A gate that holds the handler `LOOK` of the first connection until that of the second has come
/// to it, and counts as well. One thread alone never gets through.
#[derive(Drop)]
struct Meeting<'r> {
    clock: &'r HostRuntime,
    passed: AtomicU64,
    has_come: AtomicU64,
    is_missed: AtomicU64,
}

impl Gate for Meeting<'_> {
    ghost passes = { λ gate core colour event. Unit {0} };

    fn pass(&self, _core: u16, colour: Colour, event: Event) {
        self.passed.fetch_add(1, Ordering::SeqCst);
        if event.handler != LOOK {
            return;
        }
        if colour.0 != 2 {
            self.has_come.store(1, Ordering::SeqCst);
            return;
        }
        for _ in 0..TURNS {
            if self.has_come.load(Ordering::SeqCst) == 1 {
                return;
            }
            thread::sleep(self.clock, Duration::from_micros(10));
        }
        self.is_missed.store(1, Ordering::SeqCst);
    }
}

/// So many workers and shards.
fn shape(cores: u16, shards: u16) -> Shape {
    Shape {
        cores,
        shards,
        ..PLAIN
    }
}

/// How many events were run, by the histories.
fn events_of(rt: &impl Abort, histories: &[History]) -> u64 {
    let mut events: u64 = 0;
    for history in histories {
        for entry in entries_of(rt, history) {
            if let Entry::Fin { count, .. } = entry {
                events = events.wrapping_add(u64::from(*count));
            }
        }
    }
    events
}

/// How many events are run where three connections are served by so many workers and shards, through
/// a gate; or nothing where they are not left what they are owed.
fn events_of_three<R: AllocGlobal + Abort + Threads + Wait + Sync, G: Gate + Sync>(
    rt: &R,
    cores: u16,
    shards: u16,
    gate: &G,
) -> Option<u64> {
    let calls = AtomicU64::new(0);
    let ended = serve(rt, &shape(cores, shards), &THREE, 0, &calls, gate, false);
    let is_whole = ended.verdict == Verdict::Ok
        && ended.world.is_some()
        && ended.accepted == 3
        && !ended.failed
        && is_printed(rt, &ended, THREE_SHOWN);
    is_whole.then_some(events_of(rt, &ended.histories))
}

/// So many workers and shards.
static CREWS: [(u16, u16); 8] = [
    (1, 1),
    (2, 1),
    (8, 1),
    (64, 1),
    (1, 4),
    (2, 4),
    (8, 4),
    (64, 4),
];

#[test]
fn three_connections_are_served_so_whatever_the_workers_are(rt: HostRuntime) {
    for &(cores, shards) in &CREWS {
        let events = events_of_three(&rt, cores, shards, &OpenGate);
        assert!(rt; events.is_some(), "{cores} and {shards}");
    }
}

#[test]
fn three_connections_are_served_so_each_time(rt: HostRuntime) {
    for time in 0..200 {
        assert!(rt;
            events_of_three(&rt, 2, 1, &OpenGate).is_some(),
            "time {time}"
        );
    }
}

/// Whether a gate is passed as often as handlers run.
fn is_passed_as_often<R: AllocGlobal + Abort + Threads + Wait + Sync>(
    rt: &R,
    cores: u16,
    shards: u16,
) -> bool {
    let gate = Counting {
        passed: AtomicU64::new(0),
    };
    let events = events_of_three(rt, cores, shards, &gate);
    events == Some(gate.passed.load(Ordering::SeqCst))
}

static SMALL_CREWS: [(u16, u16); 4] = [(1, 1), (1, 4), (4, 1), (4, 4)];

#[test]
fn the_gate_is_passed_as_often_as_handlers_run(rt: HostRuntime) {
    for &(cores, shards) in &SMALL_CREWS {
        let is_so = is_passed_as_often(&rt, cores, shards);
        assert!(rt; is_so, "{cores} and {shards}");
    }
}

/// A client who is not ready at first.
static LATE: [Client; 1] = [(&[Part::Pause(1), Part::Send(G)], None, None)];

/// Whether each handler of one connection that calls its link has passed the gate before, by so many
/// workers.
fn is_behind_the_gate<R: AllocGlobal + Abort + Threads + Wait + Sync>(rt: &R, cores: u16) -> bool {
    let calls = AtomicU64::new(0);
    let gate = Before {
        calls: &calls,
        due: AtomicU64::new(0),
        is_late: AtomicU64::new(0),
    };
    let ended = serve(rt, &shape(cores, 1), &LATE, 0, &calls, &gate, false);
    // a read that finds the link not ready, that read again, a write of the answer's head, one of
    // its body, a read that finds the end, and the close
    gate.is_late.load(Ordering::SeqCst) == 0
        && calls.load(Ordering::SeqCst) == 6
        && gate.due.load(Ordering::SeqCst) == 6
        && ended.verdict == Verdict::Ok
        && have_left(&ended, &[(End::Done, A)])
}

#[test]
fn the_gate_is_passed_before_the_handler_runs(rt: HostRuntime) {
    for cores in [1, 2] {
        assert!(rt; is_behind_the_gate(&rt, cores), "{cores} workers");
    }
}

/// Whether two workers who steal whatever is there are at the gate at once.
fn are_at_once<R: AllocGlobal + Abort + Threads + Wait + Sync>(
    rt: &R,
    clock: &HostRuntime,
) -> bool {
    let calls = AtomicU64::new(0);
    let gate = Meeting {
        clock,
        passed: AtomicU64::new(0),
        has_come: AtomicU64::new(0),
        is_missed: AtomicU64::new(0),
    };
    let free = Shape {
        steal_cost: 0,
        ..shape(2, 1)
    };
    let ended = serve(rt, &free, &[ASKS; 2], 0, &calls, &gate, false);
    ended.verdict == Verdict::Ok
        && gate.is_missed.load(Ordering::SeqCst) == 0
        && gate.passed.load(Ordering::SeqCst) == events_of(rt, &ended.histories)
}

#[test]
fn two_workers_are_at_the_gate_at_once(rt: HostRuntime) {
    assert!(rt; are_at_once(&rt, &rt));
}

/// Four clients on four workers: one fails, one waits, one finds no memory to write, and one is
/// served.
static THIRD_STARVES: [Client; 4] = [
    (&[Part::Send(G), Part::Fault], None, None),
    (&[Part::Pause(29), Part::Send(G)], None, None),
    ASKS,
    ASKS,
];

static THIRD_STARVES_LEAVE: [Left; 4] = [
    (End::Fault, A),
    (End::Done, A),
    (End::Memory, b""),
    (End::Done, A),
];

/// Whether want of memory of the third link ends its own connection.
fn is_third_starved<R: AllocGlobal + Abort + Threads + Wait + Sync>(rt: &R) -> bool {
    let calls = AtomicU64::new(0);
    let ended = serve(rt, &FOUR, &THIRD_STARVES, 3, &calls, &OpenGate, false);
    ended.verdict == Verdict::Memory
        && ended.accepted == 4
        && !ended.failed
        && have_left(&ended, &THIRD_STARVES_LEAVE)
}

#[test]
fn want_of_memory_of_a_link_ends_its_own_connection_on_threads(rt: HostRuntime) {
    assert!(rt; is_third_starved(&rt));
}
