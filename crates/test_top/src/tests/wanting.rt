//! Want of memory in a run.
use super::replaying::{Client, Part};
use super::watched::{Watched, serve_by};
use super::{A, ASKS, EMPTY, G, GET_EMPTY, Left, PLAIN, have_left, joined};
use mely_history::Shape;
use std::process::Abort;
use std::sync::Wait;
use std::sync::atomic::AtomicU64;
use sws_conn::End;
use sws_engine::{Ended, Verdict};
use sws_log::LogLine;

/// Two workers, who steal what is worth more than 5.
const TWO_CORES: Shape = Shape {
    cores: 2,
    shards: 1,
    batch: 10,
    steal_cost: 5,
    group: 4,
};

/// Whether a run that had begun left the world, and each link that it gave.
fn stands(ended: &Ended<Watched<'_>>) -> bool {
    let mut links = 0u16;
    for served in &ended.served {
        if served.link.is_some() {
            links = links.wrapping_add(1);
        }
    }
    match &ended.world {
        Some(world) => ended.accepted == world.given && links == world.given,
        None => false,
    }
}

/// What two clients leave of whom the second finds no memory to write.
static SECOND_STARVES: [Left; 2] = [(End::Done, A), (End::Memory, b"")];

/// Whether want of memory of the second link ends its own connection.
fn is_second_starved(rt: &(impl AllocGlobal + Abort + Wait)) -> bool {
    let calls = AtomicU64::new(0);
    let ended = serve_by(rt, &PLAIN, &[ASKS; 2], 2, &calls, &[], false);
    ended.verdict == Verdict::Memory && have_left(&ended, &SECOND_STARVES) && stands(&ended)
}

#[test]
fn a_link_without_memory_ends_its_own_connection(rt: HostRuntime) {
    assert!(rt; is_second_starved(&rt));
}

/// A client of one request, and one of two.
static ONE_AND_TWO: [Client; 2] = [ASKS, (&[Part::Send(GET_EMPTY), Part::Send(G)], None, None)];

/// Whether a connection was written a front of these answers, and all of them where
/// the run was not refused.
fn has_front(
    rt: &(impl AllocGlobal + Abort),
    ended: &Ended<Watched<'_>>,
    number: usize,
    answers: &[(&[u8], usize)],
) -> bool {
    let whole = joined(rt, answers);
    let Some(served) = ended.served.get(number) else {
        return false;
    };
    let Some(held) = &served.link else {
        return ended.verdict == Verdict::Memory && served.written == 0;
    };
    let is_whole = served.end == Some(End::Done) && held.written() == whole.as_slice();
    whole.starts_with(held.written()) && (ended.verdict != Verdict::Ok || is_whole)
}

/// Whether the lines of the log that are of this one of two connections are of its first answers, in
/// their order: of so many at most, and of all of these where the run was not refused.
fn has_first_lines(ended: &Ended<Watched<'_>>, conn: u16, answers: u16) -> bool {
    let mut turns = 0u16;
    for line in &ended.log {
        if line.conn == conn {
            turns = turns.wrapping_add(1);
            if line.turn != turns {
                return false;
            }
        } else if line.conn > 1 {
            return false;
        }
    }
    turns == answers || (ended.verdict != Verdict::Ok && turns < answers)
}

/// Whether a run that was refused memory before it began has left nothing but the world.
fn has_not_begun(ended: &Ended<Watched<'_>>) -> bool {
    ended.verdict == Verdict::Memory
        && ended.world.is_some()
        && ended.served.is_empty()
        && ended.trails.is_empty()
        && ended.log.is_empty()
}

/// Two workers serve a connection of one request and one of two, by a schedule in which one is stolen,
/// with the log or without it. Whatever request for memory is refused in the run: whether it answers
/// `Ok` with all of it, or `Memory` with fronts.
fn leaves_fronts(rt: &(impl AllocGlobal + Abort + Wait), log: bool) -> bool {
    let calls = AtomicU64::new(0);
    let ended = serve_by(
        rt,
        &TWO_CORES,
        &ONE_AND_TWO,
        0,
        &calls,
        &[(0, 6), (1, 12)],
        log,
    );
    if !matches!(ended.verdict, Verdict::Ok | Verdict::Memory) {
        return false;
    }
    if ended.histories.is_empty() {
        return has_not_begun(&ended);
    }
    stands(&ended)
        && ended.served.len() == 2
        && ended.trails.len() == 4 + usize::from(log)
        && has_first_lines(&ended, 0, u16::from(log))
        && has_first_lines(&ended, 1, 2 * u16::from(log))
        && has_front(rt, &ended, 0, &[(A, 1)])
        && has_front(rt, &ended, 1, &[(EMPTY, 1), (A, 1)])
}

/// By itself the test refuses no memory: it is for `bench/memory.py --tests`.
#[test]
fn a_run_that_is_refused_memory_leaves_fronts(rt: HostRuntime) {
    assert!(rt; leaves_fronts(&rt, false));
}

/// The same with the log.
#[test]
fn a_run_with_its_log_that_is_refused_memory_leaves_fronts(rt: HostRuntime) {
    assert!(rt; leaves_fronts(&rt, true));
}
