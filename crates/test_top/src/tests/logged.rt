//! The access log: a line of each answer that was written whole, which is counted without the log too.
//! Whatever the threads do, the lines of a connection are there, in the order of its answers.
use super::replaying::{Client, Part};
use super::watched::{serve, serve_by};
use super::{ASKS, BOTH, G, PLAIN};
use mely_history::Shape;
use mely_worker::OpenGate;
use std::process::Abort;
use std::sync::Wait;
use std::sync::atomic::AtomicU64;
use std::thread::Threads;
use sws_engine::Verdict;
use sws_link::{Put, SureSink};
use sws_log::{LogLine, write_log};

/// Whether a line of a connection is counted where there is no log.
fn is_counted(rt: &(impl AllocGlobal + Abort + Wait)) -> bool {
    let calls = AtomicU64::new(0);
    let ended = serve_by(rt, &PLAIN, &[ASKS], 0, &calls, &[], false);
    for served in &ended.served {
        if served.answered != 1 {
            return false;
        }
    }
    ended.log.is_empty()
}

#[test]
fn lines_are_counted_without_the_log_too(rt: HostRuntime) {
    assert!(rt; is_counted(&rt));
}

/// A client that is answered twice, one that is answered once, and one that is cut off in the middle
/// of its answer.
static CLIENTS: [Client; 3] = [
    (&[Part::Send(BOTH)], Some(1), None),
    ASKS,
    (&[Part::Send(G)], None, Some(7)),
];

/// The number of each of them, and its lines.
static LINES: [(u16, &[u8]); 3] = [
    (0, b"log 0 1 200 79 /\nlog 0 2 200 78 /a/b.txt\n"),
    (1, b"log 1 1 200 79 /\n"),
    (2, b""),
];

/// Whether the lines of this connection are these.
fn has_lines(rt: &(impl AllocGlobal + Abort), log: &[LogLine], conn: u16, lines: &[u8]) -> bool {
    let mut own = Vec::new(rt.alloc());
    for line in log {
        if line.conn == conn {
            own.push(*line).expect(rt, "memory");
        }
    }
    let mut sink = SureSink::new(rt.alloc());
    write_log(rt.alloc(), &mut sink, &own) == Put::Done && sink.written() == lines
}

/// Whether a log has the lines of each connection.
fn has_all_lines(rt: &(impl AllocGlobal + Abort), log: &[LogLine]) -> bool {
    for &(conn, lines) in &LINES {
        if !has_lines(rt, log, conn, lines) {
            return false;
        }
    }
    log.len() == 3
}

/// Whether the clients are served on so many workers and shards, and leave the lines of each.
fn are_logged<R: AllocGlobal + Abort + Threads + Wait + Sync>(
    rt: &R,
    cores: u16,
    shards: u16,
) -> bool {
    let shape = Shape {
        cores,
        shards,
        ..PLAIN
    };
    let calls = AtomicU64::new(0);
    let ended = serve(rt, &shape, &CLIENTS, 0, &calls, &OpenGate, true);
    ended.verdict == Verdict::Ok && has_all_lines(rt, &ended.log)
}

/// So many workers and shards.
static CREWS: [(u16, u16); 4] = [(2, 1), (2, 2), (4, 2), (8, 4)];

#[test]
fn the_lines_of_each_connection_are_there_whatever_the_workers_are(rt: HostRuntime) {
    for &(cores, shards) in &CREWS {
        for _ in 0..20 {
            assert!(rt; are_logged(&rt, cores, shards), "{cores} and {shards}");
        }
    }
}
