//! What the server says, as it is left for its outputs.

use super::clients::{ask_all, listen};
use super::orders::{Plan, make_folder, order_of};
use std::alloc::Global;
use std::net::{SocketAddr, TcpListener};
use std::process::Abort;
use std::sync::Wait;
use std::thread::Threads;
use std::time::Clock;
use std::{fs, io, thread};
use sws_daemon::{cause_of, serve_at};
use sws_engine::Verdict;
use sws_lane::{Told, Totals};
use sws_link::Opened;
use sws_outbox::{Outbox, Queue};
use swsd_words::LogFormat;

/// How many clients ask.
const CLIENTS: u64 = 6;

/// A server that keeps a log.
static LOGGED: Plan = Plan {
    folder: "swsd_lines_site",
    stop: "swsd_lines_stop",
    reload: None,
    workers: 2,
    lanes: 1,
    accepting: 1,
    connections: 16,
    grace: 5,
    look: 1,
    log: Some(LogFormat::Combined),
    quiet: false,
};

/// Whether all clients are answered, one after another; then the stop file is made.
fn ask_and_stop(rt: &HostRuntime, address: SocketAddr) -> bool {
    let answered = ask_all(rt, address, CLIENTS);
    fs::write(rt, LOGGED.stop, b"").is_ok() && answered == CLIENTS
}

/// Whether the server ends without a fault.
fn is_served<T: AllocGlobal + Abort + Threads + Wait + Sync + Clock>(
    rt: &HostRuntime,
    threads: &T,
    listeners: &[TcpListener],
    outbox: &Outbox,
) -> bool {
    match serve_at(rt, threads, order_of(threads, &LOGGED), listeners, outbox) {
        Ok(served) => served.fault == None,
        Err(_) => false,
    }
}

/// Whether clients are answered at this address, and the server ends without a fault.
fn are_served_at<T: AllocGlobal + Abort + Threads + Wait + Sync + Clock>(
    rt: &HostRuntime,
    threads: &T,
    listener: TcpListener,
    address: SocketAddr,
    outbox: &Outbox,
) -> bool {
    let listeners = [listener];
    let (is_served, are_answered) = thread::join(
        threads,
        || is_served(rt, threads, &listeners, outbox),
        || ask_and_stop(rt, address),
    );
    is_served && are_answered
}

/// Whether an output has as many lines, each of which is that of an answer.
fn are_lines(output: &str, count: u64) -> bool {
    let mut lines = 0u64;
    for line in output.lines() {
        let is_right = line.starts_with("127.0.0.1 - - [")
            && line.ends_with(" +0000] \"GET / HTTP/1.1\" 200 3 \"-\" \"-\"");
        if !is_right {
            return false;
        }
        lines = lines.saturating_add(1);
    }
    lines == count
}

/// Whether the messages begin with the address, and tell of the connections.
fn are_messages(messages: &str) -> bool {
    messages.starts_with("[INFO  swsd] listening at 127.0.0.1:")
        && messages.contains("generation 1 lane 0 connections 6 done 6")
}

/// Whether these bytes are the lines of all answers.
fn is_output(bytes: Vec<u8>) -> bool {
    match String::from_utf8(bytes) {
        Ok(output) => are_lines(output.as_str(), CLIENTS),
        Err(_) => false,
    }
}

/// Whether these bytes are the messages.
fn is_told(bytes: Vec<u8>) -> bool {
    match String::from_utf8(bytes) {
        Ok(messages) => are_messages(messages.as_str()),
        Err(_) => false,
    }
}

/// Whether that is what was left for the outputs.
fn is_left<T: Wait>(threads: &T, outbox: &Outbox) -> bool {
    let (output, messages) = outbox.take(threads);
    is_output(output) && is_told(messages)
}

/// Whether a server has a line of each answer in its log.
fn is_logged<T: AllocGlobal + Abort + Threads + Wait + Sync + Clock>(
    rt: &HostRuntime,
    threads: &T,
) -> io::Result<bool> {
    make_folder(rt, &LOGGED)?;
    let (listener, address) = listen(rt)?;
    let outbox = Outbox::new(rt.alloc());
    let are_served = are_served_at(rt, threads, listener, address, &outbox);
    Ok(are_served && is_left(threads, &outbox))
}

#[test]
fn the_log_has_a_line_of_each_answer(rt: HostRuntime) {
    assert!(rt; matches!(is_logged(&rt, &rt), Ok(true)));
}

/// What has come of a generation, and the cause of its failure with its status.
static FAILURES: [(Opened, Option<Verdict>, &str, u8); 5] = [
    (
        Opened::Failed,
        None,
        "the machine has no socket for a generation",
        6,
    ),
    (Opened::Memory, None, "no memory for a generation", 7),
    (Opened::Ready, Some(Verdict::World), "the network failed", 6),
    (Opened::Ready, Some(Verdict::Memory), "out of memory", 7),
    (
        Opened::Ready,
        Some(Verdict::Apart { conn: 3 }),
        "a connection was lost",
        13,
    ),
];

/// What is told of a generation without connections.
fn told(opened: Opened, verdict: Option<Verdict>) -> Told {
    Told {
        opened,
        verdict,
        totals: Totals::new(),
    }
}

/// Whether what is told is a failure of this cause and status.
fn has_cause(alloc: Global, told: &Told, text: &str, status: u8) -> bool {
    let Some(cause) = cause_of(told) else {
        return false;
    };
    match cause.to_string(alloc) {
        Ok(said) => said.as_str() == text && cause.status() == status,
        Err(_) => false,
    }
}

#[test]
fn each_failure_has_its_cause_and_its_status(rt: HostRuntime) {
    for &(opened, verdict, text, status) in &FAILURES {
        let told = told(opened, verdict);
        assert!(rt; has_cause(rt.alloc(), &told, text, status), "{text}");
    }
    let told = told(Opened::Ready, Some(Verdict::Ok));
    assert!(rt; cause_of(&told).is_none());
}

/// Whether a queue of eight bytes takes what it has room for, and counts the lines of the rest.
fn is_counted(alloc: Global) -> bool {
    let mut queue = Queue::new(alloc, 8);
    let is_taken = queue.push(b"one\n", 1)
        && !queue.push(b"three\n", 1)
        && queue.push(b"two\n", 1)
        && !queue.push(b"a\nb\n", 2);
    let (bytes, dropped) = queue.take(alloc);
    is_taken && bytes.as_slice() == b"one\ntwo\n".as_slice() && dropped == 3 && queue.is_empty()
}

#[test]
fn what_there_is_no_room_for_is_counted(rt: HostRuntime) {
    assert!(rt; is_counted(rt.alloc()));
}
