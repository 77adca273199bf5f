//! A folder that is loaded anew where somebody asks for it, and what clients that have its pages
//! are told.

use super::clients::{ask, listen};
use super::orders::{Plan, make_folder, order_of, write_index};
use std::net::{SocketAddr, TcpListener};
use std::process::Abort;
use std::sync::Wait;
use std::thread::Threads;
use std::time::{Clock, Duration};
use std::{fs, io, thread};
use sws_daemon::serve_at;
use sws_outbox::Outbox;

/// How often the page is asked for until it is another.
const TRIES: u32 = 100;

/// A file by which the server is asked to load the folder anew.
const RELOAD: &str = "swsd_rows_again";

/// Three lanes, for which nobody looks at the folder.
static RELOADED: Plan = Plan {
    folder: "swsd_rows_reload",
    stop: "swsd_rows_reload_stop",
    reload: Some(RELOAD),
    workers: 1,
    lanes: 3,
    accepting: 2,
    connections: 16,
    grace: 5,
    look: 0,
    log: None,
    quiet: false,
};

/// What comes back to a request with this field, to the end of the connection.
fn ask_with(rt: &HostRuntime, address: SocketAddr, field: &str) -> io::Result<Vec<u8>> {
    let request = format!(in rt.alloc();
        "GET / HTTP/1.1\r\nHost: x\r\nConnection: close\r\n{field}\r\n"
    )?;
    ask(rt, address, request.as_bytes())
}

/// Whether what comes back to a request with this field begins and ends so.
fn is_answered(rt: &HostRuntime, address: SocketAddr, field: &str, is: (&[u8], &[u8])) -> bool {
    match ask_with(rt, address, field) {
        Ok(back) => back.as_slice().starts_with(is.0) && back.as_slice().ends_with(is.1),
        Err(_) => false,
    }
}

/// How the answers begin and end that send the page as it is at first and as it is later, and those
/// that don't send it.
static FIRST: (&[u8], &[u8]) = (b"HTTP/1.1 200 OK\r\n", b"\r\n\r\nhi\n");

static CHANGED: (&[u8], &[u8]) = (b"HTTP/1.1 200 OK\r\n", b"\r\n\r\nho\n");

static NOT_AGAIN: (&[u8], &[u8]) = (b"HTTP/1.1 304 Not Modified\r\n", b"\r\n\r\n");

/// The field that asks for the page only where it has changed since it was answered so.
fn condition(rt: &HostRuntime, answer: &str) -> io::Result<String> {
    for line in answer.lines() {
        if let Some(date) = line.strip_prefix("Last-Modified: ") {
            return Ok(format!(in rt.alloc(); "If-Modified-Since: {date}\r\n")?);
        }
    }
    Ok(String::new(rt.alloc()))
}

/// That field for the page as it is at first.
fn first_condition(rt: &HostRuntime, address: SocketAddr) -> io::Result<String> {
    let answer = ask_with(rt, address, "")?;
    match str::from_utf8(answer.as_slice()) {
        Ok(answer) => condition(rt, answer),
        Err(_) => Ok(String::new(rt.alloc())),
    }
}

/// Whether the page as it is later is sent in time.
fn is_changed(rt: &HostRuntime, address: SocketAddr, field: &str) -> bool {
    for _ in 0..TRIES {
        if is_answered(rt, address, field, CHANGED) {
            return true;
        }
        thread::sleep(rt, Duration::from_millis(100));
    }
    false
}

/// Whether the page, which changes, and which nobody looks at for more than a second, isn't sent until
/// the reload file is written.
fn is_sent_once_asked(rt: &HostRuntime, address: SocketAddr, field: &str) -> bool {
    let is_again = is_answered(rt, address, field, NOT_AGAIN);
    let is_written = write_index(rt, RELOADED.folder, b"ho\n").is_ok();
    thread::sleep(rt, Duration::from_millis(1500));
    let is_unasked = is_answered(rt, address, field, NOT_AGAIN);
    let is_asked = fs::write(rt, RELOAD, b"").is_ok();
    is_again && is_written && is_unasked && is_asked && is_changed(rt, address, field)
}

/// Whether the page is sent, not sent again until it is asked for anew, and sent as it is then.
fn is_seen(rt: &HostRuntime, address: SocketAddr) -> bool {
    match first_condition(rt, address) {
        Ok(field) => {
            is_answered(rt, address, "", FIRST) && is_sent_once_asked(rt, address, field.as_str())
        }
        Err(_) => false,
    }
}

/// The same, and then the stop file is made.
fn see_and_stop(rt: &HostRuntime, address: SocketAddr) -> bool {
    let is_seen = is_seen(rt, address);
    fs::write(rt, RELOADED.stop, b"").is_ok() && is_seen
}

/// Whether the server ends well.
fn is_served<T: AllocGlobal + Abort + Threads + Wait + Sync + Clock>(
    rt: &HostRuntime,
    threads: &T,
    listeners: &[TcpListener],
    outbox: &Outbox,
) -> bool {
    serve_at(rt, threads, order_of(threads, &RELOADED), listeners, outbox).is_ok()
}

/// Whether the server at this address ends well, and the page is seen so.
fn are_served_at<T: AllocGlobal + Abort + Threads + Wait + Sync + Clock>(
    rt: &HostRuntime,
    threads: &T,
    listener: TcpListener,
    address: SocketAddr,
    outbox: &Outbox,
) -> bool {
    let listeners = [listener];
    let (is_served, is_seen) = thread::join(
        threads,
        || is_served(rt, threads, &listeners, outbox),
        || see_and_stop(rt, address),
    );
    is_served && is_seen
}

/// Whether it was said that the folder was loaded anew.
fn is_said<T: Wait>(threads: &T, outbox: &Outbox) -> bool {
    let (_, messages) = outbox.take(threads);
    let line = "[INFO  swsd] the folder was loaded anew, as the reload file asks\n";
    match String::from_utf8(messages) {
        Ok(messages) => messages.as_str().contains(line),
        Err(_) => false,
    }
}

/// Whether a page is sent again only where it has changed.
fn is_sent_again<T: AllocGlobal + Abort + Threads + Wait + Sync + Clock>(
    rt: &HostRuntime,
    threads: &T,
) -> io::Result<bool> {
    make_folder(rt, &RELOADED)?;
    let (listener, address) = listen(rt)?;
    let outbox = Outbox::new(rt.alloc());
    let are_served = are_served_at(rt, threads, listener, address, &outbox);
    Ok(are_served && is_said(threads, &outbox))
}

#[test]
fn a_page_is_sent_again_only_where_it_has_changed(rt: HostRuntime) {
    assert!(rt; matches!(is_sent_again(&rt, &rt), Ok(true)));
}
