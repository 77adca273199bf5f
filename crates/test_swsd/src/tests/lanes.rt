//! Clients on this machine at a server whose generations have two connections each.

use super::clients::{ask_all, listen};
use super::orders::{Plan, make_folder, order_of};
use std::io::{self, Read};
use std::net::{SocketAddr, TcpListener, TcpStream};
use std::process::Abort;
use std::sync::Wait;
use std::thread::Threads;
use std::time::Clock;
use std::{fs, thread};
use sws_daemon::{Served, serve_at};
use sws_lane::Totals;
use sws_outbox::Outbox;

/// How many clients ask.
const CLIENTS: u64 = 40;

/// How clients ask.
#[derive(Clone, Copy)]
enum Asking {
    /// Forty, one after another, beside one that says nothing from before the others come until they
    /// have gone.
    BesideASilentOne,

    /// One is silent and another is answered, so that their generation is full; the silent one waits
    /// until the server ends its connection. Then a third one is answered.
    AfterASilentOne,
}

/// How many clients are answered beside a silent one.
fn ask_beside_a_silent_one(rt: &HostRuntime, address: SocketAddr) -> u64 {
    let silent = TcpStream::connect(rt, address);
    let answered = ask_all(rt, address, CLIENTS);
    drop(silent);
    answered
}

/// Whether nothing came to a client until its connection ended.
fn is_cut(rt: &HostRuntime, mut silent: &TcpStream) -> bool {
    let mut back = Vec::new(rt.alloc());
    matches!(silent.read_to_end(&mut back), Ok(0) | Err(_))
}

/// Whether one client is answered beside a silent one, and one once that was cut.
fn are_answered_after_a_silent_one(rt: &HostRuntime, address: SocketAddr) -> bool {
    let Ok(silent) = TcpStream::connect(rt, address) else {
        return false;
    };
    let before = ask_all(rt, address, 1);
    let is_cut = is_cut(rt, &silent);
    before == 1 && is_cut && ask_all(rt, address, 1) == 1
}

/// Whether all clients that ask so are answered.
fn are_answered(rt: &HostRuntime, address: SocketAddr, asking: Asking) -> bool {
    match asking {
        Asking::BesideASilentOne => ask_beside_a_silent_one(rt, address) == CLIENTS,
        Asking::AfterASilentOne => are_answered_after_a_silent_one(rt, address),
    }
}

/// The same, and then the stop file is made.
fn ask_and_stop(rt: &HostRuntime, address: SocketAddr, stop: &str, asking: Asking) -> bool {
    let are_answered = are_answered(rt, address, asking);
    fs::write(rt, stop, b"").is_ok() && are_answered
}

/// Whether a server of forty clients and a silent one has these numbers.
fn has_served_forty(served: &Served) -> bool {
    let totals = &served.totals;
    served.fault == None
        && totals.connections == CLIENTS + 1
        && totals.done == CLIENTS + 1
        && totals.generations > CLIENTS / 2
        && totals.read == 46 * CLIENTS
}

/// Whether a server that has cut one of three connections has these numbers.
fn has_cut_one(totals: &Totals) -> bool {
    totals.connections == 3 && totals.done == 2 && totals.fault == 1
}

/// Whether the server of the plan ends with the numbers that clients leave who ask so.
fn is_served<T: AllocGlobal + Abort + Threads + Wait + Sync + Clock>(
    rt: &HostRuntime,
    threads: &T,
    listeners: &[TcpListener],
    plan: &Plan,
    asking: Asking,
) -> bool {
    let outbox = Outbox::new(rt.alloc());
    match serve_at(rt, threads, order_of(threads, plan), listeners, &outbox) {
        Ok(served) => match asking {
            Asking::BesideASilentOne => has_served_forty(&served),
            Asking::AfterASilentOne => has_cut_one(&served.totals),
        },
        Err(_) => false,
    }
}

/// Whether clients that ask so are served at this address by the plan.
fn are_served_at<T: AllocGlobal + Abort + Threads + Wait + Sync + Clock>(
    rt: &HostRuntime,
    threads: &T,
    listener: TcpListener,
    address: SocketAddr,
    plan: &Plan,
    asking: Asking,
) -> bool {
    let listeners = [listener];
    let (is_served, are_answered) = thread::join(
        threads,
        || is_served(rt, threads, &listeners, plan, asking),
        || ask_and_stop(rt, address, plan.stop, asking),
    );
    is_served && are_answered
}

/// Whether clients that ask so are served by the plan.
fn are_served<T: AllocGlobal + Abort + Threads + Wait + Sync + Clock>(
    rt: &HostRuntime,
    threads: &T,
    plan: &Plan,
    asking: Asking,
) -> io::Result<bool> {
    make_folder(rt, plan)?;
    let (listener, address) = listen(rt)?;
    Ok(are_served_at(rt, threads, listener, address, plan, asking))
}

static FORTY: Plan = Plan {
    folder: "swsd_rows_site",
    stop: "swsd_rows_stop",
    reload: None,
    workers: 1,
    lanes: 3,
    accepting: 2,
    connections: 2,
    grace: 20,
    look: 1,
    log: None,
    quiet: true,
};

#[test]
fn forty_clients_are_answered_over_generations_of_two(rt: HostRuntime) {
    let are_served = are_served(&rt, &rt, &FORTY, Asking::BesideASilentOne);
    assert!(rt; matches!(are_served, Ok(true)));
}

static CUT: Plan = Plan {
    folder: "swsd_rows_cut",
    stop: "swsd_rows_cut_stop",
    reload: None,
    workers: 1,
    lanes: 1,
    accepting: 1,
    connections: 2,
    grace: 2,
    look: 1,
    log: None,
    quiet: true,
};

#[test]
fn a_silent_client_is_cut_once_its_generation_has_left(rt: HostRuntime) {
    let are_served = are_served(&rt, &rt, &CUT, Asking::AfterASilentOne);
    assert!(rt; matches!(are_served, Ok(true)));
}
