//! Two clients on this machine, one after another, each of which asks for the index and ends its side.

use super::serving::{REQUEST, RESPONSE, SUMMARY, run, small_site, words_of};
use std::alloc::{AllocError, Global};
use std::io::{self, Read, Write};
use std::net::{Ipv4Addr, Shutdown, TcpStream};
use std::sync::Wait;
use std::thread;
use std::thread::Threads;
use std::time::Duration;
use sws_link::{Opened, SureFolder, SureSink, SureSource, World};
use sws_net::TcpWorld;

/// The first port that is tried, and how many are.
const FIRST_PORT: u16 = 28_600;

const PORTS: u16 = 100;

/// How often a client tries to connect, a millisecond apart, until the server listens.
const TRIES: u32 = 10_000;

/// A port of this machine at which nobody listens.
fn free_port(rt: &HostRuntime) -> Option<u16> {
    for place in 0..PORTS {
        let port = FIRST_PORT + place;
        let Ok(mut world) = TcpWorld::new(rt) else {
            return None;
        };
        if world.open(port, 1) == Opened::Ready {
            return Some(port);
        }
    }
    None
}

/// Connects to the server as soon as it listens.
fn connect(rt: &HostRuntime, port: u16) -> io::Result<TcpStream> {
    for _ in 1..TRIES {
        if let Ok(stream) = TcpStream::connect(rt, (Ipv4Addr::LOCALHOST, port)) {
            return Ok(stream);
        }
        thread::sleep(rt, Duration::from_millis(1));
    }
    TcpStream::connect(rt, (Ipv4Addr::LOCALHOST, port))
}

/// Asks for the index, and ends its side.
fn send(mut client: &TcpStream) -> io::Result<()> {
    client.write_all(REQUEST)?;
    client.shutdown(Shutdown::Write)
}

/// Asks for the index, ends its side, and says whether that is what comes back to the end.
fn is_answered(rt: &HostRuntime, port: u16) -> bool {
    let Ok(client) = connect(rt, port) else {
        return false;
    };
    let mut back = Vec::new(rt.alloc());
    send(&client).is_ok() && (&client).read_to_end(&mut back).is_ok() && back.as_slice() == RESPONSE
}

/// Whether two clients are served at the port, by these words and with these threads.
fn are_served<T: AllocGlobal + Threads + Wait + Sync>(
    rt: &HostRuntime,
    threads: &T,
    words: &[String],
    folder: &mut SureFolder,
    world: TcpWorld<'_>,
    port: u16,
) -> bool {
    let mut source = SureSource::new(Vec::new(rt.alloc()));
    let mut sink = SureSink::new(rt.alloc());
    let (outcome, are_answered) = thread::join(
        threads,
        || run(threads, words, folder, &mut source, world, &mut sink),
        || is_answered(rt, port) && is_answered(rt, port),
    );
    are_answered && outcome.status == 0 && sink.written() == SUMMARY
}

/// The words that serve two connections at the port.
fn words_at(alloc: Global, port: u16) -> Result<Vec<String>, AllocError> {
    let line = ["serve", "S", "--connections", "2", "--workers", "2"];
    let mut words = words_of(alloc, &line)?;
    words.push(format!(in alloc; "--port={port}")?)?;
    Ok(words)
}

/// Whether two clients are served at the port with these threads.
fn are_served_at<T: AllocGlobal + Threads + Wait + Sync>(
    rt: &HostRuntime,
    threads: &T,
    port: u16,
) -> Result<bool, AllocError> {
    let Ok(world) = TcpWorld::new(rt) else {
        return Ok(false);
    };
    let words = words_at(rt.alloc(), port)?;
    let mut folder = small_site(rt.alloc())?;
    Ok(are_served(rt, threads, &words, &mut folder, world, port))
}

#[test]
fn two_clients_are_served_over_sockets(rt: HostRuntime) {
    let port = free_port(&rt);
    assert!(rt; port.is_some(), "no port is free");
    let Some(port) = port else {
        return;
    };
    assert!(rt; are_served_at(&rt, &rt, port) == Ok(true));
}
