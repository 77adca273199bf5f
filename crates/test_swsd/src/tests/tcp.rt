//! A world over TCP and its links, with clients on this machine.
ghost use Rattle.std.specs.Prelude.{◌≡◌};
ghost use Rattle.sws_net.specs.Initial.{IsOpen};

use std::alloc::Global;
use std::io::{Read, Write};
use std::net::{Ipv4Addr, Shutdown, TcpStream};
use std::process::Abort;
use sws_link::{Accepted, Link, LinkRead, LinkWrite, Opened, Polled, World};
use sws_net::{TcpLink, TcpWorld};

/// The first port that is tried, and how many are.
const FIRST_PORT: u16 = 28_400;

const PORTS: u16 = 100;

/// How often a call is made again that finds nothing yet.
const TRIES: u32 = 1000;

fn goes_to_a_thread<T: Send>(value: T) -> T
    ensures { result ≡ value }
{
    value
}

/// A world of this machine's sockets.
pub fn world_of<'r>(rt: &'r HostRuntime, stop: &impl Abort) -> TcpWorld<'r> {
    goes_to_a_thread(TcpWorld::new(rt).expect(stop, "memory"))
}

/// Opens the world for so many links at the first port that is free, and answers that.
pub fn open_somewhere(stop: &impl Abort, world: &mut TcpWorld<'_>, total: u16) -> u16 {
    for place in 0..PORTS {
        let port = FIRST_PORT + place;
        if world.open(port, total) == Opened::Ready {
            return port;
        }
    }
    panic!(stop; "no port is free");
}

/// A client of the world, which sends this.
pub fn client_of(rt: &HostRuntime, stop: &impl Abort, port: u16, bytes: &[u8]) -> TcpStream {
    let client = TcpStream::connect(rt, (Ipv4Addr::LOCALHOST, port)).expect(stop, "a connection");
    send(stop, &client, bytes);
    client
}

/// The client sends this.
pub fn send(stop: &impl Abort, mut client: &TcpStream, bytes: &[u8]) {
    client.write_all(bytes).expect(stop, "a write");
}

/// Whether this comes to the client until the connection ends.
pub fn gets_all(alloc: Global, mut client: &TcpStream, bytes: &[u8]) -> bool {
    let mut back = Vec::new(alloc);
    client.read_to_end(&mut back).is_ok() && back.as_slice() == bytes
}

/// The next link.
pub fn next_link(stop: &impl Abort, world: &mut TcpWorld<'_>) -> TcpLink
    ensures { IsOpen result }
{
    for _ in 0..TRIES {
        if !world.has_more() {
            panic!(stop; "no link is left");
        }
        if let Accepted::Link(link) = world.accept() {
            return link;
        }
    }
    panic!(stop; "no link comes");
}

/// Polls the waiting links until something is said of them, or, where that is sought, nothing.
pub fn poll_until(world: &mut TcpWorld<'_>, waiting: &[u16], is_quiet: bool) -> Polled {
    for _ in 0..TRIES {
        let polled = world.poll(waiting);
        if matches!(polled, Polled::Quiet) == is_quiet {
            return polled;
        }
    }
    Polled::Quiet
}

/// Reads, and once more where the first answer is that nothing has come: after a read that came up
/// short the next one doesn't ask the machine.
pub fn read_some(link: &mut TcpLink, room: &mut [u8; 8]) -> LinkRead
    requires { IsOpen link.old }
    ensures { IsOpen link.new }
{
    match link.read(room) {
        LinkRead::NotReady => link.read(room),
        answer => answer,
    }
}

/// Whether a read that is made again answers so, and gives these bytes first.
fn reads(link: &mut TcpLink, answer: LinkRead, bytes: &[u8]) -> bool
    requires { IsOpen link.old }
    ensures { IsOpen link.new }
{
    let mut room = [0; 8];
    read_some(link, &mut room) == answer && room.starts_with(bytes)
}

/// Whether one read answers so.
pub fn reads_once(link: &mut TcpLink, answer: LinkRead) -> bool
    requires { IsOpen link.old }
    ensures { IsOpen link.new }
{
    link.read(&mut [0; 8]) == answer
}

/// Whether a piece is written at once.
pub fn writes(link: &mut TcpLink, bytes: &[u8]) -> bool
    requires { IsOpen link.old }
    ensures { IsOpen link.new }
{
    !bytes.is_empty() && link.write(bytes) == LinkWrite::Wrote(bytes.len())
}

/// Whether a link gives these three bytes and its end, takes an answer in two pieces, and is shut.
fn is_read_and_written(mut link: TcpLink) -> bool
    requires { IsOpen link }
{
    let is_read = reads(&mut link, LinkRead::Took(3), b"abc")
        && reads(&mut link, LinkRead::End, b"");
    let is_written = writes(&mut link, b"head ") && writes(&mut link, b"body");
    link.shut();
    is_read && is_written
}

/// A client that sends three bytes and no more gets what is written, in two pieces.
#[test]
fn a_link_reads_and_writes(rt: HostRuntime) {
    let mut world = world_of(&rt, &rt);
    let port = open_somewhere(&rt, &mut world, 1);
    assert!(rt; world.total() == 1);
    let client = client_of(&rt, &rt, port, b"abc");
    assert!(rt; client.shutdown(Shutdown::Write).is_ok());
    let link = goes_to_a_thread(next_link(&rt, &mut world));
    assert!(rt; !world.has_more() && is_read_and_written(link));
    assert!(rt; gets_all(rt.alloc(), &client, b"head body"));
}

/// Whether the link of a client that has sent more than is read is written this, and shut.
pub fn is_refused(mut link: TcpLink, answer: &[u8]) -> bool
    requires { IsOpen link }
{
    let is_read = reads(&mut link, LinkRead::Took(8), b"");
    let is_written = writes(&mut link, answer);
    link.shut();
    is_read && is_written
}

/// Whether these two bytes are the next that come to the client.
fn gets_two(mut client: &TcpStream, bytes: &[u8; 2]) -> bool {
    let mut back = [0; 2];
    client.read_exact(&mut back).is_ok() && back == *bytes
}

/// A client that sends more than is read has the whole answer before its connection ends.
#[test]
fn the_last_answer_is_not_lost(rt: HostRuntime) {
    let mut world = world_of(&rt, &rt);
    let port = open_somewhere(&rt, &mut world, 1);
    let client = client_of(&rt, &rt, port, &[b'x'; 30_000]);
    let link = next_link(&rt, &mut world);
    assert!(rt; is_refused(link, b"no") && gets_two(&client, b"no"));
}

/// Whether of two links the one is named that has something.
fn is_lively_named(
    stop: &impl Abort,
    world: &mut TcpWorld<'_>,
    client: &TcpStream,
    link: &mut TcpLink,
) -> bool
    requires { IsOpen link.old }
    ensures { IsOpen link.new }
{
    send(stop, client, b"now");
    poll_until(world, &[0, 1], false) == Polled::Ready(1) && reads_once(link, LinkRead::Took(3))
}

/// Nobody is ready where nothing came, a link that is silent for a second counts as ready, and the
/// one of several that has something is named.
#[test]
fn the_world_names_who_is_ready(rt: HostRuntime) {
    let mut world = world_of(&rt, &rt);
    let port = open_somewhere(&rt, &mut world, 2);
    assert!(rt; world.poll(&[]) == Polled::Quiet);
    let first = client_of(&rt, &rt, port, b"");
    let mut silent = next_link(&rt, &mut world);
    let second = client_of(&rt, &rt, port, b"");
    let mut lively = next_link(&rt, &mut world);
    // Each link is looked at once: a socket that was just registered shows that it can be written to.
    let _ = poll_until(&mut world, &[0, 1], true);
    assert!(rt; reads_once(&mut silent, LinkRead::NotReady));
    assert!(rt; reads_once(&mut lively, LinkRead::NotReady));
    assert!(rt; is_lively_named(&rt, &mut world, &second, &mut lively));
    lively.shut();
    assert!(rt; poll_until(&mut world, &[0], false) == Polled::Ready(0));
    silent.shut();
    drop(first);
}

/// A port that is taken isn't opened, and a world that wasn't opened has no link to give.
#[test]
fn a_port_is_opened_once(rt: HostRuntime) {
    let mut world = world_of(&rt, &rt);
    let port = open_somewhere(&rt, &mut world, 1);
    let mut other = world_of(&rt, &rt);
    assert!(rt; other.open(port, 1) == Opened::Failed);
    assert!(rt; other.total() == 0 && !other.has_more());
}
