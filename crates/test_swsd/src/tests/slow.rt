//! Clients that read slowly, send while they don't read, or send what nobody reads.
ghost use Rattle.std.specs.Prelude.{◌≡◌};
ghost use Rattle.sws_net.specs.Initial.{IsOpen};

use super::tcp::{
    client_of, gets_all, is_refused, next_link, open_somewhere, poll_until, reads_once, send,
    world_of, writes,
};
use std::io::{self, ErrorKind, Read, Write};
use std::net::{Shutdown, TcpStream};
use std::process::Abort;
use sws_link::{Link, LinkRead, LinkWrite, Polled, World};
use sws_net::{TcpLink, TcpWorld};

/// The bytes of a large body.
const LARGE: usize = 8 * 1024 * 1024;

/// How many pieces a client reads at most.
const PIECES: u32 = 100_000;

/// Writes the rest of the bytes as far as the link takes them, and answers how many went.
fn write_some(link: &mut TcpLink, bytes: &[u8], from: usize) -> Option<usize>
    requires { IsOpen link.old }
    ensures { IsOpen link.new }
{
    let rest = bytes.get(from..)?;
    if rest.is_empty() {
        return None;
    }
    match link.write(rest) {
        LinkWrite::Wrote(count) => Some(from.saturating_add(count)),
        LinkWrite::NotReady => Some(from),
        _ => None,
    }
}

/// Takes a piece of what has come, which is to be of the body, and answers how much that is.
fn take_some(stop: &impl Abort, mut client: &TcpStream) -> usize {
    let mut room = [0; 65_536];
    let count = client.read(&mut room).expect(stop, "a read");
    for byte in room.get(..count).unwrap_or(&[]) {
        assert!(stop; *byte == b'b', "it is of the body");
    }
    count
}

/// Writes a body, while the client reads a piece each time the link takes no more, and answers how much
/// it has read.
fn take_while_written(
    stop: &impl Abort,
    link: &mut TcpLink,
    client: &TcpStream,
    body: &[u8],
) -> usize
    requires { IsOpen link.old }
    ensures { IsOpen link.new }
{
    let mut sent = 0;
    let mut got = 0usize;
    'pieces: for _ in 0..PIECES {
        let Some(now) = write_some(link, body, sent) else {
            break;
        };
        if now == sent {
            got = got.saturating_add(take_some(stop, client));
        }
        sent = now;
    }
    got
}

/// How much the client reads until the connection ends.
fn take_rest(stop: &impl Abort, client: &TcpStream) -> usize {
    let mut got = 0usize;
    for _ in 0..PIECES {
        let count = take_some(stop, client);
        if count == 0 {
            break;
        }
        got = got.saturating_add(count);
    }
    got
}

/// How much of a body a client gets that reads a piece each time the link takes no more.
fn got_slowly(stop: &impl Abort, mut link: TcpLink, client: &TcpStream, body: &[u8]) -> usize
    requires { IsOpen link }
{
    let got = take_while_written(stop, &mut link, client, body);
    link.shut();
    got.saturating_add(take_rest(stop, client))
}

#[test]
fn a_slow_reader_gets_a_large_body(rt: HostRuntime) {
    let mut world = world_of(&rt, &rt);
    let port = open_somewhere(&rt, &mut world, 1);
    let client = client_of(&rt, &rt, port, b"");
    let link = next_link(&rt, &mut world);
    let body = b"b".repeat(rt.alloc(), LARGE).expect(&rt, "memory");
    assert!(rt; got_slowly(&rt, link, &client, &body) == LARGE);
}

/// Fills the link, so that it waits to write.
fn fill(link: &mut TcpLink, piece: &[u8])
    requires { IsOpen link.old }
    ensures { IsOpen link.new }
{
    'pieces: for _ in 0..PIECES {
        if write_some(link, piece, 0) == Some(0) {
            break;
        }
    }
}

/// How often the first link is named as ready, where its client sends a byte each time.
fn named(stop: &impl Abort, world: &mut TcpWorld<'_>, client: &TcpStream) -> u32 {
    let mut named = 0u32;
    for _ in 0..40 {
        send(stop, client, b"x");
        if world.poll(&[0]) == Polled::Ready(0) {
            named = named.saturating_add(1);
        }
    }
    named
}

/// What a client sends while it doesn't read is no sign of life for a link that waits to write. It may
/// have shown before it was full that it would take bytes.
#[test]
fn what_is_sent_wakes_no_link_that_waits_to_write(rt: HostRuntime) {
    let mut world = world_of(&rt, &rt);
    let port = open_somewhere(&rt, &mut world, 1);
    let client = client_of(&rt, &rt, port, b"");
    let mut link = next_link(&rt, &mut world);
    fill(&mut link, &[b'b'; 65_536]);
    assert!(rt; named(&rt, &mut world, &client) <= 1);
    link.shut();
}

/// Sends so many bytes, while the world sees the connection out; it fails where the connection does.
fn send_all(mut client: &TcpStream, world: &mut TcpWorld<'_>, count: usize) -> io::Result<()> {
    let room = [b'x'; 4096];
    let mut left = count;
    for _ in 0..PIECES {
        if left == 0 {
            return Ok(());
        }
        let piece = room.get(..left.min(4096)).unwrap_or(&[]);
        match client.write(piece) {
            Ok(taken) => left = left.saturating_sub(taken),
            Err(error) if error.kind() == ErrorKind::WouldBlock => {
                let _ = world.poll(&[]);
            }
            Err(error) => return Err(error),
        }
    }
    Err(io::Error::from(ErrorKind::TimedOut))
}

/// Sends a megabyte, and ends its side.
fn send_megabyte(client: &TcpStream, world: &mut TcpWorld<'_>) -> io::Result<()> {
    client.set_nonblocking(true)?;
    send_all(client, world, 1024 * 1024)?;
    client.set_nonblocking(false)?;
    client.shutdown(Shutdown::Write)
}

/// A client that is refused, and goes on sending a megabyte before it ends its side, gets the whole
/// answer.
#[test]
fn a_refusal_reaches_a_client_that_sends(rt: HostRuntime) {
    let mut world = world_of(&rt, &rt);
    let port = open_somewhere(&rt, &mut world, 1);
    let client = client_of(&rt, &rt, port, b"POST / HTTP/1.1");
    let link = next_link(&rt, &mut world);
    assert!(rt; is_refused(link, b"refused"));
    assert!(rt; send_megabyte(&client, &mut world).is_ok());
    assert!(rt; gets_all(rt.alloc(), &client, b"refused"));
}

/// Whether this is the next that comes to the client.
fn gets_answer(mut client: &TcpStream) -> bool {
    let mut back = [0; 6];
    client.read_exact(&mut back).is_ok() && back == *b"answer"
}

/// Whether a link is read and answered.
fn is_answered(link: &mut TcpLink, client: &TcpStream) -> bool
    requires { IsOpen link.old }
    ensures { IsOpen link.new }
{
    let is_read = reads_once(link, LinkRead::Took(3)) && reads_once(link, LinkRead::NotReady);
    let is_written = writes(link, b"answer") && reads_once(link, LinkRead::NotReady);
    is_read && is_written && gets_answer(client)
}

/// How often a client that asks is named of three, read and answered, of twenty times.
fn answered_of_three(
    stop: &impl Abort,
    world: &mut TcpWorld<'_>,
    link: &mut TcpLink,
    client: &TcpStream,
) -> u32
    requires { IsOpen link.old }
    ensures { IsOpen link.new }
{
    let mut count = 0u32;
    'asks: for _ in 0..20 {
        send(stop, client, b"ask");
        let is_named = poll_until(world, &[0, 1, 2], false) == Polled::Ready(2);
        if is_answered(link, client) && is_named {
            count = count.saturating_add(1);
        }
    }
    count
}

/// Two clients that say nothing keep nobody waiting: the third is named as soon as it sends.
#[test]
fn silent_clients_hold_up_nobody(rt: HostRuntime) {
    let mut world = world_of(&rt, &rt);
    let port = open_somewhere(&rt, &mut world, 3);
    let first = client_of(&rt, &rt, port, b"");
    let second = client_of(&rt, &rt, port, b"");
    let busy = client_of(&rt, &rt, port, b"");
    let _one = next_link(&rt, &mut world);
    let _two = next_link(&rt, &mut world);
    let mut link = next_link(&rt, &mut world);
    assert!(rt; answered_of_three(&rt, &mut world, &mut link, &busy) == 20);
    drop(first);
    drop(second);
}

/// A client that is gone before it is accepted is a link at its end, and the next one is served.
#[test]
fn a_client_that_is_gone_keeps_nobody_out(rt: HostRuntime) {
    let mut world = world_of(&rt, &rt);
    let port = open_somewhere(&rt, &mut world, 2);
    drop(client_of(&rt, &rt, port, b""));
    let _second = client_of(&rt, &rt, port, b"abc");
    let mut gone = next_link(&rt, &mut world);
    let mut link = next_link(&rt, &mut world);
    assert!(rt; reads_once(&mut gone, LinkRead::End));
    gone.shut();
    assert!(rt; reads_once(&mut link, LinkRead::Took(3)));
    link.shut();
}
