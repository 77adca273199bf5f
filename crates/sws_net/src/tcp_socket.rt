//! A socket of the machine.
ghost use Rattle.std.specs.Prelude.{◌≡◌, ◌<◌, ◌≤◌, ◌++◌, None, true, not, is_some, IfOk, length};
ghost use Rattle.sws_link.specs.Links.{IsReadWithin};
ghost use Rattle.sws_net.specs.Initial.{IsOpenSocket};

use crate::errors::is_not_yet;
use crate::lobby::{Presence, Way};
use crate::preface::{Client, Met, Preface};
use crate::socket::Socket;
use mio::net::TcpStream;
use std::io::{self, IoSlice, Read, Write};
use std::net::SocketAddr;
use sws_link::{LinkRead, LinkWrite};

/// The machine's socket, and that it is there.
#[derive(Drop)]
struct Open {
    stream: TcpStream,
    presence: Presence,
}

/// A socket that doesn't block, of whose bytes nothing is known.
///
/// **A read that came up short isn't tried again at once.** Where the machine gave fewer bytes
/// than there was room for, it had no more, so that the next read is answered without asking it.
/// No wake-up is lost by this: the socket is registered edge-triggered, so what comes after that
/// short read is a new edge, which the world reports and remembers until the link waits. Only
/// the end of the input may have come together with those last bytes. Then there is no new edge;
/// but then the edge that brought them said so too. If the world has seen that edge, the lobby
/// says that the peer has hung up, and the machine is asked. If it has not, it is still to see
/// it, and wakes the link.
///
/// **Between two requests the world may end it.** Where all that was to be sent was taken, nothing has
/// come since, and what came before ended with an empty line, as whole requests do, a socket that the
/// world has told to end asks the machine once more, and is at its end where nothing has come: so no
/// answer is lost, and no request that had arrived (RFC 9112, section 9.6).
///
/// **A proxy's connection begins with a header** of the PROXY protocol, which is read before the first
/// byte is given; none of its bytes is. Where it is none, the socket fails, and where the peer ends
/// within it or its client isn't let in, the socket is at its end.
///
/// **The last answer isn't lost, and nobody is held up by it.** The end hands the socket to the
/// world, which hands over the last bytes, says that no more comes, and takes what the peer still
/// sends for a while ([`Leaving`](crate::leaving::Leaving)).
#[derive(Drop)]
pub struct TcpSocket {
    open: Option<Open>,

    /// The header that comes first, where one does.
    preface: Option<Preface>,

    /// Whether the last read came up short.
    is_drained: bool,

    /// Whether all input was taken.
    has_ended: bool,

    /// Whether what was taken last ended with an empty line, or nothing was taken yet.
    is_whole: bool,

    /// Whether it is between two requests: something was sent behind the last piece, which was whole,
    /// or nothing was taken yet.
    is_between: bool,
}

/// Two pieces of so many bytes in all at most are copied together: that costs less than a call of
/// the system with two.
const FEW: usize = 512;

/// Hands two pieces of few bytes to the machine as one, of which it takes some.
fn send_joined(stream: &TcpStream, first: &[u8], second: &[u8]) -> io::Result<usize>
    requires few { length (first.now ++ second.now) ≤ 512 }
    ensures { IfOk result (λ count. count ≤ length (first.now ++ second.now)) }
{
    let mut joined = [0; FEW];
    let (front, behind) = joined.split_at_mut(first.len());
    front.copy_from_slice(first);
    behind[..second.len()].copy_from_slice(second);
    (&mut &*stream).write(&joined[..first.len() + second.len()])
}

/// Hands two pieces to the machine, which takes some of them.
fn send_parts(stream: &TcpStream, first: &[u8], second: &[u8]) -> io::Result<usize>
    ensures { IfOk result (λ count. count ≤ length (first.now ++ second.now)) }
{
    if second.is_empty() {
        return (&mut &*stream).write(first);
    }
    if first.len() <= FEW && second.len() <= FEW - first.len() {
        return send_joined(stream, first, second);
    }
    let parts = [IoSlice::new(first), IoSlice::new(second)];
    stream.write_vectored(&parts)
}

/// Whether these bytes end with an empty line.
fn ends_with_empty_line(bytes: &[u8]) -> bool {
    bytes.ends_with(b"\n\r\n") || bytes.ends_with(b"\n\n")
}

/// The answer to a read that doesn't get beyond the header, where it doesn't.
fn answer_before(preface: &mut Option<Preface>, open: &Open) -> Option<LinkRead> {
    let presence = &open.presence;
    let Some(preface) = preface else {
        return None;
    };
    match preface.go_on(&open.stream, presence) {
        Met::Over => None,
        Met::Nothing if presence.is_retired() => Some(LinkRead::End),
        Met::Nothing => {
            wait_to_read(presence, true);
            Some(LinkRead::NotReady)
        }
        Met::Begun => {
            wait_to_read(presence, false);
            Some(LinkRead::NotReady)
        }
        Met::Ended => Some(LinkRead::End),
        Met::Failed => Some(LinkRead::Failed),
    }
}

/// Notes that the link waits to read, and whether it does so between two requests.
fn wait_to_read(presence: &Presence, is_between: bool) {
    presence.rest(is_between);
    presence.wait_for(Way::Reading);
}

impl TcpSocket {
    /// A socket that doesn't block, on which a header comes first or doesn't.
    pub fn new(stream: TcpStream, presence: Presence, preface: Option<Preface>) -> TcpSocket
        ensures { IsOpenSocket result }
    {
        TcpSocket {
            open: Some(Open { stream, presence }),
            preface,
            is_drained: false,
            has_ended: false,
            is_whole: true,
            is_between: true,
        }
    }

    /// The address of the peer, where the machine knows it and the connection wasn't ended.
    fn peer(&self) -> Option<SocketAddr> {
        match &self.open {
            Some(open) => open.stream.peer_addr().ok(),
            None => None,
        }
    }

    /// Who is at the other end, unless the connection was ended.
    pub fn client(&self) -> Client {
        let peer = match self.peer() {
            Some(peer) => Some(peer.ip()),
            None => None,
        };
        Client::of(peer, &self.preface)
    }

    /// The number of its link, unless the connection was ended.
    pub fn number(&self) -> Option<u16> {
        match &self.open {
            Some(open) => Some(open.presence.number()),
            None => None,
        }
    }

    /// Takes what has come, behind the header.
    fn take(&mut self, into: &mut [u8]) -> LinkRead
        requires room { 0 < length into.old }
        requires not_shut { is_some self.old.open ≡ true }
        ensures fits { IsReadWithin result (length into.old) }
        ensures not_shut { is_some self.new.open ≡ true }
    {
        let Some(open) = &self.open else {
            unreachable!()
        };
        let may_end = self.is_between && open.presence.is_retired();
        if self.is_drained && !may_end && !open.presence.has_hung_up() {
            self.is_drained = false;
            wait_to_read(&open.presence, self.is_between);
            return LinkRead::NotReady;
        }
        match (&mut &open.stream).read(into) {
            Ok(0) => {
                self.has_ended = true;
                LinkRead::End
            }
            Ok(count) => {
                open.presence.note_moved(count);
                open.presence.rest(false);
                self.is_whole = ends_with_empty_line(&into[..count]);
                self.is_between = false;
                self.is_drained = count < into.len();
                LinkRead::Took(count)
            }
            Err(error) if is_not_yet(&error) => {
                if may_end {
                    return LinkRead::End;
                }
                wait_to_read(&open.presence, self.is_between);
                LinkRead::NotReady
            }
            Err(_) => LinkRead::Failed,
        }
    }
}

impl Socket for TcpSocket {
    ghost tells = { λ _. None };

    ghost is_shut = { λ socket. not (is_some socket.open) };

    fn receive(&mut self, into: &mut [u8]) -> LinkRead {
        let Some(open) = &self.open else {
            unreachable!()
        };
        if open.presence.is_cut() {
            return LinkRead::Failed;
        }
        match answer_before(&mut self.preface, open) {
            None => self.take(into),
            Some(LinkRead::End) => LinkRead::End,
            Some(LinkRead::NotReady) => LinkRead::NotReady,
            Some(_) => LinkRead::Failed,
        }
    }

    fn send(&mut self, first: &[u8], second: &[u8]) -> LinkWrite {
        let Some(open) = &self.open else {
            unreachable!()
        };
        if open.presence.is_cut() {
            return LinkWrite::Failed;
        }
        match send_parts(&open.stream, first, second) {
            Ok(0) => {
                open.presence.wait_for(Way::Writing);
                LinkWrite::NotReady
            }
            Ok(count) => {
                open.presence.note_moved(count);
                self.is_between = self.is_whole;
                if count < first.len() + second.len() {
                    // What is left waits for the same.
                    open.presence.wait_for(Way::Writing);
                }
                LinkWrite::Wrote(count)
            }
            Err(error) if is_not_yet(&error) => {
                open.presence.wait_for(Way::Writing);
                LinkWrite::NotReady
            }
            Err(_) => LinkWrite::Failed,
        }
    }

    fn finish(&mut self, last: &[u8]) {
        let Some(open) = self.open.take() else {
            unreachable!()
        };
        self.preface = None;
        let Open { stream, presence } = open;
        presence.leave(stream, last, self.has_ended);
    }
}
