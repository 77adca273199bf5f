//! What a link keeps back, over a socket in memory.
ghost use Rattle.std.specs.Prelude.{◌≡◌, false};

use std::process::Abort;
use sws_link::{Link, LinkRead, LinkWrite};
use sws_net::{KeptLink, MemSocket};

/// A call of a link, with what it answers, and what its socket has been sent by then.
#[derive(Clone, Copy)]
enum Call {
    Write(&'static [u8], LinkWrite),
    Read(LinkRead),
    Sent(&'static [u8]),
}

/// A link whose peer sends three bytes, and whose sends take at most so many, the last of these
/// first. It holds answers or doesn't.
fn link_of(rt: &(impl AllocGlobal + Abort), rooms: &[usize], holds: bool) -> KeptLink<MemSocket>
    ensures { result.socket.is_shut ≡ false }
{
    let bytes = Vec::from_slice(rt.alloc(), b"abc").expect(rt, "memory");
    let rooms = Vec::from_slice(rt.alloc(), rooms).expect(rt, "memory");
    KeptLink::new(rt.alloc(), MemSocket::new(rt.alloc(), bytes, rooms), holds)
}

/// Makes a call, and says whether it answers so.
fn answers(link: &mut KeptLink<MemSocket>, call: Call) -> bool
    requires { link.old.socket.is_shut ≡ false }
    ensures { link.new.socket.is_shut ≡ false }
{
    match call {
        Call::Write(bytes, answer) if !bytes.is_empty() => link.write(bytes) == answer,
        Call::Write(..) => false,
        Call::Read(answer) => link.read(&mut [0; 8]) == answer,
        Call::Sent(bytes) => link.socket().sent() == bytes,
    }
}

/// Whether all of these calls answer so.
fn plays(link: &mut KeptLink<MemSocket>, calls: &[Call]) -> bool
    requires { link.old.socket.is_shut ≡ false }
    ensures { link.new.socket.is_shut ≡ false }
{
    'calls: for call in calls {
        if !answers(link, *call) {
            return false;
        }
    }
    true
}

/// Whether a link answers these calls so, and its end, with which this goes, is told.
fn ends_so(link: &mut KeptLink<MemSocket>, calls: &[Call], last: &[u8]) -> bool
    requires { link.old.socket.is_shut ≡ false }
{
    let is_played = plays(link, calls);
    link.shut();
    is_played && link.socket().is_shut() && link.socket().last() == last
}

/// What is called, the rooms of the socket, whether answers are held, the calls, and what goes with
/// the end.
static ROWS: [(&str, &[usize], bool, &[Call], &[u8]); 5] = [
    (
        "a head goes with its body",
        &[],
        false,
        &[
            Call::Write(b"head ", LinkWrite::Wrote(5)),
            Call::Sent(b""),
            Call::Write(b"body", LinkWrite::Wrote(4)),
            Call::Sent(b"head body"),
        ],
        b"",
    ),
    (
        "of a body what the socket took counts, and of a head that goes in two parts none of it",
        &[0, 3, 2],
        false,
        &[
            Call::Write(b"head ", LinkWrite::Wrote(5)),
            Call::Write(b"body", LinkWrite::NotReady),
            Call::Sent(b"he"),
            Call::Write(b"body", LinkWrite::NotReady),
            Call::Sent(b"head "),
            Call::Write(b"body", LinkWrite::NotReady),
            Call::Write(b"body", LinkWrite::Wrote(4)),
            Call::Sent(b"head body"),
        ],
        b"",
    ),
    (
        "a read hands what is kept on first, and reads only once all of it went",
        &[2, 3],
        false,
        &[
            Call::Write(b"head ", LinkWrite::Wrote(5)),
            Call::Read(LinkRead::NotReady),
            Call::Sent(b"hea"),
            Call::Read(LinkRead::Took(3)),
            Call::Sent(b"head "),
            Call::Read(LinkRead::End),
        ],
        b"",
    ),
    (
        "what is kept at the end goes with it, also where the socket is full",
        &[0],
        false,
        &[Call::Write(b"head ", LinkWrite::Wrote(5))],
        b"head ",
    ),
    (
        "answers that are held go together, with the read behind them",
        &[],
        true,
        &[
            Call::Write(b"head ", LinkWrite::Wrote(5)),
            Call::Write(b"body ", LinkWrite::Wrote(5)),
            Call::Write(b"more", LinkWrite::Wrote(4)),
            Call::Sent(b""),
            Call::Read(LinkRead::Took(3)),
            Call::Sent(b"head body more"),
        ],
        b"",
    ),
];

#[test]
fn a_link_keeps_heads_and_held_answers_back(rt: HostRuntime) {
    for &(what, rooms, holds, calls, last) in &ROWS {
        assert!(rt;
            ends_so(&mut link_of(&rt, rooms, holds), calls, last),
            "{what}"
        );
    }
}
