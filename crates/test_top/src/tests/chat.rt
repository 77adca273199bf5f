//! Who is shown what in a room over links in memory, and how each client's time in it ends.
//!
//! With one worker a run has one outcome. A guest whose link isn't ready often enough before it
//! speaks, and after, is in the room with the others, since the desk has all that wait go on in turn.
ghost use Rattle.std.specs.Prelude.{◌≤◌, length};
ghost use Rattle.std.specs.List.{AllByRecursion};
ghost use Rattle.sws_link.specs.MemWorlds.{IsInitialMemLink};
ghost use Rattle.sws_link.specs.Limits.{conn_limit};

use super::joined;
use example_chat_room::{Client, End, Part, run_chat};
use mely_actor::Ended;
use std::process::Abort;
use std::sync::Wait;
use std::thread::Threads;
use sws_link::{LinkItem, MemLink, MemWorld, Opened, World};

/// Bytes in pieces, each so often, one after another.
type Pieces = &'static [(&'static [u8], usize)];

/// No bytes.
const NOTHING: Pieces = &[];

/// What a guest does. Where it says nothing, it listens for as long as anybody speaks, or until its
/// link wasn't ready so often.
#[derive(Clone, Copy)]
enum Guest {
    Listens,
    LeavesAfter(u16),

    /// It says this so often over, in one piece, once its link wasn't ready so often, and stays.
    Says(u16, Pieces, usize),

    /// Its link fails once it wasn't ready so often.
    FailsAfter(u16),

    /// It takes so many bytes of what it is shown at a time.
    Takes(u32),
}

/// A room with one worker, what it comes to, and the words for that.
struct Case {
    is: &'static str,
    guests: &'static [Guest],

    /// The call of this number on the world fails.
    failing: Option<u32>,

    /// How many lines the room gets.
    lines: u64,

    /// How the time of each guest ends, and what it is shown.
    come: &'static [(End, Pieces)],
}

static CASES: [Case; 9] = [
    Case {
        is: "a line is shown to all others",
        guests: &[
            Guest::Says(20, &[(b"hi\n", 1)], 1),
            Guest::Listens,
            Guest::Listens,
        ],
        failing: None,
        lines: 1,
        come: &[
            (End::Left, &[]),
            (End::Left, &[(b"1: hi\n", 1)]),
            (End::Left, &[(b"1: hi\n", 1)]),
        ],
    },
    Case {
        is: "all are shown lines in one order",
        guests: &[
            Guest::Listens,
            Guest::Says(40, &[(b"b\nc\n", 1)], 1),
            Guest::Says(20, &[(b"a\n", 1)], 1),
            Guest::Listens,
        ],
        failing: None,
        lines: 3,
        come: &[
            (End::Left, &[(b"3: a\n2: b\n2: c\n", 1)]),
            (End::Left, &[(b"3: a\n", 1)]),
            (End::Left, &[(b"2: b\n2: c\n", 1)]),
            (End::Left, &[(b"3: a\n2: b\n2: c\n", 1)]),
        ],
    },
    Case {
        is: "who comes late is shown what comes then",
        guests: &[
            Guest::LeavesAfter(3),
            Guest::Says(20, &[(b"a\n", 1)], 1),
            Guest::Listens,
        ],
        failing: None,
        lines: 1,
        come: &[
            (End::Left, &[]),
            (End::Left, &[]),
            (End::Left, &[(b"2: a\n", 1)]),
        ],
    },
    Case {
        is: "what is behind the last line feed is dropped",
        guests: &[Guest::Says(20, &[(b"\na\r\nb", 1)], 1), Guest::Listens],
        failing: None,
        lines: 2,
        come: &[(End::Left, &[]), (End::Left, &[(b"1: \n1: a\r\n", 1)])],
    },
    Case {
        is: "who takes a byte at a time is shown all",
        guests: &[Guest::Says(20, &[(b"hi\nho\n", 1)], 1), Guest::Takes(1)],
        failing: None,
        lines: 2,
        come: &[(End::Left, &[]), (End::Left, &[(b"1: hi\n1: ho\n", 1)])],
    },
    Case {
        is: "a line has 512 bytes at most",
        guests: &[
            Guest::Says(20, &[(b"x", 512), (b"\n", 1)], 1),
            Guest::Says(40, &[(b"x", 513), (b"\n", 1)], 1),
            Guest::Listens,
        ],
        failing: None,
        lines: 1,
        come: &[
            (End::Left, &[]),
            (End::LongLine, &[(b"1: ", 1), (b"x", 512), (b"\n", 1)]),
            (End::Left, &[(b"1: ", 1), (b"x", 512), (b"\n", 1)]),
        ],
    },
    // 130 lines of 504 bytes are no more than 64 KiB, and 131 are more.
    Case {
        is: "who takes nothing is dropped where more than 64 KiB are on their way",
        guests: &[
            Guest::Says(20, &[(b"x", 500), (b"\n", 1)], 131),
            Guest::Takes(0),
        ],
        failing: None,
        lines: 131,
        come: &[(End::Left, &[]), (End::Slow, &[])],
    },
    Case {
        is: "a link that fails ends its client alone",
        guests: &[
            Guest::Says(20, &[(b"a\n", 1)], 1),
            Guest::FailsAfter(40),
            Guest::Says(60, &[(b"b\n", 1)], 1),
        ],
        failing: None,
        lines: 2,
        come: &[
            (End::Left, &[(b"3: b\n", 1)]),
            (End::Fault, &[(b"1: a\n", 1)]),
            (End::Left, &[(b"1: a\n", 1)]),
        ],
    },
    // The clients that wait are dropped, one after another.
    Case {
        is: "a world that fails ends all",
        guests: &[Guest::Listens, Guest::Listens],
        failing: Some(20),
        lines: 0,
        come: &[(End::Fault, &[]), (End::Fault, &[])],
    },
];

/// What the link of a guest gives.
fn items_of(rt: &(impl AllocGlobal + Abort), guest: &Guest) -> Vec<LinkItem> {
    let (before, says, times, after) = match *guest {
        Guest::Listens => (0, NOTHING, 1, 200),
        Guest::LeavesAfter(after) => (0, NOTHING, 1, after),
        Guest::Says(before, says, times) => (before, says, times, 100),
        Guest::FailsAfter(after) => (0, NOTHING, 1, after),
        Guest::Takes(_) => (0, NOTHING, 1, 200),
    };
    let said = joined(rt, says)
        .repeat(rt.alloc(), times)
        .expect(rt, "memory");
    let mut items = Vec::new(rt.alloc());
    items.push(LinkItem::Wait(before)).expect(rt, "memory");
    items.push(LinkItem::Bytes(said)).expect(rt, "memory");
    items.push(LinkItem::Wait(after)).expect(rt, "memory");
    if let Guest::FailsAfter(_) = *guest {
        items.push(LinkItem::Fail).expect(rt, "memory");
    }
    items
}

/// The link of a guest.
fn link_of(rt: &(impl AllocGlobal + Abort), guest: &Guest) -> MemLink
    ensures { IsInitialMemLink result }
{
    let takes = match *guest {
        Guest::Takes(bytes) => Some(bytes),
        _ => None,
    };
    let items = items_of(rt, guest);
    MemLink::new(rt.alloc(), items, takes, None, Vec::new(rt.alloc()))
}

/// The links of these guests.
fn links_of(rt: &(impl AllocGlobal + Abort), guests: &[Guest]) -> Vec<MemLink>
    ensures few { length result.items ≤ conn_limit }
    ensures initial { AllByRecursion IsInitialMemLink result.items }
{
    let mut links = Vec::new(rt.alloc());
    'guests: for guest in guests {
        links.push(link_of(rt, guest)).expect(rt, "memory");
    }
    assert!(rt; links.len() <= 1024);
    links
}

/// The calls on the world that fail.
fn calls_of(rt: &(impl AllocGlobal + Abort), failing: Option<u32>) -> Vec<u32> {
    let mut calls = Vec::new(rt.alloc());
    if let Some(number) = failing {
        calls.push(number).expect(rt, "memory");
    }
    calls
}

/// What a room with these guests comes to. The call of this number on the world fails.
fn talk(
    rt: &(impl AllocGlobal + Abort + Threads + Wait + Sync),
    workers: u16,
    guests: &[Guest],
    failing: Option<u32>,
) -> Ended<Part<MemWorld, MemLink>>
    requires some { 1 ≤ workers }
    requires few { workers ≤ 64 }
{
    let links = links_of(rt, guests);
    let count = links.len() as u16;
    let mut world = MemWorld::new(links, calls_of(rt, failing));
    if world.open(80, count) != Opened::Ready {
        panic!(rt; "the world isn't open");
    }
    match run_chat(rt, rt.alloc(), workers, world) {
        Ok(ended) => ended,
        Err(_) => panic!(rt; "no memory"),
    }
}

/// What a client that is gone was shown.
fn shown_to(client: &Client<MemLink>) -> &[u8] {
    match client.gone() {
        Some(link) => link.written(),
        None => b"",
    }
}

/// Whether a client has come to what it is to.
fn is_shown(
    rt: &(impl AllocGlobal + Abort),
    client: &Client<MemLink>,
    end: End,
    shown: Pieces,
) -> bool {
    client.end() == Some(end) && shown_to(client) == joined(rt, shown).as_slice()
}

/// Whether this is as a case has it, of whose guests so many were seen.
fn is_so(
    rt: &(impl AllocGlobal + Abort),
    part: &Part<MemWorld, MemLink>,
    case: &Case,
    seen: &mut usize,
) -> bool {
    match part {
        Part::Desk(_) => true,
        Part::Room(room) => room.lines() == case.lines,
        Part::Client(client) => {
            let number = *seen;
            *seen = number.wrapping_add(1);
            match case.come.get(number) {
                Some(&(end, shown)) => is_shown(rt, client, end, shown),
                None => false,
            }
        }
    }
}

/// Whether a room comes to what it is to.
fn comes_so(rt: &(impl AllocGlobal + Abort + Threads + Wait + Sync), case: &Case) -> bool {
    let ended = talk(rt, 1, case.guests, case.failing);
    let mut seen = 0;
    for part in &ended.values {
        if !is_so(rt, part, case, &mut seen) {
            return false;
        }
    }
    seen == case.come.len()
}

#[test]
fn each_room_comes_to_what_it_is_to(rt: HostRuntime) {
    for case in &CASES {
        let is = case.is;
        assert!(rt; comes_so(&rt, case), "{is}");
    }
}

/// Guests who all speak at once.
static EIGHT: [Guest; 8] = [
    Guest::Says(5, &[(b"a\nb\nc\n", 1)], 1),
    Guest::Says(5, &[(b"a\nb\nc\n", 1)], 1),
    Guest::Says(5, &[(b"a\nb\nc\n", 1)], 1),
    Guest::Says(5, &[(b"a\nb\nc\n", 1)], 1),
    Guest::Says(5, &[(b"a\nb\nc\n", 1)], 1),
    Guest::Says(5, &[(b"a\nb\nc\n", 1)], 1),
    Guest::Says(5, &[(b"a\nb\nc\n", 1)], 1),
    Guest::Says(5, &[(b"a\nb\nc\n", 1)], 1),
];

/// Whether this is whole lines of others than the guest of this digit.
fn is_of_others(shown: &[u8], own: u8) -> bool {
    if shown.len() % 5 != 0 {
        return false;
    }
    for line in shown.chunks(5) {
        let is_other = line[0] != own && (b'1'..=b'8').contains(&line[0]);
        let is_said = line[1] == b':' && line[2] == b' ' && (b'a'..=b'c').contains(&line[3]);
        if !is_other || !is_said || line[4] != b'\n' {
            return false;
        }
    }
    true
}

/// Whether this is right in a room where each of eight guests says three lines, the last of whom that
/// was seen has this digit.
fn is_right(part: &Part<MemWorld, MemLink>, last: &mut u8) -> bool {
    match part {
        Part::Desk(_) => true,
        Part::Room(room) => room.lines() == 24,
        Part::Client(client) => {
            *last = last.wrapping_add(1);
            client.end() == Some(End::Left) && is_of_others(shown_to(client), *last)
        }
    }
}

/// Whether each of the eight is shown lines of others alone, on so many workers.
fn are_shown_others(rt: &(impl AllocGlobal + Abort + Threads + Wait + Sync), workers: u16) -> bool
    requires some { 1 ≤ workers }
    requires few { workers ≤ 64 }
{
    let ended = talk(rt, workers, &EIGHT, None);
    let mut last = b'0';
    for part in &ended.values {
        if !is_right(part, &mut last) {
            return false;
        }
    }
    last == b'8'
}

/// On threads it isn't said who is there when a line comes. Each is shown whole lines of others.
#[test]
fn nobody_is_shown_a_line_of_its_own(rt: HostRuntime) {
    for workers in 1..=4 {
        assert!(rt; are_shown_others(&rt, workers), "{workers} workers");
    }
}
