//! What the worlds in memory give with ample memory.
ghost use Rattle.std.specs.Prelude.{◌≡◌, ◌<◌, ◌≤◌, ◌+◌};
ghost use Rattle.sws_link.specs.MemWorlds.{mem_world_tells, sure_world_tells};

use super::{Item, calls_of, failing_link, sure_link};
use std::process::Abort;
use sws_link::{Accepted, Link, LinkRead, MemWorld, Opened, Polled, SureWorld, World};

/// A world of a link with one byte to read, and one with two, whose calls of these numbers fail.
fn two_links(rt: &(impl AllocGlobal + Abort), failing: &[u32]) -> MemWorld
    ensures total { (mem_world_tells result).total ≡ 2 }
    ensures accepted { (mem_world_tells result).accepted ≡ 0 }
{
    let mut links = Vec::new(rt.alloc());
    links
        .push(failing_link(rt, &[Item::Fill(1)], &[]))
        .expect(rt, "memory");
    links
        .push(failing_link(rt, &[Item::Fill(2)], &[]))
        .expect(rt, "memory");
    MemWorld::new(links, calls_of(rt, failing))
}

/// A world without faults, of the first of these.
fn one_link(rt: &(impl AllocGlobal + Abort)) -> SureWorld
    ensures total { (sure_world_tells result).total ≡ 1 }
    ensures accepted { (sure_world_tells result).accepted ≡ 0 }
{
    let mut links = Vec::new(rt.alloc());
    links
        .push(sure_link(rt, b"", 0, 1, None))
        .expect(rt, "memory");
    SureWorld::new(links)
}

/// A call of a world, with what it answers.
#[derive(Clone, Copy)]
enum Call {
    /// A poll of these that wait.
    Poll(&'static [u16], Polled),

    /// A first read of the next link, if that comes.
    Read(Option<LinkRead>),

    /// An opening for so many links.
    Open(u16, Opened),

    /// How many links it gives in all.
    Total(u16),
}

/// Whether a first read of the next link gives this, through the bound.
fn reads_first<W: World>(world: &mut W, read: Option<LinkRead>) -> bool
    requires more { (W.tells world.old).accepted < (W.tells world.old).total }
    ensures counted { (W.tells world.new).accepted ≤ (W.tells world.old).accepted + 1 }
{
    match world.accept() {
        Accepted::Link(mut link) => read == Some(link.read(&mut [0; 4])),
        Accepted::NotYet | Accepted::Failed => read == None,
    }
}

/// Whether an opening for so many links answers this, through the bound.
fn opens_so<W: World>(world: &mut W, total: u16, answer: Opened) -> bool
    ensures { (W.tells world.new).accepted ≤ (W.tells world.old).accepted }
{
    match world.open(80, total) {
        Opened::Ready => answer == Opened::Ready,
        Opened::Failed => answer == Opened::Failed,
        Opened::Memory => answer == Opened::Memory,
    }
}

/// Makes a call of a world that has given no more links than were read, and says whether it answers
/// so.
fn answers<W: World>(world: &mut W, reads: &mut u16, call: Call) -> bool
    requires { (W.tells world.old).accepted ≤ reads.old }
    ensures { (W.tells world.new).accepted ≤ reads.new }
{
    match call {
        Call::Poll(waiting, answer) => world.poll(waiting) == answer,
        Call::Read(read) if *reads < world.total() => {
            *reads += 1;
            reads_first(world, read)
        }
        Call::Open(total, answer) => opens_so(world, total, answer),
        Call::Total(total) => world.total() == total,
        Call::Read(_) => false,
    }
}

/// Whether a world of which no link was accepted answers all these calls so.
fn plays<W: World>(world: &mut W, calls: &[Call]) -> bool
    requires { (W.tells world.old).accepted ≡ 0 }
{
    let mut reads = 0;
    'calls: for call in calls {
        if !answers(world, &mut reads, *call) {
            return false;
        }
    }
    true
}

const ONE: Option<LinkRead> = Some(LinkRead::Took(1));

/// What a world of two links answers, by the numbers of its calls that fail. The number of links is
/// asked without a counted call.
static ROWS: [(&str, &[u32], &[Call]); 6] = [
    (
        "its links come in order",
        &[],
        &[
            Call::Total(2),
            Call::Read(ONE),
            Call::Poll(&[], Polled::Quiet),
            Call::Poll(&[7, 3], Polled::Ready(7)),
            Call::Poll(&[3], Polled::Ready(3)),
            Call::Read(Some(LinkRead::Took(2))),
        ],
    ),
    (
        "opened, it gives no more than are to come",
        &[],
        &[
            Call::Read(ONE),
            Call::Open(9, Opened::Ready),
            Call::Total(1),
            Call::Open(0, Opened::Ready),
            Call::Total(0),
        ],
    ),
    (
        "a poll fails",
        &[2],
        &[
            Call::Poll(&[], Polled::Quiet),
            Call::Poll(&[7, 3], Polled::Failed),
            Call::Poll(&[3], Polled::Ready(3)),
            Call::Read(ONE),
        ],
    ),
    (
        "an accept fails",
        &[1],
        &[Call::Read(None), Call::Read(ONE)],
    ),
    (
        "an opening fails",
        &[1],
        &[Call::Open(1, Opened::Failed), Call::Total(2)],
    ),
    (
        "the number of links isn't counted",
        &[2],
        &[
            Call::Total(2),
            Call::Total(2),
            Call::Read(ONE),
            Call::Read(None),
        ],
    ),
];

#[test]
fn a_world_answers_in_order_and_fails_where_it_is_told_to(rt: HostRuntime) {
    for &(what, failing, calls) in &ROWS {
        assert!(rt; plays(&mut two_links(&rt, failing), calls), "{what}");
    }
}

static SURE: [Call; 6] = [
    Call::Total(1),
    Call::Poll(&[], Polled::Quiet),
    Call::Poll(&[7, 3], Polled::Ready(7)),
    Call::Poll(&[3], Polled::Ready(3)),
    Call::Read(ONE),
    Call::Open(1, Opened::Ready),
];

#[test]
fn a_sure_world_never_fails(rt: HostRuntime) {
    assert!(rt; plays(&mut one_link(&rt), &SURE));
}

/// Whether the next link comes at once, and isn't shut.
fn next_is_open(world: &mut MemWorld) -> bool
    requires { (mem_world_tells world.old).accepted < (mem_world_tells world.old).total }
{
    match world.accept() {
        Accepted::Link(link) => !link.is_shut(),
        Accepted::NotYet | Accepted::Failed => false,
    }
}

#[test]
fn a_link_that_comes_is_not_shut(rt: HostRuntime) {
    assert!(rt; next_is_open(&mut two_links(&rt, &[])));
}
