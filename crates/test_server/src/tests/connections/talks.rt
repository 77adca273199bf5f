//! A connection as a talk, and connections over the links of a world.
ghost use Rattle.std.specs.Prelude.{◌≡◌, ◌<◌, ◌≤◌, ◌+◌, false};
ghost use Rattle.sws_link.specs.Links.{IsInitialLink};
ghost use Rattle.sws_link.specs.MemWorlds.{IsInitialMemLink, mem_world_tells};

use super::super::files::{THREE_FILES, site_of};
use super::super::links::{Item, calls_of, items_of, sure_link};
use super::{ANSWER, CLOSING_ANSWER, GET, GET_AND_CLOSE};
use std::alloc::Global;
use std::process::Abort;
use sws_conn::{Conn, End, Talk, serve_one};
use sws_link::{Accepted, Link, MemLink, MemWorld, Memory, SureLink, World};
use sws_site::Site;

/// So many steps of a talk over a link, through the bound, and whether it is done then and took and
/// wrote so many bytes.
fn is_done_within<L: Link + Drop, T: Talk<L> + Drop>(
    alloc: Global,
    hall: T::Hall,
    link: L,
    steps: u8,
    read: u64,
    written: u64,
) -> Result<bool, Memory>
    requires initial { IsInitialLink (L.tells link) }
    requires not_shut { L.is_shut link ≡ false }
{
    let mut talk = T::make(alloc, hall)?;
    let _ = talk.open(link);
    for _ in 0..steps {
        talk.step();
    }
    Ok(talk.end() == Some(End::Done) && talk.read() == read && talk.written() == written)
}

/// Whether six steps of a connection over a link that sends this are enough, and this is written.
fn is_talked(rt: &(impl AllocGlobal + Abort), site: &Site, sent: &[u8], written: &[u8]) -> bool {
    let link = sure_link(rt, sent, 0, 0, None);
    let (read, written) = (sent.len() as u64, written.len() as u64);
    let talked = is_done_within::<SureLink, Conn<'_, SureLink>>(
        rt.alloc(),
        site,
        link,
        6,
        read,
        written,
    );
    matches!(talked, Ok(true))
}

#[test]
fn a_connection_is_a_talk(rt: HostRuntime) {
    let site = site_of(&rt, &THREE_FILES, None);
    assert!(rt; GET_AND_CLOSE.len() == 46);
    assert!(rt; is_talked(&rt, &site, GET_AND_CLOSE, CLOSING_ANSWER));
}

/// What a client sends, and where its link fails.
type Sent = (&'static [Item<'static>], Option<u64>);

/// A link of what a client sends.
fn link_of(rt: &(impl AllocGlobal + Abort), sent: Sent) -> MemLink
    ensures { IsInitialMemLink result }
{
    let (items, cut) = sent;
    MemLink::new(
        rt.alloc(),
        items_of(rt, items),
        None,
        cut,
        calls_of(rt, &[]),
    )
}

/// A world of three links, whose call of this number fails.
fn world_of(rt: &(impl AllocGlobal + Abort), sent: &[Sent; 3], failing: u32) -> MemWorld
    ensures total { (mem_world_tells result).total ≡ 3 }
    ensures accepted { (mem_world_tells result).accepted ≡ 0 }
{
    let mut links = Vec::new(rt.alloc());
    links.push(link_of(rt, sent[0])).expect(rt, "memory");
    links.push(link_of(rt, sent[1])).expect(rt, "memory");
    links.push(link_of(rt, sent[2])).expect(rt, "memory");
    MemWorld::new(links, calls_of(rt, &[failing]))
}

/// How a link ends, where it comes, and what is written to it.
type Wanted = (Option<End>, &'static [u8]);

/// Whether a connection over a link ends so, and this is written.
fn is_served_so(alloc: Global, site: &Site, link: MemLink, want: Wanted) -> bool
    requires { IsInitialMemLink link }
{
    match serve_one(alloc, site, link) {
        Ok((link, ended)) => Some(ended) == want.0 && link.written() == want.1,
        Err(_) => false,
    }
}

/// Serves the next link of the world, and says whether it comes, ends and is written so.
fn serves_so(alloc: Global, site: &Site, world: &mut MemWorld, want: Wanted) -> bool
    requires more { (mem_world_tells world.old).accepted < (mem_world_tells world.old).total }
    ensures total { (mem_world_tells world.new).total ≡ (mem_world_tells world.old).total }
    ensures counted { (mem_world_tells world.new).accepted
        ≤ (mem_world_tells world.old).accepted + 1 }
{
    match world.accept() {
        Accepted::Link(link) => is_served_so(alloc, site, link, want),
        Accepted::NotYet | Accepted::Failed => want.0 == None,
    }
}

/// Whether the links of a world whose call of this number fails are served so.
fn world_serves(
    rt: &(impl AllocGlobal + Abort),
    site: &Site,
    sent: &[Sent; 3],
    failing: u32,
    wanted: &[Wanted; 3],
) -> bool {
    let mut world = world_of(rt, sent, failing);
    let one = serves_so(rt.alloc(), site, &mut world, wanted[0]);
    let two = serves_so(rt.alloc(), site, &mut world, wanted[1]);
    one && two && serves_so(rt.alloc(), site, &mut world, wanted[2])
}

const EMPTY_ANSWER: &[u8] =
    b"HTTP/1.1 200 OK\r\nServer: sws\r\nContent-Type: text/css\r\nContent-Length: 0\r\n\r\n";

static IN_ORDER: [Sent; 3] = [
    (&[Item::Bytes(GET)], None),
    (
        &[Item::Bytes(b"GET /empty.css HTTP/1.1\r\nHost: x\r\n\r\n")],
        None,
    ),
    (&[], None),
];

static ALL_DONE: [Wanted; 3] = [
    (Some(End::Done), ANSWER),
    (Some(End::Done), EMPTY_ANSWER),
    (Some(End::Done), b""),
];

#[test]
fn the_links_of_a_world_are_served_in_order(rt: HostRuntime) {
    let site = site_of(&rt, &THREE_FILES, None);
    assert!(rt; world_serves(&rt, &site, &IN_ORDER, 9, &ALL_DONE));
}

static CUT: [Sent; 3] = [
    (&[Item::Bytes(GET)], Some(7)),
    (&[Item::Bytes(GET)], None),
    (&[], None),
];

static ONE_CUT: [Wanted; 3] = [
    (Some(End::Fault), b"HTTP/1."),
    (None, b""),
    (Some(End::Done), ANSWER),
];

#[test]
fn a_link_that_is_cut_leaves_the_next_one_whole(rt: HostRuntime) {
    let site = site_of(&rt, &THREE_FILES, None);
    assert!(rt; world_serves(&rt, &site, &CUT, 2, &ONE_CUT));
}
