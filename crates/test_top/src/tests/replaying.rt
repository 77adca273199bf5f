//! A run of links in memory, with what it leaves as a text.
ghost use Rattle.std.specs.Prelude.{◌≤◌, length};
ghost use Rattle.std.specs.List.{AllByRecursion};
ghost use Rattle.sws_link.specs.MemWorlds.{IsInitialMemLink};
ghost use Rattle.sws_link.specs.Limits.{conn_limit};

use super::joined;
use super::watched::{Watched, WatchedLink};
use mely_history::{Entry, History, Judged, Setup, judge};
use std::alloc::Global;
use std::process::Abort;
use sws_conn::End;
use sws_engine::{Ended, Served};
use sws_link::{LinkItem, MemLink, Put, SureFolder, SureSink};
use sws_report::write_conn;
use sws_site::Site;

/// One thing that a client does.
#[derive(Clone, Copy)]
pub(super) enum Part<'a> {
    /// It sends these bytes in one piece.
    Send(&'a [u8]),

    /// It sends so many lines of so many letters in one piece.
    Lines(usize, usize),

    /// It is not ready so often.
    Pause(u16),

    /// It fails from here on.
    Fault,
}

/// These bytes in one piece.
fn piece(rt: &(impl AllocGlobal + Abort), bytes: &[u8]) -> LinkItem {
    LinkItem::Bytes(joined(rt, &[(bytes, 1)]))
}

/// So many lines of so many letters, in one piece.
fn lines(rt: &(impl AllocGlobal + Abort), count: usize, letters: usize) -> LinkItem {
    let line = joined(rt, &[(b"x", letters), (b"\n", 1)]);
    LinkItem::Bytes(joined(rt, &[(&line, count)]))
}

/// What a client does, how many bytes a write to it takes at most, and after how many bytes its
/// link fails.
pub(super) type Client<'a> = (&'a [Part<'a>], Option<u32>, Option<u64>);

/// What a link gives of these parts.
pub(super) fn items_of(rt: &(impl AllocGlobal + Abort), parts: &[Part]) -> Vec<LinkItem> {
    let mut items = Vec::new(rt.alloc());
    for part in parts {
        let item = match *part {
            Part::Send(bytes) => piece(rt, bytes),
            Part::Lines(count, letters) => lines(rt, count, letters),
            Part::Pause(count) => LinkItem::Wait(count),
            Part::Fault => LinkItem::Fail,
        };
        items.push(item).expect(rt, "memory");
    }
    items
}

/// A link that gives these parts, takes at most `step` bytes a write, and fails where
/// `cut` bytes were written.
fn link(
    rt: &(impl AllocGlobal + Abort),
    parts: &[Part],
    step: Option<u32>,
    cut: Option<u64>,
) -> MemLink
    ensures { IsInitialMemLink result }
{
    let items = items_of(rt, parts);
    MemLink::new(rt.alloc(), items, step, cut, Vec::new(rt.alloc()))
}

/// The links of these clients.
pub(super) fn links_of(rt: &(impl AllocGlobal + Abort), clients: &[Client]) -> Vec<MemLink>
    ensures few { length result.items ≤ conn_limit }
    ensures initial { AllByRecursion IsInitialMemLink result.items }
{
    let mut links = Vec::new(rt.alloc());
    'clients: for client in clients {
        let (parts, step, cut) = *client;
        links.push(link(rt, parts, step, cut)).expect(rt, "memory");
    }
    assert!(rt; links.len() <= 1024);
    links
}

/// The files of the rows.
static FILES: [(&[u8], &[u8]); 3] = [
    (b"index.html", b"hi\n"),
    (b"a/b.txt", b"0123456789"),
    (b"empty.css", b""),
];

/// The site of the rows.
pub(super) fn site(rt: &(impl AllocGlobal + Abort)) -> Site {
    let mut files = Vec::new(rt.alloc());
    for &(name, bytes) in &FILES {
        let name = joined(rt, &[(name, 1)]);
        let bytes = joined(rt, &[(bytes, 1)]);
        files.push((name, bytes)).expect(rt, "memory");
    }
    let mut folder = SureFolder::new(rt.alloc(), files);
    let site = Site::load(rt.alloc(), &mut folder, None);
    site.ok().expect(rt, "the site is loaded")
}

/// The entries of a history that is listed.
pub(super) fn entries_of<'h>(rt: &impl Abort, history: &'h History) -> &'h [Entry] {
    match history.entries() {
        Some(entries) => entries,
        None => panic!(rt; "a history isn't listed"),
    }
}

/// Whether each of these histories is legal.
pub(super) fn are_legal(rt: &impl Abort, setup: &Setup, histories: &[History]) -> bool {
    for history in histories {
        if judge(setup, entries_of(rt, history)) != Judged::Legal {
            return false;
        }
    }
    true
}

/// Writes how each of these connections ended and what it was sent, and says whether all of them have
/// their links and ends.
fn write_conns(alloc: Global, sink: &mut SureSink, conns: &[Served<WatchedLink<'_>>]) -> bool {
    let mut number: u16 = 0;
    for conn in conns {
        let (Some(link), Some(end)) = (&conn.link, conn.end) else {
            return false;
        };
        if end == End::Memory || write_conn(alloc, sink, number, end, link.written()) != Put::Done {
            return false;
        }
        number = number.wrapping_add(1);
    }
    true
}

/// Whether what a run left is this, as a replay prints it.
pub(super) fn is_printed(rt: &impl AllocGlobal, ended: &Ended<Watched<'_>>, shown: &[u8]) -> bool {
    let mut sink = SureSink::new(rt.alloc());
    write_conns(rt.alloc(), &mut sink, &ended.served) && sink.written() == shown
}
