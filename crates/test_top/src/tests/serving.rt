//! The command `serve` for clients of whom one waits for the other.
ghost use Rattle.std.specs.Prelude.{IfOk};
ghost use Rattle.sws_link.specs.MemWorlds.{IsInitialMemLink};

use super::meeting::{Meeting, Room};
use std::alloc::{AllocError, Global};
use std::sync::Wait;
use std::thread::Threads;
use sws_link::{
    Folder, LinkItem, MemLink, MemWorld, Sink, Source, SureFolder, SureSink, SureSource, World,
};
use sws_top::{Outcome, sws};

/// Words that serve two connections on two workers.
static WORDS: [&str; 10] = [
    "serve",
    "S",
    "--port",
    "1",
    "--connections",
    "2",
    "--workers",
    "2",
    "--cost",
    "0",
];

/// What each client sends, what it is sent, and what is written where both were served.
pub(super) const REQUEST: &[u8] = b"GET / HTTP/1.1\r\nHost: x\r\n\r\n";

pub(super) const RESPONSE: &[u8] =
    b"HTTP/1.1 200 OK\r\nServer: sws\r\nContent-Type: text/html\r\nContent-Length: 3\r\n\r\nhi\n";

pub(super) const SUMMARY: &[u8] = b"connections 2 done 2 idle 0 fault 0\nread 54 written 158\n";

/// These words.
pub(super) fn words_of(alloc: Global, line: &[&str]) -> Result<Vec<String>, AllocError> {
    let mut words = Vec::new(alloc);
    for word in line {
        words.push(String::from_str(alloc, word)?)?;
    }
    Ok(words)
}

/// A site of an index alone.
pub(super) fn small_site(alloc: Global) -> Result<SureFolder, AllocError> {
    let name = b"index.html".to_vec(alloc)?;
    let file = (name, b"hi\n".to_vec(alloc)?);
    Ok(SureFolder::new(alloc, vec![in alloc; file]?))
}

/// A link whose client sends the request.
fn asking(alloc: Global) -> Result<MemLink, AllocError>
    ensures { IfOk result IsInitialMemLink }
{
    let bytes = REQUEST.to_vec(alloc)?;
    let items = vec![in alloc; LinkItem::Bytes(bytes)]?;
    Ok(MemLink::new(alloc, items, None, None, Vec::new(alloc)))
}

/// A world of two such links.
fn two_clients(alloc: Global) -> Result<MemWorld, AllocError> {
    let first = asking(alloc)?;
    let second = asking(alloc)?;
    let links = vec![in alloc; first, second]?;
    Ok(MemWorld::new(links, Vec::new(alloc)))
}

/// Runs these words, and says nothing of it, so that no proof of a test carries the contract of `sws`.
pub(super) fn run<
    T: AllocGlobal + Threads + Wait + Sync,
    F: Folder,
    R: Source,
    W: World + Drop + Send,
    O: Sink,
>(rt: &T, words: &[String], folder: &mut F, source: &mut R, world: W, sink: &mut O) -> Outcome<W>
where
    W::Link: Send,
{
    sws(rt, words, folder, source, world, sink)
}

/// Whether both clients of a world are served.
fn are_served<T: AllocGlobal + Threads + Wait + Sync, W: World + Drop + Send>(
    rt: &T,
    words: &[String],
    folder: &mut SureFolder,
    world: W,
) -> bool
where
    W::Link: Send,
{
    let mut source = SureSource::new(Vec::new(rt.alloc()));
    let mut sink = SureSink::new(rt.alloc());
    let outcome = run(rt, words, folder, &mut source, world, &mut sink);
    outcome.status == 0 && sink.written() == SUMMARY
}

/// Whether two clients are served in a room by these words.
fn are_served_in<T: AllocGlobal + Threads + Wait + Sync>(
    rt: &T,
    room: &Room<'_>,
    words: &[String],
    folder: &mut SureFolder,
) -> Result<bool, AllocError> {
    let world = Meeting {
        world: two_clients(rt.alloc())?,
        room,
        given: 0,
    };
    Ok(are_served(rt, words, folder, world))
}

/// Whether two clients are served in a room.
fn are_served_together<T: AllocGlobal + Threads + Wait + Sync>(
    rt: &T,
    room: &Room<'_>,
) -> Result<bool, AllocError> {
    let words = words_of(rt.alloc(), &WORDS)?;
    are_served_in(rt, room, &words, &mut small_site(rt.alloc())?)
}

/// One worker alone never gets the first client's request.
#[test]
fn two_workers_serve_at_once(rt: HostRuntime) {
    let room = Room::new(&rt);
    assert!(rt; are_served_together(&rt, &room) == Ok(true));
    assert!(rt; !room.was_missed());
}
