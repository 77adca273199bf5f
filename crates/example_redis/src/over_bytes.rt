//! The store over a client in memory.
ghost use Rattle.std.specs.Prelude.{IfOk};
ghost use Rattle.sws_link.specs.MemWorlds.{IsInitialMemLink};
ghost use Rattle.mely_net.specs.Served.{HasServed};

use crate::outside::Nothing;
use crate::reply::Reply;
use crate::request::Timed;
use crate::store::{Cell, Store};
use mely_actor::Ended;
use mely_event::Memory;
use mely_net::{Part, Service, serve};
use std::alloc::Global;
use std::sync::Wait;
use std::thread::Threads;
use sws_link::{Link, LinkItem, MemLink, MemWorld};

/// What a run over links in memory leaves.
type Left = Ended<Part<Cell, MemWorld, MemLink, Timed, Reply>>;

/// The link of a client that sends this at once, and takes 7 bytes at a time.
///
/// # Errors
///
/// There was no memory.
fn link_of(alloc: Global, sent: Vec<u8>) -> Result<MemLink, Memory>
    ensures { IfOk result IsInitialMemLink }
{
    let mut items = Vec::new(alloc);
    items.push(LinkItem::Bytes(sent))?;
    items.push(LinkItem::Wait(1))?;
    Ok(MemLink::new(alloc, items, Some(7), None, Vec::new(alloc)))
}

/// Serves a client of this link on two workers.
///
/// # Errors
///
/// There was no memory.
fn run<R: Threads + Wait + Sync>(rt: &R, alloc: Global, link: MemLink) -> Result<Left, Memory>
    requires { IsInitialMemLink link }
    ensures { (store : Store Nothing) → let rules = ⟦<Store<Nothing> as Service>⟧.rules_of store in
        IfOk result (λ ended. HasServed rules ⟦<MemLink as Link>⟧ 1 ended.values.items) }
{
    let mut links = Vec::new(alloc);
    links.push(link)?;
    let world = MemWorld::new(links, Vec::new(alloc));
    let store = Store {
        outside: Nothing::new(),
    };
    serve(rt, alloc, 2, store, world)
}

/// What a client is told that sends these bytes, and no more.
///
/// # Errors
///
/// There was no memory.
pub fn serve_bytes<R: Threads + Wait + Sync>(
    rt: &R,
    alloc: Global,
    sent: Vec<u8>,
) -> Result<Vec<u8>, Memory> {
    let ended = run(rt, alloc, link_of(alloc, sent)?)?;
    let mut told = Vec::new(alloc);
    for part in ended.values.iter() {
        if let Part::Client(client) = part {
            if let Some(link) = client.link() {
                told.extend_from_slice(link.written())?;
            }
        }
    }
    Ok(told)
}
