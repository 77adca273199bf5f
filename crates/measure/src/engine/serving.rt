//! The links, and the run that serves them.
ghost use Rattle.std.specs.Prelude.{◌≡◌, ◌≤◌, IfSome, length};
ghost use Rattle.std.specs.List.{AllByRecursion};
ghost use Rattle.sws_link.specs.MemWorlds.{IsInitialMemLink};

use crate::browser::{HEAD, small_site};
use mely_event::Handlers;
use mely_history::{Setup, Shape};
use mely_worker::OpenGate;
use std::alloc::Global;
use std::sync::Wait;
use std::thread::Threads;
use sws_engine::{Verdict, serve_all, serve_steps};
use sws_link::{Link, LinkItem, MemLink, MemWorld, World};

/// How the workers run.
#[derive(Clone, Copy, Debug, PartialEq, Eq)]
pub enum Kind {
    /// One thread makes a step of each in turn.
    Steps,

    /// Each has a thread of its own.
    Threads,
}

/// How many connections there are, how many requests each sends, and how many workers serve
/// them over how many shards.
#[derive(Drop)]
pub struct Order {
    pub kind: Kind,
    pub connections: u16,
    pub requests: u16,
    pub workers: u16,
    pub shards: u16,
}

/// The most connections that a run of the engine serves.
const MAX_CONNECTIONS: u16 = 1024;

/// A link that gives so many heads, one after another, in one piece.
fn link_of(alloc: Global, requests: u16) -> Option<MemLink>
    ensures { IfSome result IsInitialMemLink }
{
    let mut bytes = Vec::new(alloc);
    for _ in 0..requests {
        bytes.extend_from_slice(HEAD).ok()?;
    }
    let mut items = Vec::new(alloc);
    items.push(LinkItem::Bytes(bytes)).ok()?;
    Some(MemLink::new(alloc, items, None, None, Vec::new(alloc)))
}

/// So many such links.
fn links_of(alloc: Global, connections: u16, requests: u16) -> Option<Vec<MemLink>>
    ensures many { IfSome result (λ links. length links.items ≡ connections) }
    ensures initial { IfSome result (λ links. AllByRecursion IsInitialMemLink links.items) }
{
    let mut links = Vec::new(alloc);
    'links: for _number in 0..connections {
        links.push(link_of(alloc, requests)?).ok()?;
    }
    Some(links)
}

/// Serves all of them, and answers how many bytes were written in all; nothing for want of memory,
/// or where a number is out of its range.
pub fn run<R: Threads + Wait + Sync>(rt: &R, alloc: Global, order: &Order) -> Option<u64> {
    if order.connections > MAX_CONNECTIONS {
        return None;
    }
    let site = small_site(alloc)?;
    let world = MemWorld::new(
        links_of(alloc, order.connections, order.requests)?,
        Vec::new(alloc),
    );
    let shape = Shape {
        cores: order.workers,
        shards: order.shards,
        batch: 10,
        steal_cost: 20,
        group: 4,
    };
    let handlers = Handlers::new(&[]).ok()?;
    let Ok(_) = Setup::new(&shape, u32::from(world.total()) + 2, handlers, 1) else {
        return None;
    };
    let ended = match order.kind {
        Kind::Steps => serve_steps(rt, alloc, &site, &shape, world, &[], false, false),
        Kind::Threads => serve_all(rt, alloc, &site, &shape, world, &OpenGate, false, false),
    };
    if ended.verdict != Verdict::Ok {
        return None;
    }
    let mut written = 0u64;
    for served in &ended.served {
        if let Some(link) = &served.link {
            written = written.saturating_add(link.written().len() as u64);
        }
    }
    Some(written)
}
