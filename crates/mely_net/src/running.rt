//! A run of a service, from a world that is open to what it has come to.
ghost use Rattle.std.specs.Prelude.{◌≡◌, ◌<◌, ◌≤◌, ◌+◌, IfErr, IfOk, length};
ghost use Rattle.mely_event.specs.HandlerTable.{rows_of};
ghost use Rattle.mely_history.specs.Setup.{colours_of, handlers_of};
ghost use Rattle.mely_net.specs.Exchanges.{IsAt};
ghost use Rattle.mely_net.specs.Served.{HasHalted, HasServed, HasServedFrom};

use crate::acting::Serving;
use crate::fresh::{begin_cells, make_parts};
use crate::layout::{DESK, Layout};
use crate::message::{Held, Message};
use crate::part::Part;
use crate::service::Service;
use mely_actor::{Ended, Halted, run_values};
use mely_event::{Handlers, Memory};
use mely_history::{Setup, Shape};
use std::alloc::Global;
use std::marker::PhantomData;
use std::snapshot::Snapshot;
use std::sync::Wait;
use std::thread::Threads;
use sws_link::{Link, World};

/// How many workers a run has at most.
pub const MOST_WORKERS: u16 = 64;

/// The setup of a run on so many workers.
fn set_up(workers: u16, layout: &Layout) -> Setup
    requires some { 1 ≤ workers }
    requires few { workers ≤ 64 }
    ensures colours { colours_of result ≡ layout.now.cells + layout.now.clients + 1 }
    ensures rows { length (rows_of (handlers_of result)) ≡ 9 }
{
    let shape = Shape {
        cores: workers,
        shards: workers,
        batch: 10,
        steal_cost: 20,
        group: 2,
    };
    let rows: [(u32, u32); 9] = [(10, 1); 9];
    let Ok(handlers) = Handlers::new(&rows) else {
        unreachable!()
    };
    let colours = u32::from(layout.cells) + u32::from(layout.clients) + 1;
    let Ok(setup) = Setup::new(&shape, colours, handlers, 1) else {
        unreachable!()
    };
    setup
}

/// Serves the connections of a world that is open, until all of them have ended, on so many
/// workers. It need not return, as a client may stay for ever.
///
/// # Errors
///
/// There was no memory, to begin, for an event, or for a cell: what was done is dropped.
/// [`serve_on`] hands it back.
pub fn serve<R: Threads + Wait + Sync, S: Service + Drop + Sync, W: World + Drop + Send>(
    rt: &R,
    alloc: Global,
    workers: u16,
    service: S,
    world: W,
) -> Result<Ended<Part<S::Cell, W, W::Link, S::Request, S::Reply>>, Memory>
where
    S::Request: Send,
    S::Reply: Send,
    S::Cell: Send,
    W::Link: Send,
    requires some { 1 ≤ workers }
    requires few { workers ≤ 64 }
    requires begins { (W.tells world).accepted ≡ 0 }
    requires fits { (S.rules_of service).cells + (W.tells world).total < 65536 }
    ensures { IfOk result (λ ended. HasServed (S.rules_of service) W.Link.Link (W.tells world).total
        ended.values.items) }
{
    let cells = begin_cells(alloc, &service)?;
    match serve_on(rt, alloc, workers, service, cells, world) {
        Ok(ended) => Ok(ended),
        Err(_) => Err(Memory),
    }
}

/// Serves as [`serve`] does, with cells that have these values: so a run may begin with what another
/// one left ([`take_cells`](crate::take_cells)), or with what was kept in a file.
///
/// # Errors
///
/// There was no memory, to begin, for an event, or for a cell: see [`Halted`], which hands back what
/// each colour has, but for those on which memory was wanted. What was under way is dropped, and so
/// is the world. Where there was no memory to begin, the cells are dropped too.
pub fn serve_on<R: Threads + Wait + Sync, S: Service + Drop + Sync, W: World + Drop + Send>(
    rt: &R,
    alloc: Global,
    workers: u16,
    service: S,
    cells: Vec<S::Cell>,
    world: W,
) -> Result<
    Ended<Part<S::Cell, W, W::Link, S::Request, S::Reply>>,
    Halted<Part<S::Cell, W, W::Link, S::Request, S::Reply>>,
>
where
    S::Request: Send,
    S::Reply: Send,
    S::Cell: Send,
    W::Link: Send,
    requires some { 1 ≤ workers }
    requires few { workers ≤ 64 }
    requires begins { (W.tells world).accepted ≡ 0 }
    requires fits { (S.rules_of service).cells + (W.tells world).total < 65536 }
    requires cells { length cells.items ≡ (S.rules_of service).cells }
    ensures served { IfOk result (λ ended. HasServedFrom (S.rules_of service) W.Link.Link
        (IsAt cells.items) (W.tells world).total ended.values.items) }
    ensures halted { IfErr result (λ halted. HasHalted (S.rules_of service) W.Link.Link
        (IsAt cells.items) (W.tells world).total halted.values.items) }
{
    let none = Halted {
        values: Vec::new(alloc),
    };
    let layout = Layout {
        cells: service.cells(),
        clients: world.total(),
    };
    let setup = set_up(workers, &layout);
    let firsts = Snapshot::of(&cells);
    let Ok(mut posts) = Vec::with_capacity(alloc, 1) else {
        return Err(none);
    };
    let Ok(parts) = make_parts(alloc, &layout, cells) else {
        return Err(none);
    };
    posts.push_reserved((DESK, Message::Poll(Held { world, accepted: 0 })));
    let serving = Serving {
        alloc,
        service,
        layout,
        firsts,
        of: PhantomData,
    };
    run_values(rt, alloc, &setup, serving, parts, posts)
}
