//! A chat, from a world that is open to what it has come to.
ghost use Rattle.std.specs.Prelude.{◌≡◌, ◌≤◌, IfOk, map};
ghost use Rattle.example_chat_room.specs.Talked.{IsChat};

use crate::acting::Chat;
use crate::asking::DESK;
use crate::message::{Held, Message};
use crate::part::Part;
use mely_actor::{Ended, run_actors};
use mely_event::{Handlers, Memory};
use mely_history::{Setup, Shape};
use std::alloc::Global;
use std::snapshot::Snapshot;
use std::sync::Wait;
use std::thread::Threads;
use sws_link::{Link, World};

/// How many clients a chat has at most.
pub const MOST_CLIENTS: u16 = 1024;

/// How many workers a chat has at most.
pub const MOST_WORKERS: u16 = 64;

/// Lets the clients of a world talk, until all of them have left, on so many workers.
///
/// # Errors
///
/// There was no memory, to start or on the way: what was done is dropped, and the world with it.
pub fn run_chat<R: Threads + Wait + Sync, W: World + Drop + Send>(
    rt: &R,
    alloc: Global,
    workers: u16,
    world: W,
) -> Result<Ended<Part<W, W::Link>>, Memory>
where
    W::Link: Send,
    requires some { 1 ≤ workers }
    requires few { workers ≤ 64 }
    requires open { (W.tells world).accepted ≡ 0 }
    requires clients { (W.tells world).total ≤ 1024 }
    ensures { IfOk result (λ ended. IsChat W.Link.Link (W.tells world).coming world
        (W.tells world).total workers (map (λ history. history.items) ended.histories.items)
        ended.values.items) }
{
    let clients = world.total();
    let shape = Shape {
        cores: workers,
        shards: workers,
        batch: 10,
        steal_cost: 20,
        group: 2,
    };
    let rows: [(u32, u32); 9] = [(10, 1); 9];
    let Ok(handlers) = Handlers::new(&rows) else {
        unreachable!()
    };
    let Ok(setup) = Setup::new(&shape, clients as u32 + 2, handlers, 1) else {
        unreachable!()
    };
    let chat = Chat {
        clients,
        world: Snapshot::of(&world),
    };
    let mut posts = Vec::new(alloc);
    posts.push((DESK, Message::Poll(Held { world, accepted: 0 })))?;
    run_actors(rt, alloc, &setup, chat, posts)
}
