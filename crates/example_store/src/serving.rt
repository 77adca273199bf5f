//! A run of the store.
ghost use Rattle.std.specs.Prelude.{◌≡◌, ◌+◌, IfOk};
ghost use Rattle.std.specs.List.{AllByRecursion};
ghost use Rattle.mely_actor.specs.Sending.{MaySend};
ghost use Rattle.example_store.specs.declared.store.TheConstants.{BUCKETS, CLIENTS};
ghost use Rattle.example_store.specs.Served.{IsServed};
ghost use Rattle.example_store.specs.Stores.{IsPlaced, event_of};

use crate::message::Message;
use crate::store::{BUCKETS, CLIENTS, Slot, Store};
use mely_actor::{Ended, run_actors};
use mely_event::{Colour, Handlers, Memory};
use mely_history::{Setup, Shape};
use std::alloc::Global;
use std::sync::Wait;
use std::thread::Threads;

/// What the store has come to after these messages, on four workers.
///
/// # Errors
///
/// There was no memory.
pub fn serve<R: Threads + Wait + Sync>(
    rt: &R,
    alloc: Global,
    posts: Vec<(Colour, Message)>,
) -> Result<Ended<Slot>, Memory>
    requires may { AllByRecursion (MaySend (BUCKETS + CLIENTS) 4 event_of IsPlaced) posts.items }
    ensures { IfOk result (λ ended. IsServed posts.items ended.values.items) }
{
    let shape = Shape {
        cores: 4,
        shards: 4,
        batch: 10,
        steal_cost: 20,
        group: 2,
    };
    let rows: [(u32, u32); 4] = [(10, 1), (100, 1), (100, 1), (10, 1)];
    let Ok(handlers) = Handlers::new(&rows) else {
        unreachable!()
    };
    let colours = (BUCKETS + CLIENTS) as u32;
    let Ok(setup) = Setup::new(&shape, colours, handlers, 0) else {
        unreachable!()
    };
    run_actors(rt, alloc, &setup, Store, posts)
}
