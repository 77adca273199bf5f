//! A run of the counters.
ghost use Rattle.std.specs.Prelude.{◌≡◌, ◌≤◌, IfOk, length};
ghost use Rattle.std.specs.List.{AllByRecursion};
ghost use Rattle.sws_link.specs.MemLinks.{mem_link_tells};
ghost use Rattle.sws_link.specs.MemWorlds.{IsInitialMemLink};
ghost use Rattle.mely_net.specs.Served.{HasServed};

use crate::counters::{Counters, Reply, Request};
use mely_actor::Ended;
use mely_event::Memory;
use mely_net::{Part, Service, serve};
use std::alloc::Global;
use std::collections::BTreeMap;
use std::sync::Wait;
use std::thread::Threads;
use sws_link::{Link, MemLink, MemWorld};

/// Serves the clients of these links on four workers.
///
/// # Errors
///
/// There was no memory.
pub fn run<R: Threads + Wait + Sync>(
    rt: &R,
    alloc: Global,
    links: Vec<MemLink>,
) -> Result<Ended<Part<BTreeMap<u64, u64>, MemWorld, MemLink, Request, Reply>>, Memory>
    requires few { length links.items ≤ 8 }
    requires initial { AllByRecursion IsInitialMemLink links.items }
    ensures { IfOk result (λ ended. HasServed (⟦<Counters as Service>⟧.rules_of
        record {}) ⟦<MemLink as Link>⟧ (length links.items) ended.values.items) }
{
    let world = MemWorld::new(links, Vec::new(alloc));
    serve(rt, alloc, 4, Counters, world)
}
