//! A world that says where it listens.

use std::alloc::Global;
use sws_link::{Accepted, Opened, Polled, World};
use sws_words::Order;

/// The world of a server, which says a line once it is open, so that a user
/// knows when clients can come.
///
/// It is the world that it is made of in all else.
#[derive(Drop)]
pub struct Announced<'r, W: World + Drop> {
    rt: &'r HostRuntime,
    world: W,
    line: Option<String>,
}

impl<'r, W: World + Drop> Announced<'r, W> {
    /// The world, which says the line on standard error each time it is opened.
    pub fn new(rt: &'r HostRuntime, world: W, line: Option<String>) -> Announced<'r, W> {
        Announced { rt, world, line }
    }
}

impl<'r, W: World + Drop> World for Announced<'r, W> {
    type Link = W::Link;

    ghost tells = { λ announced. W.tells announced.world };

    ghost faults = { λ announced. W.faults announced.world };

    ghost waits = { λ announced. W.waits announced.world };

    fn open(&mut self, port: u16, total: u16) -> Opened {
        let answer = self.world.open(port, total);
        if let (Opened::Ready, Some(line)) = (answer, &self.line) {
            let _ = eprintln!(self.rt; "{line}");
        }
        answer
    }

    fn total(&self) -> u16 {
        self.world.total()
    }

    fn poll(&mut self, waiting: &[u16]) -> Polled {
        self.world.poll(waiting)
    }

    fn accept(&mut self) -> Accepted<W::Link> {
        self.world.accept()
    }
}

/// What a server says of itself once it listens: its folder, its address, and what it was given.
/// Nothing for an order that isn't to serve, or where there was no memory.
pub fn line_of(alloc: Global, order: &Order) -> Option<String> {
    match order {
        Order::Serve {
            folder,
            port,
            connections,
            shape,
            ..
        } => {
            let (workers, shards) = (shape.cores, shape.shards);
            format!(in alloc;
                "sws: serving {folder} at 0.0.0.0:{port} (connections {connections}, workers {workers}, shards {shards})"
            ).ok()
        }
        Order::Gopher {
            folder,
            host,
            port,
            connections: Some(connections),
            shape,
            ..
        } => {
            let (workers, shards) = (shape.cores, shape.shards);
            format!(in alloc;
                "sws: serving gopher {folder} at 0.0.0.0:{port} (host {host}, connections {connections}, workers {workers}, shards {shards})"
            ).ok()
        }
        _ => None,
    }
}
