//! The setups of the server.

use mely_event::Handlers;
use mely_history::{Setup, Shape};

/// The times and the penalties of the server's handlers, written out, so that this crate needn't
/// stand on the engine.
const HANDLERS: [(u32, u32); 10] = [
    (40, 4),
    (10, 1),
    (40, 4),
    (20, 1),
    (60, 2),
    (80, 1),
    (50, 1),
    (100, 2),
    (30, 1),
    (60, 2),
];

/// The setup of so many connections, workers and shards, with this batch and this cost of a steal,
/// where they are in their ranges.
pub fn setup(numbers: [u32; 5]) -> Option<Setup> {
    let [connections, cores, shards, batch, steal_cost] = numbers;
    let shape = Shape {
        cores: u16::try_from(cores).ok()?,
        shards: u16::try_from(shards).ok()?,
        batch: u16::try_from(batch).ok()?,
        steal_cost,
        group: 1,
    };
    let handlers = Handlers::new(&HANDLERS).ok()?;
    Setup::new(&shape, connections.checked_add(2)?, handlers, 1).ok()
}
