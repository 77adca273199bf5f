//! The order in which a core goes round to steal.
ghost use Rattle.std.specs.Prelude.{◌≡◌, ◌<◌, ◌≤◌, IfOk};
ghost use Rattle.mely_steal.specs.Victims.{victims_of};

use mely_event::Memory;
use std::alloc::Global;

/// From whom a core steals, in the order in which it asks: the other cores of its group, upwards
/// from it and round, and then the cores of the other groups, again upwards from it and round. The
/// cores are numbered from 0, and core `k` stands in group `k / group`.
///
/// # Errors
///
/// There was no memory.
pub fn victims(alloc: Global, core: u16, cores: u16, group: u16) -> Result<Vec<u16>, Memory>
    requires there { core < cores }
    requires some { 1 ≤ group }
    ensures { IfOk result (λ order. order.items ≡ victims_of core cores group) }
{
    let near = (core + 1..cores)
        .chain(0..core)
        .filter(|other| *other / group == core / group);
    let far = (core + 1..cores)
        .chain(0..core)
        .filter(|other| *other / group != core / group);
    Ok(near.chain(far).collect(alloc)?)
}
