//! Room for a shard, before it has states.
ghost use Rattle.std.specs.Prelude.{◌≡◌, ◌≤◌, [], IfOk, vec_len, vec_capacity};

use crate::colour_slot::ColourSlot;
use mely_event::{Event, Memory};
use std::alloc::Global;

/// All the memory of a shard with so many colours, made beforehand:
/// [`Shard::in_room`](crate::Shard::in_room) takes none. So states need not be given away before it
/// is known that there is memory for them.
#[derive(Drop)]
pub struct ShardRoom<S, P> {
    pub(crate) alloc: Global,
    pub(crate) colours: usize,

    /// Empty lists with room for each colour.
    pub(crate) slots: Vec<ColourSlot<S, P>>,
    pub(crate) states: Vec<S>,
    pub(crate) queues: Vec<Vec<(Event, Option<P>)>>,
    ghost for_slots: { (slots.items ≡ []) × (colours ≤ vec_capacity slots) },
    ghost for_states: { (vec_len states ≡ 0) × (colours ≤ vec_capacity states) },
    ghost for_queues: { (vec_len queues ≡ 0) × (colours ≤ vec_capacity queues) },
}

impl<S: Drop, P: Drop> ShardRoom<S, P> {
    /// Room for so many colours.
    ///
    /// # Errors
    ///
    /// There was no memory.
    pub fn new(alloc: Global, colours: usize) -> Result<ShardRoom<S, P>, Memory>
        ensures { IfOk result (λ room. room.colours ≡ colours) }
    {
        Ok(ShardRoom {
            alloc,
            colours,
            slots: Vec::with_capacity(alloc, colours)?,
            states: Vec::with_capacity(alloc, colours)?,
            queues: Vec::with_capacity(alloc, colours)?,
        })
    }
}
