//! A shard as the lock of a fleet keeps it, and one call on it behind that lock.
//!
//! Contracts see the history of such a shard as [`Note`](mely_note::Note)s: its entries, with the
//! load of each registration and the state of each finish. They take no memory, as they are for
//! contracts alone. So what a call promises by its point in the history it promises of data too: a
//! take hands out the first events that wait *with the loads that they were registered with*, and
//! the very state that the last finish brought home.
//!
//! Each note has a stamp, which a call makes later than those of all notes before it in the history
//! of the shard, and later than the stamp that its caller names: the latest that it has seen. So
//! who saw a note of one shard and then makes one in another gives that the later stamp.
#![tactic(auto)]

mod kept_shard;
mod shard_calls;

pub use kept_shard::{KeptShard, ShardFrame};
pub use shard_calls::{finish_at, look_at, register_at, reserve_at, steal_at, take_at};
