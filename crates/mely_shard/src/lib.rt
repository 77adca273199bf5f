//! One shard of a coloured-event runtime as an ordinary value, with no thread and no lock: whoever
//! wants a one-core event loop can use it as it is, and the layers above put it behind a lock.
//!
//! A [`Shard`] holds the colours `c` with `c % shards` equal to its number. Of each it keeps
//! the queue of events with their loads, the state while it is at home, and which core owns it.
//! An event is registered behind the others of its colour; a core takes the first events
//! together with the colour's state, which is then away; it runs them on the state, and
//! finishes, which takes the state home; an idle core steals a whole colour that is worth more
//! than the declared cost, unless it is pinned. Each of these four calls appends its entry to
//! the shard's history, and the type keeps that the history is legal by the rules of
//! `mely_history`. Contracts read the history whatever the setup says; it is kept as a list that code
//! can read where the setup asks for that ([`Setup::listed`](mely_history::Setup::listed)), and else
//! it takes no memory.
//!
//! A worker runs what a turn has, and takes the state home:
//!
//! ```text
//! while let Some((event, load)) = turn.next() {
//!     turn.state().run(event, load);
//! }
//! shard.finish(turn)
//! ```
#![tactic(auto)]

mod colour_slot;
mod shard;
mod shard_room;

pub use shard::Shard;
pub use shard_room::ShardRoom;
