//! The shards and chains of a coloured-event runtime behind locks, for threads.
//!
//! A [`Fleet`] is what a weave ([`mely_weave`]) is, but shared: each shard stands behind a lock of
//! its own, and so does each core's chain. A caller brings its [`Passes`], one for each lock. A
//! call goes into the lock of one shard or of one chain, and no lock is held over a handler.
//!
//! What a call answers is what the shard's own call answers at one point of the shard's
//! history: that point begins with all that the caller had seen, and only others' entries lie
//! between. The call's own entry, where it has one, is next. So the calls that a caller makes
//! stand in each shard's one legal history, each once, in the order in which it made them,
//! whatever other threads do.
//!
//! Contracts see a history as [`Note`](mely_note::Note)s, which have the load of each registration
//! and the state of each finish. So a take hands out the events with the loads that they were
//! registered with, and the state that the last finish brought home.
//!
//! Each note has a stamp, a number that only contracts see. That of a call's own note is above those of
//! all notes before it in the shard's history, and above all that its caller had seen before, of
//! whatever shard. So stamps rise along each history, and along all that one caller does, and who
//! sees a note of one shard and then makes one in another gives that the later stamp.
//!
//! A shard's history is there for contracts, and takes no memory, however many calls are made. Where
//! the setup asks for it ([`Setup::listed`](mely_history::Setup::listed)) its entries are also kept
//! as a list, which can be read once the fleet is closed.
//!
//! [`Fleet::new`](FleetOf::new) deals out the passes of each core and of other callers, one of whom
//! posts the first event. A thread for each core then works until nothing is left to do, and once
//! all are back the fleet is closed. `run_crew` of `mely_crew` is the whole of that.
//!
//! Where a mark lies in a running fleet isn't promised, nor that `work` returns, that two threads
//! run at once, or any order between shards but that of the stamps. The weave that
//! [`close`](FleetOf::close) gives stands well again. That no worker is left asleep while there is
//! work for it is argued in `BELL.md` of `mely_bell`, model-checked and stress-tested, not proved.
#![tactic(auto)]

mod close;
mod closing;
mod dealing;
mod fleet;
mod opening;
mod passes;
mod room;
mod seat;
mod side;
mod working;

pub use fleet::{Fleet, FleetOf};
pub use mely_kept::{KeptShard, ShardFrame};
pub use mely_kept_chain::{ChainFrame, ChainNote, KeptChain};
pub use passes::{Passes, PassesOf};
pub use room::{Room, RoomOf};
pub use seat::{Seat, SeatOf, Unclosed, UnclosedOf};
pub use working::Worked;
