//! Which runs of a coloured-event program are legal, said without a core, a thread, a lock or a
//! queue.
//!
//! A run of one shard is a list of [`Entry`]s: an event was registered, a core took the first
//! events of a colour, it finished them, another core stole the colour. What such a list says of a
//! colour are filters, sums and lasts over it: the events that were registered, how many were begun
//! and ended, which wait, who owns the colour. An entry is allowed after a list by one row of a
//! short table over these words, and a list is legal where each entry is allowed after those before
//! it. This is the rule of libasync-smp (Zeldovich et al., USENIX 2003), where events of one colour
//! never run at once and keep their order, with whole colours stolen and the worth of a steal as in
//! Mely (Gaud et al., ICDCS 2010). That a colour's owner stays when its queue empties is this
//! project's own choice.
//!
//! Whoever keeps such a list can have it judged. The layers above, which run events, promise that
//! theirs is legal; [`batches_follow_one_another`] says what that means for the events.
//!
//! ```text
//! let setup = Setup::new(&shape, 2, handlers, 0)?;
//! match judge(&setup, &history) {
//!     Judged::Legal => println!(rt; "legal")?,
//!     Judged::NotAllowed { at } => println!(rt; "entry {at} may not follow those before it")?,
//! }
//! ```
#![tactic(auto)]

mod after;
mod colour_counts;
mod entry;
mod history;
mod judged;
mod judging;
mod laws;
mod no_steal;
mod no_take;
mod registered;
mod setup;
mod setup_fault;
mod shape;
mod stolen;

pub use after::After;
pub use entry::Entry;
pub use history::{History, MAX_ENTRIES, MAX_NOTES};
pub use judged::Judged;
pub use judging::judge;
pub use laws::batches_follow_one_another;
pub use no_steal::NoSteal;
pub use no_take::NoTake;
pub use registered::Registered;
pub use setup::{MAX_BATCH, MAX_COLOURS, MAX_CORES, MAX_GROUP, MAX_SHARDS, Setup};
pub use setup_fault::SetupFault;
pub use shape::Shape;
pub use stolen::Stolen;
