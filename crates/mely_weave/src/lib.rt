//! All shards, chains and workers of a coloured-event runtime as one plain value.
//!
//! In libasync-smp (N. Zeldovich, A. Yip, F. Dabek, R. T. Morris, D. Mazières and F. Kaashoek,
//! *Multiprocessor Support for Event-Driven Programs*, USENIX 2003) and Mely (F. Gaud, S. Geneves,
//! R. Lachaize, B. Lepers, F. Mottet, G. Muller and V. Quéma, *Efficient Workstealing for Multicore
//! Event-Driven Systems*, ICDCS 2010) each core has a chain of the colours that are ready there and
//! a worker that runs them, and steals a whole colour from another core where its own chain is
//! empty. A [`Weave`] is that machine without a thread: the steps of its workers are made one at a
//! time, by any cores in any order.
//!
//! Whatever the order is, a weave stands well ([`Weave::stands_well`]): every history is legal, a
//! colour that is ready has exactly one mark, which lies in the chain of its owner or on its way
//! there, and no other colour has one. So a ready colour is never lost and never run twice at once,
//! and no step meets a mark whose colour was run or stolen meanwhile.
//!
//! The colours below a setup's number of pinned colours are never stolen: they run on the
//! core that they began on.
//!
//! It is for whoever runs coloured events in an order of their own: to replay a schedule, to try an
//! app against every order, or to end what threads began ([`Weave::gather`]). What an initial weave
//! is made of is public too ([`ShardsRoom`], [`deal`], [`shards_of`], [`chains_of`],
//! [`rested_of`]), for whoever puts shards and chains behind locks.
//!
//! ```text
//! let mut weave = Weave::new(alloc, &setup, states)?;
//! let posted = weave.post(colour, event, load);
//! weave.step(0, &app);                 // one step of core 0
//! weave.run(&[(0, 6), (1, 12)], &app); // a schedule
//! weave.drain(&rt, &app);              // rounds until nothing is left
//! let parts = weave.into_parts();
//! ```
#![tactic(auto)]

mod draining;
mod gathering;
mod laws;
mod making;
mod parts;
mod room;
mod running;
mod shards_room;
mod side;
mod weave;

pub use draining::Drained;
pub use laws::no_run_loses_or_doubles_a_mark;
pub use making::{chains_of, deal, rested_of, shards_of};
pub use parts::WeaveParts;
pub use room::WeaveRoom;
pub use running::Went;
pub use shards_room::ShardsRoom;
pub use weave::Weave;
