//! The chain of a core as its lock keeps it, and one call on it behind the lock.
//!
//! A [`KeptChain`] is a chain with the history of its changes, a [`ChainNote`] each, which is for
//! contracts alone and takes no memory. [`push_at`], [`pop_at`], [`retell_at`] and [`pick_at`] enter
//! the lock with a pass, and do there what the chain's own call does at one point of that history:
//! the point begins with all that the pass had seen, and only others' changes lie between. What a
//! call leaves in the chain it also tells the chain's [`Hint`](mely_bell::Hint) before it leaves the
//! lock.
//!
//! A history as long as a `u64` counts has no room for another change: a call would wait there for
//! ever, which no machine lives to see.
#![tactic(auto)]

mod chain_calls;
mod chain_note;
mod kept_chain;

pub use chain_calls::{pick_at, pop_at, push_at, retell_at};
pub use chain_note::ChainNote;
pub use kept_chain::{ChainFrame, KeptChain};
