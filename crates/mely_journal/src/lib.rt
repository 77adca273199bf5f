//! The journal of a run as text: for each shard a line with its number and how many entries its
//! history has, and then a line for each entry.
//!
//! [`write_journal`] writes it to a sink piece by piece, and the law
//! [`laws::a_journal_has_one_list_of_histories`] says that nothing is lost by that: of one text
//! there is one list of histories.
//!
//! ```text
//! write_journal(alloc, &mut sink, &histories);
//! // shard 0 3
//! // reg 0 0 1 2
//! // take 0 0 1
//! // fin 0 0 1
//! ```
#![tactic(auto)]

mod journal;
pub mod laws;

pub use journal::write_journal;
