//! The plain values of the runtime, as tests: events, histories, queues, marks, locks and shards.
//!
//! They stand in a crate of their own, since a crate with tests is proved twice.
#![tactic(auto)]

#[cfg(test)]
mod tests;
