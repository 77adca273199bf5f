//! The words of the program `swsd`.
//!
//! [`read_order`] makes an [`Order`] of them, by `clap`, or says why it can't ([`WordsFault`]).
#![tactic(auto)]

mod additions;
mod guests;
mod order;

pub use order::{LogFault, LogFormat, Order, WordsFault, read_order};
