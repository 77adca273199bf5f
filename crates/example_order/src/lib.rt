//! A small app in which one colour tells another numbers, over a weave: how an app's author uses
//! `mely_order`.
//!
//! The contract of its handlers (`telling.rt`) is their part of a stream, which
//! `specs/Telling.antt` has. [`tell`] runs it, and what comes of it is all that was told, in order.
#![tactic(auto)]

mod running;
mod teller;
mod telling;

pub use running::tell;
pub use teller::Teller;
