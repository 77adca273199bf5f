//! What a program says and nobody has written yet, so that no thread ever waits for an output.
//!
//! Who says something puts it into an [`Outbox`], which has a [`Queue`] for each of the two outputs:
//! lines that find no room in it are dropped and counted. One thread writes ([`write_out`]), a piece
//! at a time, while the output takes it.
#![tactic(auto)]

mod outbox;
mod writing;

pub use outbox::{Outbox, Queue};
pub use writing::write_out;
