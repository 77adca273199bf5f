//! A checker of printed journals, for whoever doesn't trust the program that printed one.
//!
//! [`check_journal`] reads a text piece by piece and says whether it is the journal of a legal
//! and drained run of a setup, and what each core ran and stole; or which line is the first
//! that no journal has there, which has the first entry that isn't allowed, or which colour
//! was left running or waiting. It holds one line at a time, and of each colour its owner, its
//! take and its queued weights.
//!
//! [`hear_journal`] does the same, and lets a [`Listener`] hear each line as it is read, for whoever
//! makes something of a journal that is too long to be kept. [`read_line`] says what one line says.
//!
//! ```text
//! let report = check_journal(alloc, &setup, &mut source)?;
//! ```
#![tactic(auto)]

mod checking;
mod fault;
mod judge;
pub mod laws;
mod listener;
mod place;
mod reader;
mod reading;
mod report;
mod watch;

pub use checking::{check_journal, hear_journal};
pub use fault::CheckFault;
pub use listener::Listener;
pub use reading::{Line, read_line};
pub use report::{CoreReport, Report};
