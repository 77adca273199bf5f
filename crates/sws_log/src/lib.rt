//! The access log of a server: a line for each answer that was written whole.
//!
//! A [`LogLine`] says which connection and which of its answers it is, the answer's status code, how
//! many bytes the whole response has, and the beginning of the request's target, which is a
//! [`Brief`]: a line is a small `Copy` value and takes no memory. [`write_log`] writes lines to a
//! sink, one after another, however many there are.
//!
//! ```text
//! let line = LogLine { conn: 0, turn: 1, code: 200, length: 79, target: Brief::of(b"/") };
//! write_log(alloc, &mut sink, &[line]);
//! // log 0 1 200 79 /
//! ```
#![tactic(auto)]

mod brief;
pub mod laws;
mod line;
mod writing;

pub use brief::{Brief, MAX_BRIEF};
pub use line::LogLine;
pub use writing::write_log;
