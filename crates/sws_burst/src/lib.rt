//! A connection that takes several steps in one event.
//!
//! A talk of `sws_steps` makes a step at a time, so that a server may give way to another
//! connection after each: a request that is read, looked up and written takes seven of them. Each
//! is an event of the runtime, which costs more than the step. The talks here are over any other
//! talk, and each of their events is a *burst*: it makes steps until its link isn't ready, until
//! nothing is left to do, or until it has made [`BURST`] of them, so that no client holds a worker
//! for longer.
//!
//! There are two. [`Bursts`] keeps no log, and a burst of its may end several answers.
//! [`LoggedBursts`] is for a server with a log, to which an event gives one line at most: a burst
//! of its ends also with the step that gave a line. There a request costs one event up to its line,
//! and where no other lies behind it one more, which comes to wait.
//!
//! What is promised of them is what is promised of each [`Talk`](sws_steps::Talk): what is written
//! begins the responses to what was taken, and a link that told its answers to come gets exactly
//! the outcome of the talk inside. Of `Bursts` the path is that of the talk inside without the
//! steps that don't begin a burst ([`bursts_of`](../specs/Bursts.antt)). Of `LoggedBursts` the log
//! is that of the talk inside, and its events are the steps of that one that begin a burst, each
//! with whether a step of the burst gives a line
//! ([`events_of`](../specs/LoggedBursts.antt)).
//!
//! `sws_lane` serves by the one or the other, by whether a log is kept:
//!
//! ```text
//! talk_all::<R, W, Bursts<Conn<'_, W::Link>>, OpenGate>(
//!     rt,
//!     alloc,
//!     site,
//!     &terms.shape,
//!     world,
//!     &OpenGate,
//!     false,
//!     false,
//! )
//! ```
#![tactic(auto)]

mod bursts;
mod logged;

pub use bursts::{BURST, Bursts};
pub use logged::LoggedBursts;
