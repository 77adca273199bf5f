//! A whole run on threads: a fleet with a thread for each core, from the states that it begins with
//! to the weave that it leaves.
//!
//! [`run_crew`] makes a [`Fleet`](mely_fleet::Fleet), posts the first event, lets the worker of each
//! core work in a thread of its own until nothing is left to do, and closes the fleet. Where the
//! machine refused a thread, or started it late, the caller's thread runs what is left. [`run_open`]
//! does so without a gate, and lets the caller's thread run all where there is one core.
//!
//! ```text
//! let begin = (colour, event, load);
//! let (weave, drained) = run_crew(&rt, alloc, &setup, states, begin, &app, &gate)?;
//! let parts = weave.into_parts(); // the histories and the states of all colours
//! ```
#![tactic(auto)]

mod crew;
mod settling;

pub use crew::{run_crew, run_open};
