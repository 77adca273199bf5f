//! The state and the app of the programs that measure a weave and a fleet,
//! and of the fleet's tests.
//!
//! A [`Tally`] keeps its trail, which is all that a runtime asks of a state, and draws numbers. The
//! handler of [`Passing`] passes its event on to a colour that the state draws, or to its own.
#![tactic(auto)]

mod passing;
mod tally;

pub use passing::{Passing, pass_on};
pub use tally::{Tally, draw, initial_states, initial_tally};
