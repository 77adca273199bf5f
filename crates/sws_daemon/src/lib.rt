//! The program `swsd`: a folder served by HTTP, until somebody says stop.
//!
//! Its words become an [`Order`](swsd_words::Order). By this some lanes of `sws_lane` run, each in a thread of its
//! own, over worlds of `sws_net` behind one door: a few of them take connections at a time, and
//! those whose generation is over see the connections out that are left.
//!
//! | Part | What it does |
//! |---|---|
//! | `swsd_words` | the words |
//! | `sws_shelf` | the site that generations begin with, loaded anew where the folder has changed |
//! | `sws_outbox` | what is said and not yet written, so that no lane ever waits for an output |
//! | [`Rounds`] | when it is looked whether the folder has changed |
//! | [`LineClerk`] | makes the lines of the access log, as answers are written |
//! | [`LaneKeeper`] | keeps one lane going, and says how its generations ended |
//! | [`serve_folder`] | all lanes, from the listener to the totals |
//! | [`command`] | the program |
#![tactic(auto)]

mod cause;
mod clerk;
mod keeper;
mod program;
mod rounds;
mod saying;
mod serving;
mod watching;

pub use cause::{Cause, cause_of};
pub use clerk::{LineClerk, LogDesk};
pub use keeper::LaneKeeper;
pub use program::command;
pub use rounds::Rounds;
pub use serving::{ServeFault, Served, serve_at, serve_folder};
