//! A server that goes on: one generation of connections after another, over one world.
//!
//! A *lane* has a world and what has come of its generations so far. A *generation* is one run of
//! [`talk_all`](sws_engine::talk_all), of so many connections at most. A [`Keeper`] says whether
//! there is to be a further one and over which site, and hears how each has ended.
//!
//! [`keep_serving`] makes one generation after another: each opens the world that the one before
//! left, and meets all that is promised of a run. So over a world that tells its links, the k-th
//! connection of the lane is the k-th to come, and what it was sent begins the responses to its
//! input, out of the site of its generation.
//!
//! It ends where the keeper wants no further one, or where the world is lost; `sws_daemon` gives
//! the lane a new one then:
//!
//! ```text
//! keep_serving::<T, LaneWorld<'_>, LaneKeeper<'_, T>, LineClerk<'_, T>>(
//!     threads,
//!     alloc,
//!     &job.terms,
//!     desk,
//!     &mut job.lane,
//! );
//! if job.lane.world.is_some() {
//!     return;
//! }
//! ```
#![tactic(auto)]

mod generation;
mod keeper;
mod keeping;
mod lane;
mod laws;
mod totals;

pub use generation::ToldConn;
pub use keeper::{Keeper, Told};
pub use keeping::keep_serving;
pub use lane::{Lane, Terms};
pub use laws::logged_bursts_open_once;
pub use totals::Totals;
