//! The web server over a weave: by the steps of a schedule, or by one worker to the end.
//!
//! [`serve_steps`] serves all links of a world out of a site on one thread, by a schedule, and
//! [`talk_steps`] does the same for any [`Talk`](sws_conn::Talk). Where the world's links answer by
//! scripts, the histories that it leaves are those of the server as a function on these scripts, and
//! no others. [`talk_gated`] passes a gate before each handler ([`Gated`]); by it one worker serves a
//! world to the end, with no lock and no thread of its own.
//!
//! A run is made of parts: [`start`] makes the weave and posts the first event, [`run_through`] runs
//! the schedule and then rounds until nothing is left, and [`run_apart`] takes the weave apart, of
//! which [`conclude`](sws_handlers::conclude) makes what the run leaves.
#![tactic(auto)]

mod gated;
mod laws;
mod running;
mod serving;
mod starting;
mod steps;
mod whole;

pub use gated::Gated;
pub use laws::{each_path_opens_once, worked_schedules_hold};
pub use running::run_through;
pub use serving::serve_steps;
pub use starting::start;
pub use steps::{handler_table, setup_of, talk_gated, talk_steps, unbegun};
pub use whole::{run_apart, run_whole};
