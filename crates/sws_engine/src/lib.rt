//! The web server on threads, and by steps: the server as an app of coloured events
//! ([`sws_handlers`]), with a thread for each worker.
//!
//! [`serve_all`] serves all links of a world out of a site, with a thread for each worker, and
//! [`serve_steps`] on one thread, by a schedule. Whatever the workers do, what each connection was
//! sent is a prefix of the responses to its bytes, wherever its link has a ghost model of them; of
//! any other link, as a socket, the calls and counts are promised. [`talk_all`] and [`talk_steps`]
//! are the same for any [`Talk`](sws_conn::Talk).
//!
//! Colour 0 asks the world which of the waiting connections is ready, colour 1 accepts links, and
//! colour `2 + conn` is the connection of the link with that number. With the access log there is
//! one colour more, behind all these, which keeps a line of each response that was written whole.
#![tactic(auto)]

mod threads;

pub use sws_handlers::{
    Desk, EndRoom, Ended, Frame, KeptLines, Load, Place, Role, Seat, Served, Sws, Task, Verdict,
    Waiting, WorldLoad, a_state_tells_what_was_served, conclude, initial_places,
    the_handlers_follow_the_paths,
};
pub use sws_weave::{
    Gated, each_path_opens_once, handler_table, run_apart, run_through, run_whole, serve_steps,
    start, talk_steps, worked_schedules_hold,
};
pub use threads::{serve_all, talk_all};
