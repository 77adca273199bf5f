//! The web server as an app of coloured events: the states of its colours, the handlers that run on
//! them, and what they leave.
//!
//! Colour 0 asks the world which of the waiting connections is ready, colour 1 accepts links, and
//! colour `2 + conn` is the connection of the link with that number. With the access log there is
//! one colour more, behind all these, which keeps a line of each response that was written whole.
//! There is one world; it lies in an event of colour 0 or 1, or rests in the state of colour 0.
//!
//! [`Sws`] is the app: its handlers are functions of a state, an event and its load alone, so that
//! nothing here knows who runs them. A state is a [`Place`], and its type keeps that what it has is
//! what the events of its trail have made of it. [`initial_places`] makes the states with which a
//! run begins, and [`conclude`] makes of those that it leaves what became of each connection, and
//! the verdict.
#![tactic(auto)]

mod accepting;
mod app;
mod concluding;
mod desk;
mod ended;
mod handing;
mod initial;
mod judging;
mod laws;
mod left;
mod load;
mod logging;
mod place;
mod seating;
mod task;
mod waiting;

pub use app::Sws;
pub use concluding::conclude;
pub use ended::{EndRoom, Ended, Served, Verdict};
pub use initial::{colour_count, first_event, initial_places};
pub use laws::{
    a_state_is_consistent, a_state_tells_what_was_served, the_handlers_follow_the_paths,
};
pub use load::{Load, WorldLoad};
pub use logging::KeptLines;
pub use place::{Desk, Frame, Place, Role, Seat};
pub use task::Task;
pub use waiting::Waiting;
