//! The vocabulary of an event-driven program on several cores: what is run, and what must not run
//! at once.
//!
//! An [`Event`] names a handler and an argument. It has a [`Colour`]: events of one colour never
//! run at the same time, and they run in the order in which they were registered; events of
//! different colours may run on different cores. That is the concurrency rule of libasync-smp
//! (N. Zeldovich, A. Yip, F. Dabek, R. T. Morris, D. Mazières and F. Kaashoek, *Multiprocessor
//! Support for Event-Driven Programs*, USENIX 2003). A table of [`Handlers`] gives each handler
//! a time and a penalty, whose quotient is the weight of its events, as in Mely (F. Gaud,
//! S. Geneves, R. Lachaize, B. Lepers, F. Mottet, G. Muller and V. Quéma, *Efficient Workstealing
//! for Multicore Event-Driven Systems*, ICDCS 2010); an idle core steals only a colour whose queued
//! events weigh enough. A [`Mark`] is a promise that a colour is ready.
//!
//! A program brings the state of each colour, which implements [`Trail`] (contracts know the list of
//! the events that were run on it) and [`Fits`] (which loads its events may carry). [`TrailLog`] is
//! such a state, ready to use or to be held in another, and [`Logged`] one with a value beside it.
//! A value that a lock keeps implements [`Kept`]. The crate itself runs nothing, and nothing in it
//! takes memory.
//!
//! ```text
//! // handler 0 weighs 60 / 2 = 30, handler 1 weighs 7 / 2 = 3
//! let handlers = Handlers::new(&[(60, 2), (7, 2)]);
//! ```
#![tactic(auto)]

mod colour;
mod event;
mod fits;
mod handlers;
mod kept;
mod logged;
mod mark;
mod memory;
mod table_fault;
mod there;
mod trail;
mod trail_log;
mod unregistered;

pub use colour::Colour;
pub use event::Event;
pub use fits::Fits;
pub use handlers::{Handlers, MAX_HANDLERS};
pub use kept::Kept;
pub use logged::Logged;
pub use mark::Mark;
pub use memory::Memory;
pub use table_fault::TableFault;
pub use there::There;
pub use trail::Trail;
pub use trail_log::TrailLog;
pub use unregistered::Unregistered;
