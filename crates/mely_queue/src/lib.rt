//! The queue of one colour, and the turns that are taken from it.
//!
//! In the Mely runtime (F. Gaud, S. Geneves, R. Lachaize, B. Lepers, F. Mottet, G. Muller and V.
//! Quéma, *Efficient Workstealing for Multicore Event-Driven Systems*, ICDCS 2010) each colour has
//! a queue of its own, and its time left, the sum of the weights of the events that wait, says
//! whether a steal is worth its cost. A [`ColourQueue`] is such a queue. A core that runs a colour
//! takes the first events off it, up to a batch, and with the colour's state they make up a
//! [`Turn`], which hands the events to their handlers one after another.
//!
//! The crate is for whoever schedules colours: it says nothing of cores, of steals or of who may
//! take. Each call costs constant time for each event that it moves.
//!
//! ```text
//! queue.push(event, load, handlers.weight(event.handler))?;
//! let mut turn = Turn::new(colour, core, state, queue.take_up_to(batch)?);
//! while let Some((event, load)) = turn.next() {
//!     run(turn.state(), event, load);
//! }
//! queue.finish(turn.count());
//! ```
//!
//! The vector of a turn that was run can serve the next one: `Turn::into_parts` gives it back, and
//! `ColourQueue::take_into` takes the next events into it.
#![tactic(auto)]

mod colour_queue;
mod turn;

pub use colour_queue::ColourQueue;
pub use turn::Turn;
