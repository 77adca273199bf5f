//! The rule by which a worker of one core runs coloured events.
//!
//! In libasync-smp (N. Zeldovich, A. Yip, F. Dabek, R. T. Morris, D. Mazières and F. Kaashoek,
//! *Multiprocessor Support for Event-Driven Programs*, USENIX 2003) each processor has a worker
//! that runs what is queued on it and steals a colour where nothing is; Mely (F. Gaud, S.
//! Geneves, R. Lachaize, B. Lepers, F. Mottet, G. Muller and V. Quéma, *Efficient Workstealing
//! for Multicore Event-Driven Systems*, ICDCS 2010) has it run batches and steal what is worth a
//! steal. A [`Worker`] is such a worker as a plain value. Each [`step`](Worker::step) makes at
//! most one call on shards and chains, or runs one handler, and is one line of a table; so
//! whoever calls it may let steps of several workers follow one another in any order, and no
//! lock is held over a handler.
//!
//! A program brings its handlers as an [`App`]. What the worker calls of shards and chains is an
//! [`Access`], which says in contracts what each call does; a [`Gate`] is told before each handler.
//! What follows a registration is a [`Delivery`], which a worker keeps in its hand until its next
//! step, and whoever posts from outside makes at once. A worker that runs out of memory is halted:
//! it ends its turn, puts back its mark, and keeps what could not be registered.
//!
//! ```text
//! let mut worker = Worker::new(alloc, core, victims, batch)?;
//! for _ in rt.forever() {
//!     match worker.step(&mut access, &app, &OpenGate) {
//!         Made::Halted => break,
//!         made => log(made),
//!     }
//! }
//! ```
#![tactic(auto)]

mod access;
mod app;
mod delivery;
mod gate;
mod idle_worker;
mod kept_phase;
mod made;
mod outs;
mod phase;
mod rule;
mod stage;
mod turning;
mod worker;
mod worker_fields;

pub use access::Access;
pub use app::App;
pub use delivery::Delivery;
pub use gate::{Gate, OpenGate};
pub use idle_worker::IdleWorker;
pub use made::Made;
pub use outs::Outs;
pub use worker::Worker;
