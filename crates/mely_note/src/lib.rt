//! What a note of a history shows beside its entry: the load of a registration, and the state that
//! a finish brought home.
//!
//! A history of [`Entry`](mely_history::Entry)s says which events were registered, taken and
//! finished, and says nothing of data. A [`Note`] is an entry with the data that went over at it.
//! So a list of notes says which events wait with *which loads*, and what the state of a colour is
//! while it rests: what the last finish brought home, or at first what was given. A take hands out
//! exactly these, so its note needs nothing beside the entry.
//!
//! Loads and states stand in a note as snapshots, which have no bytes: a note is for contracts
//! alone, and whoever keeps a list of them keeps it in a log ([`mely_log`]).
//!
//! Each note has a [`Stamp`] too, a number of a logical clock: whoever makes a note gives it one
//! above all that stand before it, and above all that he has seen elsewhere. So notes of different
//! histories are in an order, in which nothing comes before what it was made of.
#![tactic(auto)]

mod note;
mod stamp;

pub use note::Note;
pub use stamp::{Stamp, Stamped};
