//! The runs of handlers that a run of the machine makes, in order: those of a colour one after
//! another on its state, and those of a core with what they put.
//!
//! Notes of histories (`mely_note`) show which events were registered, taken and finished, with the
//! loads and the states that went over. By them `CoreTold` says which runs the worker of one core
//! made: turn by turn on each colour, each turn on the very events that its take gave, from the
//! state that was at home to the one that its finish brought home; and that the core's pass
//! registered what these runs put, in that order, but for what its turn has left. It is said of any
//! worker and any notes, so the weave and the fleet have it both.
//!
//! `CoreDid` says what the core did in its own order, over all colours: one list of its notes and
//! its runs. The stamps of notes rise along it, and along each history. So a run is behind the take
//! of its turn, and what it put behind it, whatever shards they are on: that orders colours among
//! one another.
//!
//! `WeaveTold` and `WeaveDid` say it of all workers of a weave, and
//! [`notes_tell_what_the_workers_ran`] carries both over posts, steps, runs of a schedule and
//! drains. Where a weave has come to its end, [`what_a_drained_weave_ran_is_in_order`] brings the
//! runs of its cores into one order on each colour (`AreInOrder`). Both are laws, for contracts
//! alone, and a call of one does nothing. Which run put each event follows in `mely_cause`.
#![tactic(auto)]

mod laws;

pub use laws::{notes_tell_what_the_workers_ran, what_a_drained_weave_ran_is_in_order};
