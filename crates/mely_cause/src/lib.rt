//! Which run of a handler put each event, and in which order what one colour puts comes to another.
//!
//! `mely_chain` says in which order the runs of one colour follow one another, and what each core
//! did in its own order. The notes of what a core did have stamps that rise, as those of each
//! history do. From that follows an order between colours (`AreCaused`,
//! [specs/Causes.antt](../specs/Causes.antt)): each event but the first was put by a run, of an
//! event that was registered earlier; what a run put on a colour was registered there in that
//! order; and what the runs of one colour put on another stands there in the order of these runs,
//! whatever cores made them.
//!
//! From this it follows that whatever threads made the runs, one thread might have made them too
//! (`RanAsByOne`, [specs/Serial.antt](../specs/Serial.antt)). There is one order of all runs, in
//! which those of each colour stand in theirs, and by which each takes an event from those that are
//! under way, runs on what the run of its colour before it left, and adds what it puts to those
//! under way; at the end none is left, and the states are those that are left. So who shows that
//! each run of a handler keeps something, of the states of all colours and of what is under way,
//! has shown it of threads (`kept_by_all` and `sum_kept_by_all`,
//! [proofs/SerialLawLemmas.antt](../proofs/SerialLawLemmas.antt)).
//!
//! It is said of whatever has come to its end with notes that tell of it, so of a weave
//! ([`what_a_drained_weave_ran_has_causes`]) as of a run on threads (`run_app` of `mely_app`). So
//! nothing is made up: no two events are put each by the run of the other
//! ([`no_two_events_put_each_other`]), although histories of such two count right on each colour.
//! The laws are for contracts alone, and a call of one does nothing.
#![tactic(auto)]

mod laws;

pub use laws::{no_two_events_put_each_other, what_a_drained_weave_ran_has_causes};
