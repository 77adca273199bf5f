//! Sums over a weave: what one step, one post or a whole run does to all states
//! and all events under way.
//!
//! A state of a weave is at home in its shard or out in a turn, and an event that was registered
//! waits in a shard, is left of a turn, is left to register, or was refused for memory. Who proves
//! something of all of them, as that there is one token, or that nothing is paid twice, doesn't
//! care where they are. So this crate speaks of two lists: `states_of`, all states of a weave, and
//! `under_way`, all its events that weren't yet run. Whatever only moves things keeps every sum
//! over them, and only the run of a handler takes one event and one state out and puts others in.
//!
//! Its functions are laws, for contracts alone, and a call of one does nothing:
//! [`an_initial_weave_has_what_it_was_given`], [`a_post_brings_its_event`],
//! [`a_step_runs_one_event_or_only_moves`], [`what_each_handler_keeps_a_run_keeps`],
//! [`a_drained_weave_has_only_what_was_refused`], [`the_parts_are_what_the_weave_had`] and
//! [`what_is_left_in_the_parts_fits`]. So a fact on sums goes from the states that are handed in to
//! the parts that come out, and an app's author proves it of each handler alone.
//!
//! What handlers put can be counted too, by its colours: an `Account` is the runs of handlers on the
//! way to a weave, whose puts, with what was posted, are what is registered, left to register, or
//! was refused, and [`what_handlers_put_is_accounted_for`] carries it over posts, steps, runs and
//! drains.
//!
//! A fact that is no sum, but that every step keeps, is carried over runs and drains by the
//! lemmas of `CarryingLemmas`.
#![tactic(auto)]

mod laws;

pub use laws::{
    a_drained_weave_has_only_what_was_refused, a_post_brings_its_event,
    a_step_runs_one_event_or_only_moves, an_initial_weave_has_what_it_was_given,
    the_parts_are_what_the_weave_had, what_each_handler_keeps_a_run_keeps,
    what_handlers_put_is_accounted_for, what_is_left_in_the_parts_fits,
};
