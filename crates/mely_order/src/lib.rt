//! Order of entry over a weave: what one colour sends to another, in ascending order of a number,
//! is received in ascending order.
//!
//! A handler's registrations are made one by one, after it has returned, while other workers run
//! other colours. A registration enters the line of its colour behind all that is there, a take
//! splits that line in two, a steal moves the colour to another core, and a registration may be
//! refused for memory. None of this lets a later value overtake an earlier one. This crate says so,
//! for any app.
//!
//! Sums over a weave, as `mely_tally` has them, see no order. So this crate looks at one colour at
//! a time, wherever its state and its events are: `seen` gives its state, its *line* (the events
//! left of its turn, and behind them those that wait), and what its last handler put and that is
//! left to register. A step runs the first event of a line, or registers the first of what is left,
//! or nothing is seen of it ([`a_step_goes_by_the_lines`], [`a_post_enters_a_line`]).
//!
//! A `Stream` names a sending and a receiving colour (which may be one), the number of the value
//! that an event brings, the numbers that the receiver's state has received, and the last number
//! that the sender's state has sent. Numbers are 1 or more, and may be told to have no gaps. An
//! app's author proves of each handler alone, by `ServesStream`: the receiver's adds the number
//! that came, the sender's puts only numbers above the last one that it sent, in ascending order,
//! and no other puts any. A handler may go by a test that each state passes, where each handler
//! leaves states that do. Then the stream is `InOrder`: what was received, what stands in the
//! receiver's line, and what the sender has left to register `Rises`, one after the other, up to
//! the last number that was sent. It is so
//!
//! - in an initial weave ([`an_initial_stream_is_in_order`]), and after a post of something else
//!   ([`a_post_keeps_a_stream_in_order`]);
//! - after a step, a schedule that is run and a drain
//!   ([`what_is_sent_in_order_is_received_in_order`]);
//! - in the states and the queues that a weave is taken apart into
//!   ([`what_is_left_of_a_stream_is_in_order`]).
//!
//! Numbers that rise are in strictly ascending order ([`what_rises_is_in_order`]), so no value is
//! received twice. Where the numbers have no gaps, what was received, is queued and was refused for
//! memory are together as many as were sent; so where nothing is queued and nothing was refused,
//! what was received is 1, 2, 3 and so on, up to the last one that was sent. Where a registration
//! was refused its number is missing, and those behind it may come all the same.
//!
//! Its functions are laws, for contracts alone, and a call of one does nothing. A proof that carries
//! further facts over the steps of a run, beside a stream's order, finds the step in `OrderLemmas`.
//! Nothing is said of workers in threads, over shards behind locks.
#![tactic(auto)]

mod laws;

pub use laws::{
    a_post_enters_a_line, a_post_keeps_a_stream_in_order, a_step_goes_by_the_lines,
    an_initial_stream_is_in_order, what_is_left_of_a_stream_is_in_order,
    what_is_sent_in_order_is_received_in_order, what_rises_is_in_order,
};
