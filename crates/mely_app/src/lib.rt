//! The front door of the runtime: an app is run on threads, from nothing to what it leaves.
//!
//! An app is its handlers ([`App`](mely_worker::App), of `mely_worker`) over states, one for each
//! colour. Here a state says how it begins ([`Initial`]), and [`run_app`] does all the rest: it
//! makes the states and the fleet, posts the first event, lets a thread for each core work until
//! nothing is left, closes the fleet, and hands out the states with the histories ([`Ended`]). Where
//! there is no memory it hands back what there is ([`RunError`]). The entries of the histories are
//! for contracts alone, and take no memory, unless the setup asks for lists that code can read
//! ([`Setup::listed`](mely_history::Setup::listed)). [`run_states`] takes states that its caller has
//! made. `docs/FIRST_APP.md` walks a whole program, the crate `example_hello`, which ends so:
//!
//! ```text
//! let Ok(setup) = Setup::new(&shape, COLOURS, handlers, 0) else {
//!     unreachable!()
//! };
//! let first = Event {
//!     handler: GREET,
//!     arg: times - 1,
//! };
//! run_app(rt, alloc, &setup, &Greeting, Colour(0), first, None)
//! ```
//!
//! What is promised is [`RanAll`](../specs/RanAll.antt): every event that was registered was run,
//! on the state of its colour, once, in the order in which its colour's events were registered,
//! however the threads ran. So whatever the type of a state keeps over its trail, as that a count
//! is the trail's length, is so of all that was registered. And what was registered is the first
//! event and what the handlers put, each as often ([`HasPutAll`](../specs/Puts.antt)): there is a
//! list of their runs, by the app's own relation. Where what a handler puts is told by the events,
//! `put_as_told` (`proofs/PutsLemmas.antt`) makes of it an equation on the histories.
//!
//! On which states, and in which order, is [`RanInOrder`](../specs/InOrder.antt): on each colour the
//! runs of handlers follow one another, from the state that was given to the one that is handed
//! out, each on the next event that was registered there, with its load. Those of a core stand in
//! the order in which its worker made them, and what they put, with its loads, is what that worker
//! registered, in that order. So where `runs` says what a handler makes of the state, the state that
//! is left can be computed. `value_is_fold` (`proofs/ValueLemmas.antt`): where each run takes a value
//! of the state one step on by its event and load, it ends as the steps along all that was
//! registered on the colour; `value_of_history` says so of the history, where no load matters.
//!
//! How the colours stand to one another is [`AreCaused`](../../mely_cause/specs/Causes.antt): each
//! event but the first was put by a run, of an event that was registered earlier; and what the
//! handlers of one colour put on another stands there in the order in which they put it, whatever
//! cores ran them. So a run on threads is one of a single thread
//! ([`RanAsByOne`](../../mely_cause/specs/Serial.antt)): there is one order of all runs, in which
//! each takes something that is under way, on the state of its colour, and adds what it puts. What
//! each run keeps of the states and of what is under way, the whole run keeps (`by_one`, and for
//! sums `same_by_one`, of `mely_cause/proofs/SerialLawLemmas`).
//!
//! Where memory is wanted on the way, [`Unfinished`] has the states, the histories, what waits on each
//! colour with its loads, and what was refused. What is promised of it is
//! [`RanInPart`, `HasPutInPart` and `RanInOrderSoFar`](../specs/Unfinished.antt): states and queues
//! are what the histories say, nothing that handlers put is missing, and as far as the run came it
//! was in order.
//!
//! Not promised is that the run ends (an app may register for ever), or that memory was wanted where
//! an error says so; nor any order on a colour between what different colours put there, but that
//! each event comes behind the run that put it.
#![tactic(auto)]

mod initial;
mod run_error;
mod running;

pub use initial::{Initial, initial_states};
pub use run_error::{RunError, Unfinished};
pub use running::{Ended, run_app, run_states};
