//! Actors with data: a layer over `mely_app` in which an author writes a type of value, a type of
//! message, and one fact about them.
//!
//! An [`Actor`] says what a message does to the value of a colour, and what that keeps over the
//! messages that it has received and those that it has sent; [`Begins`] says how a value begins.
//! [`run_actors`] posts the first messages, as many as are given, runs all on threads until nothing
//! is left, and hands out the values ([`Ended`]), as here in `example_bank`:
//!
//! ```text
//! let Ok(setup) = Setup::new(&shape, ACCOUNTS, handlers, 0) else {
//!     unreachable!()
//! };
//! run_actors(rt, alloc, &setup, Bank, posts)
//! ```
//!
//! What is promised is [`AreKept`](../specs/Received.antt): what each colour received is what its
//! history says was registered, in that order; its value keeps the author's fact over exactly that
//! and what it sent; and what was received is what was posted and what was sent, with all that each
//! message carries, no more and no less. So what a message sends may depend on the value of its
//! colour and on the whole message: all that is to be known of it stands in the author's fact.
//!
//! Each message that was received has its sender, or was posted. What one colour received from
//! another is what that one sent it, in the order in which it sent it, over all its messages and
//! from whichever cores its turns sent them; and what was posted to a colour came in the order in
//! which it was posted.
//!
//! [`run_values`] takes the values that the colours begin with, as what another run left. Where
//! memory is wanted it hands back the values that there are ([`Halted`]): receipts led there from
//! the values that were given, with the author's fact after each, and a colour that received
//! nothing has the value that it was given ([`AreReached`](../specs/Received.antt)). Those of
//! colours on which it was wanted are lost, and all are where it was wanted to begin.
//!
//! Whatever threads made the run, one thread might have received all its messages, one after
//! another ([`ReceivedAsByOne`](../specs/Serial.antt), `serial` of `AreKept`). There is one order
//! of all receipts, in which those of each colour stand in theirs. It begins with the values that
//! the colours begin with, and the posts under way; each receipt takes a message that is under way,
//! at the value that the receipt of its colour before it left, and what it sends is under way from
//! then on; at the end nothing is, and the values are those that are handed out. So each message
//! comes from messages before it, or was posted. And the author's fact isn't one of the end alone:
//! at each moment of that order it holds of the value of each colour, over what the colour has
//! received and sent by then.
//!
//! So who shows that each receipt keeps something, of the values of all colours and of the messages
//! under way, has shown it of threads. [proofs/MomentLemmas.antt](../proofs/MomentLemmas.antt) has
//! the rules: it holds in the end (`in_the_end`) and wherever a message is received (`whenever`,
//! `each_message`), each message has its cause (`has_cause`), and a sum that no receipt changes is
//! in the end what it was with the posts (`total_kept`, as the money in `example_bank`).
//!
//! Not promised is in which order the messages of different senders come to a colour; nor, where
//! several have sent a colour the same message, whose a receipt of the one order takes: what is
//! under way there are messages with the colours that they are for, and not with those that sent
//! them.
#![tactic(auto)]

mod acting;
mod actor;
mod kept;
mod load;
mod running;
mod sends;
mod waiting;

pub use actor::{Actor, Begins, Place};
pub use running::{Ended, Halted, begin_all, run_actors, run_values};
pub use sends::Sends;
