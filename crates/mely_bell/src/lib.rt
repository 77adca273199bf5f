//! Where workers that find nothing to do wait until somebody has news for them.
//!
//! A [`Bell`] belongs to the workers of one fleet. Each worker keeps a [`Watch`] of its own, and
//! notes in it what each of its steps found ([`Bell::note`]). One that has looked for long and found
//! nothing goes to sleep ([`Bell::rest`]); whoever makes news wakes as many as can use them: a mark
//! that came into a chain ([`Bell::pushed`], [`Bell::retold`]), the last turn of all
//! ([`Bell::finished`]), a worker that leaves ([`Bell::leave`]). What is known of a chain without
//! its lock is its [`Hint`], which whoever holds the lock writes.
//!
//! A core is a number below those that the bell was made for; any other number stands for all
//! callers that are no worker, who share one bed.
//!
//! No contract speaks of any of this: that nobody is left asleep while there is work for it is
//! argued in `BELL.md` beside this crate, model-checked, explored as it is compiled, and
//! stress-tested, not proved. What is proved is that no call breaks a rule of the language, and that
//! each that doesn't wait returns.
#![tactic(auto)]

mod bell;
mod hint;

pub use bell::{Bell, Watch};
pub use hint::Hint;
