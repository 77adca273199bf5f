//! A lock round a value that keeps a history, entered with a pass.
//!
//! Several threads share a value whose history grows by notes ([`mely_event::Kept`]), as the
//! queues of a shard do in an event-driven runtime: each change is a note, and each note has the
//! number of the pass that made it. [`Ticketed::new`] puts the value behind a lock and deals out
//! the passes, one for each caller. [`Ticketed::call`] waits until nobody is inside and lets a
//! closure have the value; it is [`Ticketed::enter`], which gives the value, and [`Held::leave`],
//! which puts it back. Once all passes are back [`Ticketed::close`] gives the value for good.
//!
//! ```text
//! let (lock, mut passes) = Ticketed::new(alloc, diary, 2)?;
//! let mut pass = passes.pop().ok_or("no pass")?;
//! let wrote = lock.call(rt, &mut pass, text, |diary, text, by| diary.add(by, text));
//! ```
//!
//! A contract of most locks can only say of the value what always holds of it. With a pass it says
//! where a call stands: the history that [`Ticketed::enter`] finds begins with all that the pass
//! had seen, and only notes of other passes lie between. After [`Held::leave`] the pass has seen
//! the whole. So the calls that are made with a pass stand in the one history of the lock, each
//! once, in the order in which they were made, whatever other threads do.
//!
//! The word that says who is inside is the ticket of a ticket lock without its queue: who comes
//! first is not said, nor that anybody does. The lock, its passes and what is held may cross
//! threads where the value may. It depends on `atomic_table`, whose rule this crate gives:
//! `specs/Rule.antt` has it in five parts, and `specs/Steps.antt` the kinds of step.
//!
//! # Sleeping
//!
//! A pass that finds another inside looks again for a while, and then sleeps until somebody leaves.
//! Beside the words of the rule stands a count of sleepers, under no part of it: a pass raises it
//! before it tries for the last time, and whoever leaves looks at it once the word says that nobody
//! is inside. All these steps are sequentially consistent, so either the pass sees that nobody is
//! inside and doesn't sleep, or who leaves sees it counted and makes the system's call that wakes a
//! sleeper. Where nobody sleeps, entering and leaving make no system call. No contract says any of
//! this: a lock that woke nobody would meet them all.
//!
//! # Large values
//!
//! The value is moved out of the lock at each entry and back at each leave, so that it is in one
//! hand. Let one that is large hold what it has in a box.
#![tactic(auto)]

mod calling;
mod claim;
mod closing;
mod dealing;
mod held;
mod lending;
mod lock_key;
mod lock_rule;
mod pass;
mod passing;
mod seat_knowledge;
mod steps;
mod ticketed;

pub use claim::Claim;
pub use held::Held;
pub use lock_key::LockKey;
pub use lock_rule::LockRule;
pub use pass::Pass;
pub use seat_knowledge::SeatKnowledge;
pub use ticketed::Ticketed;
