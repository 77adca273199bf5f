//! A list that contracts can read and code can't.
//!
//! Much of what a contract wants to say speaks of the past: what was put into a queue, who entered
//! a lock, what was paid in. A list of it would grow for as long as the program runs. A [`Log`] is
//! that list for contracts alone: it has no bytes, adding to it does nothing at run time, and a
//! note may be of any type, also of one that can't be copied.
//!
//! The till below keeps a sum, and its contracts know each amount of which it is made:
//!
//! ```text
//! struct Till {
//!     total: u64,
//!     paid: Log<u64>,
//!     ghost adds_up: { sum paid.items ≡ total },
//! }
//!
//! impl Till {
//!     fn pay(&mut self, amount: u64)
//!         requires { self.old.total + amount < 2 ^ 64 }
//!         ensures { self.new.paid.items ≡ self.old.paid.items ++ amount ∷ [] }
//!     {
//!         self.total += amount;
//!         self.paid.push(&amount);
//!     }
//! }
//! ```
//!
//! A log says what the code that writes it tells it, and no more: a till that forgot to add to
//! `paid` would meet `adds_up` only if it forgot to add to `total` too. So it is worth as much as
//! the facts that tie it to something that can be seen.
#![tactic(auto)]

mod log;

pub use log::Log;
