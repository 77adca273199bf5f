//! The ready colours of one core.
//!
//! In the Mely runtime (F. Gaud, S. Geneves, R. Lachaize, B. Lepers, F. Mottet, G. Muller and V.
//! Quéma, *Efficient Workstealing for Multicore Event-Driven Systems*, ICDCS 2010) a core keeps its
//! ready colours in a chain, its core queue, and beside it a stealing queue of those that are worth
//! a steal. The core runs the front of the chain; a thief picks from the stealing queue. A
//! [`CoreQueue`] is the two together: whatever is called, the stealing queue has exactly the marks
//! of the chain that are worth more than a steal costs and whose colours aren't pinned to their
//! core, in the order in which each entered its class.
//!
//! It is for whoever schedules colours on cores, who keeps one such queue a core, as it is or
//! behind a lock. It says nothing of events, of histories or of threads, and holds no reference.
//!
//! Only [`CoreQueue::new`] may run out of memory. That is the only error whose cause isn't
//! specified, so a body that always answers it meets the contract too; tests show that it
//! isn't answered with ample memory.
//!
//! ```text
//! let mut queue = CoreQueue::new(alloc, 4, 20, 0)?;
//! queue.push(mark)?;                       // a colour became ready
//! queue.retell(mark.colour, mark.started, 45); // more was registered on it
//! let next = queue.pop();                  // the core runs it
//! let stolen = queue.pick();               // or a thief takes it
//! ```
#![tactic(auto)]

mod core_queue;

pub use core_queue::CoreQueue;
