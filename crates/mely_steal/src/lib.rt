//! Which colour a thief takes, and from whom.
//!
//! In the Mely runtime (F. Gaud, S. Geneves, R. Lachaize, B. Lepers, F. Mottet, G. Muller and V.
//! Quéma, *Efficient Workstealing for Multicore Event-Driven Systems*, ICDCS 2010) an idle core
//! steals a whole colour from another core, and two heuristics say which. By *time left* a colour
//! is worth a steal only where the weights of its queued events are over the cost of a steal, and
//! the colours that are worth most go first: a [`StealQueue`] keeps the marks of such colours by
//! their classes ([`class_of`]), and its pick is the oldest of the highest class. By *locality* a
//! core asks its neighbours first: [`victims`] is the order in which it goes round. That a colour
//! has to be worth more than its steal costs is Mely's; that the bounds of the classes are the
//! cost, twice and four times the cost is this project's own choice.
//!
//! The crate is for whoever keeps the ready colours of a core. A [`StealTable`], the last mark of
//! each colour with those that may be stolen, and a [`ColourList`], a list of colours by links, are
//! what the chain of a core is made of, so that it and its stealing queue keep each mark once. The
//! crate says nothing of queues of events, of locks or of threads.
//!
//! Lists are by links in tables with a place a colour, so a call touches a fixed number of
//! places; no clause says so. Nor does one give the numbers of entering, by which contracts
//! see the classes as one list: that the counter begins anew where no colour is in a class
//! can't be seen from outside.
//!
//! Only [`victims`] and the calls `new` may run out of memory. That is the only error whose cause
//! isn't specified, so a body that always answers it meets the contract too; tests show that it
//! isn't answered with ample memory.
//!
//! ```text
//! let mut queue = StealQueue::new(alloc, 4, 20, 0)?;
//! queue.enter(mark);                 // a colour became ready
//! queue.change(raised);              // more was registered on it
//! let stolen = queue.pick();         // the first of the highest class
//! for victim in victims(alloc, core, cores, group)? {
//!     println!(rt; "then core {victim} is asked")?;
//! }
//! ```
#![tactic(auto)]

mod class;
mod classes;
mod colour_list;
mod links;
mod locality;
mod mark_table;
mod numbering;
mod steal_queue;
mod steal_table;
mod table;

pub use class::class_of;
pub use colour_list::ColourList;
pub use locality::victims;
pub use steal_queue::StealQueue;
pub use steal_table::StealTable;
