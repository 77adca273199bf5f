//! The access log of a server that goes on: each connection tells its lines as it gives them.
//!
//! A connection of `sws_steps` gives the line of an answer with the step that writes the last of
//! it. A [`Telling`] is a talk over such a connection, and hands each line to its [`Clerk`] in that
//! same step: so a line is there as soon as its answer is written, nobody keeps it, and a run needs
//! no log of its own. That each answer that was written whole has its line, once and in order, is
//! [`a_run_tells`].
//!
//! A line says little of the request, so a clerk is given a [`Record`] too: the head as it was sent,
//! and how long the body of its answer is. [`Recorded`] is a speech over that of HTTP which keeps
//! one.
//!
//! [`push_combined`] makes a text of all that, in the combined format of nginx and Apache. Whatever
//! a client has sent, the line stays one line of the same parts: [`no_client_forges_a_line`].
//!
//! ```text
//! push_combined(
//!     &mut text,
//!     &Visit {
//!         address: address.as_bytes(),
//!         date: date_of(self.desk.rt),
//!         request: record.request(),
//!         code: line.code,
//!         length: record.body(),
//!         referer: origin.referer,
//!         agent: origin.agent,
//!     },
//! )?;
//! ```
#![tactic(auto)]

mod clerk;
mod escapes;
mod laws;
mod record;
mod recorded;
mod telling;
mod visit;

pub use clerk::Clerk;
pub use laws::no_client_forges_a_line;
pub use record::{Origin, Record};
pub use recorded::{AccessConn, Recorded, Recounts, Taken};
pub use telling::{Lent, Telling, a_run_tells};
pub use visit::{Visit, push_combined};
