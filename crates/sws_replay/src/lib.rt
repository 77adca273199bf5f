//! A script run by HTTP over a site, or by talks of any hall, and what is written of that run.
//!
//! [`replay`] serves the connections of a script, several workers on threads, and writes their
//! transcript, which is the same for every number of workers and shards: each connection is served
//! as if it were alone.
//! With the journal it writes the entries of each shard as well. [`replay_by_schedule`] runs the
//! same connections on one thread, by a schedule that says which core makes a step, and writes the
//! one text of that schedule ([`laws::a_schedule_has_one_text`]). [`run_script`] is the run alone,
//! for whoever counts what it leaves. [`replay_talks`] and [`run_talks`] are the two for any
//! [`Talk`](sws_conn::Talk), of which HTTP is one.
//!
//! Nothing is written before a run has ended well.
//!
//! ```text
//! let input = read(rt, script, false, shape);
//! let conns = input.conns.as_slice();
//! replay(
//!     rt,
//!     rt.alloc(),
//!     &site(rt),
//!     shape,
//!     conns,
//!     journal,
//!     false,
//!     sink,
//! )
//! ```
//!
//! What is written, where one connection asks for a file of three bytes:
//!
//! ```output
//! conn 0 done 79
//! | HTTP/1.1 200 OK~
//! | Server: sws~
//! | Content-Type: text/html~
//! | Content-Length: 3~
//! | ~
//! | hi\n
//! ```
#![tactic(auto)]

mod fault;
mod fitting;
pub mod laws;
mod replaying;
mod running;
mod writing;

pub use fault::RunFault;
pub use replaying::{replay, replay_by_schedule, replay_talks};
pub use running::{run_script, run_talks};
