//! The server from its words to its bytes: what the program does, over any
//! folder, source, sink and world.
//!
//! [`sws`] takes the words of the command line behind the program's name and runs the command that
//! they say. It is for a program that hands it the machine's files, streams and sockets, and for
//! whoever wants to know what that program writes: what is read and written is stated for every
//! folder, source, sink and world with a ghost model of its contents.
//!
//! ```usage
//! answer FOLDER ..
//!     one connection, from the source to the sink
//! replay FOLDER .. [--journal] [--schedule]
//!     a script of the source's, run in memory; its transcript is written
//! serve FOLDER --port P --connections N ..
//!     the connections that the world gives; a summary is written
//! bench N NUMBER ..
//!     a generated site and script, run in memory; a summary is written
//! check --connections N ..
//!     a journal of the source's is checked; what each core did is written
//! gopher FOLDER --host H --port P ..
//!     a script of the source's, run by Gopher, or the connections that the world gives
//! ```
//!
//! ```text
//! let outcome = sws(rt, words, folder, source, world, out);
//! let is_whole = out.finish();
//! fault_at_last(outcome.fault, is_whole)
//! ```
#![tactic(auto)]

mod answering;
mod benching;
mod checked;
mod checking;
mod duplex_link;
mod faults;
mod gophering;
mod ordering;
mod outcomes;
mod replaying;
mod scripts;
mod serving;
mod sites;

pub use faults::{SiteLimit, TopFault};
pub use ordering::sws;
pub use outcomes::Outcome;
