//! A room in which clients talk, over any world of links: what the runtime is for, with sockets.
//!
//! It is an app of actors: a colour for each client, one for the room, and one that asks the world;
//! no handler takes a lock.
//!
//! | Colour | What it has, a [`Part`] | What it is sent |
//! |---|---|---|
//! | 0 | the [`Desk`]: who waits for its link, and the world where it rests | to ask the world who may go on, or for the next link; that a client waits |
//! | 1 | the [`Room`]: how many lines it got | a line that is said |
//! | `2 + i` | the [`Client`] `i`: its link, and what is on its way from it and to it | that it comes, goes on, or is to leave; a line that it hears |
//!
//! A client whose link may be ready reads what has come. It says the first line to the room, or
//! tells the desk that it waits. The room passes a line to the first client; each client is shown
//! it, unless it said it, and passes it on; the last one has who said it go on. So each client has
//! one line on its way at most. What a client says after its last line feed is dropped with it. A
//! client that says a line of more than [`LONGEST`] bytes, or takes so little that more than 64 KiB
//! are on their way to it, is dropped, and its [`End`] says so.
//!
//! ```text
//! let Ok(ended) = run_chat(threads, rt.alloc(), words.workers, world) else {
//!     return Err(Fault::Memory);
//! };
//! tell(rt, &ended.values)
//! ```
//!
//! The world is open by then. What it leaves is read off the parts, as the program of
//! `example_chat_server` does:
//!
//! ```text
//! Part::Room(room) => {
//!     if println!(rt; "the room had {} lines", room.lines()).is_err() {
//!         return Err(Fault::Network);
//!     }
//! }
//! Part::Client(client) => tell_client(rt, colour.saturating_sub(1), client.end())?
//! ```
//!
//! # What is promised
//!
//! [`IsChat`](../specs/Talked.antt), of every run that ends with Ok:
//!
//! - *One order.* There is one list of lines, each with who said it and its text, which the room was
//!   told in that order, and the room's count is its length. Each of them has come to each client,
//!   once, with its text, in that order.
//! - *Shown.* A client was shown the lines that have come to it since its link had, but its own, as
//!   [`shown`](../specs/Shown.antt) has them, in the room's order: all of them as long as its time in
//!   the room hasn't ended, and else the first ones. Over a link that tells what is written to it,
//!   what was written, with what isn't yet, are the bytes of these lines; what isn't yet is on its
//!   way to the client, whose time hasn't ended. Who has left was written all that it was shown.
//! - *Said.* Over a link that tells what was taken of it, that is the lines that the room has of this
//!   client, in the room's order, each with a line feed behind it, and a rest. The rest of who has
//!   left is no whole line and not too long for one, and its link was read to its end.
//! - *Ends.* Who was dropped for a long line has more than 512 bytes in that rest before the first
//!   line feed; who was dropped for being slow has more than 64 KiB unwritten ([`End`],
//!   `HasEnded`).
//! - *Let in.* Unless the network has failed ([`Desk::is_broken`]) each client's link has come. That
//!   of client `i` has the input of the `i`-th link of a world that tells its links to come.
//! - *At each moment.* One thread might have received all messages, one after another, from the
//!   first; and at each moment of that the same is so of each client, over what it has received and
//!   said by then (`WasChat`). So a line that has come to a client whose time hasn't ended is shown.
//!   The histories are legal, and have each message that was received, once (`HasRun`).
//!
//! **Not promised**, since nothing tells it: what a socket brings or carries away, that a client
//! reads, when its time ends by a fault or for want of memory, in which order the lines of different
//! clients come to the room, and that the run ends.
#![tactic(auto)]

mod acting;
mod asking;
mod client;
mod desk;
mod end;
mod inbox;
mod line;
mod message;
mod outbox;
mod part;
mod room;
mod running;
mod serving;

pub use client::Client;
pub use desk::Desk;
pub use end::End;
pub use line::{LONGEST, Line};
pub use part::Part;
pub use room::Room;
pub use running::{MOST_CLIENTS, MOST_WORKERS, run_chat};
