//! Networked services over actors: an author says what a frame asks, of which cell, and what a cell
//! does with a request, and gets a server on all cores, without a lock.
//!
//! A [`Service`] cuts the bytes of a connection into frames. What a frame asks is answered by the
//! connection itself ([`Asked::Here`], [`Asked::Last`]) or by one of the service's *cells*, each of
//! which has a value of its own and answers one request after another ([`Asked::At`]). So keys that
//! are spread over cells are served on all cores at once, and a key is never at two places. A frame
//! may also ask several cells, one after another, whose replies are the parts of one
//! ([`Asked::Each`]). So `example_counters` does with a cell that has the counters of some keys:
//!
//! ```text
//! match request {
//!     Request::Add(key, number) => {
//!         let sum = value(counters, key).saturating_add(number);
//!         counters.insert(key, sum)?;
//!         Ok(Reply::Number(sum))
//!     }
//!     Request::Get(key) => Ok(Reply::Number(value(counters, key))),
//! }
//! ```
//!
//! [`serve`] runs it over any [`World`](sws_link::World) of links that is open, until all of its
//! connections have ended, and leaves the value of each colour, a [`Part`]:
//!
//! | Colour | What it has |
//! |---|---|
//! | 0 | the [`Desk`], which asks the world who may go on, and for the next link |
//! | `1 + c` | the value of cell `c` |
//! | `1 + cells + k` | connection `k`, a [`Client`]: its link, and how it has ended ([`End`]) |
//!
//! [`serve_on`] serves on cells that have given values, and [`take_cells`] takes the cells out of
//! what a run left. So one run may follow another: between them the cells are at hand, to be
//! written to a file, or for a service that has changed.
//!
//! A connection has one request under way at most, also where a frame asks several cells: the next one
//! is asked once the one before it has replied. It isn't read while a request is under way or an
//! answer isn't written, so who doesn't take answers isn't heard either. What was begun is asked to its
//! end, even where the connection has ended meanwhile. Frames that came together
//! are answered together. A frame of more than [`Service::longest`] bytes is a fault, as is what
//! the service can't cut: it is answered once ([`Service::refuse`]), and the connection ends.
//!
//! # What is promised
//!
//! [`HasServed`](../specs/Served.antt), of every run that ends with Ok; of a run on given cells
//! `HasServedFrom`, which says the same with these values as those that the cells begin with:
//!
//! - *Framed.* Over a link that tells what was taken and written, what was taken of a connection
//!   begins with the frames of its lines, as the service cuts them; each line has what its frame
//!   asks, its reply, and where several cells were asked the parts of that, one for each; and what
//!   was written, and what isn't yet, are the bytes of these replies with their parts, in order. Where the connection has ended well, nothing is left unwritten. Then either its
//!   client has sent all that it sends, all of that was taken, and no frame of it is left; or the
//!   connection was to end, by an answer of [`Asked::Last`] or the one to a fault.
//! - *Sequential.* Each cell has one list of exchanges, a request with its reply, along which it
//!   went step by step from what it began with to the value that is handed out: a sequential
//!   history, as in linearizability (M. Herlihy and J. Wing, *Linearizability: A Correctness
//!   Condition for Concurrent Objects*, 1990).
//! - *The same exchanges.* The exchanges of a connection with a cell, by the lines of the
//!   connection, are in order those of the cell with the connection, by the history of the cell. So
//!   each request has one place in the history of its cell, those of one connection stand there in
//!   the order in which they were sent, and what a connection is told is the reply of that place.
//!   Of a line that asks several cells that holds for each of its parts: each was asked once, in
//!   order. No request is left under way, no line is left half asked, and no reply goes astray.
//!
//! Over runs that follow one another, each on the cells that the one before it left, a cell has one
//! history too: its exchanges run after run are steps of the service, from the value with which the
//! first run began to the one that the last left. This is the law
//! [`a_cell_has_one_history_along_all_runs`].
//!
//! Where memory was wanted, [`serve_on`] hands back what each colour has, but for those on which it
//! was wanted ([`Halted`](mely_actor::Halted)): each cell that is there went along a sequential
//! history ([`HasHalted`](../specs/Served.antt)), so its value is one that requests led to.
//!
//! So a cell's queue is bounded by the connections: of each, one request at most waits for the cell
//! at any moment at which both are as their handlers leave them, and the connection was replied no
//! more than the cell has sent. This is the law [`one_request_of_a_connection_waits`]; `serve` itself
//! says nothing of moments.
//!
//! **Not promised**, since nothing tells it: what a socket brings or carries away; in which order
//! the requests of different connections come to a cell; anything of the order of exchanges with
//! different cells, so that a frame which asks several is no single step: requests of other
//! connections may come between its parts, and be seen by some of them alone; that a run
//! ends, or how long an answer takes. Of a run that wants memory nothing is promised but the
//! history of each cell that is handed back: requests that were under way are dropped, and a cell
//! may have served one whose client wasn't told. Where there was no memory to begin, nothing is
//! handed back.
#![tactic(auto)]

mod acting;
mod asked;
mod asking;
mod client;
mod closing;
mod cut;
mod desk;
mod end;
mod fresh;
mod laws;
mod layout;
mod message;
mod part;
mod running;
mod service;
mod serving;
mod several;
mod window;

pub use asked::Asked;
pub use client::Client;
pub use closing::take_cells;
pub use cut::Cut;
pub use desk::Desk;
pub use end::End;
pub use laws::{a_cell_has_one_history_along_all_runs, one_request_of_a_connection_waits};
pub use part::Part;
pub use running::{MOST_WORKERS, serve, serve_on};
pub use service::Service;
