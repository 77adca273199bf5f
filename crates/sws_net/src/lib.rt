//! The machine's network as the outside of the server: TCP. Its files and streams are `sws_files`.
//!
//! Each of these types implements a trait of `sws_link` by an object of the machine. It has no
//! ghost model of contents, and counts the machine's errors. What a socket carries is trusted, and
//! no contract speaks of it.
//!
//! | Type | Is | Over |
//! |---|---|---|
//! | [`TcpWorld`] | a world | a socket that listens, and epoll |
//! | [`LaneWorld`] | a world | the same, over sockets that worlds share behind a [`Door`] |
//! | [`TcpLink`] | a link | a socket, by a [`KeptLink`] |
//!
//! What is shared beside the sockets: [`Guests`] counts the connections of each address, and a
//! [`StopFile`] tells all to stop. A link's [`Client`] is whoever connected, or whom a proxy names in
//! the header of the PROXY protocol that its connections begin with.
//!
//! What a link keeps back of a response is proved over any [`Socket`] that tells what it carries,
//! as [`MemSocket`] does: [`KeptLink`] meets the clauses of every link on contents too.
//!
//! ```text
//! let mut world = TcpWorld::new(&rt)?;
//! if world.open(8080, 2) == Opened::Ready { // listens on 0.0.0.0:8080 for two connections
//!     match world.accept() {
//!         Accepted::Link(link) => links.push(link)?, // its reads and writes don't block
//!         Accepted::NotYet => (),
//!         Accepted::Failed => println!(rt; "the network failed")?,
//!     }
//! }
//! world.poll(&[0]); // which of those that wait may be ready
//! ```
#![tactic(auto)]

mod counted;
mod departures;
mod door;
mod errors;
mod guests;
mod kept;
mod kept_link;
mod lane_world;
mod leaving;
mod listener;
mod listeners;
mod lobby;
mod mem_socket;
mod places;
mod preface;
mod progress;
mod server;
mod signs;
mod socket;
mod stop_file;
mod tcp_link;
mod tcp_socket;
mod tcp_world;

pub use door::Door;
pub use guests::Guests;
pub use kept_link::KeptLink;
pub use lane_world::{Entrance, LaneWorld};
pub use listener::{listen, other_address};
pub use mem_socket::MemSocket;
pub use places::LISTENERS;
pub use preface::Client;
pub use socket::Socket;
pub use stop_file::StopFile;
pub use tcp_link::TcpLink;
pub use tcp_world::TcpWorld;
