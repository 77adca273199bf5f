//! One connection of the server, a step at a time.
//!
//! A [`Conn`] reads pieces from its link, cuts heads off them, answers these out of a site and
//! writes what the peer takes: it is the connection of `sws_steps` that talks HTTP. Each call of
//! its `step` makes at most one call of the link, so that a server can give way to another
//! connection after every step. However the bytes come in
//! pieces and whatever the link answers, what was written is a prefix of the responses to the
//! bytes that were taken, wherever the link has a ghost model of them. [`serve_one`] runs a
//! connection to its end. A server that runs many connections knows them by the trait [`Talk`], in
//! which nothing is said of what they talk about.
//!
//! A connection ends after its last response, at the end of its input or of the part that counts,
//! after 30 answers in succession that the link isn't ready, and where the link fails. How many
//! bytes count and how many requests are answered is an option of the site, at most 4,294,967,295
//! and 65,535; of a plain site these are 65,536 and 64.
//!
//! Out of memory is the only error whose cause isn't specified, so a `new` that always answers it
//! is detected by tests alone.
//!
//! ```text
//! let mut conn = Conn::new(alloc, &site)?;
//! conn.open(link)?;
//! while conn.end().is_none() {
//!     conn.step();
//! }
//! ```
#![tactic(auto)]

mod buffer;
pub mod http;
pub mod laws;
mod serving;
mod window;

pub use http::Conn;
pub use serving::serve_one;
pub use sws_steps::{End, Handler, Next, Talk};
pub use window::Window;
