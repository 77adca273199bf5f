//! The answer to the head of a request, out of a site.
//!
//! [`ask`] says what a whole head asks, and [`answer`] what is sent for that (RFC 9110, RFC 9112;
//! RFC 6585, section 5): a file for GET and HEAD or one part of it, that it was not modified, or a
//! refusal, and whether the connection ends after it. Head and body are lent out of the site, and
//! the head of a part lies in the answer, so that neither call copies a byte of a file or takes
//! memory; the name of a file is decoded into a [`PathRoom`], which is made once for a connection.
//!
//! What a whole connection is sent is a definition, `responses_of`, which all layers above cite;
//! [`laws`] has what holds of it.
//!
//! ```text
//! let mut room = PathRoom::new(alloc)?;
//! let answer = answer(&site, &ask(head), false, &mut room);
//! send(answer.parts);
//! if answer.closes {
//!     shut();
//! }
//! ```
#![tactic(auto)]

mod answering;
mod answers;
mod asking;
mod closing;
mod conditions;
mod dot_segments;
mod fields;
mod framing;
pub mod laws;
mod path_room;
mod ranges;
mod targets;

pub use answering::{answer, answer_head, answer_into};
pub use answers::{Answer, Answered};
pub use asking::{Asked, ask, target};
pub use path_room::{PATH_ROOM, PathRoom};
