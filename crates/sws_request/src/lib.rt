//! The heads of HTTP requests: where one ends in the bytes of a connection, and what it says.
//!
//! A server reads bytes piece by piece. [`cut`] says whether they begin with a whole head yet, and
//! [`view`] shows such a head as a request: its method, target, version and fields are slices of
//! it. Neither call copies a byte or takes memory. Where more bytes come behind those that were
//! searched, [`scan`] goes on behind the last whole line and needs the bytes before it no more.
//!
//! ```text
//! match cut(bytes) {
//!     Cut::Head { len } => match view(&bytes[..len]) {
//!         Ok(request) => answer(request.method(), request.target()),
//!         Err(NotARequest) => refuse(),
//!     },
//!     Cut::TooLong => refuse_and_close(),
//!     Cut::NotYet => read_more(),
//! }
//! ```
#![tactic(auto)]

mod cuts;
pub mod head;
pub mod request;
mod scans;

pub use cuts::Cut;
pub use head::{MAX_HEAD, cut, cut_is_stable, scan};
pub use request::{
    FieldRoom, MAX_FIELDS, NotARequest, RequestRef, RequestView, empty_lines_change_nothing, view,
    view_in,
};
pub use scans::Scan;
