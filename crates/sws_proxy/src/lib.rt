//! Headers of the PROXY protocol, versions 1 and 2, by which a proxy says for whom it connects
//! (proxy-protocol.txt of HAProxy).
//!
//! [`read_header`] reads one of the first bytes of a connection, as far as they have come.
#![tactic(auto)]

mod block;
mod header;
pub mod laws;
mod line;
mod proxied;

pub use header::{LONGEST, read_header};
pub use proxied::Proxied;
