//! What bytes tell of a header.

use std::net::IpAddr;

/// What the first bytes of a connection tell of the header before them.
#[derive(Clone, Copy, Debug, PartialEq, Eq)]
pub enum Proxied {
    /// A whole header stands first: the address of the client, where it names one, and how many bytes
    /// it has.
    Whole(Option<IpAddr>, usize),

    /// It isn't whole yet.
    More,

    /// It is none, whatever else comes.
    Bad,
}
