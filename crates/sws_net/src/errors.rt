//! What the machine's errors mean.

use std::io::{self, ErrorKind};

// The numbers that the C library on Linux gives errors (the manual's page `errno(3)`).

const ENOMEM: i32 = 12;

const ENFILE: i32 = 23;

const EMFILE: i32 = 24;

const ENONET: i32 = 64;

const EPROTO: i32 = 71;

const ENOPROTOOPT: i32 = 92;

const EOPNOTSUPP: i32 = 95;

const EAFNOSUPPORT: i32 = 97;

const EADDRINUSE: i32 = 98;

const EADDRNOTAVAIL: i32 = 99;

const ENOBUFS: i32 = 105;

const EHOSTDOWN: i32 = 112;

/// Whether a call on a socket is to be tried again once the socket is ready.
pub fn is_not_yet(error: &io::Error) -> bool {
    matches!(error.kind(), ErrorKind::WouldBlock | ErrorKind::Interrupted)
}

/// Whether the machine has no room for one more connection now.
pub fn has_no_room(error: &io::Error) -> bool {
    matches!(
        error.raw_os_error(),
        Some(ENFILE | EMFILE | ENOMEM | ENOBUFS)
    )
}

/// Whether the machine has no addresses of this kind, as one without IPv6.
pub fn has_no_such_address(error: &io::Error) -> bool {
    matches!(error.raw_os_error(), Some(EAFNOSUPPORT | EADDRNOTAVAIL))
}

/// Whether somebody listens at the address already.
pub fn is_in_use(error: &io::Error) -> bool {
    error.raw_os_error() == Some(EADDRINUSE)
}

/// The errors that a listening socket hands on from a connection that broke before it was accepted
/// (the manual's page `accept(2)`), and a signal.
pub fn is_of_one_connection(error: &io::Error) -> bool {
    matches!(
        error.kind(),
        ErrorKind::Interrupted
            | ErrorKind::ConnectionAborted
            | ErrorKind::ConnectionReset
            | ErrorKind::HostUnreachable
            | ErrorKind::NetworkUnreachable
            | ErrorKind::NetworkDown
            | ErrorKind::PermissionDenied
            | ErrorKind::TimedOut
    ) || matches!(
        error.raw_os_error(),
        Some(EPROTO | ENOPROTOOPT | EOPNOTSUPP | ENONET | EHOSTDOWN)
    )
}
