//! Headers of either version.
ghost use Rattle.sws_proxy.specs.Headers.{TellsHeader};

pub use crate::block::LONGEST;
use crate::block::read_block;
use crate::line::read_line;
use crate::proxied::Proxied;

/// By which a header of version 2 begins.
const SIGNATURE: [u8; 12] = *b"\r\n\r\n\0\r\nQUIT\n";

/// By which one of version 1 does.
const WORD: [u8; 6] = *b"PROXY ";

/// What the first bytes of a connection tell of the header before them, of which these are all that
/// have come.
pub fn read_header(bytes: &[u8]) -> Proxied
    ensures { TellsHeader bytes.now result }
{
    if bytes.starts_with(&SIGNATURE) {
        return read_block(bytes);
    }
    if bytes.starts_with(&WORD) {
        return read_line(bytes);
    }
    if SIGNATURE.starts_with(bytes) || WORD.starts_with(bytes) {
        Proxied::More
    } else {
        Proxied::Bad
    }
}
