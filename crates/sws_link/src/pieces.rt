//! Writing a text to a sink piece by piece.
ghost use Rattle.std.specs.Prelude.{◌≡◌, ◌<◌, ◌++◌, [], List, ℕ, OnOk, IfOk, vec_len};
ghost use Rattle.std.specs.Bool.{OnTrue, OnFalse};
ghost use Rattle.sws_link.specs.declared.Put.TheVariants as put;
ghost use Rattle.sws_link.specs.Counts.{HasCause};
ghost use Rattle.sws_link.specs.Contents.{Puts};

use crate::{Put, Sink};
use std::alloc::AllocError;

/// The most bytes of a piece, but for those by which the last of its lines passes them.
const PIECE: usize = 65_536;

/// A text that is handed out a few bytes at a time, so that it needn't be in memory as a whole.
pub trait Unwritten {
    /// The text that is still to be written.
    ghost left: { Self → List ℕ };

    /// Moves the next few bytes to the end of a piece, and says whether there were any.
    fn push_next(&mut self, piece: &mut Vec<u8>) -> Result<bool, AllocError>
        ensures moves { OnOk result
            (piece.new.items ++ left self.new ≡ piece.old.items ++ left self.old) }
        ensures some { IfOk result (λ some. OnTrue some (vec_len piece.old < vec_len piece.new)) }
        ensures none { IfOk result (λ some. OnFalse some (left self.new ≡ [])) };
}

/// Writes the front of a text, and the rest behind it, in pieces of about 64 KiB.
///
/// It is `Failed` only where the count of the sink rose, and `Memory` where a piece couldn't be
/// made or the sink had no memory; then a prefix of the text was written.
pub fn write_pieces<O: Sink, T: Unwritten + Drop>(sink: &mut O, front: Vec<u8>, rest: T) -> Put
    ensures text { Puts (O.written sink.old) (O.written sink.new) result
        (front.items ++ T.left rest) }
    ensures cause { HasCause (O.faults sink.old) (O.faults sink.new) (result ≡ put.Failed) }
{
    let mut rest = rest;
    let mut piece = front;
    'pieces: loop {
        match rest.push_next(&mut piece) {
            Err(_) => return Put::Memory,
            Ok(false) => return write_piece(sink, &piece),
            Ok(true) => {}
        }
        if piece.len() >= PIECE {
            match sink.write_all(&piece) {
                Put::Done => piece.clear(),
                stopped => return stopped,
            }
        }
    }
}

/// Writes the last piece, if anything is in it.
fn write_piece<O: Sink>(sink: &mut O, piece: &[u8]) -> Put
    ensures text { Puts (O.written sink.old) (O.written sink.new) result piece.now }
    ensures cause { HasCause (O.faults sink.old) (O.faults sink.new) (result ≡ put.Failed) }
{
    if piece.is_empty() {
        return Put::Done;
    }
    sink.write_all(piece)
}
