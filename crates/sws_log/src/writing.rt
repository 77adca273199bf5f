//! Writing a log.
ghost use Rattle.std.specs.Prelude.{◌≡◌, ◌<◌, ◌++◌, [], OnOk, IfOk, vec_len};
ghost use Rattle.std.specs.Bool.{OnTrue, OnFalse};
ghost use Rattle.sws_link.specs.declared.Put.TheVariants as put;
ghost use Rattle.sws_link.specs.Counts.{HasCause};
ghost use Rattle.sws_link.specs.Contents.{Puts};
ghost use Rattle.sws_log.specs.Lines.{log_line, log_text};

use crate::LogLine;
use std::alloc::{AllocError, Global};
use sws_link::{Put, Sink, Unwritten, write_pieces};
use sws_text::{push_spaced, push_text};

/// Writes each line: `log CONN TURN CODE LENGTH TARGET` and LF, with the target as a text.
///
/// It is `Failed` only where the count of the sink rose, and `Memory` where a piece couldn't be made
/// or the sink had no memory; then a prefix of the text was written.
pub fn write_log<O: Sink>(alloc: Global, sink: &mut O, lines: &[LogLine]) -> Put
    ensures text { Puts (O.written sink.old) (O.written sink.new) result (log_text lines.now) }
    ensures cause { HasCause (O.faults sink.old) (O.faults sink.new) (result ≡ put.Failed) }
{
    write_pieces(sink, Vec::new(alloc), UnwrittenLines { lines })
}

/// The lines that are still to be written.
#[derive(Drop)]
struct UnwrittenLines<'l> {
    lines: &'l [LogLine],
}

impl<'l> Unwritten for UnwrittenLines<'l> {
    ghost left = { λ unwritten. log_text unwritten.lines.now };

    fn push_next(&mut self, piece: &mut Vec<u8>) -> Result<bool, AllocError> {
        let [line, lines @ ..] = self.lines else {
            return Ok(false);
        };
        push_line(piece, line)?;
        self.lines = lines;
        Ok(true)
    }
}

/// Adds a line.
fn push_line(text: &mut Vec<u8>, line: &LogLine) -> Result<(), AllocError>
    ensures { OnOk result (text.new.items ≡ text.old.items ++ log_line line.now) }
{
    text.extend_from_slice(b"log")?;
    push_spaced(text, line.conn as u64)?;
    push_spaced(text, line.turn as u64)?;
    push_spaced(text, line.code as u64)?;
    push_spaced(text, line.length)?;
    text.push(b' ')?;
    push_text(text, line.target.bytes())?;
    text.push(b'\n')?;
    Ok(())
}
