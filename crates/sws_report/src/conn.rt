//! The transcript of a connection.
ghost use Rattle.std.specs.Prelude.{◌≡◌, ◌≢◌, ◌++◌, IfOk};
ghost use Rattle.sws_steps.specs.declared.End.TheVariants as how;
ghost use Rattle.sws_link.specs.declared.Put.TheVariants as put;
ghost use Rattle.sws_link.specs.Counts.{HasCause};
ghost use Rattle.sws_link.specs.Contents.{Puts};
ghost use Rattle.sws_report.specs.Transcript.{end_word, conn_line, conn_text};

use std::alloc::{AllocError, Global};
use sws_conn::End;
use sws_link::{Put, Sink, Unwritten, write_pieces};
use sws_text::{ShownLines, push_spaced};

/// Writes the transcript of a connection: its number, how it ended, how many bytes
/// were written, and these.
///
/// The connection has ended otherwise than for want of memory.
pub fn write_conn<O: Sink>(alloc: Global, sink: &mut O, number: u16, end: End, bytes: &[u8]) -> Put
    requires { end ≢ how.Memory }
    ensures text { Puts (O.written sink.old) (O.written sink.new) result
        (conn_text number end bytes.now) }
    ensures cause { HasCause (O.faults sink.old) (O.faults sink.new) (result ≡ put.Failed) }
{
    match make_line(alloc, number, end, bytes.len() as u64) {
        Ok(line) => write_pieces(sink, line, Shown(ShownLines::new(bytes))),
        Err(_) => Put::Memory,
    }
}

/// The lines of what a connection was sent.
#[derive(Drop)]
struct Shown<'b>(ShownLines<'b>);

impl<'b> Unwritten for Shown<'b> {
    ghost left = { λ lines. lines.0 };

    fn push_next(&mut self, piece: &mut Vec<u8>) -> Result<bool, AllocError> {
        self.0.push_next(piece)
    }
}

/// The line of a connection.
fn make_line(alloc: Global, number: u16, end: End, count: u64) -> Result<Vec<u8>, AllocError>
    ensures { IfOk result (λ text. text.items ≡ conn_line number end count) }
{
    let mut text = Vec::new(alloc);
    text.extend_from_slice(b"conn")?;
    push_spaced(&mut text, number as u64)?;
    text.extend_from_slice(word_of(end))?;
    push_spaced(&mut text, count)?;
    text.push(b'\n')?;
    Ok(text)
}

/// The word for an end, with a space before it. Want of memory has none.
fn word_of(end: End) -> &'static [u8]
    ensures { result.now ≡ end_word end }
{
    match end {
        End::Done => b" done",
        End::Idle => b" idle",
        End::Fault => b" fault",
        End::Memory => b"",
    }
}
