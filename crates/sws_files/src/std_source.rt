//! A reader of the machine as a source.
ghost use Rattle.std.specs.Prelude.{◌≡◌, ◌<◌, ◌≤◌, None, IfOk, length};
ghost use Rattle.std.specs.Io.KnownBytes.{ReadConsumes};
ghost use Rattle.sws_link.specs.Contents.{Takes, TakesWithin};
ghost use Rattle.sws_link.specs.Counts.{HasCause, kept_count};
ghost use Rattle.sws_files.specs.Streams.{GaveOf};

use crate::output::Output;
use std::io::{self, ErrorKind, Read, Write};
use sws_link::{Got, Source};

/// How often a read is made again that a signal ended.
const MAX_TRIES: u32 = 1000;

/// Gives the bytes of a reader, of which nothing is known, and counts its errors.
///
/// Before it reads, it hands over what the output has collected, so that a client that waits for
/// its answer before it asks again has it. Whether that failed is the sink's to tell.
#[derive(Drop)]
pub struct StdSource<'o, R: Read + Drop, W: Write + Drop> {
    reader: R,
    output: &'o Output<W>,
    faults: u64,
}

impl<'o, R: Read + Drop, W: Write + Drop> StdSource<'o, R, W> {
    pub fn new(reader: R, output: &'o Output<W>) -> Self {
        StdSource {
            reader,
            output,
            faults: 0,
        }
    }
}

/// A read, which is made again where a signal ended it.
fn read_through_signals<R: Read>(reader: &mut R, into: &mut [u8]) -> io::Result<usize>
    ensures within { IfOk result (λ count. count ≤ length into.old) }
    ensures bytes { ReadConsumes (R.remaining reader.old) (R.remaining reader.new) result
        into.new }
{
    'tries: for _ in 0..MAX_TRIES {
        match reader.read(into) {
            Err(error) if matches!(error.kind(), ErrorKind::Interrupted) => {}
            answer => return answer,
        }
    }
    Err(io::Error::from(ErrorKind::Interrupted))
}

impl<'o, R: Read + Drop, W: Write + Drop> Source for StdSource<'o, R, W> {
    ghost left = { λ _. None };

    ghost faults = { λ source. kept_count source.faults };

    /// Reads, once what was collected was handed over.
    fn read(&mut self, into: &mut [u8]) -> Got
        requires { 0 < length into.old }
        ensures tells { GaveOf (R.remaining self.old.reader) (R.remaining self.new.reader) result
            into.new }
        ensures within { TakesWithin result (length into.old) }
        ensures bytes { Takes None None result into.new }
        ensures cause { HasCause (kept_count self.old.faults) (kept_count self.new.faults)
            (result ≡ Got.Failed) }
    {
        let _ = self.output.flush();
        match read_through_signals(&mut self.reader, into) {
            Ok(0) => Got::End,
            Ok(count) => Got::Took(count),
            Err(_) => {
                self.faults = self.faults.saturating_add(1);
                Got::Failed
            }
        }
    }
}
