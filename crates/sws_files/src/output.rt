//! The output of the program, which collects small pieces.
ghost use Rattle.std.specs.Prelude.{◌≡◌, [], true, false, not};
ghost use Rattle.std.specs.Bool.{OnTrue};
ghost use Rattle.std.specs.Io.KnownBytes.{Keeps};
ghost use Rattle.std.specs.Io.Buffered.{writer_contents, writer_buffer};
ghost use Rattle.sws_files.specs.Streams.{TookOf};

use std::alloc::Global;
use std::cell::RefCell;
use std::io::{self, BufWriter, ErrorKind, Write};

/// A writer that collects small pieces, shared by the sink that writes to it and by the source that
/// hands over what was collected before it waits for more input.
///
/// The head and the body of a response are two pieces, so most responses leave the program in
/// one call of the machine.
#[derive(Drop)]
pub struct Output<W: Write + Drop> {
    collected: RefCell<Collected<W>>,
}

#[derive(Drop)]
struct Collected<W: Write + Drop> {
    writer: BufWriter<W>,
    /// A write or a flush has failed. What was collected then is lost, so
    /// nothing is written after it.
    has_failed: bool,
}

/// Writes all the bytes, or a front of them where the writer fails, and says which.
fn write_whole<W: Write>(writer: &mut W, bytes: &[u8]) -> bool
    ensures { TookOf (W.contents writer.old) (W.contents writer.new) result bytes.now }
{
    let mut at = 0;
    'writes: for _ in 0..u64::MAX {
        if at >= bytes.len() {
            return true;
        }
        match writer.write(&bytes[at..]) {
            Ok(count) => {
                if count == 0 {
                    return false;
                }
                at += count;
            }
            Err(error) if matches!(error.kind(), ErrorKind::Interrupted) => {}
            Err(_) => return false,
        }
    }
    false
}

impl<W: Write + Drop> Collected<W> {
    /// Writes the bytes or collects them, and says whether no call has failed so far. Where one has
    /// failed before, nothing is written.
    fn put(&mut self, bytes: &[u8]) -> bool
        ensures bytes { TookOf (writer_contents W.contents self.old.writer)
            (writer_contents W.contents self.new.writer) result bytes.now }
        ensures told { self.new.has_failed ≡ not result }
        ensures once { self.old.has_failed ≡ true → result ≡ false }
    {
        if self.has_failed {
            return false;
        }
        let is_whole = write_whole(&mut self.writer, bytes);
        self.has_failed = !is_whole;
        is_whole
    }

    /// Writes what was collected, and says whether no call has failed so far.
    fn flush(&mut self) -> bool
        ensures bytes { Keeps (writer_contents W.contents self.old.writer)
            (writer_contents W.contents self.new.writer) }
        ensures whole { OnTrue result (writer_buffer self.new.writer ≡ []) }
        ensures told { self.new.has_failed ≡ not result }
        ensures once { self.old.has_failed ≡ true → result ≡ false }
    {
        if self.has_failed {
            return false;
        }
        let is_whole = self.writer.flush().is_ok();
        self.has_failed = !is_whole;
        is_whole
    }
}

impl<W: Write + Drop> Output<W> {
    pub fn new(alloc: Global, writer: W) -> io::Result<Output<W>> {
        let writer = BufWriter::new(alloc, writer)?;
        Ok(Output {
            collected: RefCell::new(Collected {
                writer,
                has_failed: false,
            }),
        })
    }

    /// Writes the bytes or collects them, and says whether no call has failed so far.
    pub fn put(&self, bytes: &[u8]) -> bool {
        match self.collected.try_borrow_mut() {
            Ok(mut collected) => collected.put(bytes),
            Err(_) => false,
        }
    }

    /// Writes what was collected, and says whether no call has failed so far.
    pub fn flush(&self) -> bool {
        match self.collected.try_borrow_mut() {
            Ok(mut collected) => collected.flush(),
            Err(_) => false,
        }
    }
}
