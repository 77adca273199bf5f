//! The adapters over readers and writers that do as the machine may.

use std::alloc::Global;
use std::cell::RefCell;
use std::io::{self, ErrorKind, Read, Write};
use sws_files::{Output, StdSink, StdSource};
use sws_link::{Got, Put, Sink, Source};

/// What a writer has taken, in how many calls.
#[derive(Drop)]
struct Taken {
    bytes: Vec<u8>,
    calls: u32,
}

/// A writer that takes at most `piece` bytes at each call, and fails once it has `most` of them.
#[derive(Drop)]
struct Narrow<'t> {
    taken: &'t RefCell<Taken>,
    piece: usize,
    most: usize,
}

impl Write for Narrow<'_> {
    fn write(&mut self, bytes: &[u8]) -> io::Result<usize> {
        let Ok(mut taken) = self.taken.try_borrow_mut() else {
            return Err(io::Error::from(ErrorKind::Other));
        };
        taken.calls = taken.calls.saturating_add(1);
        if taken.bytes.len() >= self.most {
            return Err(io::Error::from(ErrorKind::BrokenPipe));
        }
        let count = bytes.len().min(self.piece);
        taken.bytes.extend_from_slice(&bytes[..count])?;
        Ok(count)
    }

    fn flush(&mut self) -> io::Result<()> {
        Ok(())
    }
}

/// A reader that a signal interrupts at first, then gives one byte, and then fails.
#[derive(Drop)]
struct Unsteady {
    reads: u32,
}

impl Read for Unsteady {
    fn read(&mut self, into: &mut [u8]) -> io::Result<usize> {
        self.reads = self.reads.saturating_add(1);
        if self.reads == 1 {
            return Err(io::Error::from(ErrorKind::Interrupted));
        }
        if self.reads > 2 || into.is_empty() {
            return Err(io::Error::from(ErrorKind::Other));
        }
        into[0] = b'G';
        Ok(1)
    }
}

/// What is done with a sink and a source, with what comes of it.
#[derive(Clone, Copy)]
enum Call {
    Write(&'static [u8], Put),

    /// A read, of the byte `G` where it took one.
    Read(Got),

    Finish(bool),
}

/// Makes a call, and says whether it comes so.
fn answers(
    sink: &mut StdSink<'_, Narrow<'_>>,
    source: &mut StdSource<'_, Unsteady, Narrow<'_>>,
    call: Call,
) -> bool {
    let mut room = [0; 8];
    match call {
        Call::Write(bytes, answer) => sink.write_all(bytes) == answer,
        Call::Read(answer) => {
            source.read(&mut room) == answer && (answer != Got::Took(1) || room[0] == b'G')
        }
        Call::Finish(is_whole) => sink.finish() == is_whole,
    }
}

/// A writer that has taken nothing.
fn none_taken(alloc: Global) -> RefCell<Taken> {
    RefCell::new(Taken {
        bytes: Vec::new(alloc),
        calls: 0,
    })
}

/// Whether a writer has taken this, in so many calls where these are counted.
fn has_taken(taken: &RefCell<Taken>, bytes: &[u8], calls: Option<u32>) -> bool {
    match taken.try_borrow() {
        Ok(seen) => seen.bytes.as_slice() == bytes && calls.is_none_or(|count| seen.calls == count),
        Err(_) => false,
    }
}

/// Whether these calls come so over a writer that takes pieces of so many bytes, and most of so many, and
/// it has taken this then, in so many calls.
fn plays(alloc: Global, row: &Row) -> io::Result<bool> {
    let (_, (piece, most), calls, bytes, count) = *row;
    let taken = none_taken(alloc);
    let writer = Narrow {
        taken: &taken,
        piece,
        most,
    };
    let output = Output::new(alloc, writer)?;
    let mut sink = StdSink::new(&output);
    let mut source = StdSource::new(Unsteady { reads: 0 }, &output);
    for call in calls {
        if !answers(&mut sink, &mut source, *call) {
            return Ok(false);
        }
    }
    Ok(has_taken(&taken, bytes, count))
}

/// What is shown, the pieces that a writer takes and how many bytes at most, the calls, and what it has
/// taken, in how many calls.
type Row = (
    &'static str,
    (usize, usize),
    &'static [Call],
    &'static [u8],
    Option<u32>,
);

static ROWS: [Row; 3] = [
    (
        "small pieces are written together",
        (100, 100),
        &[
            Call::Write(b"head ", Put::Done),
            Call::Write(b"body", Put::Done),
            Call::Finish(true),
        ],
        b"head body",
        Some(1),
    ),
    (
        "what was collected is written before a read",
        (1, 100),
        &[
            Call::Write(b"answer", Put::Done),
            Call::Read(Got::Took(1)),
            Call::Read(Got::Failed),
        ],
        b"answer",
        None,
    ),
    (
        "a write that fails is told",
        (1, 3),
        &[
            Call::Write(b"answer", Put::Done),
            Call::Read(Got::Took(1)),
            Call::Write(b"x", Put::Failed),
            Call::Finish(false),
        ],
        b"ans",
        None,
    ),
];

#[test]
fn what_is_written_is_collected_and_told(rt: HostRuntime) {
    for row in &ROWS {
        let (what, ..) = *row;
        assert!(rt; matches!(plays(rt.alloc(), row), Ok(true)), "{what}");
    }
}
