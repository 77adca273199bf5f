//! Who writes what the program says.
ghost use Rattle.std.specs.Prelude.{◌≤◌, vec_len, length};

use crate::outbox::{Outbox, Waiting};
use libc::net::{POLLOUT, poll};
use libc::types::pollfd;
use libc::{EAGAIN, EINTR, STDERR_FILENO, STDOUT_FILENO};
use std::alloc::Global;
use std::rt::Clock;
use std::sync::Wait;
use std::time::Duration;
use std::{io, thread};

/// How many bytes are written at a time: as many as a pipe that is ready takes without waiting.
const PIECE: usize = 4096;

/// For how many milliseconds an output is waited for at a time.
const TICK: i32 = 100;

/// The same, where the machine can't say what an output takes.
const PAUSE: u64 = 100;

/// How often in succession an output that takes nothing is waited for once nothing more is said.
const LAST_TICKS: u32 = 20;

/// One of the two outputs, and what is to be written to it.
#[derive(Drop)]
struct Outlet {
    descriptor: i32,
    bytes: Vec<u8>,

    /// How many of these bytes were written.
    written: usize,

    /// How many lines were dropped and not told of.
    lost: u64,

    /// How often in succession it took nothing.
    idle: u32,

    /// Whether the last line that was written is not whole.
    is_torn: bool,

    /// Why the machine refused what was written last, where it did, as where nobody reads any more:
    /// the number of its error.
    refusal: Option<i32>,
    ghost within: { written ≤ vec_len bytes },
}

/// How many lines end in these bytes.
fn lines_of(bytes: &[u8]) -> u64 {
    let mut lines: u64 = 0;
    for byte in bytes {
        if *byte == b'\n' {
            lines = lines.saturating_add(1);
        }
    }
    lines
}

impl Outlet {
    /// An output to which nothing is to be written.
    fn new(alloc: Global, descriptor: i32) -> Outlet {
        Outlet {
            descriptor,
            bytes: Vec::new(alloc),
            written: 0,
            lost: 0,
            idle: 0,
            is_torn: false,
            refusal: None,
        }
    }

    /// Whether all that was to be written is.
    fn is_done(&self) -> bool {
        self.written >= self.bytes.len()
    }

    /// What is still to be written.
    fn rest(&self) -> &[u8] {
        &self.bytes[self.written..]
    }

    /// These bytes are to be written next, and so many lines more were dropped.
    fn begin(&mut self, bytes: Vec<u8>, dropped: u64) {
        let mut bytes = bytes;
        if self.is_torn && !bytes.is_empty() {
            let _ = bytes.insert(0, b'\n');
        }
        *self = Outlet {
            descriptor: self.descriptor,
            bytes,
            written: 0,
            lost: self.lost.saturating_add(dropped),
            idle: self.idle,
            is_torn: self.is_torn,
            refusal: self.refusal,
        };
    }

    /// Drops what is still to be written, and counts its lines.
    fn give_up(&mut self) {
        let lines = lines_of(self.rest());
        if self.written > 0 {
            self.is_torn = self.bytes[self.written - 1] != b'\n';
        }
        self.lost = self.lost.saturating_add(lines);
        self.written = self.bytes.len();
    }

    /// Writes a piece, and answers whether the output is to be asked again at once. What can't be
    /// written, since the machine failed or nobody reads any more, is dropped.
    fn write(&mut self) -> bool {
        let rest = self.rest();
        let piece = &rest[..rest.len().min(PIECE)];
        let count = libc::write(self.descriptor, piece);
        if count > 0 {
            let left = self.bytes.len() - self.written;
            self.written += (count as usize).min(left);
            self.idle = 0;
            self.is_torn = false;
            self.refusal = None;
            return true;
        }
        let error = os::errno();
        if count < 0 && !matches!(error, EAGAIN | EINTR) {
            self.give_up();
            self.refusal = Some(error);
            return true;
        }
        false
    }

    /// Notes that it took nothing, where something is to be written.
    fn wait(&mut self) {
        if !self.is_done() {
            self.idle = self.idle.saturating_add(1);
        }
    }

    /// What the machine is asked of it: whether it takes something. Where nothing is to be written,
    /// that is not asked.
    fn question(&self) -> pollfd {
        pollfd {
            fd: if self.is_done() { -1 } else { self.descriptor },
            events: POLLOUT,
            revents: 0,
        }
    }

    /// Writes a piece where the machine answers that it takes something, and answers whether it did.
    fn go_on(&mut self, answer: i16) -> bool {
        answer != 0 && !self.is_done() && self.write()
    }
}

/// What is written to both outputs.
#[derive(Drop)]
struct Writer {
    output: Outlet,
    messages: Outlet,

    /// Whether nothing more is said.
    is_over: bool,

    /// Whether it was said that standard output can't be written, since it last could.
    is_refusal_told: bool,
}

impl Writer {
    fn new(alloc: Global) -> Writer {
        Writer {
            output: Outlet::new(alloc, STDOUT_FILENO),
            messages: Outlet::new(alloc, STDERR_FILENO),
            is_over: false,
            is_refusal_told: false,
        }
    }

    /// Says once that standard output can't be written, and why; and how many of its lines were
    /// dropped, as soon as it can be written again or nothing more comes.
    fn tell_of_output(&mut self, alloc: Global, waiting: &mut Waiting) {
        match self.output.refusal {
            Some(code) if !self.is_refusal_told => {
                self.is_refusal_told = tell_of_refusal(alloc, waiting, code);
            }
            Some(_) => {}
            None => self.is_refusal_told = false,
        }
        if self.output.refusal.is_none() || self.is_over {
            tell_of_loss(alloc, waiting, &mut self.output.lost, "lines of the log");
        }
    }

    /// Takes what waits for an output to which all was written, and says what became of what was to
    /// be written before.
    fn take(&mut self, alloc: Global, waiting: &mut Waiting) {
        self.is_over = waiting.is_over;
        if self.output.is_done() {
            let (bytes, dropped) = waiting.output.take(alloc);
            self.output.begin(bytes, dropped);
            waiting.has_refused = waiting.has_refused || self.output.refusal.is_some();
            self.tell_of_output(alloc, waiting);
        }
        if self.messages.is_done() {
            // Where nobody reads any more there is nobody to tell.
            if self.messages.refusal.is_none() {
                tell_of_loss(
                    alloc,
                    waiting,
                    &mut self.messages.lost,
                    "lines like this one",
                );
            }
            let (bytes, dropped) = waiting.messages.take(alloc);
            self.messages.begin(bytes, dropped);
        }
    }

    /// Whether all is written, and all that was lost is told of, where it can be told.
    fn is_done(&self) -> bool {
        let is_told = self.messages.lost == 0 || self.messages.refusal.is_some();
        self.output.is_done() && self.messages.is_done() && is_told
    }

    /// Writes a piece to each output that takes something. Where none does, it is waited for a
    /// little.
    fn go_on<R: Clock>(&mut self, rt: &R) {
        let mut asked = [self.output.question(), self.messages.question()];
        let count = poll(&mut asked, TICK);
        let has_written = self.output.go_on(asked[0].revents);
        let has_told = self.messages.go_on(asked[1].revents);
        if has_written || has_told {
            return;
        }
        self.output.wait();
        self.messages.wait();
        if count != 0 {
            thread::sleep(rt, Duration::from_millis(PAUSE));
        }
    }

    /// Once nothing more is said, drops what an output doesn't take for long.
    fn give_up(&mut self) {
        if self.is_over && self.output.idle >= LAST_TICKS {
            self.output.give_up();
        }
        if self.is_over && self.messages.idle >= LAST_TICKS {
            self.messages.give_up();
            self.messages.lost = 0;
        }
    }
}

/// Says that standard output can't be written, since the machine answered with this error; false
/// where there is no room for that yet.
fn tell_of_refusal(alloc: Global, waiting: &mut Waiting, code: i32) -> bool {
    let error = io::Error::from_raw_os_error(code);
    match format!(in alloc; "[WARN  swsd] standard output can't be written: {error}\n") {
        Ok(line) => waiting.messages.push(line.as_bytes(), 0),
        Err(_) => false,
    }
}

/// Says how many lines were dropped, if any were.
fn tell_of_loss(alloc: Global, waiting: &mut Waiting, lost: &mut u64, what: &str) {
    let count = *lost;
    if count == 0 {
        return;
    }
    if let Ok(line) = format!(in alloc; "[WARN  swsd] {count} {what} were dropped\n") {
        if waiting.messages.push(line.as_bytes(), 0) {
            *lost = 0;
        }
    }
}

/// Writes what is left in the outbox, until no more comes and all is written.
///
/// It writes to an output only where that takes something at once, so that an output that nobody
/// reads keeps neither the other one nor the end of the program waiting: once nothing more is said,
/// an output that takes nothing for two seconds is given up.
pub fn write_out<R: Wait + Clock>(rt: &R, outbox: &Outbox) {
    let alloc = outbox.alloc();
    let mut writer = Writer::new(alloc);
    for _ in rt.forever() {
        writer.take(alloc, &mut *outbox.open(rt));
        if !writer.is_done() {
            writer.go_on(rt);
            writer.give_up();
        } else if writer.is_over {
            return;
        } else {
            outbox.sleep(rt);
        }
    }
}
