//! What the program has to say and nobody has written yet.
ghost use Rattle.std.specs.Prelude.{◌≡◌, ◌+◌, ◌≤◌, [], length};
ghost use Rattle.std.specs.Bool.{OnTrue};
ghost use Rattle.sws_outbox.specs.Queues.{Pushes, Loses};

use std::alloc::Global;
use std::mem;
use std::rt::Clock;
use std::sync::{Condvar, Mutex, MutexGuard, Wait};
use std::time::Duration;

/// How many bytes wait at most for standard output, and for standard error.
const MOST_OUTPUT: usize = 32 * 1024 * 1024;

const MOST_MESSAGES: usize = 1024 * 1024;

/// For how many milliseconds lines of a log wait at most, so that many are written at once.
const LONGEST: u64 = 200;

/// So many bytes of them are written at once.
const MUCH: usize = 64 * 1024;

/// Whole lines that wait for an output, and how many were dropped since the last of them were taken.
#[derive(Drop)]
pub struct Queue {
    bytes: Vec<u8>,

    /// How many bytes wait at most.
    most: usize,
    dropped: u64,
}

impl Queue {
    /// Nothing waits, and so many bytes may.
    pub fn new(alloc: Global, most: usize) -> Queue
        ensures nothing { result.bytes.items ≡ [] }
        ensures most { result.most ≡ most }
        ensures none { result.dropped ≡ 0 }
    {
        Queue {
            bytes: Vec::new(alloc),
            most,
            dropped: 0,
        }
    }

    /// Puts a text of so many whole lines behind the others. Where there is no room for all of it,
    /// or no memory, all of its lines are dropped and counted, and the answer is false.
    pub fn push(&mut self, text: &[u8], lines: u64) -> bool
        ensures { Pushes self.old text.now lines result self.new }
    {
        if !self.has_room_for(text) {
            self.lose(lines);
            return false;
        }
        if self.bytes.extend_from_slice(text).is_err() {
            self.lose(lines);
            return false;
        }
        true
    }

    /// Whether the text fits behind what waits.
    fn has_room_for(&self, text: &[u8]) -> bool
        ensures { OnTrue result
            (length self.now.bytes.items + length text.now ≤ self.now.most) }
    {
        if self.bytes.len() > self.most {
            return false;
        }
        text.len() <= self.most - self.bytes.len()
    }

    /// Counts lines that there was no room for.
    pub fn lose(&mut self, lines: u64)
        ensures { Loses self.old lines self.new }
    {
        self.dropped = self.dropped.saturating_add(lines);
    }

    /// Takes all that waits, and how many lines were dropped; then nothing waits.
    pub fn take(&mut self, alloc: Global) -> (Vec<u8>, u64)
        ensures bytes { result.0.items ≡ self.old.bytes.items }
        ensures dropped { result.1 ≡ self.old.dropped }
        ensures nothing { self.new.bytes.items ≡ [] }
        ensures none { self.new.dropped ≡ 0 }
        ensures most { self.new.most ≡ self.old.most }
    {
        let bytes = mem::replace(&mut self.bytes, Vec::new(alloc));
        let dropped = mem::replace(&mut self.dropped, 0);
        (bytes, dropped)
    }

    /// How many bytes wait.
    pub fn len(&self) -> usize
        ensures { result ≡ length self.now.bytes.items }
    {
        self.bytes.len()
    }

    /// Whether there is nothing to take.
    pub fn is_empty(&self) -> bool {
        self.bytes.is_empty() && self.dropped == 0
    }
}

/// What waits for both outputs, and whether no more comes.
#[derive(Drop)]
pub(crate) struct Waiting {
    pub output: Queue,
    pub messages: Queue,
    pub is_over: bool,

    /// Whether the machine has ever refused to write to standard output.
    pub has_refused: bool,
}

/// Lines for standard output and for standard error, which wait here until they are written.
///
/// Whoever has something to say leaves it here and goes on; it never waits for somebody to read it.
/// One thread writes ([`write_out`](crate::write_out)). Up to 32 MiB wait for standard output, and
/// up to 1 MiB for standard error. What comes beyond that is dropped, and how many lines that were
/// is said on standard error once writing goes on.
#[derive(Drop)]
pub struct Outbox {
    alloc: Global,
    waiting: Mutex<Waiting>,

    /// What the writer sleeps by.
    changed: Condvar,
}

impl Outbox {
    /// Nothing was said yet.
    pub fn new(alloc: Global) -> Outbox {
        Outbox {
            alloc,
            waiting: Mutex::new(Waiting {
                output: Queue::new(alloc, MOST_OUTPUT),
                messages: Queue::new(alloc, MOST_MESSAGES),
                is_over: false,
                has_refused: false,
            }),
            changed: Condvar::new(),
        }
    }

    /// The allocator of what waits.
    pub fn alloc(&self) -> Global {
        self.alloc
    }

    /// Leaves a text of so many lines for standard output; false where it was dropped.
    pub fn print<R: Wait>(&self, rt: &R, text: &[u8], lines: u64) -> bool {
        let is_kept = self.waiting.lock(rt).output.push(text, lines);
        self.changed.notify_all();
        is_kept
    }

    /// Leaves a line of a log for standard output; false where it was dropped. It is written with
    /// others, within a fifth of a second, or as soon as much waits.
    pub fn log<R: Wait>(&self, rt: &R, line: &[u8]) -> bool {
        let mut waiting = self.waiting.lock(rt);
        let is_kept = waiting.output.push(line, 1);
        let is_much = waiting.output.len() >= MUCH;
        drop(waiting);
        if is_much {
            self.changed.notify_all();
        }
        is_kept
    }

    /// Leaves a line for standard error; false where it was dropped.
    pub fn tell<R: Wait>(&self, rt: &R, line: &[u8]) -> bool {
        let is_kept = self.waiting.lock(rt).messages.push(line, 1);
        self.changed.notify_all();
        is_kept
    }

    /// Counts lines for standard output that there was no memory for.
    pub fn lose_lines<R: Wait>(&self, rt: &R, lines: u64) {
        self.waiting.lock(rt).output.lose(lines);
        self.changed.notify_all();
    }

    /// Counts a line for standard error that there was no memory for.
    pub fn lose_message<R: Wait>(&self, rt: &R) {
        self.waiting.lock(rt).messages.lose(1);
        self.changed.notify_all();
    }

    /// Whether the machine has ever refused to write to standard output, as for want of room on a
    /// disk.
    pub fn has_refused<R: Wait>(&self, rt: &R) -> bool {
        let waiting = self.waiting.lock(rt);
        waiting.has_refused
    }

    /// Nothing more is said: the writer ends once all is written.
    pub fn end<R: Wait>(&self, rt: &R) {
        self.waiting.lock(rt).is_over = true;
        self.changed.notify_all();
    }

    /// What waits for standard output and for standard error, and is then no longer here.
    pub fn take<R: Wait>(&self, rt: &R) -> (Vec<u8>, Vec<u8>) {
        let mut waiting = self.waiting.lock(rt);
        let waiting = &mut *waiting;
        let (output, _) = waiting.output.take(self.alloc);
        let (messages, _) = waiting.messages.take(self.alloc);
        (output, messages)
    }

    /// What waits, for the writer to take.
    pub(crate) fn open<R: Wait>(&self, rt: &R) -> MutexGuard<'_, Waiting> {
        self.waiting.lock(rt)
    }

    /// Sleeps until a message is there, much waits for standard output, or nothing more comes; or for
    /// a while.
    pub fn sleep<R: Wait + Clock>(&self, rt: &R) {
        let guard = self.waiting.lock(rt);
        if guard.output.len() < MUCH && guard.messages.is_empty() && !guard.is_over {
            let _ = self
                .changed
                .wait_timeout(rt, guard, Duration::from_millis(LONGEST));
        }
    }
}
