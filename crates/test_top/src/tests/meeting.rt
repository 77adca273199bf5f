//! Where two workers meet: a world of two links, of which the first waits for the second, and talks of
//! which each waits for another.
use std::alloc::Global;
use std::sync::atomic::{AtomicU64, Ordering};
use std::thread;
use std::time::Duration;
use sws_conn::Window;
use sws_link::{
    Accepted, Link, LinkRead, LinkWrite, MemLink, MemWorld, Memory, Opened, Polled, World,
};
use sws_steps::{Note, Speech, SpeechConn};

/// How often a read that is held looks again.
const TURNS: u32 = 100_000;

/// Where two reads meet.
#[derive(Drop)]
pub(super) struct Room<'r> {
    clock: &'r HostRuntime,
    come: AtomicU64,
    is_missed: AtomicU64,
}

impl<'r> Room<'r> {
    /// A room in which nobody is yet.
    pub(super) fn new(clock: &'r HostRuntime) -> Room<'r> {
        Room {
            clock,
            come: AtomicU64::new(0),
            is_missed: AtomicU64::new(0),
        }
    }

    /// Whether a read was held for longer than it may be.
    pub(super) fn was_missed(&self) -> bool {
        self.is_missed.load(Ordering::SeqCst) != 0
    }

    /// Comes.
    fn enter(&self) {
        self.come.fetch_add(1, Ordering::SeqCst);
    }

    /// Waits until so many have come, but no longer than a few seconds.
    fn wait(&self, count: u64) {
        for _ in 0..TURNS {
            if self.come.load(Ordering::SeqCst) >= count {
                return;
            }
            thread::sleep(self.clock, Duration::from_micros(10));
        }
        self.is_missed.store(1, Ordering::SeqCst);
    }
}

/// A link in memory. A read of the first waits until one of the second has begun.
#[derive(Drop)]
pub(super) struct Late<'r> {
    link: MemLink,
    room: &'r Room<'r>,
    is_first: bool,
}

impl Link for Late<'_> {
    ghost use Rattle.sws_link.specs.Counts.{kept_count};
    ghost use Rattle.sws_link.specs.MemLinks.{mem_link_tells};

    ghost tells = { λ l. mem_link_tells l.link };

    ghost faults = { λ l. kept_count l.link.calls.failed };

    ghost is_shut = { λ l. l.link.shut };

    ghost waits = { λ l. kept_count l.link.waits };

    ghost since = { λ first fault now. Unit {0} };

    fn read(&mut self, into: &mut [u8]) -> LinkRead {
        if self.is_first {
            self.room.wait(1);
        } else {
            self.room.enter();
        }
        self.link.read(into)
    }

    fn write(&mut self, bytes: &[u8]) -> LinkWrite {
        self.link.write(bytes)
    }

    fn shut(&mut self) {
        self.link.shut();
    }
}

/// A world in memory whose links meet.
#[derive(Drop)]
pub(super) struct Meeting<'r> {
    pub(super) world: MemWorld,
    pub(super) room: &'r Room<'r>,
    pub(super) given: u16,
}

impl<'r> World for Meeting<'r> {
    type Link = Late<'r>;

    ghost use Rattle.sws_link.specs.Counts.{kept_count, no_faults};
    ghost use Rattle.sws_link.specs.MemWorlds.{mem_world_tells};

    ghost tells = { λ w. mem_world_tells w.world };

    ghost faults = { λ w. kept_count w.world.calls.failed };

    ghost waits = { λ w. no_faults };

    fn open(&mut self, port: u16, total: u16) -> Opened {
        self.world.open(port, total)
    }

    fn total(&self) -> u16 {
        self.world.total()
    }

    fn poll(&mut self, waiting: &[u16]) -> Polled {
        self.world.poll(waiting)
    }

    fn accept(&mut self) -> Accepted<Late<'r>> {
        match self.world.accept() {
            Accepted::Link(link) => {
                let is_first = self.given == 0;
                self.given = self.given.wrapping_add(1);
                Accepted::Link(Late {
                    link,
                    room: self.room,
                    is_first,
                })
            }
            Accepted::NotYet => Accepted::NotYet,
            Accepted::Failed => Accepted::Failed,
        }
    }
}

/// What a talk says whose reads wait for those of another: nothing. Its first byte is a request, which
/// closes.
#[derive(Drop)]
pub(super) struct Meets<'r> {
    window: Window,
    room: &'r Room<'r>,
}

/// A connection whose first read waits until another connection is at its own.
pub(super) type MeetingConn<'r> = SpeechConn<Meets<'r>, MemLink>;

impl<'r> Speech for Meets<'r> {
    type Hall = &'r Room<'r>;

    type Contents = ();

    ghost use Rattle.std.specs.Prelude.{[]};
    ghost use Rattle.sws_steps.specs.Protocol.{no_note};
    ghost use Rattle.example_hang_up.specs.Silence.{silence};
    ghost use Rattle.example_hang_up.specs.SilenceLaws.{silence-orderly};

    ghost contents_of = { λ hall. tt };

    ghost Answer = { Unit {0} };

    ghost protocol = { silence };

    ghost hall_of = { λ _. tt };

    ghost bytes_of = { λ speech. speech.window };

    ghost parts_of = { λ _. record { head = []; body = [] } };

    ghost note_of = { λ _. no_note };

    fn make(alloc: Global, hall: &'r Room<'r>) -> Result<Meets<'r>, Memory> {
        Ok(Meets {
            window: Window::new(alloc)?,
            room: hall,
        })
    }

    fn input_limit(&self) -> u64 {
        16
    }

    fn answer_limit(&self) -> u16 {
        1
    }

    fn logs(&self) -> bool {
        false
    }

    fn fill<L: Link>(&mut self, link: &mut L, most: usize) -> LinkRead {
        self.room.enter();
        self.room.wait(2);
        self.window.fill(link, most)
    }

    fn has_request(&mut self) -> bool {
        !self.window.bytes().is_empty()
    }

    fn answer(&mut self, _last: bool) -> bool {
        if self.has_request() {
            self.window.drop_front(1);
        }
        true
    }

    fn front(&self) -> &[u8] {
        b""
    }

    fn left(&self) -> u64 {
        0
    }

    fn note(&self) -> Note {
        Note::none()
    }

    fn advance(&mut self, _count: usize) {}

    ghost orderly = { silence-orderly };
}
