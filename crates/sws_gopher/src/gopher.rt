//! What a connection of Gopher says.
ghost use Rattle.std.specs.Prelude.{◌≡◌, ◌≤◌, ◌==◌, length, MatchOption, IfSome};
ghost use Rattle.std.specs.List.{before_first, position};
ghost use Rattle.sws_steps.specs.Protocol.{Whole};
ghost use Rattle.sws_gopher.specs.Gopher.{cut_of, ends_not, input_limit, selector_of};

use crate::hall::{Hall, NOT_FOUND, reply};
use memchr::memchr;
use std::alloc::Global;
use sws_conn::Window;
use sws_link::{Link, LinkRead, Memory};
use sws_parts::Parts;
use sws_steps::{Note, Speech, SpeechConn};

/// The most bytes that are read of a connection.
const MAX_INPUT: usize = 1024;

/// The line in the bytes that were taken, answered out of a hall.
#[derive(Drop)]
pub struct Gopher<'h> {
    hall: &'h Hall<'h>,
    window: Window,
    parts: Parts<'h>,
}

/// A connection of Gopher over a link, which does one step at a time.
pub type GopherConn<'h, L> = SpeechConn<Gopher<'h>, L>;

impl<'h> Speech for Gopher<'h> {
    type Hall = &'h Hall<'h>;

    type Contents = Hall<'h>;

    ghost use Rattle.std.specs.Prelude.{List, ℕ};
    ghost use Rattle.sws_steps.specs.Protocol.{no_note};
    ghost use Rattle.sws_gopher.specs.Gopher.{gopher};

    ghost contents_of = { λ hall. hall.now };

    ghost Answer = { List ℕ };

    ghost protocol = { gopher };

    ghost hall_of = { λ speech. speech.hall.now };

    ghost bytes_of = { λ speech. speech.window };

    ghost parts_of = { λ speech. speech.parts };

    ghost note_of = { λ _. no_note };

    fn make(alloc: Global, hall: &'h Hall<'h>) -> Result<Gopher<'h>, Memory> {
        hall.limits();
        Ok(Gopher {
            hall,
            window: Window::new(alloc)?,
            parts: Parts::new(b"", b""),
        })
    }

    fn input_limit(&self) -> u64 {
        MAX_INPUT as u64
    }

    fn answer_limit(&self) -> u16 {
        1
    }

    fn logs(&self) -> bool {
        false
    }

    fn fill<L: Link>(&mut self, link: &mut L, most: usize) -> LinkRead {
        self.window.fill(link, most)
    }

    fn has_request(&mut self) -> bool {
        let bytes = self.window.bytes();
        match line_end(bytes) {
            Some(_) => true,
            None => bytes.len() >= MAX_INPUT,
        }
    }

    fn answer(&mut self, _last: bool) -> bool {
        match line_end(self.window.bytes()) {
            Some(len) => {
                self.parts = reply(self.hall, selector(&self.window.bytes()[..len]));
                self.window.drop_front(len);
            }
            None => {
                self.parts = Parts::new(b"", NOT_FOUND);
                let all = self.window.bytes().len();
                self.window.drop_front(all);
            }
        }
        true
    }

    fn front(&self) -> &[u8] {
        self.parts.front()
    }

    fn left(&self) -> u64 {
        self.parts.left() as u64
    }

    fn note(&self) -> Note {
        Note::none()
    }

    fn advance(&mut self, count: usize) {
        self.parts.advance(count);
    }

    ghost use Rattle.sws_gopher.specs.GopherLaws.{gopher-orderly};

    ghost orderly = { gopher-orderly };
}

/// How many bytes the first line has with its LF, if it ends in the bytes that count.
fn line_end(bytes: &[u8]) -> Option<usize>
    ensures cut { MatchOption result (cut_of bytes.now ≡ ends_not input_limit bytes.now)
        (λ len. cut_of bytes.now ≡ Whole len) }
    ensures within { IfSome result (λ len. len ≤ length bytes.now) }
{
    let counted = MAX_INPUT.min(bytes.len());
    match memchr(b'\n', &bytes[..counted]) {
        Some(feed) => Some(feed + 1),
        None => None,
    }
}

/// What stands before the first byte of this value, or all of the bytes.
fn before(end: u8, bytes: &[u8]) -> &[u8]
    ensures { result.now ≡ before_first (λ byte. byte == end) bytes.now }
{
    match first_of(end, bytes) {
        Some(at) => &bytes[..at],
        None => bytes,
    }
}

/// Where the first byte of this value stands.
fn first_of(value: u8, bytes: &[u8]) -> Option<usize>
    ensures { result ≡ position (λ byte. byte == value) bytes.now }
{
    bytes.iter().position(|byte| *byte == value)
}

/// The selector in a line.
fn selector(line: &[u8]) -> &[u8]
    ensures { result.now ≡ selector_of line.now }
{
    let line = before(b'\n', line);
    let line = line.strip_suffix(b"\r").unwrap_or(line);
    before(b'\t', line)
}
