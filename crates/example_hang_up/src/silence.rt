//! What a connection says that hangs up at once.
ghost use Rattle.std.specs.Prelude.{◌≡◌, IfOk};

use std::alloc::Global;
use sws_conn::Window;
use sws_link::{Link, LinkRead, Memory};
use sws_steps::{Note, Speech, SpeechConn};

/// The most bytes that are read of a connection.
const MAX_INPUT: u64 = 16;

/// The first byte is a request, whose answer has no bytes and closes.
#[derive(Drop)]
pub struct Silence {
    window: Window,
}

/// A connection that is shut at its first bytes.
pub type HangUp<L> = SpeechConn<Silence, L>;

impl Speech for Silence {
    type Hall = ();

    type Contents = ();

    ghost use Rattle.std.specs.Prelude.{[]};
    ghost use Rattle.sws_steps.specs.Protocol.{no_note};
    ghost use Rattle.example_hang_up.specs.Silence.{silence};

    ghost contents_of = { λ hall. hall };

    ghost Answer = { Unit {0} };

    ghost protocol = { silence };

    ghost hall_of = { λ _. tt };

    ghost bytes_of = { λ speech. speech.window };

    ghost parts_of = { λ _. record { head = []; body = [] } };

    ghost note_of = { λ _. no_note };

    fn make(alloc: Global, _hall: ()) -> Result<Silence, Memory> {
        Ok(Silence {
            window: Window::new(alloc)?,
        })
    }

    fn input_limit(&self) -> u64 {
        MAX_INPUT
    }

    fn answer_limit(&self) -> u16 {
        1
    }

    fn logs(&self) -> bool {
        false
    }

    fn fill<L: Link>(&mut self, link: &mut L, most: usize) -> LinkRead {
        self.window.fill(link, most)
    }

    fn has_request(&mut self) -> bool {
        !self.window.bytes().is_empty()
    }

    fn answer(&mut self, _last: bool) -> bool {
        if self.has_request() {
            self.window.drop_front(1);
        }
        true
    }

    fn front(&self) -> &[u8] {
        b""
    }

    fn left(&self) -> u64 {
        0
    }

    fn note(&self) -> Note {
        Note::none()
    }

    fn advance(&mut self, _count: usize) {}

    ghost use Rattle.example_hang_up.specs.SilenceLaws.{silence-orderly};

    ghost orderly = { silence-orderly };
}
