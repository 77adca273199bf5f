//! A speech that keeps of each request what a log says of it.
ghost use Rattle.std.specs.Prelude.{◌≡◌, ℕ, List};

use crate::record::Record;
use std::alloc::Global;
use sws_conn::http::Http;
use sws_link::{Link, LinkRead, Memory};
use sws_request::{Cut, cut};
use sws_steps::{Note, Speech, SpeechConn};

/// A speech whose bytes are HTTP, and can be seen.
pub trait Taken: Speech {
    /// The bytes that were taken and not yet answered.
    fn taken(&self) -> &[u8]
        ensures { result.now ≡ Self.bytes_of self.now };
}

impl<'s> Taken for Http<'s> {
    fn taken(&self) -> &[u8] {
        self.taken()
    }
}

/// A connection that has a record of the request that was answered last.
pub trait Recounts {
    /// The record.
    fn record(&self) -> &Record;
}

/// A speech over another, which keeps a copy of the head that is answered, and how long the body of
/// that answer is. It says what the other does.
#[derive(Drop)]
pub struct Recorded<S> {
    speech: S,
    record: Record,
}

/// A connection of HTTP with its records.
pub type AccessConn<'s, L> = SpeechConn<Recorded<Http<'s>>, L>;

impl<S> Recorded<S> {
    /// The record of the request that was answered last; that of none before the first.
    pub fn record(&self) -> &Record
        ensures { result.now ≡ self.now.record }
    {
        &self.record
    }
}

/// The first head of some bytes, or all of them where none is whole.
fn first_head(bytes: &[u8]) -> &[u8] {
    match cut(bytes) {
        Cut::Head { len } => &bytes[..len.min(bytes.len())],
        Cut::TooLong | Cut::NotYet => bytes,
    }
}

impl<S: Taken + Drop> Speech for Recorded<S> {
    type Hall = S::Hall;

    type Contents = S::Contents;

    ghost contents_of = { S.contents_of };

    ghost Answer = { S.Answer };

    ghost protocol = { S.protocol };

    ghost hall_of = { λ recorded. S.hall_of recorded.speech };

    ghost bytes_of = { λ recorded. S.bytes_of recorded.speech };

    ghost parts_of = { λ recorded. S.parts_of recorded.speech };

    ghost note_of = { λ recorded. S.note_of recorded.speech };

    fn make(alloc: Global, hall: S::Hall) -> Result<Recorded<S>, Memory> {
        Ok(Recorded {
            speech: S::make(alloc, hall)?,
            record: Record::new(alloc),
        })
    }

    fn input_limit(&self) -> u64 {
        self.speech.input_limit()
    }

    fn answer_limit(&self) -> u16 {
        self.speech.answer_limit()
    }

    fn logs(&self) -> bool {
        self.speech.logs()
    }

    fn fill<L: Link>(&mut self, link: &mut L, most: usize) -> LinkRead {
        self.speech.fill(link, most)
    }

    fn has_request(&mut self) -> bool {
        self.speech.has_request()
    }

    fn answer(&mut self, last: bool) -> bool {
        self.record.keep(first_head(self.speech.taken()));
        let closes = self.speech.answer(last);
        let head = self.speech.front().len() as u64;
        self.record.answer(self.speech.left().saturating_sub(head));
        closes
    }

    fn front(&self) -> &[u8] {
        self.speech.front()
    }

    fn left(&self) -> u64 {
        self.speech.left()
    }

    fn note(&self) -> Note {
        self.speech.note()
    }

    fn advance(&mut self, count: usize) {
        self.speech.advance(count);
    }

    ghost orderly = { S.orderly };
}

impl<S: Taken + Drop, L: Link + Drop> Recounts for SpeechConn<Recorded<S>, L> {
    fn record(&self) -> &Record {
        self.speech().record()
    }
}
