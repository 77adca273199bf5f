//! What a connection says.
ghost use Rattle.std.specs.Prelude.{◌≡◌, ◌≢◌, ◌≤◌, ◌<◌, false, None, [], ℕ, List, length, IfOk};
ghost use Rattle.sws_link.specs.Links.{read_fault};
ghost use Rattle.sws_parts.specs.Parts.{PartsState, unsent_bytes, front_of, after_sending};
ghost use Rattle.sws_steps.specs.Protocol.{Protocol, IsOrderly, NotYet, is_there, no_note};
ghost use Rattle.sws_steps.specs.declared.note.Note.{Note as NoteValue};
ghost use Rattle.sws_steps.specs.Speaking.{Fills, AnswersFirst};
ghost use Rattle.sws_steps.specs.Step.{read_limit};

use crate::Note;
use std::alloc::Global;
use sws_link::{Link, LinkRead, Memory};

/// What a connection says: where the requests in its bytes end, and how they are answered.
///
/// It keeps the bytes that were taken and not yet answered, what is left of an answer, and what a
/// log says of that.
pub trait Speech: Sized {
    /// What is lent to it, which the answers are taken from.
    type Hall: Copy + Drop;

    /// What that has, for contracts alone.
    type Contents;

    /// What a hall has.
    ghost contents_of: { Self.Hall → Self.Contents };

    /// The answers of its protocol, for contracts alone.
    ghost Answer: { Type 0 };

    /// What it talks by.
    ghost protocol: { Protocol Self.Contents Answer };

    /// What it answers out of, which no call changes.
    ghost hall_of: { Self → Self.Contents };

    /// The bytes that were taken and not yet answered.
    ghost bytes_of: { Self → List ℕ };

    /// What is left of an answer.
    ghost parts_of: { Self → PartsState };

    /// What a log says of that answer.
    ghost note_of: { Self → NoteValue };

    /// One that has taken and said nothing. All room is made here that it will need; where that was
    /// refused, the answer is `Memory`.
    fn make(alloc: Global, hall: Self::Hall) -> Result<Self, Memory>
        ensures hall { IfOk result (λ speech. hall_of speech ≡ contents_of hall) }
        ensures known { IfOk result (λ speech. protocol.IsHall (contents_of hall)) }
        ensures bytes { IfOk result (λ speech. bytes_of speech ≡ []) }
        ensures parts { IfOk result (λ speech. parts_of speech ≡ record { head = []; body = [] }) }
        ensures note { IfOk result (λ speech. note_of speech ≡ no_note) };

    /// The most bytes of a connection that count, as its hall has it, 1 to 4,294,967,295.
    fn input_limit(&self) -> u64
        ensures { result ≡ protocol.input_limit (hall_of self.now) };

    /// The most answers of a connection, as its hall has it, 1 to 65,535.
    fn answer_limit(&self) -> u16
        ensures { result ≡ protocol.answer_limit (hall_of self.now) };

    /// Whether its answers have lines in a log.
    fn logs(&self) -> bool
        ensures { result ≡ protocol.logs };

    /// Adds what one read of the link gives, of at most so many bytes, where
    /// no request is whole yet.
    fn fill<L: Link>(&mut self, link: &mut L, most: usize) -> LinkRead
        requires some { 0 < most }
        requires few { most ≤ read_limit }
        requires not_yet { protocol.cut (bytes_of self.old) ≡ NotYet }
        requires not_shut { L.is_shut link.old ≡ false }
        ensures fills { Fills L.Link (bytes_of self.old) link.old most result
            (bytes_of self.new) link.new }
        ensures since { (first : L) → L.since first None link.old
            → L.since first (read_fault result) link.new }
        ensures hall { hall_of self.new ≡ hall_of self.old }
        ensures parts { parts_of self.new ≡ parts_of self.old }
        ensures note { note_of self.new ≡ note_of self.old };

    /// Whether the first request is whole, or too long.
    fn has_request(&mut self) -> bool
        ensures there { result ≡ is_there (protocol.cut (bytes_of self.old)) }
        ensures hall { hall_of self.new ≡ hall_of self.old }
        ensures bytes { bytes_of self.new ≡ bytes_of self.old }
        ensures parts { parts_of self.new ≡ parts_of self.old }
        ensures note { note_of self.new ≡ note_of self.old };

    /// Answers the first request, which is whole or too long, and drops it. Answers whether the
    /// connection ends with it.
    fn answer(&mut self, last: bool) -> bool
        requires there { protocol.cut (bytes_of self.old) ≢ NotYet }
        ensures answers { AnswersFirst protocol (hall_of self.old) (bytes_of self.old) last
            (protocol.cut (bytes_of self.old)) (bytes_of self.new) (parts_of self.new)
            (note_of self.new) result }
        ensures hall { hall_of self.new ≡ hall_of self.old };

    /// What the next write offers.
    fn front(&self) -> &[u8]
        ensures { result.now ≡ front_of (parts_of self.now) };

    /// How many bytes are left of the answer.
    fn left(&self) -> u64
        ensures { result ≡ length (unsent_bytes (parts_of self.now)) };

    /// What a log says of the last answer.
    fn note(&self) -> Note
        ensures { result ≡ note_of self.now };

    /// So many bytes of the front were written.
    fn advance(&mut self, count: usize)
        requires fits { count ≤ length (front_of (parts_of self.old)) }
        ensures parts { parts_of self.new ≡ after_sending count (parts_of self.old) }
        ensures hall { hall_of self.new ≡ hall_of self.old }
        ensures bytes { bytes_of self.new ≡ bytes_of self.old }
        ensures note { note_of self.new ≡ note_of self.old };

    /// Its answers come in order.
    ghost orderly: { IsOrderly protocol };
}
