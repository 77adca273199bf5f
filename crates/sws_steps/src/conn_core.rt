//! What a connection keeps besides its link, and its steps over a link.
ghost use Rattle.std.specs.Prelude.{◌≡◌, ◌≢◌, ◌<◌, ◌≤◌, ◌+◌, false, true, length};
ghost use Rattle.sws_parts.specs.Parts.{front_of, after_sending};
ghost use Rattle.sws_steps.specs.Protocol.{NotYet};
ghost use Rattle.sws_steps.specs.ConnCoreFields.{state_of};
ghost use Rattle.sws_steps.specs.ConnCore.{is_sent, reported_step};
ghost use Rattle.sws_steps.specs.Step.{wait_limit, written_limit, ReadsOnce, WritesOnce, ShutsOnce, not_ready, after_parse, after_look, after_part, after_wrote, ending_as};

use crate::speech::Speech;
use crate::{End, Next};
use sws_link::{Link, LinkRead, LinkWrite};

/// The most bytes of one read.
const MAX_READ: u64 = 4096;

/// So many answers in succession that the link isn't ready end a connection.
const MAX_WAITS: u8 = 30;

/// A connection without its link.
#[derive(Drop)]
pub struct ConnCore<S> {
    /// What it says, with the bytes that were taken and the answer that is written.
    pub speech: S,
    /// The step that comes next, which is never `Wait`.
    pub pending: Next,
    /// Whether the input has ended.
    pub input_ended: bool,
    /// How often in succession the link was not ready, 30 times at most.
    pub waits: u8,
    /// Whether the connection ends with the answer that is written.
    pub closes: bool,
    /// How many requests were answered.
    pub answered: u16,
    /// The end, as soon as it is known.
    pub end: Option<End>,
    /// How many bytes were taken.
    pub read: u64,
    /// How many bytes were written.
    pub written: u64,
}

impl<S: Speech> ConnCore<S> {
    /// Takes a piece of the input, or learns that no more comes.
    pub fn read_step<L: Link>(&mut self, link: &mut L)
        requires read { self.old.read < S.protocol.input_limit (S.hall_of self.old.speech) }
        requires not_yet { S.protocol.cut (S.bytes_of self.old.speech) ≡ NotYet }
        requires waits { self.old.waits < wait_limit }
        requires not_shut { L.is_shut link.old ≡ false }
        ensures { ReadsOnce S.protocol L.Link (state_of S.Speech self.old)
            (state_of S.Speech self.new) link.old link.new }
    {
        let most = (self.speech.input_limit() - self.read).min(MAX_READ) as usize;
        match self.speech.fill(link, most) {
            LinkRead::Took(count) => {
                self.read += count as u64;
                self.waits = 0;
                self.pending = Next::Parse;
            }
            LinkRead::End => {
                self.input_ended = true;
                self.waits = 0;
                self.pending = Next::Parse;
            }
            LinkRead::NotReady => self.wait_again(),
            LinkRead::Failed => self.end_as(End::Fault),
        }
    }

    /// Looks for a whole request.
    pub fn parse_step(&mut self)
        ensures { state_of S.Speech self.new
            ≡ after_parse S.protocol (state_of S.Speech self.old)
            (S.protocol.cut (S.bytes_of self.old.speech)) }
    {
        if self.speech.has_request() {
            self.pending = Next::Look;
        } else if self.input_ended || self.read >= self.speech.input_limit() {
            self.end_as(End::Done);
        } else {
            self.pending = Next::Read;
        }
    }

    /// Answers the request at the front, which the search has found already.
    pub fn look_step(&mut self)
        requires answered { self.old.answered
            < S.protocol.answer_limit (S.hall_of self.old.speech) }
        requires there { S.protocol.cut (S.bytes_of self.old.speech) ≢ NotYet }
        ensures { state_of S.Speech self.new
            ≡ after_look S.protocol (state_of S.Speech self.old)
            (S.protocol.cut (S.bytes_of self.old.speech)) }
    {
        let most = self.speech.answer_limit();
        let last = self.answered + 1 == most;
        self.closes = self.speech.answer(last);
        self.answered += 1;
        self.pending = Next::Write;
        self.go_on();
    }

    /// Offers the link what is next of the answer.
    pub fn write_step<L: Link>(&mut self, link: &mut L)
        requires front { 0 < length (front_of (S.parts_of self.old.speech)) }
        requires waits { self.old.waits < wait_limit }
        requires written { self.old.written + length (front_of (S.parts_of self.old.speech))
            < written_limit }
        requires not_shut { L.is_shut link.old ≡ false }
        ensures { WritesOnce L.Link (state_of S.Speech self.old)
            (state_of S.Speech self.new) link.old link.new }
    {
        match link.write(self.speech.front()) {
            LinkWrite::Wrote(count) => self.advance(count),
            LinkWrite::NotReady => self.wait_again(),
            LinkWrite::Failed => self.end_as(End::Fault),
            LinkWrite::Memory => self.end_as(End::Memory),
        }
    }

    /// Ends the connection.
    pub fn close_step<L: Link>(&mut self, link: &mut L)
        requires { L.is_shut link.old ≡ false }
        ensures { ShutsOnce L.Link (state_of S.Speech self.old)
            (state_of S.Speech self.new) link.old link.new }
    {
        link.shut();
        self.pending = Next::Nothing;
    }

    /// What a step answers that leaves this.
    pub fn next_step(&self) -> Next
        ensures { result ≡ reported_step (state_of S.Speech self.now) }
    {
        if self.end.is_none() && self.waits > 0 {
            return Next::Wait;
        }
        self.pending
    }

    /// The connection ends, and is closed next.
    fn end_as(&mut self, end: End)
        ensures { state_of S.Speech self.new ≡ ending_as (state_of S.Speech self.old) end }
    {
        self.end = Some(end);
        self.pending = Next::Close;
    }

    /// The link was not ready once more.
    fn wait_again(&mut self)
        requires { self.old.waits < wait_limit }
        ensures { state_of S.Speech self.new ≡ not_ready (state_of S.Speech self.old) }
    {
        self.waits += 1;
        if self.waits >= MAX_WAITS {
            self.end = Some(End::Idle);
            self.pending = Next::Close;
        }
    }

    /// So many bytes of the front were written.
    fn advance(&mut self, count: usize)
        requires fits { count ≤ length (front_of (S.parts_of self.old.speech)) }
        requires written { self.old.written + length (front_of (S.parts_of self.old.speech))
            < written_limit }
        ensures { state_of S.Speech self.new
            ≡ after_wrote (state_of S.Speech self.old)
            (after_sending count (S.parts_of self.old.speech)) count }
    {
        self.speech.advance(count);
        self.written += count as u64;
        self.waits = 0;
        self.go_on();
    }

    /// Where nothing is left of the answer, the connection ends with it, or goes on behind it.
    fn go_on(&mut self)
        ensures { state_of S.Speech self.new
            ≡ after_part (is_sent (S.parts_of self.old.speech)) self.old.closes
            (state_of S.Speech self.old) }
    {
        if self.speech.left() != 0 {
            return;
        }
        if self.closes {
            self.end = Some(End::Done);
            self.pending = Next::Close;
        } else {
            self.pending = Next::Parse;
        }
    }
}
