//! What a connection of HTTP says.
ghost use Rattle.std.specs.Prelude.{◌≡◌, [], IfOk, length, take};
ghost use Rattle.sws_parts.specs.Parts.{PartsState, unsent_bytes};
ghost use Rattle.sws_steps.specs.Protocol.{TooLong};
ghost use Rattle.sws_steps.specs.Speaking.{AnswersFirst};
ghost use Rattle.sws_conn.specs.Http.{http, shown_limit};

use crate::buffer::Buffer;
use std::alloc::Global;
use sws_answer::{Asked, PathRoom, answer_head, answer_into, target};
use sws_link::{Link, LinkRead, Memory};
use sws_log::Brief;
use sws_parts::Parts;
use sws_request::Cut;
use sws_site::Site;
use sws_steps::{Note, Speech, SpeechConn};

/// The heads in the bytes that were taken, answered out of a site.
#[derive(Drop)]
pub struct Http<'s> {
    site: &'s Site,
    buffer: Buffer,
    parts: Parts<'s>,
    note: Note,
    room: PathRoom,
}

impl<'s> Http<'s> {
    /// The bytes that were taken and not yet answered.
    pub fn taken(&self) -> &[u8]
        ensures { result.now ≡ self.now.buffer }
    {
        self.buffer.bytes()
    }
}

/// A connection of HTTP over a link, which does one step at a time.
pub type Conn<'s, L> = SpeechConn<Http<'s>, L>;

impl<'s> Speech for Http<'s> {
    type Hall = &'s Site;

    type Contents = Site;

    ghost contents_of = { λ hall. hall.now };

    ghost use Rattle.sws_answer.specs.Answers.{Answer as AnswerValue};
    ghost use Rattle.sws_conn.specs.Http.{http};

    ghost Answer = { AnswerValue };

    ghost protocol = { http };

    ghost hall_of = { λ speech. speech.site.now };

    ghost bytes_of = { λ speech. speech.buffer };

    ghost parts_of = { λ speech. speech.parts };

    ghost note_of = { λ speech. speech.note };

    fn make(alloc: Global, hall: &'s Site) -> Result<Http<'s>, Memory> {
        let buffer = Buffer::new(alloc)?;
        let room = PathRoom::new(alloc)?;
        hall.limits();
        Ok(Http {
            site: hall,
            buffer,
            parts: Parts::new(b"", b""),
            note: Note::none(),
            room,
        })
    }

    fn input_limit(&self) -> u64 {
        u64::from(self.site.options().input).max(1)
    }

    fn answer_limit(&self) -> u16 {
        self.site.options().answers.max(1)
    }

    fn logs(&self) -> bool {
        true
    }

    fn fill<L: Link>(&mut self, link: &mut L, most: usize) -> LinkRead {
        self.buffer.fill(link, most)
    }

    fn has_request(&mut self) -> bool {
        if self.buffer.stays_quiet() {
            return false;
        }
        match self.buffer.cut() {
            Cut::Head { .. } | Cut::TooLong => true,
            Cut::NotYet => false,
        }
    }

    fn answer(&mut self, last: bool) -> bool {
        match self.buffer.cut() {
            Cut::Head { len } => {
                let head = &self.buffer.bytes()[..len];
                let (answered, target) = answer_head(
                    self.site,
                    head,
                    last,
                    &mut self.room,
                    &mut self.parts,
                );
                note_answer(&mut self.note, answered.code, &self.parts, target);
                self.buffer.drop_front(len);
                answered.closes
            }
            Cut::TooLong => {
                self.buffer.clear();
                refuse(
                    self.site,
                    last,
                    &mut self.room,
                    &mut self.parts,
                    &mut self.note,
                )
            }
            Cut::NotYet => false,
        }
    }

    fn front(&self) -> &[u8] {
        self.parts.front()
    }

    fn left(&self) -> u64 {
        self.parts.left() as u64
    }

    fn note(&self) -> Note {
        self.note
    }

    fn advance(&mut self, count: usize) {
        self.parts.advance(count);
    }

    ghost use Rattle.sws_conn.specs.HttpLaws.{http-orderly};

    ghost orderly = { http-orderly };
}

/// Notes the answer that is written next, to this target, for a log.
fn note_answer(note: &mut Note, code: u16, parts: &Parts<'_>, target: &[u8])
    ensures { note.new ≡ record {
      code = code;
      length = length (unsent_bytes parts.now);
      target = take shown_limit target.now;
    } }
{
    note.code = code;
    note.length = parts.left() as u64;
    note.target = Brief::of(target);
}

/// Answers a head that is too long, and notes the answer. It stands apart, so that the room that it takes on
/// the stack is not paid for where a head is short enough.
#[cold]
#[inline(never)]
fn refuse<'s>(
    site: &'s Site,
    last: bool,
    room: &mut PathRoom,
    parts: &mut Parts<'s>,
    note: &mut Note,
) -> bool
    ensures { AnswersFirst http site.now [] last TooLong [] parts.new note.new result }
{
    let asked = Asked::TooLong;
    let answered = answer_into(site, &asked, last, room, parts);
    note_answer(note, answered.code, parts, target(&asked));
    answered.closes
}
