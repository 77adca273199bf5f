//! A connection over a link, which does one step at a time.
ghost use Rattle.std.specs.Prelude.{◌≡◌, ◌≢◌, ◌≤◌, ◌+◌, ◌↔◌, ◌∷◌, [], false, IfOk, IfErr, IsSome, Some, None};
ghost use Rattle.std.specs.Option.{option_copied};
ghost use Rattle.sws_link.specs.Links.{IsInitialLink};
ghost use Rattle.sws_steps.specs.Protocol.{output_limit};
ghost use Rattle.sws_steps.specs.ConnCore.{reported_step, told_end};
ghost use Rattle.sws_steps.specs.ConnCoreFields.{state_of};
ghost use Rattle.sws_steps.specs.Step.{Steps, StepsFrom, Opens};
ghost use Rattle.sws_steps.specs.Sound.{IsSound, IsShutAtEnd, core_before_open};
ghost use Rattle.sws_steps.specs.declared.Handler.{Handler};
ghost use Rattle.sws_steps.specs.Path.{FollowsScript, TakesEvent, TakesOff, HasNoEvents, known_path, known_rest, told_by_link};
ghost use Rattle.sws_steps.specs.Serving.{BeginsResponses};
ghost use Rattle.sws_steps.specs.Logs.{bit, gives_line, lines_given};
ghost use Rattle.sws_steps.specs.Run.{HasRun};
ghost use Rattle.sws_steps.specs.Talks.{HasNoStep};
ghost use Rattle.sws_steps.specs.Told.{IsTelling, line_told};

use crate::conn_core::ConnCore;
use crate::speech::Speech;
use crate::{End, Next};
use std::alloc::Global;
use std::marker::{Model, PhantomData};
use sws_link::{Link, Memory};
use sws_log::LogLine;

/// A connection over a link, which does one step at a time and talks by its speech. All of it but
/// the link lies in a box, so that little is moved where the connection is.
#[derive(Drop)]
pub struct SpeechConn<S: Speech, L: Link> {
    core: Box<ConnCore<S>>,
    link: Option<L>,
    /// Whether the last step wrote the last of an answer that has a line in a log.
    told: bool,
    /// What the speech is lent, so that a field names its lifetime.
    hall: PhantomData<S::Hall>,
}

impl<S: Speech, L: Link> Model for SpeechConn<S, L> {
    ghost use Rattle.sws_steps.specs.Told.{TalkState};

    ghost Value = { TalkState S.Contents L };

    ghost use Rattle.sws_steps.specs.ConnCoreFields.{state_of};
    ghost use Rattle.sws_steps.specs.Told.{IsSoundTelling};

    ghost view = { λ talk. record {
      conn = record { standing = state_of S.Speech talk.core.value; link = talk.link };
      told = talk.told;
    } };

    ghost invariant = { λ talk. IsSoundTelling S.protocol L.Link (record {
      conn = record { standing = state_of S.Speech talk.core.value; link = talk.link };
      told = talk.told;
    }) };
}

impl<S: Speech + Drop, L: Link + Drop> SpeechConn<S, L> {
    /// A connection that waits for its link. All room is made here that it will need; where that
    /// was refused, the answer is `Memory`.
    pub fn new(alloc: Global, hall: S::Hall) -> Result<SpeechConn<S, L>, Memory>
        ensures new { IfOk result (λ talk. talk.conn
            ≡ record { standing = core_before_open (S.contents_of hall); link = None }) }
        ensures told { IfOk result (λ talk. talk.told ≡ false) }
        ensures sound { IfOk result (λ talk. IsSound S.protocol L.Link talk.conn) }
    {
        let core = ConnCore {
            speech: S::make(alloc, hall)?,
            pending: Next::Open,
            input_ended: false,
            waits: 0,
            closes: false,
            answered: 0,
            end: None,
            read: 0,
            written: 0,
        };
        Ok(SpeechConn {
            core: Box::new(alloc, core)?,
            link: None,
            told: false,
            hall: PhantomData,
        })
    }

    /// Gives the connection its link, which isn't shut and of which nothing was taken or written;
    /// hands it back where there is one already. Where the link tells its answers to come, the
    /// opening is the first event of their path.
    pub fn open(&mut self, link: L) -> Result<Next, L>
        requires initial { IsInitialLink (L.tells link) }
        requires not_shut { L.is_shut link ≡ false }
        ensures opens { Opens self.old.conn link result self.new.conn }
        ensures run { IfOk result (λ _.
            HasRun S.protocol L.Link self.old.conn.standing.hall link [] self.new.conn) }
        ensures path { IfOk result (λ next.
            TakesOff (Handler.Open ∷ [])
            (known_path S.protocol self.old.conn.standing.hall (L.tells link))
            (known_rest S.protocol L.Link self.new.conn)) }
        ensures told { IfOk result (λ _. self.new.told ≡ false) }
        ensures kept { IfErr result (λ _. self.new ≡ self.old) }
        ensures sound { IsSound S.protocol L.Link self.new.conn }
    {
        if self.link.is_some() {
            return Err(link);
        }
        self.link = Some(link);
        self.core.pending = Next::Read;
        Ok(Next::Read)
    }

    /// Does the pending step, and answers the next one: `Wait` where the link was not ready and the
    /// same step is pending. Before `open` and after the close it does nothing. Where the link
    /// tells its answers to come, the step takes its event off the rest of their path. Only the
    /// close shuts the link. An end that is known stays. A step gives a line of the log exactly
    /// where it writes the last of an answer whose protocol logs.
    pub fn step(&mut self) -> Next
        ensures steps { Steps S.protocol L.Link self.old.conn self.new.conn }
        ensures told { result ≡ reported_step self.new.conn.standing }
        ensures scripted { FollowsScript S.protocol L.Link self.old.conn self.new.conn }
        ensures path { TakesEvent S.protocol L.Link self.old.conn self.new.conn }
        ensures begins { BeginsResponses S.protocol self.new.conn.standing.hall
            (told_by_link L.Link self.new.conn.link) }
        ensures shut { IsShutAtEnd L.Link self.new.conn.standing.pending self.new.conn.link }
        ensures ended { (end : End) → self.old.conn.standing.end ≡ Some end
            → self.new.conn.standing.end ≡ Some end }
        ensures line { self.new.told
            ≡ gives_line S.protocol self.old.conn.standing self.new.conn.standing }
        ensures lines { lines_given S.protocol self.new.conn.standing
            ≡ lines_given S.protocol self.old.conn.standing + bit self.new.told }
        ensures nothing { HasNoStep self.old.conn.standing.pending → self.new ≡ self.old }
        ensures sound { IsSound S.protocol L.Link self.new.conn }
    {
        self.told = step_over(&mut self.core, &mut self.link);
        self.core.next_step()
    }

    /// The step that comes next, which is never `Wait`. The link is shut where the answer is
    /// `Nothing`, and not before.
    pub fn pending(&self) -> Next
        ensures pending { result ≡ self.now.conn.standing.pending }
        ensures never { result ≢ Next.Wait }
        ensures linked { (self.now.conn.link ≡ None) ↔ (result ≡ Next.Open) }
        ensures shut { IsShutAtEnd L.Link result self.now.conn.link }
    {
        self.core.pending
    }

    /// How it ended, once it is closed. Then no event is left of the path.
    pub fn end(&self) -> Option<End>
        ensures end { result ≡ told_end self.now.conn.standing }
        ensures closed { IsSome result ↔ (self.now.conn.standing.pending ≡ Next.Nothing) }
        ensures path { IsSome result → HasNoEvents (known_rest S.protocol L.Link self.now.conn) }
    {
        match self.core.pending {
            Next::Nothing => self.core.end,
            _ => None,
        }
    }

    /// How many bytes were taken, as many at most as count.
    pub fn read(&self) -> u64
        ensures read { result ≡ self.now.conn.standing.read }
        ensures few { result ≤ S.protocol.input_limit self.now.conn.standing.hall }
    {
        self.core.read
    }

    /// How many bytes were written.
    pub fn written(&self) -> u64
        ensures written { result ≡ self.now.conn.standing.written }
        ensures few { result ≤ output_limit S.protocol self.now.conn.standing.hall }
    {
        self.core.written
    }

    /// The line of the answer that the last step wrote to its end, with this number as that of its
    /// connection; none where that step didn't end one, or such answers have no lines.
    pub fn answered(&self, conn: u16) -> Option<LogLine>
        ensures line { result ≡ line_told conn self.now }
        ensures telling { IsTelling S.protocol self.now }
    {
        if !self.told {
            return None;
        }
        let note = self.core.speech.note();
        Some(LogLine {
            conn,
            turn: self.core.answered,
            code: note.code,
            length: note.length,
            target: note.target,
        })
    }

    /// What it says.
    pub fn speech(&self) -> &S
        ensures hall { S.hall_of result.now ≡ self.now.conn.standing.hall }
        ensures note { S.note_of result.now ≡ self.now.conn.standing.note }
    {
        &self.core.speech
    }

    /// The link, once it was given.
    pub fn link(&self) -> Option<&L>
        ensures { option_copied result ≡ self.now.conn.link }
    {
        self.link.as_ref()
    }

    /// Gives the link up, whether the connection has ended or not.
    pub fn into_link(self) -> Option<L>
        ensures { result ≡ self.conn.link }
    {
        let SpeechConn {
            core: _,
            link,
            told: _,
            hall: _,
        } = self;
        link
    }
}

/// Does the pending step. Answers whether it gave a line of the log.
fn step_over<S: Speech, L: Link>(core: &mut ConnCore<S>, link: &mut Option<L>) -> bool
    requires { IsSound S.protocol L.Link
        (record { standing = state_of S.Speech core.old; link = link.old }) }
    ensures steps { StepsFrom S.protocol L.Link (state_of S.Speech core.old)
        (state_of S.Speech core.new) core.old.pending link.old link.new }
    ensures line { result ≡ gives_line S.protocol (state_of S.Speech core.old)
        (state_of S.Speech core.new) }
{
    match (core.pending, link) {
        (Next::Read, Some(link)) => {
            core.read_step(link);
            false
        }
        (Next::Parse, _) => {
            core.parse_step();
            false
        }
        (Next::Look, _) => {
            core.look_step();
            false
        }
        (Next::Write, Some(link)) => {
            core.write_step(link);
            core.speech.left() == 0 && core.speech.logs()
        }
        (Next::Close, Some(link)) => {
            core.close_step(link);
            false
        }
        _ => false,
    }
}
