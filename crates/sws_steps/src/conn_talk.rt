//! A connection as a talk, whatever its speech.
ghost use Rattle.std.specs.Prelude.{List, ℕ};
ghost use Rattle.sws_steps.specs.Protocol.{output_limit};
ghost use Rattle.sws_steps.specs.Outcome.{outcome_of, UnlessMemory};
ghost use Rattle.sws_steps.specs.declared.Handler.{Handler};
ghost use Rattle.sws_steps.specs.Path.{path_of, known_rest, TakesOff};
ghost use Rattle.sws_steps.specs.Logs.{log_of, steps_of};
ghost use Rattle.sws_steps.specs.Talks.{due, HasServed, ServesNow, path_to_come, IsDue, LinesServed, StepsServed, talk_view};
ghost use Rattle.sws_steps.specs.Told.{TalkState, HasRunTold};

use crate::conn::SpeechConn;
use crate::speech::Speech;
use crate::talk::Talk;
use crate::{End, Next};
use std::alloc::Global;
use sws_link::{Link, Memory};
use sws_log::LogLine;

impl<S: Speech + Drop, L: Link + Drop> Talk<L> for SpeechConn<S, L> {
    type Hall = S::Hall;

    type Contents = S::Contents;

    ghost contents_of = { S.contents_of };

    ghost hall_of = { λ talk. talk.conn.standing.hall };

    ghost link_of = { λ talk. talk.conn.link };

    ghost view_of = { λ talk. talk_view S.protocol talk.conn.standing };

    ghost has_run = { λ first trail talk. HasRunTold S.protocol L.Link first trail talk };

    ghost rest_of = { λ talk. known_rest S.protocol L.Link talk.conn };

    ghost responses = { λ hall bytes. S.protocol.responses_of hall bytes };

    ghost outcome = { λ hall script. outcome_of S.protocol hall script };

    ghost path = { λ hall script. path_of S.protocol hall script };

    ghost log = { λ hall conn bytes. log_of S.protocol hall conn bytes };

    ghost told = { λ talk. talk.told };

    ghost steps = { λ hall script. steps_of S.protocol hall script };

    ghost input_limit = { S.protocol.input_limit };

    ghost output_limit = { λ hall. output_limit S.protocol hall };

    fn make(alloc: Global, hall: S::Hall) -> Result<SpeechConn<S, L>, Memory> {
        SpeechConn::new(alloc, hall)
    }

    fn open(&mut self, link: L) -> Result<Next, L> {
        self.open(link)
    }

    fn step(&mut self) -> Next {
        self.step()
    }

    fn pending(&self) -> Next {
        self.pending()
    }

    fn end(&self) -> Option<End> {
        self.end()
    }

    fn read(&self) -> u64 {
        self.read()
    }

    fn written(&self) -> u64 {
        self.written()
    }

    fn answered(&self, conn: u16) -> Option<LogLine> {
        self.answered(conn)
    }

    fn link(&self) -> Option<&L> {
        self.link()
    }

    fn into_link(self) -> Option<L> {
        self.into_link()
    }

    fn a_run_serves()
        ensures serves { (first : L) (trail : List Handler) (talk : TalkState S.Contents L)
            → HasRunTold S.protocol L.Link first trail talk
            → ServesNow (HasServed L.Link (S.protocol.responses_of talk.conn.standing.hall)
            (outcome_of S.protocol talk.conn.standing.hall) first)
            talk.conn.link (talk_view S.protocol talk.conn.standing) }
        ensures path { (first : L) (trail : List Handler) (talk : TalkState S.Contents L)
            → HasRunTold S.protocol L.Link first trail talk
            → UnlessMemory talk.conn.standing.end (TakesOff trail
            (path_to_come (path_of S.protocol talk.conn.standing.hall) (L.tells first))
            (known_rest S.protocol L.Link talk.conn)) }
        ensures due { (first : L) (trail : List Handler) (talk : TalkState S.Contents L)
            → HasRunTold S.protocol L.Link first trail talk
            → IsDue (due (talk_view S.protocol talk.conn.standing))
            (known_rest S.protocol L.Link talk.conn) }
        ensures lines { (first : L) (trail : List Handler) (talk : TalkState S.Contents L)
            (conn : ℕ) → HasRunTold S.protocol L.Link first trail talk
            → LinesServed (log_of S.protocol talk.conn.standing.hall conn) (L.tells first)
            (talk_view S.protocol talk.conn.standing) }
        ensures steps { (first : L) (trail : List Handler) (talk : TalkState S.Contents L)
            → HasRunTold S.protocol L.Link first trail talk
            → UnlessMemory talk.conn.standing.end
            (StepsServed (steps_of S.protocol talk.conn.standing.hall) (L.tells first) trail
            talk.told (talk_view S.protocol talk.conn.standing)) }
    {}

    ghost use Rattle.sws_steps.specs.TalkLaws.{responses-begin, end-unkept};
    ghost use Rattle.sws_steps.specs.LogLaws.{log-begins, steps_of-handlers};

    ghost responses_begin = { responses-begin S.protocol S.orderly };

    ghost log_begins = { log-begins S.protocol S.orderly };

    ghost steps_are = { steps_of-handlers S.protocol };

    ghost few_input = { S.orderly.few_input };

    ghost few_output = { S.orderly.few_written };

    ghost unkept = { λ talk. end-unkept talk.conn.standing };
}
