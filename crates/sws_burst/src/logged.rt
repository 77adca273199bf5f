//! A talk that takes several steps in one event, up to the first that gives a line of a log.
ghost use Rattle.std.specs.Prelude.{◌≡◌, ◌∷◌, ◌++◌, List, ℕ, None, Some, false};
ghost use Rattle.sws_steps.specs.Outcome.{UnlessMemory};
ghost use Rattle.sws_steps.specs.declared.Handler.{Handler};
ghost use Rattle.sws_steps.specs.Path.{TakesOff};
ghost use Rattle.sws_steps.specs.Talks.{due, HasServed, ServesNow, path_to_come, IsDue, LinesServed, StepsServed};
ghost use Rattle.sws_burst.specs.LoggedBursts.{HasRunFrom, events_of, handlers, rest_of_events};

use crate::bursts::{BURST, goes_on};
use std::alloc::Global;
use std::snapshot::Snapshot;
use sws_link::{Link, Memory};
use sws_log::LogLine;
use sws_steps::{End, Next, Talk};

/// A talk that takes up to [`BURST`] steps in each event, and none behind a step that gave a line
/// of the log, so that an event gives one line at most.
#[derive(Drop)]
pub struct LoggedBursts<T, L> {
    talk: T,

    /// The link as it was given, for contracts alone.
    first: Option<Snapshot<L>>,
}

impl<L: Link, T: Talk<L> + Drop> Talk<L> for LoggedBursts<T, L> {
    type Hall = T::Hall;

    type Contents = T::Contents;

    ghost contents_of = { T.contents_of };

    ghost hall_of = { λ logged. T.hall_of logged.talk };

    ghost link_of = { λ logged. T.link_of logged.talk };

    ghost view_of = { λ logged. T.view_of logged.talk };

    ghost has_run = { λ first trail logged.
        HasRunFrom L.Link T.Talk first trail logged.first logged.talk };

    ghost rest_of = { λ logged. rest_of_events L.Link T.Talk logged.first logged.talk };

    ghost responses = { T.responses };

    ghost outcome = { T.outcome };

    ghost path = { λ hall script. handlers (events_of (T.steps hall script)) };

    ghost log = { T.log };

    ghost told = { λ logged. T.told logged.talk };

    ghost steps = { λ hall script. events_of (T.steps hall script) };

    ghost input_limit = { T.input_limit };

    ghost output_limit = { T.output_limit };

    fn make(alloc: Global, hall: T::Hall) -> Result<LoggedBursts<T, L>, Memory> {
        Ok(LoggedBursts {
            talk: T::make(alloc, hall)?,
            first: None,
        })
    }

    fn open(&mut self, link: L) -> Result<Next, L> {
        T::a_run_serves();
        let first = Snapshot::of(&link);
        let next = self.talk.open(link)?;
        self.first = Some(first);
        Ok(next)
    }

    fn step(&mut self) -> Next {
        T::a_run_serves();
        let mut next = self.talk.step();
        let mut left = BURST - 1;
        'steps: while left > 0 && goes_on(next) && self.talk.answered(0).is_none() {
            next = self.talk.step();
            left -= 1;
        }
        next
    }

    fn pending(&self) -> Next {
        self.talk.pending()
    }

    fn end(&self) -> Option<End> {
        self.talk.end()
    }

    fn read(&self) -> u64 {
        self.talk.read()
    }

    fn written(&self) -> u64 {
        self.talk.written()
    }

    fn answered(&self, conn: u16) -> Option<LogLine> {
        self.talk.answered(conn)
    }

    fn link(&self) -> Option<&L> {
        self.talk.link()
    }

    fn into_link(self) -> Option<L> {
        let LoggedBursts { talk, first: _ } = self;
        talk.into_link()
    }

    fn a_run_serves() {
        T::a_run_serves();
    }

    ghost responses_begin = { T.responses_begin };

    ghost log_begins = { T.log_begins };

    ghost use Rattle.std.specs.Prelude.{refl};

    ghost steps_are = { λ hall script. refl };

    ghost few_input = { T.few_input };

    ghost few_output = { T.few_output };

    ghost unkept = { λ logged. T.unkept logged.talk };
}
