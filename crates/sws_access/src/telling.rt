//! A talk whose lines are told as they are given.
ghost use Rattle.std.specs.Prelude.{◌≡◌, ◌∷◌, ◌++◌, [], List, ℕ, Some};
ghost use Rattle.sws_steps.specs.declared.Handler.{Handler};
ghost use Rattle.sws_steps.specs.Outcome.{UnlessMemory};
ghost use Rattle.sws_steps.specs.Path.{TakesOff};
ghost use Rattle.sws_steps.specs.Talks.{due, HasServed, ServesNow, path_to_come, IsDue, LinesServed, StepsServed};
ghost use Rattle.sws_access.specs.Telling.{TellsSo, TellsEach};

use crate::clerk::Clerk;
use crate::recorded::Recounts;
use std::alloc::Global;
use sws_link::{Link, Memory};
use sws_log::LogLine;
use sws_steps::{End, Next, Talk};

/// What a [`Telling`] is lent: the hall of the talk inside, and the desk of its clerk.
#[derive(Clone, Copy)]
pub struct Lent<H, D> {
    pub hall: H,
    pub desk: D,
}

/// A talk over another, which tells its clerk each line in the step that gives it.
#[derive(Drop)]
pub struct Telling<T, C> {
    talk: T,
    clerk: C,
}

impl<L: Link, T: Talk<L> + Recounts + Drop, C: Clerk<L> + Drop> Talk<L> for Telling<T, C> {
    type Hall = Lent<T::Hall, C::Desk>;

    type Contents = T::Contents;

    ghost contents_of = { λ lent. T.contents_of lent.hall };

    ghost hall_of = { λ telling. T.hall_of telling.talk };

    ghost link_of = { λ telling. T.link_of telling.talk };

    ghost view_of = { λ telling. T.view_of telling.talk };

    ghost has_run = { λ first trail telling.
        TellsSo L.Link T.Talk C.number_of C.told_of first trail telling.talk telling.clerk };

    ghost rest_of = { λ telling. T.rest_of telling.talk };

    ghost responses = { T.responses };

    ghost outcome = { T.outcome };

    ghost path = { T.path };

    ghost log = { T.log };

    ghost told = { λ telling. T.told telling.talk };

    ghost steps = { T.steps };

    ghost input_limit = { T.input_limit };

    ghost output_limit = { T.output_limit };

    fn make(alloc: Global, lent: Lent<T::Hall, C::Desk>) -> Result<Telling<T, C>, Memory> {
        Ok(Telling {
            talk: T::make(alloc, lent.hall)?,
            clerk: C::of(lent.desk),
        })
    }

    fn open(&mut self, link: L) -> Result<Next, L> {
        let next = self.talk.open(link)?;
        if let Some(link) = self.talk.link() {
            self.clerk.meet(link);
        }
        Ok(next)
    }

    fn step(&mut self) -> Next {
        let next = self.talk.step();
        if let Some(line) = self.talk.answered(self.clerk.number()) {
            self.clerk.tell(line, self.talk.record());
        }
        next
    }

    fn pending(&self) -> Next {
        self.talk.pending()
    }

    fn end(&self) -> Option<End> {
        self.talk.end()
    }

    fn read(&self) -> u64 {
        self.talk.read()
    }

    fn written(&self) -> u64 {
        self.talk.written()
    }

    fn answered(&self, conn: u16) -> Option<LogLine> {
        self.talk.answered(conn)
    }

    fn link(&self) -> Option<&L> {
        self.talk.link()
    }

    fn into_link(self) -> Option<L> {
        let Telling { talk, clerk: _ } = self;
        talk.into_link()
    }

    fn a_run_serves() {
        T::a_run_serves();
    }

    ghost responses_begin = { T.responses_begin };

    ghost log_begins = { T.log_begins };

    ghost steps_are = { T.steps_are };

    ghost few_input = { T.few_input };

    ghost few_output = { T.few_output };

    ghost unkept = { λ telling. T.unkept telling.talk };
}

/// What a run has told, for contracts alone. A call does nothing.
///
/// A connection that was opened over a link has told its clerk one line for each that it gave: they
/// name the connection by the clerk's number, and their turns are 1, 2, 3 and so on. Where the link
/// told its input, they are the lines of the answers to it that were written whole.
pub fn a_run_tells<L: Link, T: Talk<L> + Recounts, C: Clerk<L>>()
    ensures { (first : L) (trail : List Handler) (talk : T) (clerk : C)
        → TellsSo L.Link T.Talk C.number_of C.told_of first trail talk clerk
        → TellsEach (T.log (T.hall_of talk) (C.number_of clerk)) (L.tells first) (T.view_of talk)
        (C.number_of clerk) (C.told_of clerk) }
{
    T::a_run_serves();
}
