//! A talk that takes several steps in one event.
ghost use Rattle.std.specs.Prelude.{◌≡◌, ◌∷◌, ◌++◌, [], List, ℕ, None, Some, false, option_map};
ghost use Rattle.sws_steps.specs.Outcome.{UnlessMemory};
ghost use Rattle.sws_steps.specs.declared.Handler.{Handler};
ghost use Rattle.sws_steps.specs.Path.{TakesOff};
ghost use Rattle.sws_steps.specs.Talks.{due, HasServed, ServesNow, path_to_come, IsDue, LinesServed, StepsServed};
ghost use Rattle.sws_burst.specs.Bursts.{HasBurst, bursts_from, bursts_of, is_ready, plain_steps, unlogged};

use std::alloc::Global;
use sws_link::{Link, Memory};
use sws_log::LogLine;
use sws_steps::{End, Next, Talk};

/// How many steps a burst has at most. A request takes seven, where its link takes all at once.
pub const BURST: u32 = 32;

/// Whether a burst goes on after a step that answered this.
pub(crate) fn goes_on(next: Next) -> bool
    ensures { result ≡ is_ready next }
{
    match next {
        Next::Open | Next::Wait | Next::Nothing => false,
        Next::Read | Next::Parse | Next::Look | Next::Write | Next::Close => true,
    }
}

/// A talk that takes up to [`BURST`] steps in each event.
#[derive(Drop)]
pub struct Bursts<T> {
    talk: T,
}

impl<L: Link, T: Talk<L> + Drop> Talk<L> for Bursts<T> {
    type Hall = T::Hall;

    type Contents = T::Contents;

    ghost contents_of = { T.contents_of };

    ghost hall_of = { λ bursts. T.hall_of bursts.talk };

    ghost link_of = { λ bursts. T.link_of bursts.talk };

    ghost view_of = { λ bursts. unlogged (T.view_of bursts.talk) };

    ghost has_run = { λ first trail bursts.
        HasBurst T.has_run (λ talk. due (T.view_of talk)) first trail bursts.talk };

    ghost rest_of = { λ bursts. option_map (bursts_from 0) (T.rest_of bursts.talk) };

    ghost responses = { T.responses };

    ghost outcome = { T.outcome };

    ghost path = { λ hall script. bursts_of (T.path hall script) };

    ghost log = { λ hall conn bytes. [] };

    ghost told = { λ bursts. false };

    ghost steps = { λ hall script. plain_steps (bursts_of (T.path hall script)) };

    ghost input_limit = { T.input_limit };

    ghost output_limit = { T.output_limit };

    fn make(alloc: Global, hall: T::Hall) -> Result<Bursts<T>, Memory> {
        Ok(Bursts {
            talk: T::make(alloc, hall)?,
        })
    }

    fn open(&mut self, link: L) -> Result<Next, L> {
        self.talk.open(link)
    }

    fn step(&mut self) -> Next {
        let mut next = self.talk.step();
        let mut left = BURST - 1;
        'steps: while left > 0 && goes_on(next) {
            next = self.talk.step();
            left -= 1;
        }
        next
    }

    fn pending(&self) -> Next {
        self.talk.pending()
    }

    fn end(&self) -> Option<End> {
        self.talk.end()
    }

    fn read(&self) -> u64 {
        self.talk.read()
    }

    fn written(&self) -> u64 {
        self.talk.written()
    }

    fn answered(&self, _conn: u16) -> Option<LogLine> {
        None
    }

    fn link(&self) -> Option<&L> {
        self.talk.link()
    }

    fn into_link(self) -> Option<L> {
        let Bursts { talk } = self;
        talk.into_link()
    }

    fn a_run_serves() {
        T::a_run_serves();
    }

    ghost responses_begin = { T.responses_begin };

    ghost use Rattle.sws_burst.specs.Laws.{empty-begins, plain-handlers};

    ghost log_begins = { λ hall conn front bytes begins. empty-begins };

    ghost steps_are = { λ hall script. plain-handlers (bursts_of (T.path hall script)) };

    ghost few_input = { T.few_input };

    ghost few_output = { T.few_output };

    ghost unkept = { λ bursts. T.unkept bursts.talk };
}
