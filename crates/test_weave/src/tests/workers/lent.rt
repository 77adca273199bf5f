//! An access that is lent, as whoever owns the shards lends a side of them for a step.
ghost use Rattle.std.specs.Prelude.{◌≡◌, MatchResult};
ghost use Rattle.mely_worker.specs.Access.{IsCore, Stays, FitsSetup, IsSpent, StillOwes, NamesCore, GivesBack};
ghost use Rattle.mely_worker.specs.Step.{Steps};
ghost use Rattle.mely_worker.specs.Conditions.{MayStepAt, AppServesAt};

use mely_event::{Colour, Event, Fits, Mark, There, Trail, Unregistered};
use mely_history::{After, NoSteal, NoTake, Registered, Stolen};
use mely_queue::Turn;
use mely_worker::{Access, App, Made, OpenGate, Worker};

/// An access that is lent.
#[derive(Drop)]
pub(super) struct Lent<'a, A> {
    inner: &'a mut A,
}

impl<'a, S: Fits<P>, P, A: Access<S, P>> Access<S, P> for Lent<'a, A> {
    ghost setup_of = { λ a. A.setup_of a.inner.now };

    ghost core_of = { λ a. A.core_of a.inner.now };

    ghost frame_of = { λ a. A.frame_of a.inner.now };

    ghost owes = { λ a c core count trail. A.owes a.inner.now c core count trail };

    ghost keeps = { λ a b. b.inner.ghost_name ≡ a.inner.ghost_name };

    ghost registers = { λ a c event load answer b.
        A.registers a.inner.now c event load answer b.inner.now };

    ghost takes = { λ a c answer b. A.takes a.inner.now c answer b.inner.now };

    ghost finishes = { λ a turn answer b. A.finishes a.inner.now turn answer b.inner.now };

    ghost steals = { λ a c answer b. A.steals a.inner.now c answer b.inner.now };

    ghost pushes = { λ a core mark answer b. A.pushes a.inner.now core mark answer b.inner.now };

    ghost pops = { λ a answer b. A.pops a.inner.now answer b.inner.now };

    ghost retells = { λ a core colour started worth found b.
        A.retells a.inner.now core colour started worth found b.inner.now };

    ghost picks = { λ a core answer b. A.picks a.inner.now core answer b.inner.now };

    fn core(&self) -> u16 {
        self.inner.core()
    }

    fn register(
        &mut self,
        colour: Colour,
        event: Event,
        load: Option<P>,
    ) -> Result<Registered, Unregistered<P>>
        requires own { IsCore (A.setup_of self.old.inner.now) (A.core_of self.old.inner.now) }
        requires fits { FitsSetup S.fits_under (A.setup_of self.old.inner.now)
            (A.frame_of self.old.inner.now) (colour, event, load) }
        ensures called { A.registers self.old.inner.now colour event load
            result self.new.inner.now }
        ensures answer { MatchResult result (NamesCore (A.setup_of self.old.inner.now))
            (GivesBack event load) }
        ensures stays { Stays (λ a. A.setup_of a.inner.now) (λ a. A.core_of a.inner.now) (λ a.
            A.frame_of a.inner.now) self.old self.new }
        ensures kept { self.new.inner.ghost_name ≡ self.old.inner.ghost_name }
        ensures owed { StillOwes (λ a c core count trail.
            A.owes a.inner.now c core count trail) self.old self.new }
    {
        self.inner.register(colour, event, load)
    }

    fn take(&mut self, colour: Colour) -> Result<Turn<S, P>, NoTake> {
        self.inner.take(colour)
    }

    fn finish(&mut self, turn: Turn<S, P>) -> After
        requires spent { IsSpent S.Trail (λ a. A.setup_of a.inner.now) (λ a. A.frame_of a.inner.now)
            (λ a c core count trail. A.owes a.inner.now c core count trail) self.old turn }
        ensures called { A.finishes self.old.inner.now turn result self.new.inner.now }
        ensures stays { Stays (λ a. A.setup_of a.inner.now) (λ a. A.core_of a.inner.now) (λ a.
            A.frame_of a.inner.now) self.old self.new }
        ensures kept { self.new.inner.ghost_name ≡ self.old.inner.ghost_name }
    {
        self.inner.finish(turn)
    }

    fn steal(&mut self, colour: Colour) -> Result<Stolen, NoSteal> {
        self.inner.steal(colour)
    }

    fn push(&mut self, core: u16, mark: Mark) -> Result<(), There> {
        self.inner.push(core, mark)
    }

    fn pop(&mut self) -> Option<Mark> {
        self.inner.pop()
    }

    fn retell(&mut self, core: u16, colour: Colour, started: u64, worth: u128) -> bool {
        self.inner.retell(core, colour, started, worth)
    }

    fn pick(&mut self, core: u16) -> Option<Mark> {
        self.inner.pick(core)
    }

    ghost use Rattle.std.proofs.Common.{refl};

    ghost keeps_itself = { λ a. refl };
}

/// A step on an access that is lent for it.
pub(super) fn step_lent<S: Fits<P> + Drop, P: Drop, A: Access<S, P>, R: App<State = S, Load = P>>(
    worker: &mut Worker<S, P>,
    access: &mut A,
    app: &R,
) -> Made
    requires may { MayStepAt S.Trail S.fits_under A.Access access.old worker.old }
    requires served { AppServesAt A.Access R.App access.old app.now }
    ensures steps { Steps A.Access R.App app.now access.old worker.old result
        access.new worker.new }
    ensures may { MayStepAt S.Trail S.fits_under A.Access access.new worker.new }
    ensures same { Stays A.setup_of A.core_of A.frame_of access.old access.new }
{
    let mut side = Lent { inner: access };
    worker.step(&mut side, app, &OpenGate)
}

/// So many steps, each on an access that is lent for it.
pub(super) fn steps_lent<S: Fits<P> + Drop, P: Drop, A: Access<S, P>, R: App<State = S, Load = P>>(
    worker: &mut Worker<S, P>,
    access: &mut A,
    app: &R,
    count: u32,
)
    requires may { MayStepAt S.Trail S.fits_under A.Access access.old worker.old }
    requires served { AppServesAt A.Access R.App access.old app.now }
    ensures may { MayStepAt S.Trail S.fits_under A.Access access.new worker.new }
    ensures same { Stays A.setup_of A.core_of A.frame_of access.old access.new }
{
    for _step in 0..count {
        let _made = step_lent(worker, access, app);
    }
}
