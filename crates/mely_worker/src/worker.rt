//! The rule of one core.
ghost use Rattle.std.specs.Prelude.{◌≡◌, ◌≤◌, ◌*◌, [], ◌↔◌, false, List, Option, IsTrue, IfOk, length};
ghost use Rattle.mely_worker.specs.Phase.{is_free};

use crate::access::Access;
use crate::app::App;
use crate::gate::Gate;
use crate::idle_worker::IdleWorker;
use crate::kept_phase::KeptPhase;
use crate::made::Made;
use crate::rule::step_by_phase;
use crate::worker_fields::WorkerFields;
use mely_event::{Colour, Event, Fits, Memory, Trail};
use std::alloc::Global;
use std::marker::Model;

/// The rule of one core: it takes colours off its chain, runs turns, delivers marks and reports,
/// and hunts at its victims when its chain is empty.
///
/// It makes one step after another on an [`Access`], which it is lent for each step. Contracts see
/// a worker as its core, its batch, whether it is halted, its victims, the registrations that were
/// refused, and its phase. A worker may hold a turn, so it has no `Drop`: one that is free is spent
/// by [`rest`](Worker::rest) or [`into_lost`](Worker::into_lost).
pub struct Worker<S, P> {
    pub(crate) fields: WorkerFields<P>,
    pub(crate) phase: KeptPhase<S, P>,
}

impl<S, P> Model for Worker<S, P> {
    ghost use Rattle.mely_worker.specs.Worker.{WorkerState};

    ghost Value = { WorkerState S P };

    ghost use Rattle.mely_worker.specs.Invariant.{view_of, IsWellKept};

    ghost view = { view_of };

    ghost invariant = { IsWellKept };
}

impl<S, P> Worker<S, P> {
    ghost use Rattle.mely_worker.specs.declared.phase.Phase.TheVariants.{Free};

    /// A worker of a core that is free, with its victims in the order in which it hunts. It makes
    /// room for `2 * batch` registrations, which may be refused later.
    ///
    /// # Errors
    ///
    /// There was no memory.
    pub fn new(
        alloc: Global,
        core: u16,
        victims: Vec<u16>,
        batch: u16,
    ) -> Result<Worker<S, P>, Memory>
        ensures { IfOk result (λ worker. worker ≡ record {
          core = core;
          batch = batch;
          halted = false;
          victims = victims.items;
          lost = [];
          phase = Free 0;
        }) }
    {
        let lost = Vec::with_capacity(alloc, 2 * batch as usize)?;
        Ok(Worker {
            fields: WorkerFields {
                core,
                batch,
                halted: false,
                victims,
                lost,
            },
            phase: KeptPhase::free(0),
        })
    }

    /// Whether it has neither a mark nor a turn.
    pub fn is_free(&self) -> bool
        ensures { IsTrue result ↔ IsTrue (is_free self.now.phase) }
    {
        self.phase.is_free()
    }

    /// Whether it met want of memory. It then ends its turn, puts back its
    /// mark, and does nothing more.
    pub fn is_halted(&self) -> bool
        ensures { result ≡ self.now.halted }
    {
        self.fields.halted
    }

    /// The registrations that were refused for memory, the first one first.
    pub fn lost(&self) -> &[(Colour, Event, Option<P>)]
        ensures value { result.now ≡ self.now.lost }
        ensures few { length self.now.lost ≤ 2 * self.now.batch }
    {
        self.fields.lost.as_slice()
    }
}

impl<S, P: Drop> Worker<S, P> {
    ghost use Rattle.mely_worker.specs.IdleWorker.{resumed_worker};

    /// The registrations that were refused for memory, of a free worker. It takes no memory.
    pub fn into_lost(self) -> Vec<(Colour, Event, Option<P>)>
        requires { IsTrue (is_free self.phase) }
        ensures value { result.items ≡ self.lost }
        ensures few { length self.lost ≤ 2 * self.batch }
    {
        self.rest().into_lost()
    }

    /// A free worker as a value that may be let go, and so may cross into a
    /// thread. It takes no memory.
    pub fn rest(self) -> IdleWorker<P>
        requires { IsTrue (is_free self.phase) }
        ensures { resumed_worker result ≡ self }
    {
        let Worker { fields, phase } = self;
        // A phase has no `Drop`, as it may hold a turn: that of a free worker is
        // spent by reading its place.
        let place = phase.place();
        IdleWorker { fields, place }
    }
}

impl<S: Fits<P> + Drop, P: Drop> Worker<S, P> {
    ghost use Rattle.std.specs.Prelude.{true};
    ghost use Rattle.mely_worker.specs.Gated.{HasPassed};
    ghost use Rattle.mely_worker.specs.Step.{Steps};
    ghost use Rattle.mely_worker.specs.Worker.{IsSameWorker};
    ghost use Rattle.mely_worker.specs.Conditions.{MayStepAt, AppServesAt};
    ghost use Rattle.mely_worker.specs.Access.{Stays};

    /// Makes one step by the worker's rule, and names it.
    ///
    /// What the worker needs for its steps holds again afterwards, so steps may follow one another.
    /// Where the step runs a handler, the gate was passed before, with the core, the colour and the
    /// event.
    pub fn step<A: Access<S, P>, R: App<State = S, Load = P>, G: Gate>(
        &mut self,
        access: &mut A,
        app: &R,
        gate: &G,
    ) -> Made
        requires may { MayStepAt S.Trail S.fits_under A.Access access.old self.old }
        requires served { AppServesAt A.Access R.App access.old app.now }
        ensures steps { Steps A.Access R.App app.now access.old self.old
            result access.new self.new }
        ensures passed { HasPassed (G.passes gate.now) self.old }
        ensures may { MayStepAt S.Trail S.fits_under A.Access access.new self.new }
        ensures worker { IsSameWorker self.old self.new }
        ensures halted { self.old.halted ≡ true → self.new.halted ≡ true }
        ensures memory { result ≡ Made.Memory → self.new.halted ≡ true }
        ensures same { Stays A.setup_of A.core_of A.frame_of access.old access.new }
        ensures kept { A.keeps access.old access.new }
    {
        step_by_phase(&mut self.fields, &mut self.phase, access, app, gate)
    }
}
