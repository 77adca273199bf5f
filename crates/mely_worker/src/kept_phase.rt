//! The phase of a worker, as it is kept.
ghost use Rattle.std.specs.Prelude.{◌≡◌, [], ◌↔◌, IsTrue, false};
ghost use Rattle.mely_worker.specs.declared.delivery.Delivery.TheVariants.{Nothing};
ghost use Rattle.mely_worker.specs.declared.phase.Phase.TheVariants.{Free, Turning};
ghost use Rattle.mely_worker.specs.KeptPhase.{phase_at};
ghost use Rattle.mely_worker.specs.Phase.{is_free, is_turning, HasRunAll};

use crate::delivery::Delivery;
use crate::outs::Outs;
use crate::stage::Stage;
use mely_queue::Turn;
use std::marker::Model;

/// The phase of a worker in parts that stay where they are, so that a step writes only those that
/// it changes. Contracts see it as a [`Phase`](crate::phase::Phase).
pub struct KeptPhase<S, P> {
    /// What it is at while there is no turn.
    pub(crate) stage: Stage,

    /// The turn that it runs.
    pub(crate) turn: Option<Turn<S, P>>,

    /// What is in hand: nothing without a turn.
    pub(crate) hand: Delivery,

    /// The registrations that the last handler put and that are left: none without a turn.
    pub(crate) outs: Outs<P>,
}

impl<S, P> Model for KeptPhase<S, P> {
    ghost use Rattle.mely_worker.specs.declared.phase.Phase.{Phase};

    ghost Value = { Phase S P };

    ghost use Rattle.mely_worker.specs.KeptPhase.{phase_of, IsOfTurn};

    ghost view = { phase_of };

    ghost invariant = { IsOfTurn };
}

impl<S, P> KeptPhase<S, P> {
    /// It hunts at a place. It takes no memory.
    pub(crate) fn free(place: usize) -> KeptPhase<S, P>
        ensures { result ≡ Free place }
    {
        KeptPhase {
            stage: Stage::Free { place },
            turn: None,
            hand: Delivery::Nothing,
            outs: Outs::new(),
        }
    }

    /// Whether it hunts.
    pub(crate) fn is_free(&self) -> bool
        ensures { IsTrue result ↔ IsTrue (is_free self.now) }
    {
        self.turn.is_none() && matches!(self.stage, Stage::Free { .. })
    }

    /// Goes on to another stage. There is no turn, which would be lost.
    pub(crate) fn go_to(&mut self, stage: Stage)
        requires { is_turning self.old ≡ false }
        ensures { self.new ≡ phase_at stage }
    {
        self.stage = stage;
    }

    /// Begins a turn. There is none yet, which would be lost.
    pub(crate) fn begin(&mut self, turn: Turn<S, P>)
        requires { is_turning self.old ≡ false }
        ensures { self.new ≡ Turning turn Nothing [] }
    {
        match self.turn.replace(turn) {
            Some(_before) => unreachable!(),
            None => {}
        }
    }

    /// Ends the turn, of which all was run, and is free.
    pub(crate) fn end(&mut self) -> Turn<S, P>
        requires { HasRunAll self.old }
        ensures turn { self.old ≡ Turning result Nothing [] }
        ensures free { self.new ≡ Free 0 }
    {
        self.stage = Stage::Free { place: 0 };
        match self.turn.take() {
            Some(turn) => turn,
            None => unreachable!(),
        }
    }
}

impl<S, P: Drop> KeptPhase<S, P> {
    /// The place of a worker that hunts.
    pub(crate) fn place(self) -> usize
        requires { IsTrue (is_free self) }
        ensures { Free result ≡ self }
    {
        let KeptPhase {
            stage,
            turn,
            hand: _,
            outs: _,
        } = self;
        match turn {
            Some(_turn) => unreachable!(),
            None => {}
        }
        match stage {
            Stage::Free { place } => place,
            Stage::Popped { mark: _ } => unreachable!(),
            Stage::Picked { mark: _, victim: _ } => unreachable!(),
            Stage::Landing { mark: _ } => unreachable!(),
            Stage::Pushing { core: _, mark: _ } => unreachable!(),
        }
    }
}
