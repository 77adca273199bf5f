//! Rounds until nothing is left.
ghost use Rattle.std.specs.Prelude.{◌≡◌, ◌<◌, ◌↔◌, ℕ, IsTrue, MatchBool};
ghost use Rattle.mely_history.specs.Setup.{shape_of};
ghost use Rattle.mely_worker.specs.Conditions.{AppServes};
ghost use Rattle.mely_weave.specs.Runs.{KeepsSetup};
ghost use Rattle.mely_weave.specs.StandsWell.{StandsWell};
ghost use Rattle.mely_weave.specs.WeaveRun.{IsRun};
ghost use Rattle.mely_weave.specs.Drains.{Drains, MakesRound, DrivesTo, AreDriven, IsQuiet, SomeHalted, NoneHalted, AllFree, AllEmpty};

use crate::weave::Weave;
use mely_event::{Fits, Trail};
use mely_worker::App;
use std::sync::Wait;

/// How a drain ended.
#[derive(Clone, Copy, Debug, PartialEq, Eq)]
pub enum Drained {
    /// Every worker is free and every chain is empty: all that was registered was run.
    Empty,

    /// A worker met want of memory. Every worker is free.
    Memory,
}

impl<S: Fits<P> + Drop, P: Drop> Weave<S, P> {
    /// Makes rounds of one step a core, in ascending order, until before a round nothing is
    /// left: every worker is free and every chain is empty. Where before a round a worker is
    /// halted, it drives every worker until that is free, and ends. It need not return: an
    /// app may register for ever.
    pub fn drain<W: Wait, R: App<State = S, Load = P>>(&mut self, rt: &W, app: &R) -> Drained
        requires served { AppServes R.App self.old.setup (S.frame_of self.old.given) app.now }
        ensures drains { Drains S.Trail S.fits_under R.App app.now self.old result self.new }
        ensures calls { IsRun S.Trail S.fits_under R.App self.old self.new }
        ensures free { AllFree self.new }
        ensures same { KeepsSetup self.old self.new }
        ensures stands { StandsWell S.Trail S.fits_under self.new }
    {
        // Where a field is read, contracts know that the weave stands well before the first step.
        let _shared = &self.shared;
        for _ in rt.forever() {
            if self.is_any_halted() {
                self.drive_all(rt, app);
                return Drained::Memory;
            }
            if self.is_quiet() {
                return Drained::Empty;
            }
            self.make_round(app);
        }
        unreachable!()
    }

    /// Makes one step of each core, in ascending order.
    fn make_round<R: App<State = S, Load = P>>(&mut self, app: &R)
        requires served { AppServes R.App self.old.setup (S.frame_of self.old.given) app.now }
        ensures round { MakesRound S.Trail S.fits_under R.App app.now
            (shape_of self.old.setup).cores self.old self.new }
        ensures stands { StandsWell S.Trail S.fits_under self.new }
    {
        for core in 0..self.shared.setup.cores() {
            self.step(core, app);
        }
    }

    /// Drives every worker, in ascending order, until it is free.
    fn drive_all<W: Wait, R: App<State = S, Load = P>>(&mut self, rt: &W, app: &R)
        requires served { AppServes R.App self.old.setup (S.frame_of self.old.given) app.now }
        ensures driven { AreDriven S.Trail S.fits_under R.App app.now
            (shape_of self.old.setup).cores self.old self.new }
        ensures stands { StandsWell S.Trail S.fits_under self.new }
    {
        for core in 0..self.shared.setup.cores() {
            self.drive(rt, core, app);
        }
    }

    /// Makes steps of a core until its worker is free.
    fn drive<W: Wait, R: App<State = S, Load = P>>(&mut self, rt: &W, core: u16, app: &R)
        requires core { core < (shape_of self.old.setup).cores }
        requires served { AppServes R.App self.old.setup (S.frame_of self.old.given) app.now }
        ensures driven { DrivesTo S.Trail S.fits_under R.App app.now core self.old self.new }
        ensures stands { StandsWell S.Trail S.fits_under self.new }
    {
        let _shared = &self.shared;
        for _ in rt.forever() {
            if self.workers[core as usize].is_free() {
                return;
            }
            self.step(core, app);
        }
        unreachable!()
    }

    /// Whether a worker met want of memory.
    fn is_any_halted(&self) -> bool
        ensures { MatchBool result (SomeHalted self.now) (NoneHalted self.now) }
    {
        for worker in &self.workers {
            if worker.is_halted() {
                return true;
            }
        }
        false
    }

    /// Whether every worker is free.
    fn are_all_free(&self) -> bool
        ensures { IsTrue result ↔ AllFree self.now }
    {
        for worker in &self.workers {
            if !worker.is_free() {
                return false;
            }
        }
        true
    }

    /// Whether every chain is empty.
    fn are_all_empty(&self) -> bool
        ensures { IsTrue result ↔ AllEmpty self.now }
    {
        for chain in &self.shared.chains {
            if !chain.is_empty() {
                return false;
            }
        }
        true
    }

    /// Whether every worker is free and every chain is empty.
    fn is_quiet(&self) -> bool
        ensures { IsTrue result ↔ IsQuiet self.now }
    {
        self.are_all_free() && self.are_all_empty()
    }
}
