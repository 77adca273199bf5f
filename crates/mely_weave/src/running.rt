//! Steps that a schedule names.
ghost use Rattle.std.specs.Prelude.{◌≡◌, ◌<◌, ◌^◌, ℕ, All, sum_by, replicate};
ghost use Rattle.mely_history.specs.Setup.{shape_of};
ghost use Rattle.mely_worker.specs.Conditions.{AppServes};
ghost use Rattle.mely_weave.specs.StandsWell.{StandsWell};
ghost use Rattle.mely_weave.specs.Runs.{KeepsSetup, RunsTo};
ghost use Rattle.mely_history.specs.Schedules.{spelled_out};
ghost use Rattle.mely_weave.specs.WeaveRun.{IsRun};

use crate::weave::Weave;
use mely_event::{Fits, Trail};
use mely_worker::{App, Made};

/// How a run of named steps went.
#[derive(Clone, Copy, Debug, PartialEq, Eq)]
pub enum Went {
    /// All of them were made.
    All,

    /// The last of so many steps met want of memory, and the others weren't made.
    Memory { steps: u64 },
}

impl<S: Fits<P> + Drop, P: Drop> Weave<S, P> {
    /// Makes the steps that a schedule names, in order: of each core so many. It stops at once
    /// where a step meets want of memory.
    pub fn run<R: App<State = S, Load = P>>(&mut self, schedule: &[(u16, u32)], app: &R) -> Went
        requires cores { All (λ part. part.0 < (shape_of self.old.setup).cores) schedule.now }
        requires count { sum_by (λ part. part.1) schedule.now < 2 ^ 64 }
        requires served { AppServes R.App self.old.setup (S.frame_of self.old.given) app.now }
        ensures runs { RunsTo S.Trail S.fits_under R.App app.now self.old
            (spelled_out schedule.now) result self.new }
        ensures calls { IsRun S.Trail S.fits_under R.App self.old self.new }
        ensures same { KeepsSetup self.old self.new }
        ensures stands { StandsWell S.Trail S.fits_under self.new }
    {
        // Where a field is read, contracts know that the weave stands well before the first step.
        let _shared = &self.shared;
        let mut made = 0u64;
        for (core, count) in schedule {
            match self.repeat(*core, *count, app) {
                Went::All => made += u64::from(*count),
                Went::Memory { steps } => {
                    return Went::Memory {
                        steps: made + steps,
                    };
                }
            }
        }
        Went::All
    }

    /// Makes so many steps of one core, or fewer where one meets want of memory.
    fn repeat<R: App<State = S, Load = P>>(&mut self, core: u16, count: u32, app: &R) -> Went
        requires core { core < (shape_of self.old.setup).cores }
        requires served { AppServes R.App self.old.setup (S.frame_of self.old.given) app.now }
        ensures runs { RunsTo S.Trail S.fits_under R.App app.now self.old
            (replicate count core) result self.new }
        ensures stands { StandsWell S.Trail S.fits_under self.new }
    {
        let _shared = &self.shared;
        for number in 0..count {
            if let Made::Memory = self.step(core, app) {
                return Went::Memory {
                    steps: u64::from(number) + 1,
                };
            }
        }
        Went::All
    }
}
