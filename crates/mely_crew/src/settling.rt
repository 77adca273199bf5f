//! What a closed fleet has left, run by one thread.
ghost use Rattle.std.specs.Prelude.{◌<◌, ◌≤◌};
ghost use Rattle.mely_history.specs.Setup.{shape_of};
ghost use Rattle.mely_worker.specs.Conditions.{AppServes};
ghost use Rattle.mely_crew.specs.Settling.{MakesSome};

use mely_event::{Fits, Trail};
use mely_weave::Weave;
use mely_worker::{App, Made};
use std::sync::Wait;

/// What a core did among the others.
#[derive(Clone, Copy, Debug, PartialEq, Eq)]
enum Share {
    /// It ran a turn.
    Turn,

    /// It looked at one place, and found nothing.
    Nothing,

    /// Its worker is halted.
    Halted,
}

/// Lets the worker of a core look at one place for a mark, and run what it finds to the end of the
/// turn.
fn take_share<R: Wait, S: Fits<P> + Drop, P: Drop, A: App<State = S, Load = P>>(
    rt: &R,
    weave: &mut Weave<S, P>,
    core: u16,
    app: &A,
) -> Share
    requires core { core < (shape_of weave.old.setup).cores }
    requires served { AppServes A.App weave.old.setup (S.frame_of weave.old.given) app.now }
    ensures { MakesSome S.Trail S.fits_under A.App app.now weave.old weave.new }
{
    'steps: for _ in rt.forever() {
        match weave.step(core, app) {
            Made::Finished { colour: _, more: _ } => return Share::Turn,
            Made::NoneHere => return Share::Nothing,
            Made::NoneThere { victim: _ } => return Share::Nothing,
            Made::Memory => return Share::Halted,
            Made::Halted => return Share::Halted,
            _ => {}
        }
    }
    unreachable!()
}

/// Lets so many cores have their share, in ascending order: whether a worker is halted, or else one
/// ran a turn.
fn take_shares<R: Wait, S: Fits<P> + Drop, P: Drop, A: App<State = S, Load = P>>(
    rt: &R,
    weave: &mut Weave<S, P>,
    cores: u16,
    app: &A,
) -> Share
    requires cores { cores ≤ (shape_of weave.old.setup).cores }
    requires served { AppServes A.App weave.old.setup (S.frame_of weave.old.given) app.now }
    ensures { MakesSome S.Trail S.fits_under A.App app.now weave.old weave.new }
{
    let mut all = Share::Nothing;
    'cores: for core in 0..cores {
        match take_share(rt, weave, core, app) {
            Share::Turn => all = Share::Turn,
            Share::Nothing => {}
            Share::Halted => return Share::Halted,
        }
    }
    all
}

/// Lets the cores of a weave have their share, round by round, until nothing is left or a worker is
/// halted.
///
/// A mark that a worker takes up is run before another worker makes a step, so it isn't passed from
/// one to the next for ever, as it may be by workers in step; and each core has a turn in each
/// round, so whatever lies in its chain is run, however much the others have. Nothing is left where
/// no worker finds a mark in as many rounds as a worker has places to look at.
pub(crate) fn settle<R: Wait, S: Fits<P> + Drop, P: Drop, A: App<State = S, Load = P>>(
    rt: &R,
    weave: &mut Weave<S, P>,
    cores: u16,
    app: &A,
)
    requires cores { cores ≤ (shape_of weave.old.setup).cores }
    requires served { AppServes A.App weave.old.setup (S.frame_of weave.old.given) app.now }
    ensures { MakesSome S.Trail S.fits_under A.App app.now weave.old weave.new }
{
    let mut in_vain = 0u16;
    'rounds: for _ in rt.forever() {
        if in_vain == cores {
            return;
        }
        match take_shares(rt, weave, cores, app) {
            Share::Turn => in_vain = 0,
            Share::Nothing => in_vain = in_vain.saturating_add(1),
            Share::Halted => return,
        }
    }
    unreachable!()
}
