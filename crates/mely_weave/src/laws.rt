//! The law over every list of posts and steps.
ghost use Rattle.std.specs.Prelude.{ℕ};
ghost use Rattle.mely_worker.specs.declared.made.Made.{Made};
ghost use Rattle.mely_weave.specs.StandsWell.{StandsWell, WasntRefused};
ghost use Rattle.mely_weave.specs.Weave.{WeaveState};
ghost use Rattle.mely_weave.specs.WeaveRun.{StepCall, WeaveRun, HistoriesGrow, NoneIsThere};

use mely_event::{Fits, Trail};
use mely_worker::App;

/// The law of this crate, for contracts alone: a weave that stands well stands well after every
/// list of posts and steps, by whatever cores in whatever order, refused or not. So each ready
/// colour has one mark and no other colour has any. No step of such a run drops a mark because
/// its colour was refused, and no chain refuses a mark. Each history is an earlier one, and
/// more. A call does nothing.
///
/// A step of the run is by the worker's rule on the weave's own parts, of which each keeps what
/// it keeps for itself: a shard its legal history with its queues and states, a chain its
/// stealing queue, the worker the conditions of its next step. Each call of a weave ensures that
/// it is such a call, or a list of them ([`Weave::post`](crate::Weave::post),
/// [`step`](crate::Weave::step), [`run`](crate::Weave::run), [`drain`](crate::Weave::drain)), so
/// the law speaks of all that a weave goes through.
pub fn no_run_loses_or_doubles_a_mark<S: Fits<P>, P, R: App<State = S, Load = P>>()
    ensures stands { (n : ℕ) (before after : WeaveState S P)
        → StandsWell S.Trail S.fits_under before
        → WeaveRun S.Trail S.fits_under R.App n before after
        → StandsWell S.Trail S.fits_under after }
    ensures accepted { (n : ℕ) (before between after : WeaveState S P)
        → StandsWell S.Trail S.fits_under before
        → WeaveRun S.Trail S.fits_under R.App n before between
        → (app : R) (core : ℕ) (step : Made)
        → StepCall S.Trail S.fits_under R.App app core step between after
        → WasntRefused step }
    ensures grow { (n : ℕ) (before after : WeaveState S P)
        → WeaveRun S.Trail S.fits_under R.App n before after
        → HistoriesGrow before after }
    ensures there { (n : ℕ) (before after : WeaveState S P) → StandsWell S.Trail S.fits_under before
        → WeaveRun S.Trail S.fits_under R.App n before after
        → NoneIsThere after }
{}
