//! A worker at rest.
ghost use Rattle.std.specs.Prelude.{◌≡◌, ◌≤◌, ◌*◌, length};

use crate::kept_phase::KeptPhase;
use crate::worker::Worker;
use crate::worker_fields::WorkerFields;
use mely_event::{Colour, Event};
use std::marker::Model;

/// A free worker at rest: a value that holds no turn and no mark, so it may be let go, and so it
/// may cross into a thread, where [`wake`](IdleWorker::wake) gives the worker back.
#[derive(Drop)]
pub struct IdleWorker<P> {
    pub(crate) fields: WorkerFields<P>,
    pub(crate) place: usize,
}

impl<P> Model for IdleWorker<P> {
    ghost use Rattle.mely_worker.specs.IdleWorker.{IdleWorkerState};

    ghost Value = { IdleWorkerState P };

    ghost use Rattle.mely_worker.specs.IdleInvariant.{rest_of, IsRestKept};

    ghost view = { rest_of };

    ghost invariant = { IsRestKept };
}

impl<P> IdleWorker<P> {
    ghost use Rattle.mely_worker.specs.IdleWorker.{resumed_worker};

    /// The worker that rested. It takes no memory.
    pub fn wake<S>(self) -> Worker<S, P>
        ensures { result ≡ resumed_worker self }
    {
        let IdleWorker { fields, place } = self;
        Worker {
            fields,
            phase: KeptPhase::free(place),
        }
    }
}

impl<P: Drop> IdleWorker<P> {
    /// The registrations that were refused for memory. It takes no memory.
    pub fn into_lost(self) -> Vec<(Colour, Event, Option<P>)>
        ensures value { result.items ≡ self.lost }
        ensures few { length self.lost ≤ 2 * self.batch }
    {
        let IdleWorker { fields, place: _ } = self;
        let WorkerFields {
            core: _,
            batch: _,
            halted: _,
            victims: _,
            lost,
        } = fields;
        lost
    }
}
