//! Room for the parts of a weave, made beforehand.
ghost use Rattle.std.specs.Prelude.{◌≡◌, ◌*◌, IfOk, [], vec_len, vec_capacity};

use mely_event::{Colour, Event, Memory};
use mely_history::{History, Setup};
use std::alloc::Global;
use std::marker::Model;

/// Room for all that a weave of a setup is taken apart into, made beforehand, so that gathering a
/// weave and taking it apart take no memory. Contracts see it as its setup.
#[derive(Drop)]
pub struct WeaveRoom<S, P> {
    pub(crate) setup: Setup,

    /// Empty lists with room: a history for each shard, a state and a queue for each colour, and
    /// the registrations that all workers may have lost.
    pub(crate) histories: Vec<History>,
    pub(crate) states: Vec<S>,
    pub(crate) queued: Vec<Vec<(Event, Option<P>)>>,
    pub(crate) lost: Vec<(Colour, Event, Option<P>)>,

    /// Empty lists with room for what each shard gives, until it stands by colour.
    pub(crate) states_by_shard: Vec<Vec<S>>,
    pub(crate) queued_by_shard: Vec<Vec<Vec<(Event, Option<P>)>>>,
}

impl<S, P> Model for WeaveRoom<S, P> {
    ghost use Rattle.mely_history.specs.declared.setup.Setup.{Setup};

    ghost Value = { Setup };

    ghost use Rattle.mely_weave.specs.Room.{HasRoom};

    ghost view = { λ r. r.setup };

    ghost invariant = { HasRoom };
}

impl<S: Drop, P: Drop> WeaveRoom<S, P> {
    /// Room for the parts of a weave of this setup.
    ///
    /// # Errors
    ///
    /// There was no memory.
    pub fn new(alloc: Global, setup: &Setup) -> Result<WeaveRoom<S, P>, Memory>
        ensures { IfOk result (λ room. room ≡ setup.now) }
    {
        let shards = setup.shards() as usize;
        let colours = setup.colours() as usize;
        let lost = 2 * setup.batch() as usize * setup.cores() as usize;
        Ok(WeaveRoom {
            setup: *setup,
            histories: Vec::with_capacity(alloc, shards)?,
            states: Vec::with_capacity(alloc, colours)?,
            queued: Vec::with_capacity(alloc, colours)?,
            lost: Vec::with_capacity(alloc, lost)?,
            states_by_shard: Vec::with_capacity(alloc, shards)?,
            queued_by_shard: Vec::with_capacity(alloc, shards)?,
        })
    }
}
