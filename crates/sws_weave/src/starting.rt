//! How a run on a weave starts: with the states of all colours, and the first event.
ghost use Rattle.std.specs.Prelude.{◌≡◌, IfOk, IfErr, List, Option};
ghost use Rattle.mely_run.specs.WholeRuns.{IsBegun};
ghost use Rattle.sws_weave.specs.Begins.{AreInitialFor};
ghost use Rattle.sws_handlers.specs.Initial.{AreInitialPlacesOver, first_poll, initial_load};
ghost use Rattle.sws_handlers.specs.Counting.{colours_over};
ghost use Rattle.sws_weave.specs.LogStream.{LogsInOrder};
ghost use Rattle.sws_weave.specs.Posted.{IsPosted};
ghost use Rattle.sws_weave.specs.RunFact.{RunFact};

use mely_event::{Colour, Fits, Trail};
use mely_history::Setup;
use mely_order::{a_post_keeps_a_stream_in_order, an_initial_stream_is_in_order};
use mely_tally::{a_post_brings_its_event, an_initial_weave_has_what_it_was_given};
use mely_weave::Weave;
use std::alloc::Global;
use sws_conn::Talk;
use sws_handlers::{Load, Place, WorldLoad, first_event};
use sws_link::{Link, World};

/// The weave of the initial states, with the first event posted: a poll of the world, which is told
/// whether links are to come. What stands of a run stands then, a whole run has begun, and no line
/// of the log is out of order.
///
/// # Errors
///
/// There was no memory: the world comes back.
pub fn start<W: World + Drop, T: Talk<W::Link> + Drop>(
    alloc: Global,
    setup: &Setup,
    states: Vec<Place<W, T>>,
    world: W,
    total: u16,
    log: bool,
) -> Result<Weave<Place<W, T>, Load<W, W::Link>>, W>
    requires { AreInitialFor W.World T.Talk setup.now world total log states.items }
    ensures stands { IfOk result (λ weave. RunFact W.World T.Talk world weave) }
    ensures ordered { IfOk result (λ weave. LogsInOrder T.Talk total log weave) }
    ensures begun { IfOk result (λ weave. IsBegun ⟦<Place<W, T> as Trail>⟧
        ⟦<Place<W, T> as Fits<Load<W, W::Link>>>⟧.fits_under setup.now states.items
        (record { 0 = 0 }) (first_poll total) (Some (Load.World (initial_load world))) weave) }
    ensures posted { IfOk result (λ weave. IsPosted ⟦<Place<W, T> as Trail>⟧
        ⟦<Place<W, T> as Fits<Load<W, W::Link>>>⟧.fits_under setup.now states.items
        (record { 0 = 0 }) (first_poll total) (Some (Load.World (initial_load world))) weave) }
    ensures of_setup { IfOk result (λ weave. weave.setup ≡ setup.now) }
    ensures of_hall { (hall : _)
        → AreInitialPlacesOver T.Talk world hall total (colours_over total log) states.items
        → IfOk result (λ weave. weave.given.hall ≡ hall) }
    ensures back { IfErr result (λ back. back ≡ world) }
{
    let Ok(mut weave) = Weave::new(alloc, setup, states) else {
        return Err(world);
    };
    weave.stands_well();
    an_initial_weave_has_what_it_was_given::<Place<W, T>, Load<W, W::Link>>();
    a_post_brings_its_event::<Place<W, T>, Load<W, W::Link>>();
    an_initial_stream_is_in_order::<Place<W, T>, Load<W, W::Link>>();
    a_post_keeps_a_stream_in_order::<Place<W, T>, Load<W, W::Link>>();
    let load = Load::World(WorldLoad {
        world,
        accepted: 0,
        failed: false,
    });
    match weave.post(Colour(0), first_event(total), Some(load)) {
        Ok(_answer) => Ok(weave),
        Err(refused) => {
            let _parts = weave.into_parts();
            match refused.load {
                Some(Load::World(held)) => Err(held.world),
                Some(Load::Link(_)) => unreachable!(),
                Some(Load::Line(_)) => unreachable!(),
                None => unreachable!(),
            }
        }
    }
}
