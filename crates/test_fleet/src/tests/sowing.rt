//! A state that lists what was run on it, and an app over it.
ghost use Rattle.std.specs.Prelude.{◌≡◌, ◌≤◌, ◌++◌, ◌∷◌, [], IfOk, length};
ghost use Rattle.std.specs.List.{AllByRecursion};
ghost use Rattle.mely_weave.specs.Making.{AreInitialBelow};
ghost use Rattle.mely_worker.specs.Access.{FitsIn};

use mely_event::{Colour, Event, Fits, Memory, Trail, TrailLog};
use mely_worker::{App, Outs};
use std::alloc::Global;

/// How many events a state has room to list.
const LISTED: usize = 64;

/// A state that lists the events that were run on it, for the tests to read.
#[derive(Drop)]
pub(super) struct Sown {
    pub(super) log: TrailLog,
    pub(super) ran: Vec<Event>,
}

impl Trail for Sown {
    type Frame = ();

    ghost trail_of = { λ s. s.log.events };

    ghost colour_of = { λ s. s.log.colour };

    ghost frame_of = { λ s. tt };
}

/// Every event fits, with a load or without.
impl Fits<u8> for Sown {
    ghost fits_under = { λ frame colour event load. Unit {0} };
}

/// A state for each of two colours.
pub(super) fn sown_states(alloc: Global) -> Result<Vec<Sown>, Memory>
    ensures { IfOk result (λ states.
        AreInitialBelow (λ state. state.log.colour) (λ state. state.log.events) 2 states.items) }
{
    let mut states = Vec::new(alloc);
    'colours: for colour in 0..2u16 {
        let ran = Vec::with_capacity(alloc, LISTED)?;
        states.push(Sown {
            log: TrailLog::new(Colour(colour)),
            ran,
        })?;
    }
    Ok(states)
}

/// One handler. An event whose argument is not 0 puts one of argument 0 on colour 1, and one on
/// colour 0 whose argument is less by one; both carry its load.
#[derive(Drop)]
pub(super) struct Sowing;

impl App for Sowing {
    type Load = u8;

    type State = Sown;

    ghost colours_of = { λ app. 2 };

    ghost handlers_of = { λ app. 1 };

    ghost serves = { λ app frame. Unit {0} };

    ghost runs = { λ app before event load after puts. Unit {0} };

    fn run(&self, state: &mut Sown, event: Event, load: Option<u8>, outs: &mut Outs<u8>)
        requires empty { outs.old ≡ [] }
        ensures ran { Unit {0} }
        ensures colour { state.new.log.colour ≡ state.old.log.colour }
        ensures frame { Unit {0} }
        ensures trail { state.new.log.events ≡ state.old.log.events ++ event ∷ [] }
        ensures puts { AllByRecursion (FitsIn 2 1 (λ colour event load. Unit {0})) outs.new }
        ensures few { length outs.new ≤ 2 }
    {
        // There is room: a run of these tests has fewer events on a colour.
        let _ = state.ran.push(event);
        state.log.push(event);
        if event.arg > 0 {
            let left = Event {
                handler: 0,
                arg: event.arg - 1,
            };
            outs.put(Colour(1), Event { handler: 0, arg: 0 }, load);
            outs.put(Colour(0), left, load);
        }
    }
}
