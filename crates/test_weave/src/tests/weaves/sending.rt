//! An app whose states list what was run.
ghost use Rattle.std.specs.Prelude.{◌≡◌, ◌≤◌, ◌++◌, ◌∷◌, [], length};
ghost use Rattle.std.specs.List.{AllByRecursion};
ghost use Rattle.mely_worker.specs.Access.{FitsIn};

use mely_event::{Colour, Event, Logged, TrailLog};
use mely_worker::{App, Outs};
use std::alloc::Global;

/// A trail, and the events that were run on it as a list that can be read.
pub(crate) type Listing = Logged<Vec<Event>>;

/// A state of a colour, on which nothing was run.
pub(super) fn listing_of(alloc: Global, colour: u16) -> Listing
    ensures { result.log ≡ record { colour = record { 0 = colour }; events = [] } }
{
    Logged {
        log: TrailLog::new(Colour(colour)),
        value: Vec::new(alloc),
    }
}

/// Handler 0 registers nothing. Handler 1 registers handler 0 on the colour of its argument.
#[derive(Drop)]
pub(crate) struct Sending;

impl App for Sending {
    type Load = u8;

    type State = Listing;

    ghost colours_of = { λ app. 2 };

    ghost handlers_of = { λ app. 2 };

    ghost serves = { λ app frame. Unit {0} };

    ghost runs = { λ app before event load after puts. Unit {0} };

    fn run(&self, state: &mut Listing, event: Event, load: Option<u8>, outs: &mut Outs<u8>)
        requires empty { outs.old ≡ [] }
        ensures ran { Unit {0} }
        ensures colour { state.new.log.colour ≡ state.old.log.colour }
        ensures frame { Unit {0} }
        ensures trail { state.new.log.events ≡ state.old.log.events ++ event ∷ [] }
        ensures puts { AllByRecursion (FitsIn 2 2 (λ colour event load. Unit {0})) outs.new }
        ensures few { length outs.new ≤ 2 }
    {
        state.log.push(event);
        // A test finds a list that is too short where there was no memory for an event.
        let _listed = state.value.push(event);
        if event.handler == 1 && event.arg < 2 {
            outs.put(Colour(event.arg), Event { handler: 0, arg: 0 }, load);
        }
    }
}
