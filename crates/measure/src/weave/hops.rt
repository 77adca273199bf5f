//! An app that passes events on.
ghost use Rattle.std.specs.Prelude.{◌≡◌, ◌≤◌, ◌++◌, ◌∷◌, [], length};
ghost use Rattle.std.specs.List.{AllByRecursion};
ghost use Rattle.mely_worker.specs.Access.{FitsIn};

use example_counting::{Tally, pass_on};
use mely_event::Event;
use mely_worker::{App, Outs};

/// The handler of `Passing` without its count, which threads share and which would be a twentieth
/// of a step: here the steps tell what ran.
#[derive(Drop)]
pub struct Hops {
    pub colours: u16,
}

impl App for Hops {
    type Load = u8;

    type State = Tally;

    ghost colours_of = { λ app. app.colours };

    ghost handlers_of = { λ app. 1 };

    ghost serves = { λ app frame. Unit {0} };

    ghost runs = { λ app before event load after puts. Unit {0} };

    fn run(&self, state: &mut Tally, event: Event, _load: Option<u8>, outs: &mut Outs<u8>)
        requires empty { outs.old ≡ [] }
        ensures ran { Unit {0} }
        ensures colour { state.new.log.colour ≡ state.old.log.colour }
        ensures frame { Unit {0} }
        ensures trail { state.new.log.events ≡ state.old.log.events ++ event ∷ [] }
        ensures puts { AllByRecursion
            (FitsIn self.now.colours 1 (λ colour event load. Unit {0})) outs.new }
        ensures few { length outs.new ≤ 2 }
    {
        pass_on(state, event, self.colours, 0, outs);
    }
}
