//! An app that passes events on.
ghost use Rattle.std.specs.Prelude.{◌≡◌, ◌≤◌, [], length};
ghost use Rattle.std.specs.List.{AllByRecursion};
ghost use Rattle.mely_worker.specs.Access.{FitsIn};
ghost use Rattle.example_counting.specs.Joining.{Joins};

use crate::tally::{Tally, draw};
use mely_event::{Colour, Event};
use mely_worker::{App, Outs};
use std::sync::atomic::{AtomicU64, Ordering};

/// One handler, which passes its event on until its argument has come down to 0: to a colour that
/// is drawn, or to its own.
#[derive(Drop)]
pub struct Passing {
    pub colours: u16,

    /// Whether an event stays on its colour, as those of one connection do.
    pub stays: bool,

    /// How many rounds a handler computes.
    pub rounds: u32,

    /// How many handlers ran.
    pub ran: AtomicU64,
}

impl App for Passing {
    type Load = u8;

    type State = Tally;

    ghost colours_of = { λ app. app.colours };

    ghost handlers_of = { λ app. 1 };

    ghost serves = { λ app frame. Unit {0} };

    ghost runs = { λ app before event load after puts. Unit {0} };

    fn run(&self, state: &mut Tally, event: Event, _load: Option<u8>, outs: &mut Outs<u8>)
        requires empty { outs.old ≡ [] }
        ensures ran { Unit {0} }
        ensures joins { Joins event state.old.log state.new.log }
        ensures frame { Unit {0} }
        ensures puts { AllByRecursion
            (FitsIn self.now.colours 1 (λ colour event load. Unit {0})) outs.new }
        ensures few { length outs.new ≤ 2 }
    {
        self.ran.fetch_add(1, Ordering::Relaxed);
        let drawn = draw(state, event, self.rounds);
        let to = if self.stays {
            state.log.colour().0
        } else {
            drawn
        };
        pass_to(to, event, self.colours, outs);
    }
}

/// Passes an event on to one of so many colours, which the state draws by so many rounds, until its
/// argument has come down to 0. It is counted nowhere.
pub fn pass_on(state: &mut Tally, event: Event, colours: u16, rounds: u32, outs: &mut Outs<u8>)
    requires empty { outs.old ≡ [] }
    ensures joins { Joins event state.old.log state.new.log }
    ensures puts { AllByRecursion (FitsIn colours 1 (λ colour event load. Unit {0})) outs.new }
    ensures few { length outs.new ≤ 2 }
{
    let drawn = draw(state, event, rounds);
    pass_to(drawn, event, colours, outs);
}

/// Passes an event on to the colour of this number, counted round where there are fewer, until its
/// argument has come down to 0.
fn pass_to(number: u16, event: Event, colours: u16, outs: &mut Outs<u8>)
    requires empty { outs.old ≡ [] }
    ensures puts { AllByRecursion (FitsIn colours 1 (λ colour event load. Unit {0})) outs.new }
    ensures few { length outs.new ≤ 1 }
{
    if event.arg > 0 && colours > 0 {
        let next = Event {
            handler: 0,
            arg: event.arg - 1,
        };
        outs.put(Colour(number % colours), next, None);
    }
}
