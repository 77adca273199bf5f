//! The app.
ghost use Rattle.std.specs.Prelude.{◌≡◌, ◌≤◌, ◌+◌, ◌++◌, ◌∷◌, [], length};
ghost use Rattle.std.specs.List.{AllByRecursion};
ghost use Rattle.mely_worker.specs.Access.{FitsIn};
ghost use Rattle.mely_order.specs.Stream.{HandlerServes};
ghost use Rattle.example_order.specs.Telling.{telling};

use crate::teller::Teller;
use mely_event::{Colour, Event};
use mely_worker::{App, Outs};

/// Tells the next number.
pub(crate) const TELL: u8 = 0;

/// Hears a number, which is the argument.
const HEAR: u8 = 1;

/// Colour 1 tells colour 0 the next number, as often as the argument says and once more. On any
/// other colour an event is only recorded.
#[derive(Drop)]
pub struct Telling;

impl App for Telling {
    type Load = ();

    type State = Teller;

    ghost colours_of = { λ app. 2 };

    ghost handlers_of = { λ app. 2 };

    ghost serves = { λ app frame. Unit {0} };

    ghost runs = { λ app before event load after puts.
        HandlerServes telling before.log.colour before (event, load) after puts };

    fn run(&self, state: &mut Teller, event: Event, _load: Option<()>, outs: &mut Outs<()>)
        requires empty { outs.old ≡ [] }
        ensures ran { HandlerServes telling state.old.log.colour state.old (event, _load) state.new
            outs.new }
        ensures colour { state.new.log.colour ≡ state.old.log.colour }
        ensures frame { Unit {0} }
        ensures trail { state.new.log.events ≡ state.old.log.events ++ event ∷ [] }
        ensures puts { AllByRecursion (FitsIn 2 2 (λ colour event load. Unit {0})) outs.new }
        ensures few { length outs.new ≤ 2 }
    {
        state.log.push(event);
        if event.handler == TELL && state.log.colour().0 == 1 && state.value < u16::MAX {
            state.value += 1;
            let hear = Event {
                handler: HEAR,
                arg: state.value,
            };
            outs.put(Colour(0), hear, None);
            if event.arg > 0 {
                let tell = Event {
                    handler: TELL,
                    arg: event.arg - 1,
                };
                outs.put(Colour(1), tell, None);
            }
        }
    }
}
