//! An app whose states are purses.
ghost use Rattle.std.specs.Prelude.{◌≡◌, ◌≤◌, ◌+◌, ◌++◌, ◌∷◌, ◌<◌, [], length, sum_by, unwrap_or};
ghost use Rattle.std.specs.List.{AllByRecursion};
ghost use Rattle.mely_worker.specs.Access.{FitsIn};
ghost use Rattle.mely_tally.specs.Tallies.{carried_by};

use mely_event::{Colour, Event, Logged, TrailLog};
use mely_worker::{App, Outs};
use std::mem;

/// A trail, and coins.
pub(super) type Purse = Logged<u64>;

/// A purse of a colour, on which nothing was run.
pub(super) fn purse_of(colour: u16, coins: u64) -> Purse
    ensures log { result.log ≡ record { colour = record { 0 = colour }; events = [] } }
    ensures coins { result.value ≡ coins }
{
    Logged {
        log: TrailLog::new(Colour(colour)),
        value: coins,
    }
}

/// One handler, whose event brings coins. Where its argument isn't 0, the purse keeps these and
/// what it had goes on to another colour, with an argument less. Else all stays in the purse,
/// unless it would be too much for one: then the event goes round again.
#[derive(Drop)]
pub(super) struct Paying {
    pub(super) colours: u16,
}

impl App for Paying {
    type Load = u64;

    type State = Purse;

    ghost colours_of = { λ app. app.colours };

    ghost handlers_of = { λ app. 1 };

    ghost serves = { λ app frame. 0 < app.colours };

    ghost runs = { λ app before event load after puts. after.value + sum_by (λ way.
        unwrap_or way.1 0) (carried_by puts) ≡ before.value + unwrap_or load 0 };

    fn run(&self, state: &mut Purse, event: Event, load: Option<u64>, outs: &mut Outs<u64>)
        requires serves { 0 < self.now.colours }
        requires empty { outs.old ≡ [] }
        ensures ran { state.new.value + sum_by (λ way. unwrap_or way.1 0) (carried_by outs.new)
            ≡ state.old.value + unwrap_or load 0 }
        ensures colour { state.new.log.colour ≡ state.old.log.colour }
        ensures frame { Unit {0} }
        ensures trail { state.new.log.events ≡ state.old.log.events ++ event ∷ [] }
        ensures puts { AllByRecursion
            (FitsIn self.now.colours 1 (λ colour event load. Unit {0})) outs.new }
        ensures few { length outs.new ≤ 2 }
    {
        state.log.push(event);
        let brought = load.unwrap_or(0);
        if event.arg > 0 {
            let had = mem::replace(&mut state.value, brought);
            let next = Event {
                handler: 0,
                arg: event.arg - 1,
            };
            outs.put(Colour(next.arg % self.colours), next, Some(had));
        } else if let Some(sum) = state.value.checked_add(brought) {
            state.value = sum;
        } else {
            let again = Event { handler: 0, arg: 0 };
            outs.put(Colour(0), again, Some(brought));
        }
    }
}
