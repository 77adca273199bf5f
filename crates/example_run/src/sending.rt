//! The app, and what tells it.
ghost use Rattle.std.specs.Prelude.{◌≡◌, ◌≤◌, ◌++◌, ◌∷◌, [], false, length};
ghost use Rattle.std.specs.List.{AllByRecursion};
ghost use Rattle.mely_worker.specs.Access.{FitsIn};
ghost use Rattle.mely_run.specs.Corresponds.{without_loads};
ghost use Rattle.example_run.specs.Sending.{registrations_of, sends};

use mely_event::{Colour, Event, TrailLog};
use mely_run::Told;
use mely_worker::{App, Outs};

/// Handler 0 registers nothing. Handler 1 registers handler 0 on the colour of its argument.
#[derive(Drop)]
pub struct Sending;

impl App for Sending {
    type Load = u8;

    type State = TrailLog;

    ghost colours_of = { λ app. 2 };

    ghost handlers_of = { λ app. 2 };

    ghost serves = { λ app frame. Unit {0} };

    ghost runs = { λ app before event load after puts. without_loads puts
        ≡ registrations_of event };

    fn run(&self, state: &mut TrailLog, event: Event, load: Option<u8>, outs: &mut Outs<u8>)
        requires empty { outs.old ≡ [] }
        ensures ran { without_loads outs.new ≡ registrations_of event }
        ensures colour { state.new.colour ≡ state.old.colour }
        ensures frame { Unit {0} }
        ensures trail { state.new.events ≡ state.old.events ++ event ∷ [] }
        ensures puts { AllByRecursion (FitsIn 2 2 (λ colour event load. Unit {0})) outs.new }
        ensures few { length outs.new ≤ 2 }
    {
        state.push(event);
        if event.handler == 1 && event.arg < 2 {
            outs.put(Colour(event.arg), Event { handler: 0, arg: 0 }, load);
        }
    }
}

/// The app keeps nothing, so nothing has to agree: that a handler registers what the
/// function says is its contract.
impl Told for Sending {
    type Is = ();

    ghost acts = { λ app. sends };

    ghost agrees = { λ app x pieces. Unit {0} };

    ghost spoilt = { λ app state. false };

    ghost is_told = { λ app frame. record {
      moved = λ x some others same agrees. tt;
      runs = λ x c event load state after puts rest colour of_frame fit agrees ran fine. (ran, tt);
      spoilt_after = λ state after event load puts ran is. is;
    } };
}
