//! Actors as an app.
ghost use Rattle.std.specs.Prelude.{◌≡◌, ◌≤◌, ◌+◌, ◌++◌, ◌∷◌, [], length};
ghost use Rattle.std.specs.List.{AllByRecursion};
ghost use Rattle.mely_worker.specs.Access.{FitsIn};
ghost use Rattle.mely_actor.specs.Loads.{FitsLoad, Serves};
ghost use Rattle.mely_actor.specs.Running.{Runs};

use crate::actor::Actor;
use crate::kept::Kept;
use crate::load::Load;
use mely_event::{Event, Fits, Trail};
use mely_worker::{App, Outs};
use std::alloc::Global;

/// An app whose handlers are these actors. Handler 0 is the library's: it posts, and sends what
/// waits.
#[derive(Drop)]
pub(crate) struct Acting<A> {
    pub(crate) alloc: Global,
    pub(crate) actor: A,
}

impl<A: Actor + Drop> App for Acting<A> {
    type Load = Load<A::Message>;

    type State = Kept<A>;

    ghost colours_of = { λ app. A.colours_of app.actor };

    ghost handlers_of = { λ app. A.rows_of app.actor };

    ghost serves = { λ app plan. Serves (A.colours_of app.actor) (A.rows_of app.actor) A.event_of
        (A.sound app.actor) app.actor plan };

    ghost runs = { λ app before event load after puts. Runs A.Actor before load after puts };

    fn run(
        &self,
        state: &mut Kept<A>,
        event: Event,
        load: Option<Load<A::Message>>,
        outs: &mut Outs<Load<A::Message>>,
    )
        requires serves { Serves (A.colours_of self.now.actor) (A.rows_of self.now.actor)
            A.event_of (A.sound self.now.actor) self.now.actor state.old.plan }
        requires empty { outs.old ≡ [] }
        requires fits { FitsLoad (A.colours_of state.old.plan.actor) A.event_of
            (A.sound state.old.plan.actor) state.old.plan.posts.items state.old.log.colour event
            load }
        ensures ran { Runs A.Actor state.old load state.new outs.new }
        ensures colour { state.new.log.colour ≡ state.old.log.colour }
        ensures frame { state.new.plan ≡ state.old.plan }
        ensures trail { state.new.log.events ≡ state.old.log.events ++ event ∷ [] }
        ensures puts { AllByRecursion (FitsIn (A.colours_of self.now.actor)
            (A.rows_of self.now.actor) (FitsLoad (A.colours_of state.old.plan.actor) A.event_of
            (A.sound state.old.plan.actor) state.old.plan.posts.items)) outs.new }
        ensures few { length outs.new ≤ 2 }
    {
        match load {
            Some(Load::Message(message)) => {
                state.receive(self.alloc, &self.actor, event, message, outs);
            }
            Some(Load::Posts(posts)) => state.post(event, posts, outs),
            None => state.turn(event, outs),
        }
    }
}
