//! The state of a colour.
ghost use Rattle.std.specs.Prelude.{◌≡◌, ◌≤◌, ◌++◌, ◌∷◌, [], IfSome, IsSome, None, Some, false, length};
ghost use Rattle.mely_actor.specs.declared.load.Load.TheVariants.{Message, Posts};
ghost use Rattle.mely_actor.specs.Loads.{ArePutsFit, FitsLoad, FitsMessage, FitsNothing, FitsPosts, Serves};
ghost use Rattle.mely_actor.specs.Running.{Keeps, Runs};

use crate::actor::{Actor, Place};
use crate::load::{Load, Plan, TURN};
use crate::sends::Sends;
use crate::waiting::{send_all, send_some};
use mely_event::{Colour, Event, Fits, Trail, TrailLog};
use mely_worker::Outs;
use std::alloc::Global;
use std::collections::VecDeque;
use std::marker::Model;
use std::snapshot::Snapshot;

/// The state of a colour: its trail, with the number of messages in it, what is still to be sent,
/// and the value that the author's fact is about. Where memory was wanted, or there were more
/// messages than can be counted, it has failed: from then on nothing is sent and nothing is known of
/// the value, and the run will not end with Ok.
#[derive(Drop)]
pub struct Kept<A: Actor> {
    log: TrailLog,
    plan: Snapshot<Plan<A, A::Message>>,
    count: usize,
    waiting: VecDeque<(Colour, A::Message)>,
    value: A::Value,
    failed: bool,
}

impl<A: Actor> Model for Kept<A> {
    ghost use Rattle.mely_actor.specs.KeptState.{KeptState};
    ghost use Rattle.mely_actor.specs.Running.{HasKept, MayWait};

    ghost Value = { KeptState A A.Message A.Value };

    ghost view = { λ kept. record {
      log = kept.log;
      plan = kept.plan.value;
      count = kept.count;
      waiting = kept.waiting.items;
      value = kept.value;
      failed = kept.failed;
    } };

    ghost invariant = { λ kept.
        (MayWait A.Actor kept.plan.value kept.failed kept.waiting.items)
        × (HasKept A.Actor kept.plan.value.actor kept.log.colour kept.count kept.failed
        kept.value) };
}

impl<A: Actor> Kept<A> {
    /// The state of a colour that has received nothing.
    pub(crate) fn new(
        alloc: Global,
        colour: Colour,
        plan: &Plan<A, A::Message>,
        value: A::Value,
    ) -> Kept<A>
        requires { A.kept plan.now.actor colour [] [] value }
        ensures { result ≡ record {
          log = record { colour = colour; events = [] };
          plan = plan.now;
          count = 0;
          waiting = [];
          value = value;
          failed = false;
        } }
    {
        Kept {
            log: TrailLog::new(colour),
            plan: Snapshot::of(plan),
            count: 0,
            waiting: VecDeque::new(alloc),
            value,
            failed: false,
        }
    }

    /// A message is received, and what it sends is registered.
    pub(crate) fn receive(
        &mut self,
        alloc: Global,
        actor: &A,
        event: Event,
        message: A::Message,
        outs: &mut Outs<Load<A::Message>>,
    )
        requires actor { self.old.plan.actor ≡ actor.now }
        requires serves { Serves (A.colours_of self.old.plan.actor) (A.rows_of self.old.plan.actor)
            A.event_of (A.sound self.old.plan.actor) self.old.plan.actor self.old.plan }
        requires fits { FitsMessage (A.colours_of self.old.plan.actor) A.event_of
            (A.sound self.old.plan.actor) self.old.log.colour event message }
        requires empty { outs.old ≡ [] }
        ensures log { self.new.log ≡ record self.old.log {
          events = self.old.log.events ++ event ∷ [];
        } }
        ensures plan { self.new.plan ≡ self.old.plan }
        ensures ran { Runs A.Actor self.old (Some (Message message)) self.new outs.new }
        ensures puts { ArePutsFit A.Actor self.old.plan.actor self.old.plan.posts.items outs.new }
        ensures few { length outs.new ≤ 2 }
    {
        let place = Place {
            colour: self.log.colour(),
            number: self.count,
        };
        self.log.push(event);
        // a colour fails where it receives more messages than can be counted
        self.count = self.count.saturating_add(1);
        if !self.failed && self.count < usize::MAX {
            let mut sends = Sends::new(alloc);
            if actor
                .on(place, &mut self.value, message, &mut sends)
                .is_ok()
                && send_all::<A>(&mut self.waiting, sends, place.colour, outs).is_ok()
            {
                return;
            }
        }
        self.failed = true;
    }

    /// What is posted is sent.
    pub(crate) fn post(
        &mut self,
        event: Event,
        posts: VecDeque<(Colour, A::Message)>,
        outs: &mut Outs<Load<A::Message>>,
    )
        requires serves { Serves (A.colours_of self.old.plan.actor) (A.rows_of self.old.plan.actor)
            A.event_of (A.sound self.old.plan.actor) self.old.plan.actor self.old.plan }
        requires fits { FitsPosts (A.colours_of self.old.plan.actor) self.old.plan.posts.items
            posts.items self.old.log.colour event }
        requires empty { outs.old ≡ [] }
        ensures log { self.new.log ≡ record self.old.log {
          events = self.old.log.events ++ event ∷ [];
        } }
        ensures plan { self.new.plan ≡ self.old.plan }
        ensures ran { Runs A.Actor self.old (Some (Posts posts)) self.new outs.new }
        ensures puts { ArePutsFit A.Actor self.old.plan.actor self.old.plan.posts.items outs.new }
        ensures few { length outs.new ≤ 2 }
    {
        let colour = self.log.colour();
        self.log.push(event);
        if !self.failed
            && send_all::<A>(&mut self.waiting, Sends::of(posts), colour, outs).is_ok()
        {
            return;
        }
        self.failed = true;
    }

    /// A turn sends of what waits. Where nothing does, it puts itself again.
    pub(crate) fn turn(&mut self, event: Event, outs: &mut Outs<Load<A::Message>>)
        requires serves { Serves (A.colours_of self.old.plan.actor) (A.rows_of self.old.plan.actor)
            A.event_of (A.sound self.old.plan.actor) self.old.plan.actor self.old.plan }
        requires fits { FitsNothing (A.colours_of self.old.plan.actor) self.old.log.colour event }
        requires empty { outs.old ≡ [] }
        ensures log { self.new.log ≡ record self.old.log {
          events = self.old.log.events ++ event ∷ [];
        } }
        ensures plan { self.new.plan ≡ self.old.plan }
        ensures ran { Runs A.Actor self.old None self.new outs.new }
        ensures puts { ArePutsFit A.Actor self.old.plan.actor self.old.plan.posts.items outs.new }
        ensures few { length outs.new ≤ 2 }
    {
        let colour = self.log.colour();
        self.log.push(event);
        if self.failed {
            return;
        }
        if self.waiting.is_empty() {
            outs.put(colour, TURN, None);
        } else {
            send_some::<A>(&mut self.waiting, false, colour, outs);
        }
    }

    /// Whether memory was wanted.
    pub(crate) fn has_failed(&self) -> bool
        ensures { result ≡ self.now.failed }
    {
        self.failed
    }

    /// The value, where no memory was wanted.
    pub(crate) fn into_value(self) -> Option<A::Value>
        ensures value { IfSome result (λ value. value ≡ self.value) }
        ensures well { IfSome result (λ value. self.failed ≡ false) }
        ensures keeps { IfSome result (Keeps A.Actor self.plan.actor self.log.colour) }
        ensures there { self.failed ≡ false → IsSome result }
    {
        let Kept {
            log: _,
            plan: _,
            count: _,
            waiting: _,
            value,
            failed,
        } = self;
        if failed { None } else { Some(value) }
    }
}

impl<A: Actor> Trail for Kept<A> {
    type Frame = Plan<A, A::Message>;

    ghost trail_of = { λ s. s.log.events };

    ghost colour_of = { λ s. s.log.colour };

    ghost frame_of = { λ s. s.plan };
}

impl<A: Actor> Fits<Load<A::Message>> for Kept<A> {
    ghost fits_under = { λ plan colour event load.
        FitsLoad (A.colours_of plan.actor) A.event_of (A.sound plan.actor) plan.posts.items colour
        event load };
}
