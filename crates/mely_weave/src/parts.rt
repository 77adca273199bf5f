//! What a weave is taken apart into.
ghost use Rattle.std.specs.Prelude.{◌≡◌, ◌≤◌, ◌<◌, ◌+◌, ◌*◌, ◌++◌, ℕ, IsTrue, List, Some, [], length, map, flat_map, slice_get, vec_len, vec_capacity};
ghost use Rattle.mely_weave.specs.Dealing.{AreDealt, AtEach};
ghost use Rattle.mely_weave.specs.Spreading.{AreFull, IsAtRest};
ghost use Rattle.mely_worker.specs.Phase.{is_free};
ghost use Rattle.mely_history.specs.Setup.{is_listed};
ghost use Rattle.std.specs.List.{AllByRecursion};

use crate::room::WeaveRoom;
use crate::side::Shared;
use crate::weave::Weave;
use mely_event::{Colour, Event, Fits, Trail};
use mely_history::History;
use mely_shard::Shard;
use mely_worker::Worker;

/// What a weave is taken apart into.
#[derive(Drop)]
pub struct WeaveParts<S, P> {
    /// The history of each shard, whose entries can be read where the setup lists them.
    pub histories: Vec<History>,

    /// The state of each colour.
    pub states: Vec<S>,

    /// The events that wait of each colour, with their loads.
    pub queued: Vec<Vec<(Event, Option<P>)>>,

    /// The registrations that were refused for memory, by core.
    pub lost: Vec<(Colour, Event, Option<P>)>,
}

impl<S: Fits<P> + Drop, P: Drop> Weave<S, P> {
    ghost use Rattle.mely_history.specs.Setup.{is_listed};
    ghost use Rattle.mely_weave.specs.Lanes.{AreByColour};

    /// The histories by shard, the states and the queued events by colour, and by core the
    /// registrations that were refused for memory. Every worker is free, so every state is at
    /// home. It takes no memory.
    pub fn into_parts(self) -> WeaveParts<S, P>
        requires { AtEach (λ core w. IsTrue (is_free w.phase)) self.workers }
        ensures histories { map (λ history. history.items) result.histories.items
            ≡ map (λ has. has.history) self.shards }
        ensures listed { AllByRecursion (λ history. history.listed ≡ is_listed self.setup)
            result.histories.items }
        ensures states { AreByColour (λ lane. lane.state) self.setup self.shards
            (map (λ state. Some state) result.states.items) }
        ensures queued { AreByColour (λ lane. lane.events) self.setup self.shards
            (map (λ queue. queue.items) result.queued.items) }
        ensures lost { result.lost.items ≡ flat_map (λ w. w.lost) self.workers }
    {
        let Weave {
            shared,
            workers,
            room,
        } = self;
        let Shared {
            setup: _,
            given: _,
            shards,
            chains: _,
        } = shared;
        let WeaveRoom {
            setup,
            mut histories,
            mut states,
            mut queued,
            mut lost,
            mut states_by_shard,
            mut queued_by_shard,
        } = room;
        take_apart(
            shards,
            &mut histories,
            &mut states_by_shard,
            &mut queued_by_shard,
        );
        spread(setup.colours(), states_by_shard, &mut states);
        spread(setup.colours(), queued_by_shard, &mut queued);
        collect_lost(setup.batch(), workers, &mut lost);
        WeaveParts {
            histories,
            states,
            queued,
            lost,
        }
    }
}

impl<S: Fits<P> + Drop, P: Drop> WeaveRoom<S, P> {
    ghost use Rattle.mely_history.specs.Setup.{shape_of, colours_of};
    ghost use Rattle.mely_shard.specs.Shard.{IsInitialShard, givens};

    /// The states by colour, out of the shards of this setup in which nothing was registered, as
    /// [`ShardsRoom::fill`](crate::ShardsRoom::fill) makes them. It takes no memory.
    pub fn states_of(self, shards: Vec<Shard<S, P>>) -> Vec<S>
        requires count { length shards.items ≡ (shape_of self).shards }
        requires first { AtEach (λ shard has. IsInitialShard self shard (givens has) has)
            shards.items }
        requires full { AreFull givens (shape_of self).shards (colours_of self) shards.items }
        ensures many { length result.items ≡ colours_of self }
        ensures dealt { AreDealt givens (shape_of self).shards result.items shards.items }
    {
        let WeaveRoom {
            setup,
            mut histories,
            mut states,
            queued: _,
            lost: _,
            mut states_by_shard,
            mut queued_by_shard,
        } = self;
        take_apart(
            shards,
            &mut histories,
            &mut states_by_shard,
            &mut queued_by_shard,
        );
        spread(setup.colours(), states_by_shard, &mut states);
        states
    }
}

/// Takes the shards apart, of which no colour runs, into lists that have room for what they give.
fn take_apart<S: Fits<P> + Drop, P: Drop>(
    shards: Vec<Shard<S, P>>,
    histories: &mut Vec<History>,
    states: &mut Vec<Vec<S>>,
    queued: &mut Vec<Vec<Vec<(Event, Option<P>)>>>,
)
    requires at_rest { AtEach (λ number has. IsAtRest has) shards.items }
    requires no_histories { histories.old.items ≡ [] }
    requires no_states { states.old.items ≡ [] }
    requires none_queued { queued.old.items ≡ [] }
    requires room { (length shards.items ≤ vec_capacity histories.old)
        × (length shards.items ≤ vec_capacity states.old)
        × (length shards.items ≤ vec_capacity queued.old) }
    ensures histories { map (λ history. history.items) histories.new.items
        ≡ map (λ has. has.history) shards.items }
    ensures listed { map (λ history. history.listed) histories.new.items
        ≡ map (λ has. is_listed has.setup) shards.items }
    ensures states { map (λ pile. map (λ state. Some state) pile.items) states.new.items
        ≡ map (λ has. map (λ lane. lane.state) has.lanes) shards.items }
    ensures queued { map (λ pile. map (λ queue. queue.items) pile.items) queued.new.items
        ≡ map (λ has. map (λ lane. lane.events) has.lanes) shards.items }
{
    for shard in shards {
        let (history, homes, waiting) = shard.into_parts();
        histories.push_reserved(history);
        states.push_reserved(homes);
        queued.push_reserved(waiting);
    }
}

/// Moves what each shard gives into a list by colour, which has room for it: what is of colour `c`
/// lies at place `c / shards` of shard `c % shards`.
fn spread<T: Drop>(colours: u32, mut by_shard: Vec<Vec<T>>, by_colour: &mut Vec<T>)
    requires some { 0 < length by_shard.items }
    requires full { AreFull (λ pile. pile.items) (length by_shard.items) colours by_shard.items }
    requires empty { by_colour.old.items ≡ [] }
    requires room { colours ≤ vec_capacity by_colour.old }
    ensures many { length by_colour.new.items ≡ colours }
    ensures dealt { AreDealt (λ pile. pile.items) (length by_shard.items)
        by_colour.new.items by_shard.items }
{
    let shards = by_shard.len();
    let mut left = colours as usize;
    while left > 0 {
        left -= 1;
        let Some(last) = by_shard[left % shards].pop() else {
            unreachable!()
        };
        by_colour.push_reserved(last);
    }
    by_colour.reverse();
}

/// Moves what each worker lost into a list that has room for it, by core.
fn collect_lost<S, P: Drop>(
    batch: u16,
    mut workers: Vec<Worker<S, P>>,
    lost: &mut Vec<(Colour, Event, Option<P>)>,
)
    requires free { AtEach (λ core w. (IsTrue (is_free w.phase))
        × (w.batch ≡ batch)) workers.items }
    requires empty { lost.old.items ≡ [] }
    requires room { 2 * batch * length workers.items ≤ vec_capacity lost.old }
    ensures { lost.new.items ≡ flat_map (λ w. w.lost) workers.items }
{
    workers.reverse();
    while let Some(worker) = workers.pop() {
        move_all(worker.into_lost(), lost);
    }
    workers.destroy_empty();
}

/// Moves a list behind another one, which has room for it.
fn move_all<T: Drop>(from: Vec<T>, into: &mut Vec<T>)
    requires { vec_len into.old + length from.items ≤ vec_capacity into.old }
    ensures items { into.new.items ≡ into.old.items ++ from.items }
    ensures room { vec_capacity into.new ≡ vec_capacity into.old }
    ensures len { vec_len into.new ≡ vec_len into.old + length from.items }
{
    for item in from {
        into.push_reserved(item);
    }
}
