//! A function mapped over items by actors.
ghost use Rattle.std.specs.Prelude.{◌≡◌, ◌≢◌, ◌<◌, ◌≤◌, ◌+◌, ◌++◌, ◌∷◌, [], IfOk, List, None, OnOk, Some, length, map, slice_get};
ghost use Rattle.std.specs.List.{AllByRecursion};
ghost use Rattle.mely_actor.specs.Sending.{MaySend};
ghost use Rattle.example_map.specs.Mapped.{IsDone, numbered, one_event};

use crate::task::Task;
use mely_actor::{Actor, Begins, Ended, Place, Sends, run_actors};
use mely_event::{Colour, Event, Handlers, Memory};
use mely_history::{Setup, Shape};
use std::alloc::Global;
use std::snapshot::Snapshot;
use std::sync::Wait;
use std::thread::Threads;

/// A colour for each item, which is sent the item and keeps what the task gives for it.
#[derive(Drop)]
pub struct Mapping<T: Task> {
    task: T,
    items: Snapshot<Vec<T::Item>>,
}

impl<T: Task> Actor for Mapping<T> {
    type Value = Option<T::Out>;

    type Message = T::Item;

    ghost colours_of = { λ actor. length actor.items.value.items };

    ghost rows_of = { λ actor. 2 };

    ghost event_of = { λ item. one_event };

    ghost sound = { λ actor colour item. slice_get actor.items.value.items colour.0 ≡ Some item };

    ghost kept = { λ actor colour received sent value. IsDone T.of received sent value };

    fn event(_message: &T::Item) -> Event {
        Event { handler: 1, arg: 0 }
    }

    fn on(
        &self,
        _place: Place,
        value: &mut Option<T::Out>,
        message: T::Item,
        _sends: &mut Sends<T::Item>,
    ) -> Result<(), Memory> {
        *value = Some(self.task.run(message));
        Ok(())
    }
}

impl<T: Task> Begins for Mapping<T> {
    fn begin(&self, _alloc: Global, _colour: Colour) -> Result<Option<T::Out>, Memory> {
        Ok(None)
    }
}

/// A message for each colour, in order: the items.
///
/// # Errors
///
/// There was no memory.
fn post_each<M: Drop>(alloc: Global, items: Vec<M>) -> Result<Vec<(Colour, M)>, Memory>
    requires { length items.items < 65536 }
    ensures { IfOk result (λ posts. posts.items ≡ numbered 0 items.items) }
{
    let mut posts = Vec::new(alloc);
    let mut number = 0u16;
    'items: for item in items {
        posts.push((Colour(number), item))?;
        number = number.saturating_add(1);
    }
    Ok(posts)
}

/// What each colour has, where each has something.
///
/// # Errors
///
/// There was no memory.
fn take_each<U: Drop>(alloc: Global, values: Vec<Option<U>>) -> Result<Vec<U>, Memory>
    requires { (i : _) (value : _) → slice_get values.items i ≡ Some value → value ≢ None }
    ensures { IfOk result (λ outs. map (λ out. Some out) outs.items ≡ values.items) }
{
    let mut outs = Vec::new(alloc);
    'values: for value in values {
        let Some(out) = value else { unreachable!() };
        outs.push(out)?;
    }
    Ok(outs)
}

/// What the task gives for each item, in the order of the items, computed on four workers.
///
/// # Errors
///
/// There was no memory.
pub fn par_map<R: Threads + Wait + Sync, T: Task + Drop + Sync>(
    rt: &R,
    alloc: Global,
    task: T,
    items: Vec<T::Item>,
) -> Result<Vec<T::Out>, Memory>
where
    T::Item: Send,
    T::Out: Send,
    requires some { 0 < length items.items }
    requires few { length items.items < 65536 }
    ensures { IfOk result (λ outs. outs.items ≡ map T.of items.items) }
{
    let shape = Shape {
        cores: 4,
        shards: 4,
        batch: 10,
        steal_cost: 20,
        group: 2,
    };
    let Ok(handlers) = Handlers::new(&[(10, 1), (100, 1)]) else {
        unreachable!()
    };
    let Ok(setup) = Setup::new(&shape, items.len() as u32, handlers, 0) else {
        unreachable!()
    };
    let actor = Mapping {
        task,
        items: Snapshot::of(&items),
    };
    let posts = post_each(alloc, items)?;
    let ended = run_actors(rt, alloc, &setup, actor, posts)?;
    take_each(alloc, ended.values)
}
