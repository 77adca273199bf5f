//! A run of actors.
ghost use Rattle.std.specs.Prelude.{◌≡◌, ◌<◌, ◌≤◌, [], ℕ, IfErr, IfOk, IsTrue, Some, false, length, map, slice_get, vec_capacity};
ghost use Rattle.std.specs.List.{AllByRecursion};
ghost use Rattle.mely_event.specs.HandlerTable.{rows_of};
ghost use Rattle.mely_history.specs.Setup.{colours_of, handlers_of, is_listed};
ghost use Rattle.mely_actor.specs.Received.{AreBegun, AreKept, AreLeft, AreMade, AreReached, AreTaken, AreValues};
ghost use Rattle.mely_actor.specs.Sending.{MaySend};

use crate::acting::Acting;
use crate::actor::{Actor, Begins};
use crate::kept::Kept;
use crate::load::{FIRST, Load, Plan};
use mely_app::{RunError, run_states};
use mely_event::{Colour, Memory};
use mely_history::{History, Setup};
use std::alloc::Global;
use std::collections::VecDeque;
use std::sync::Wait;
use std::thread::Threads;

/// What a run of actors leaves that came to its end.
#[derive(Drop)]
pub struct Ended<V> {
    /// The value of each colour.
    pub values: Vec<V>,

    /// The history of each shard, whose entries can be read where the setup lists them; those of a
    /// colour stand in that of its number modulo the number of shards.
    pub histories: Vec<History>,
}

/// What is left of a run of actors for which there was no memory.
#[derive(Drop)]
pub struct Halted<V> {
    /// The value of each colour, but for those on which memory was wanted, which have none. There
    /// are none at all where memory was wanted to begin: what was given is dropped then.
    pub values: Vec<Option<V>>,
}

/// The values that the colours of these actors begin with, in ascending order, as [`run_actors`]
/// makes them.
///
/// # Errors
///
/// There was no memory.
pub fn begin_all<A: Begins>(
    alloc: Global,
    setup: &Setup,
    actor: &A,
) -> Result<Vec<A::Value>, Memory>
    requires { colours_of setup.now ≡ A.colours_of actor.now }
    ensures { IfOk result (λ values. AreBegun A.Actor actor.now (colours_of setup.now)
        values.items) }
{
    let mut values = Vec::new(alloc);
    'colours: for number in 0..setup.colours() {
        let colour = Colour(number as u16);
        values.push(actor.begin(alloc, colour)?)?;
    }
    Ok(values)
}

/// The states of all colours, with these values.
///
/// # Errors
///
/// There was no memory: the values are dropped.
fn make_states<A: Actor>(
    alloc: Global,
    plan: &Plan<A, A::Message>,
    values: Vec<A::Value>,
) -> Result<Vec<Kept<A>>, Memory>
    requires few { length values.items ≤ 65536 }
    requires begun { AreBegun A.Actor plan.now.actor (length values.items) values.items }
    ensures made { IfOk result (λ states. AreMade A.Actor plan.now (length values.items)
        states.items) }
    ensures values { IfOk result (λ states. map (λ state. state.value) states.items
        ≡ values.items) }
{
    let mut states = Vec::with_capacity(alloc, values.len())?;
    let mut number: u32 = 0;
    'values: for value in values {
        let colour = Colour(number as u16);
        states.push(Kept::new(alloc, colour, plan, value))?;
        number += 1;
    }
    Ok(states)
}

/// Whether none of the states has failed.
fn are_well<A: Actor>(states: &[Kept<A>]) -> bool
    ensures { IsTrue result → (number : ℕ) (state : _) → slice_get states.now number ≡ Some state
        → state.failed ≡ false }
{
    for state in states {
        if state.has_failed() {
            return false;
        }
    }
    true
}

/// Moves the values of states that haven't failed into a list that has room for them.
fn take_values<A: Actor + Drop>(mut values: Vec<A::Value>, states: Vec<Kept<A>>) -> Vec<A::Value>
    requires empty { values.items ≡ [] }
    requires room { length states.items ≤ vec_capacity values }
    requires well { (number : ℕ) (state : _) → slice_get states.items number ≡ Some state
        → state.failed ≡ false }
    ensures { AreValues states.items result.items }
{
    'states: for state in states {
        let Some(value) = state.into_value() else {
            unreachable!()
        };
        values.push_reserved(value);
    }
    values
}

/// Moves the values of states into a list that has room for them: there is none of a state that has
/// failed.
fn take_left<A: Actor + Drop>(
    mut values: Vec<Option<A::Value>>,
    states: Vec<Kept<A>>,
) -> Vec<Option<A::Value>>
    requires empty { values.items ≡ [] }
    requires room { length states.items ≤ vec_capacity values }
    ensures { AreTaken A.Actor states.items result.items }
{
    'states: for state in states {
        values.push_reserved(state.into_value());
    }
    values
}

/// Runs actors, a colour each, from the messages that are posted to begin with, with a thread for
/// each core, until nothing is left. It need not return: messages may send for ever.
///
/// Row 0 of the setup's table weighs the library's own events: one for each post, and one for each
/// message beyond two that another sends. The rows from 1 on are the author's.
///
/// # Errors
///
/// There was no memory, to begin, for an event or for a value on the way, or a colour was sent more
/// messages than can be counted, 2^64 - 2: what was done is dropped. [`run_values`] hands it back.
pub fn run_actors<R: Threads + Wait + Sync, A: Begins + Drop + Sync>(
    rt: &R,
    alloc: Global,
    setup: &Setup,
    actor: A,
    posts: Vec<(Colour, A::Message)>,
) -> Result<Ended<A::Value>, Memory>
where
    A::Value: Send,
    A::Message: Send,
    requires colours { colours_of setup.now ≡ A.colours_of actor }
    requires rows { A.rows_of actor ≤ length (rows_of (handlers_of setup.now)) }
    requires own { 0 < A.rows_of actor }
    requires posts { AllByRecursion (MaySend (A.colours_of actor) (A.rows_of actor)
        A.event_of (A.sound actor)) posts.items }
    ensures kept { IfOk result (λ ended. AreKept A.Actor actor setup.now posts.items
        (map (λ history. history.items) ended.histories.items) ended.values.items) }
    ensures listed { IfOk result (λ ended. AllByRecursion (λ history. history.listed
        ≡ is_listed setup.now) ended.histories.items) }
{
    let values = begin_all(alloc, setup, &actor)?;
    match run_values(rt, alloc, setup, actor, values, posts) {
        Ok(ended) => Ok(ended),
        Err(_) => Err(Memory),
    }
}

/// Runs actors as [`run_actors`] does, on values that the caller has made: so a run may begin with
/// what another one left, or with what was kept elsewhere.
///
/// # Errors
///
/// There was no memory, to begin, for an event or for a value on the way, or a colour was sent more
/// messages than can be counted: see [`Halted`], which hands back the values that there are. Each
/// is what the messages that its colour received made of the one that was given, and that one
/// itself where it received none. What was sent and not received is dropped.
pub fn run_values<R: Threads + Wait + Sync, A: Actor + Drop + Sync>(
    rt: &R,
    alloc: Global,
    setup: &Setup,
    actor: A,
    values: Vec<A::Value>,
    posts: Vec<(Colour, A::Message)>,
) -> Result<Ended<A::Value>, Halted<A::Value>>
where
    A::Value: Send,
    A::Message: Send,
    requires colours { colours_of setup.now ≡ A.colours_of actor }
    requires rows { A.rows_of actor ≤ length (rows_of (handlers_of setup.now)) }
    requires own { 0 < A.rows_of actor }
    requires begun { AreBegun A.Actor actor (A.colours_of actor) values.items }
    requires posts { AllByRecursion (MaySend (A.colours_of actor) (A.rows_of actor) A.event_of
        (A.sound actor)) posts.items }
    ensures kept { IfOk result (λ ended. AreKept A.Actor actor setup.now posts.items
        (map (λ history. history.items) ended.histories.items) ended.values.items) }
    ensures listed { IfOk result (λ ended. AllByRecursion (λ history. history.listed
        ≡ is_listed setup.now) ended.histories.items) }
    ensures left { IfErr result (λ halted. AreLeft A.Actor actor (A.colours_of actor)
        halted.values.items) }
    ensures reached { IfErr result (λ halted. AreReached A.Actor actor values.items
        halted.values.items) }
{
    let none = Halted {
        values: Vec::new(alloc),
    };
    let many = values.len();
    // room for what is handed out, whether it comes to its end or not
    let Ok(room) = Vec::with_capacity(alloc, many) else {
        return Err(none);
    };
    let Ok(left) = Vec::with_capacity(alloc, many) else {
        return Err(none);
    };
    let plan = Plan { actor, posts };
    let Ok(states) = make_states(alloc, &plan, values) else {
        return Err(none);
    };
    let Plan { actor, posts } = plan;
    let load = Load::Posts(VecDeque::from(posts));
    let acting = Acting { alloc, actor };
    match run_states(
        rt,
        alloc,
        setup,
        states,
        &acting,
        Colour(0),
        FIRST,
        Some(load),
    ) {
        Ok(ended) => {
            let mely_app::Ended { states, histories } = ended;
            if !are_well(states.as_slice()) {
                return Err(Halted {
                    values: take_left(left, states),
                });
            }
            Ok(Ended {
                values: take_values(room, states),
                histories,
            })
        }
        Err(RunError::CutShort(unfinished)) => Err(Halted {
            values: take_left(left, unfinished.states),
        }),
        Err(RunError::NotStarted(_)) => Err(none),
    }
}
