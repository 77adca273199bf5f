//! The clients and the buckets, as actors.
ghost use Rattle.std.specs.Prelude.{◌≡◌, ◌≤◌, ◌+◌, [], IfOk, length};
ghost use Rattle.std.specs.List.{AllByRecursion};
ghost use Rattle.mely_actor.specs.Sending.{MaySend};
ghost use Rattle.measure.specs.declared.kv.message.Message.TheVariants.{Next};
ghost use Rattle.measure.specs.declared.kv.asking.TheConstants.{BUCKETS, CLIENTS};
ghost use Rattle.measure.specs.Asks.{IsPlaced, as_events, asks_of, event_of};

use super::message::Message;
use mely_actor::{Actor, Begins, Place, Sends, run_actors};
use mely_event::{Colour, Event, Handlers, Memory};
use mely_history::{Setup, Shape};
use std::alloc::Global;
use std::collections::HashMap;
use std::sync::Wait;
use std::thread::Threads;

/// How many colours the keys are spread over; they are the first ones.
pub const BUCKETS: u16 = 64;

/// How many clients there are; their colours stand behind those.
pub const CLIENTS: u16 = 64;

/// What the command line asks for.
#[derive(Drop)]
pub struct Order {
    pub workers: u16,
    pub messages: u16,
    pub rounds: u32,
}

/// What a colour has.
#[derive(Drop)]
pub struct Slot {
    map: HashMap<u64, u64>,

    /// How many messages of clients it received.
    pub received: u64,

    /// How many of them found their key.
    pub found: u64,

    /// What was computed for them, summed up as far as 32 bits go round.
    pub sum: u32,
}

/// Clients that ask, and buckets that compute so many rounds for a message.
#[derive(Drop)]
pub struct Asking {
    rounds: u32,
}

impl Actor for Asking {
    type Value = Slot;

    type Message = Message;

    ghost colours_of = { λ asking. BUCKETS + CLIENTS };

    ghost rows_of = { λ asking. 3 };

    ghost event_of = { event_of };

    ghost sound = { λ asking colour message. IsPlaced colour message };

    ghost kept = { λ asking colour received sent slot. Unit {0} };

    fn event(message: &Message) -> Event {
        match message {
            Message::Next(left) => Event {
                handler: 1,
                arg: *left,
            },
            Message::Put(_, _) => Event { handler: 2, arg: 0 },
            Message::Get(_) => Event { handler: 2, arg: 0 },
        }
    }

    fn on(
        &self,
        place: Place,
        slot: &mut Slot,
        message: Message,
        sends: &mut Sends<Message>,
    ) -> Result<(), Memory> {
        let key = match message {
            Message::Next(left) => {
                ask(place.colour, left, sends);
                return Ok(());
            }
            Message::Put(key, value) => {
                slot.map.insert(key, value)?;
                key
            }
            Message::Get(key) => {
                if slot.map.get(&key).is_some() {
                    slot.found = slot.found.saturating_add(1);
                }
                key
            }
        };
        slot.sum = slot
            .sum
            .wrapping_add(drawn_after((key % 4_294_967_296) as u32, self.rounds));
        slot.received = slot.received.saturating_add(1);
        Ok(())
    }
}

impl Begins for Asking {
    fn begin(&self, alloc: Global, _colour: Colour) -> Result<Slot, Memory> {
        Ok(Slot {
            map: HashMap::new(alloc),
            received: 0,
            found: 0,
            sum: 0,
        })
    }
}

/// A client sends one message to the bucket of its key, and has itself ask on where more are left.
fn ask(client: Colour, left: u16, sends: &mut Sends<Message>)
    requires client { IsPlaced client (Next left) }
    requires empty { sends.old ≡ [] }
    ensures sent { as_events sends.new
        ≡ asks_of client (record { handler = 1; arg = left }) }
    ensures allowed { AllByRecursion (MaySend (BUCKETS + CLIENTS) 3 event_of IsPlaced) sends.new }
{
    if left == 0 {
        return;
    }
    let key = client.0 as u64 + left as u64;
    let message = if left % 2 == 1 {
        Message::Put(key, left as u64)
    } else {
        Message::Get(key)
    };
    sends.send(Colour((key % (BUCKETS as u64)) as u16), message);
    sends.send(client, Message::Next(left - 1));
}

/// The next number of a linear congruential generator.
fn next(seed: u32) -> u32 {
    seed.wrapping_mul(1_664_525).wrapping_add(1_013_904_223)
}

/// The number after so many rounds and one more.
fn drawn_after(seed: u32, rounds: u32) -> u32 {
    let mut seed = next(seed);
    for _round in 0..rounds {
        seed = next(seed);
    }
    seed
}

/// A message for each client, that it is to ask so often.
///
/// # Errors
///
/// There was no memory.
fn begin_all(alloc: Global, messages: u16) -> Result<Vec<(Colour, Message)>, Memory>
    ensures few { IfOk result (λ posts. length posts.items ≤ CLIENTS) }
    ensures may { IfOk result (λ posts. AllByRecursion
        (MaySend (BUCKETS + CLIENTS) 3 event_of IsPlaced) posts.items) }
{
    let mut posts = Vec::new(alloc);
    'clients: for client in 0..CLIENTS {
        posts.push((Colour(BUCKETS + client), Message::Next(messages)))?;
    }
    Ok(posts)
}

/// What all colours have after the run.
///
/// # Errors
///
/// There was no memory.
pub fn run<R: Threads + Wait + Sync>(
    rt: &R,
    alloc: Global,
    order: &Order,
) -> Result<Vec<Slot>, Memory>
    requires some { 1 ≤ order.now.workers }
    requires few { order.now.workers ≤ 8 }
{
    let shape = Shape {
        cores: order.workers,
        shards: 8,
        batch: 10,
        steal_cost: 20,
        group: 2,
    };
    let Ok(handlers) = Handlers::new(&[(10, 1), (10, 1), (10, 1)]) else {
        unreachable!()
    };
    let colours = (BUCKETS + CLIENTS) as u32;
    let Ok(setup) = Setup::new(&shape, colours, handlers, 0) else {
        unreachable!()
    };
    let posts = begin_all(alloc, order.messages)?;
    let asking = Asking {
        rounds: order.rounds,
    };
    let ended = run_actors(rt, alloc, &setup, asking, posts)?;
    Ok(ended.values)
}
