//! The store, as actors.
ghost use Rattle.std.specs.Prelude.{◌≡◌, ◌<◌, ◌+◌, OnOk};
ghost use Rattle.example_store.specs.declared.store.TheConstants.{BUCKETS, CLIENTS};
ghost use Rattle.example_store.specs.Stores.{IsPlaced, IsStored, event_of, found_in, text_of};

use crate::message::Message;
use mely_actor::{Actor, Begins, Place, Sends};
use mely_event::{Colour, Event, Memory};
use std::alloc::Global;
use std::collections::BTreeMap;

/// How many colours the keys are spread over; they are the first ones.
pub const BUCKETS: u16 = 16;

/// How many clients there are; their colours stand behind those.
pub const CLIENTS: u16 = 8;

/// What a colour has: a bucket its keys, and a client its answers.
#[derive(Drop)]
pub struct Slot {
    pub map: BTreeMap<u64, String>,
    pub answers: Vec<(u64, Option<String>)>,
}

/// A store of keys that is spread over colours.
#[derive(Drop)]
pub struct Store;

impl Actor for Store {
    type Value = Slot;

    type Message = Message;

    ghost colours_of = { λ store. BUCKETS + CLIENTS };

    ghost rows_of = { λ store. 4 };

    ghost event_of = { event_of };

    ghost sound = { λ store colour message. IsPlaced colour message };

    ghost kept = { λ store colour received sent slot. IsStored received sent slot.map.entries
        slot.answers.items };

    fn event(message: &Message) -> Event {
        let (handler, arg) = match message {
            Message::Put(_, _) => (1, 0),
            Message::Get(_, client) => (2, *client),
            Message::Answer(_, _) => (3, 0),
        };
        Event { handler, arg }
    }

    fn on(
        &self,
        _place: Place,
        slot: &mut Slot,
        message: Message,
        sends: &mut Sends<Message>,
    ) -> Result<(), Memory> {
        match message {
            Message::Put(key, value) => {
                slot.map.insert(key, value)?;
            }
            Message::Get(key, client) => {
                let (found, done) = look(slot, key);
                sends.send(Colour(BUCKETS + client), Message::Answer(key, found));
                return done;
            }
            Message::Answer(key, found) => slot.answers.push((key, found))?,
        }
        Ok(())
    }
}

impl Begins for Store {
    fn begin(&self, alloc: Global, _colour: Colour) -> Result<Slot, Memory> {
        Ok(Slot {
            map: BTreeMap::new(alloc),
            answers: Vec::new(alloc),
        })
    }
}

/// A copy of what the slot has under a key. Without memory for it nothing is found.
fn look(slot: &Slot, key: u64) -> (Option<String>, Result<(), Memory>)
    ensures { OnOk result.1 (text_of result.0 ≡ found_in slot.now.map.entries key) }
{
    match slot.map.get(&key) {
        Some(value) => match value.clone() {
            Ok(copy) => (Some(copy), Ok(())),
            Err(_) => (None, Err(Memory)),
        },
        None => (None, Ok(())),
    }
}
