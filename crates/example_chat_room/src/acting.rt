//! The chat, as actors.
ghost use Rattle.std.specs.Prelude.{◌≡◌, ◌+◌, ◌≤◌};

use crate::client::Client;
use crate::desk::Desk;
use crate::message::Message;
use crate::part::Part;
use crate::room::Room;
use crate::serving::{at_client, at_desk, at_room};
use mely_actor::{Actor, Begins, Place, Sends};
use mely_event::{Colour, Event, Memory};
use std::alloc::Global;
use std::snapshot::Snapshot;
use sws_link::{Link, World};

/// A chat of so many clients over a world, of which contracts alone know how it begins: colour 0
/// asks the world, colour 1 is the room, and colour `2 + i` is client `i`.
#[derive(Drop)]
pub(crate) struct Chat<W> {
    pub(crate) clients: u16,
    pub(crate) world: Snapshot<W>,
    ghost few: { clients ≤ 1024 },
}

impl<W: World + Drop> Actor for Chat<W> {
    ghost use Rattle.example_chat_room.specs.Messages.{MayGet, event_of};
    ghost use Rattle.example_chat_room.specs.Parts.{KeepsPart};

    type Value = Part<W, W::Link>;

    type Message = Message<W, W::Link>;

    ghost colours_of = { λ chat. chat.clients + 2 };

    ghost rows_of = { λ _. 9 };

    ghost event_of = { event_of };

    ghost sound = { λ chat colour message. MayGet W.Link.Link W.tells
        (W.tells chat.world.value).coming chat.clients colour message };

    ghost kept = { λ chat colour received sent part. KeepsPart W.Link.Link
        (W.tells chat.world.value).coming chat.clients colour received sent part };

    fn event(message: &Message<W, W::Link>) -> Event {
        let handler = match message {
            Message::Poll(_) => 1,
            Message::Accept(_) => 2,
            Message::Wait(_) => 3,
            Message::Open(_) => 4,
            Message::Wake => 5,
            Message::Cut => 6,
            Message::Say(_) => 7,
            Message::Hear(_) => 8,
        };
        Event { handler, arg: 0 }
    }

    fn on(
        &self,
        place: Place,
        part: &mut Part<W, W::Link>,
        message: Message<W, W::Link>,
        sends: &mut Sends<Message<W, W::Link>>,
    ) -> Result<(), Memory> {
        match part {
            Part::Desk(desk) => at_desk::<W>(self, place.colour, desk, message, sends),
            Part::Room(room) => at_room::<W>(self, place.colour, room, message, sends),
            Part::Client(client) => at_client::<W>(self, place.colour, client, message, sends),
        }
        Ok(())
    }
}

impl<W: World + Drop> Begins for Chat<W> {
    fn begin(&self, alloc: Global, colour: Colour) -> Result<Part<W, W::Link>, Memory> {
        if colour.0 == 0 {
            return Ok(Part::Desk(Desk::new(alloc, self.clients)?));
        }
        if colour.0 == 1 {
            return Ok(Part::Room(Room { lines: 0 }));
        }
        Ok(Part::Client(Client::new(alloc)))
    }
}
