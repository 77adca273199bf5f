//! The room and the clients, as actors.
ghost use Rattle.std.specs.Prelude.{◌≡◌, ◌+◌, ◌*◌, ◌++◌, ◌∷◌, [], List, OnOk, map};
ghost use Rattle.std.specs.List.{AllByRecursion};
ghost use Rattle.mely_actor.specs.Sending.{MaySend};
ghost use Rattle.example_chat.specs.declared.chat.TheConstants.{CLIENTS};
ghost use Rattle.example_chat.specs.declared.script.Line.{Line as ScriptLine};
ghost use Rattle.example_chat.specs.Chats.{IsOfScript, IsSeat, MayHear, event_of, note_of, sent_as, to_clients};

use crate::message::Message;
use crate::script::Line;
use crate::seat::{Heard, Seat};
use mely_actor::{Actor, Begins, Place, Sends};
use mely_event::{Colour, Event, Memory};
use std::alloc::Global;
use std::snapshot::Snapshot;

/// How many clients there are. The room is colour 0, and their colours are 1 and those behind it.
pub const CLIENTS: u16 = 4;

/// How many lines a script has at most: their numbers and places are below this.
pub const LINES: usize = 256;

/// A chat, with where it keeps lines, over a script of which contracts alone know.
#[derive(Drop)]
pub struct Chat {
    pub alloc: Global,
    pub script: Snapshot<Vec<Line>>,
}

impl Actor for Chat {
    type Value = Seat;

    type Message = Message;

    ghost colours_of = { λ chat. CLIENTS + 1 };

    ghost rows_of = { λ chat. 4 };

    ghost event_of = { event_of };

    ghost sound = { λ chat colour message. MayHear chat.script.value.items colour message };

    ghost kept = { λ chat colour received sent seat. IsSeat received sent seat.heard.items };

    fn event(message: &Message) -> Event {
        let (handler, arg) = match message {
            Message::Say(number, _) => (1, u16::from(*number)),
            Message::Line(number, _) => (2, u16::from(*number)),
            Message::Hear(place, number, _) => { (3, u16::from(*place) * 256 + u16::from(*number)) }
        };
        Event { handler, arg }
    }

    fn on(
        &self,
        at: Place,
        seat: &mut Seat,
        message: Message,
        sends: &mut Sends<Message>,
    ) -> Result<(), Memory> {
        match message {
            Message::Say(number, text) => {
                sends.send(Colour(0), Message::Line(number, text));
                Ok(())
            }
            Message::Line(number, text) => {
                if at.number >= LINES {
                    return Ok(());
                }
                let place = at.number as u8;
                send_to_all(self.alloc, place, number, &text, sends)?;
                keep(seat, place, number, text)
            }
            Message::Hear(place, number, text) => keep(seat, place, number, text),
        }
    }
}

impl Begins for Chat {
    fn begin(&self, alloc: Global, _colour: Colour) -> Result<Seat, Memory> {
        Ok(Seat {
            heard: Vec::new(alloc),
        })
    }
}

/// Has each client hear a line at its place, with a copy of the text for each.
///
/// # Errors
///
/// There was no memory.
fn send_to_all(
    alloc: Global,
    place: u8,
    number: u8,
    text: &[u8],
    sends: &mut Sends<Message>,
) -> Result<(), Memory>
    requires { sends.old ≡ [] }
    ensures sent { OnOk result (map sent_as sends.new
        ≡ to_clients (record { handler = 3; arg = place * 256 + number }) text.now) }
    ensures allowed { OnOk result ((script : List ScriptLine) → IsOfScript script number text.now
        → AllByRecursion (MaySend (CLIENTS + 1) 4 event_of (MayHear script)) sends.new) }
{
    'clients: for client in 0..CLIENTS {
        let mut copy = Vec::new(alloc);
        copy.extend_from_slice(text)?;
        sends.send_more(Colour(client + 1), Message::Hear(place, number, copy))?;
    }
    Ok(())
}

/// Keeps a line.
///
/// # Errors
///
/// There was no memory.
fn keep(seat: &mut Seat, place: u8, number: u8, text: Vec<u8>) -> Result<(), Memory>
    ensures { OnOk result (map note_of seat.new.heard.items
        ≡ map note_of seat.old.heard.items ++ (place, number, text.items) ∷ []) }
{
    seat.heard.push(Heard {
        place,
        number,
        text,
    })?;
    Ok(())
}
