//! What an author gives.
ghost use Rattle.std.specs.Prelude.{◌≡◌, ◌<◌, ◌∷◌, ◌++◌, [], ℕ, List, IfOk, OnOk, length};
ghost use Rattle.std.specs.List.{AllByRecursion};
ghost use Rattle.mely_event.specs.declared.colour.Colour.{Colour};
ghost use Rattle.mely_event.specs.declared.event.Event.{Event};
ghost use Rattle.mely_actor.specs.Sending.{MaySend};

use crate::sends::Sends;
use mely_event::{Colour, Event, Memory};
use std::alloc::Global;

/// Where a message is received.
#[derive(Clone, Copy)]
pub struct Place {
    /// The colour that receives it.
    pub colour: Colour,

    /// How many messages the colour has received before.
    pub number: usize,
}

/// The actors of a program: a value for each colour, and what a message does to it.
///
/// Contracts learn how many colours and handlers it uses, under which event a message stands in the
/// histories, which messages a colour may be sent, and what a value keeps over the messages that its
/// colour has received and those that it has sent. Whatever is to be known of what a message sends
/// stands in that fact, `kept`: it may depend on the value and on all that the message has.
pub trait Actor {
    /// What a colour has.
    type Value: Drop;

    /// What it is sent.
    type Message: Drop;

    /// How many colours there are.
    ghost colours_of: { Self → ℕ };

    /// How many rows the table of handlers has at least. Row 0 is the library's own, by which it
    /// posts, and sends what is more than two; the rows from 1 on are the author's.
    ghost rows_of: { Self → ℕ };

    /// Under which event a message stands in the histories: the row of its weight, and a number
    /// that is the author's to choose.
    ghost event_of: { Self.Message → Event };

    /// What may be sent to a colour.
    ghost sound: { Self → Colour → Self.Message → Type 0 };

    /// What the value of a colour keeps over the messages that the colour has received, and those
    /// that it has sent, each in order.
    ghost kept: { Self → Colour → List Self.Message → List (Colour × Self.Message) → Self.Value
        → Type 0 };

    /// Under which event a message stands in the histories.
    fn event(message: &Self::Message) -> Event
        ensures { result ≡ event_of message.now };

    /// A colour receives a message, and sends any number.
    ///
    /// # Errors
    ///
    /// There was no memory. Nothing is known of the value then, nothing is sent, and the run will
    /// not end with Ok.
    fn on(
        &self,
        place: Place,
        value: &mut Self::Value,
        message: Self::Message,
        sends: &mut Sends<Self::Message>,
    ) -> Result<(), Memory>
        requires colour { place.colour.0 < colours_of self.now }
        requires sound { sound self.now place.colour message }
        requires empty { sends.old ≡ [] }
        ensures kept { OnOk result ((received : List Self.Message)
            (sent : List (Colour × Self.Message)) → length received ≡ place.number
            → kept self.now place.colour received sent value.old
            → kept self.now place.colour (received ++ message ∷ []) (sent ++ sends.new) value.new) }
        ensures allowed { OnOk result (AllByRecursion (MaySend (colours_of self.now)
            (rows_of self.now) event_of (sound self.now)) sends.new) };
}

/// Actors whose values a run can make by itself.
pub trait Begins: Actor {
    /// The value of a colour that has received and sent nothing.
    ///
    /// # Errors
    ///
    /// There was no memory.
    fn begin(&self, alloc: Global, colour: Colour) -> Result<Self::Value, Memory>
        requires { colour.0 < Self.colours_of self.now }
        ensures { IfOk result (λ value. Self.kept self.now colour [] [] value) };
}
