//! A service over a world, as actors.
ghost use Rattle.std.specs.Prelude.{◌≡◌, ◌+◌};

use crate::layout::Layout;
use crate::message::Message;
use crate::part::Part;
use crate::service::Service;
use crate::serving::{at_cell, at_client, at_desk};
use mely_actor::{Actor, Place, Sends};
use mely_event::{Colour, Event, Memory};
use std::alloc::Global;
use std::marker::PhantomData;
use std::snapshot::Snapshot;
use std::sync::Mutex;
use sws_link::{Link, World};

/// A service over a world.
#[derive(Drop)]
pub(crate) struct Serving<S: Service, W> {
    pub(crate) alloc: Global,
    pub(crate) service: S,
    pub(crate) layout: Layout,

    /// What the cells begin with.
    pub(crate) firsts: Snapshot<Vec<S::Cell>>,
    pub(crate) of: PhantomData<Mutex<W>>,
    ghost cells: { layout.cells ≡ (S.rules_of service).cells },
}

impl<S: Service + Drop, W: World + Drop> Actor for Serving<S, W> {
    ghost use Rattle.mely_net.specs.Messages.{MayGet, event_of};
    ghost use Rattle.mely_net.specs.Exchanges.{IsAt};
    ghost use Rattle.mely_net.specs.Parts.{KeepsPart};

    type Value = Part<S::Cell, W, W::Link, S::Request, S::Reply>;

    type Message = Message<W, W::Link, S::Request, S::Reply>;

    ghost colours_of = { λ serving. serving.layout.cells + serving.layout.clients + 1 };

    ghost rows_of = { λ _. 9 };

    ghost event_of = { event_of };

    ghost sound = { λ serving colour message. MayGet W.tells W.Link.tells W.Link.is_shut
        serving.layout.cells serving.layout.clients colour message };

    ghost kept = { λ serving colour received sent part. KeepsPart (S.rules_of serving.service)
        W.Link.Link (IsAt serving.firsts.value.items) colour received sent part };

    fn event(message: &Message<W, W::Link, S::Request, S::Reply>) -> Event {
        let handler = match message {
            Message::Poll(_) => 1,
            Message::Accept(_) => 2,
            Message::Wait(_) => 3,
            Message::Open(_) => 4,
            Message::Wake => 5,
            Message::Leave => 6,
            Message::Ask(_, _) => 7,
            Message::Reply(_, _) => 8,
        };
        Event { handler, arg: 0 }
    }

    fn on(
        &self,
        place: Place,
        part: &mut Part<S::Cell, W, W::Link, S::Request, S::Reply>,
        message: Message<W, W::Link, S::Request, S::Reply>,
        sends: &mut Sends<Message<W, W::Link, S::Request, S::Reply>>,
    ) -> Result<(), Memory> {
        let (service, layout, colour) = (&self.service, &self.layout, place.colour);
        match part {
            Part::Desk(desk) => {
                at_desk::<W, S::Request, S::Reply>(desk, layout, colour, message, sends);
            }
            Part::Cell(value) => {
                at_cell::<S, W>(service, self.alloc, layout, colour, value, message, sends)?;
            }
            Part::Client(client) => {
                at_client::<S, W>(service, self.alloc, layout, colour, client, message, sends);
            }
        }
        Ok(())
    }
}
