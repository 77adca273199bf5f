//! A service over a world, as actors.
ghost use Rattle.std.specs.Prelude.{◌≡◌, ◌<◌, ◌+◌, ◌++◌, ◌∷◌, [], List, OnOk, map};
ghost use Rattle.std.specs.List.{AllByRecursion};
ghost use Rattle.mely_event.specs.declared.colour.Colour.{Colour};
ghost use Rattle.mely_actor.specs.Sending.{MaySend};
ghost use Rattle.mely_net.specs.declared.message.Message.{Message};
ghost use Rattle.mely_net.specs.Clients.{asks_of, asks_of_step, shown_client};
ghost use Rattle.mely_net.specs.Messages.{IsClient, IsQuiet, IsSigned, MayGet, event_of, requests_sent};
ghost use Rattle.mely_net.specs.Parts.{Gets, IsCell, IsConnection, is_own};

use crate::asking::{accept, poll, wait};
use crate::client::{Client, Turn};
use crate::desk::Desk;
use crate::end::End;
use crate::layout::{DESK, Layout};
use crate::message::Message;
use crate::service::Service;
use mely_actor::Sends;
use mely_event::{Colour, Memory};
use std::alloc::Global;
use sws_link::{Link, World};

/// The desk gets a message.
pub(crate) fn at_desk<W: World + Drop, Q: Drop, P: Drop>(
    desk: &mut Desk<W>,
    layout: &Layout,
    colour: Colour,
    message: Message<W, W::Link, Q, P>,
    sends: &mut Sends<Message<W, W::Link, Q, P>>,
)
    requires empty { sends.old ≡ [] }
    requires may_get { MayGet W.tells W.Link.tells W.Link.is_shut layout.now.cells
        layout.now.clients colour message }
    ensures allowed { AllByRecursion (MaySend (layout.now.cells + layout.now.clients + 1) 9 event_of
        (MayGet W.tells W.Link.tells W.Link.is_shut layout.now.cells layout.now.clients))
        sends.new }
    ensures quiet { AllByRecursion (λ send. IsQuiet send.1) sends.new }
{
    match message {
        Message::Poll(held) => poll::<W, Q, P>(desk, layout, held, sends),
        Message::Accept(held) => accept::<W, Q, P>(desk, layout, held, sends),
        Message::Wait(client) => wait::<W, Q, P>(desk, layout, client, sends),
        _ => {}
    }
}

/// A cell gets a message: it is asked, and replies.
///
/// # Errors
///
/// There was no memory.
pub(crate) fn at_cell<S: Service, W: World + Drop>(
    service: &S,
    alloc: Global,
    layout: &Layout,
    colour: Colour,
    value: &mut S::Cell,
    message: Message<W, W::Link, S::Request, S::Reply>,
    sends: &mut Sends<Message<W, W::Link, S::Request, S::Reply>>,
) -> Result<(), Memory>
    requires cells { layout.now.cells ≡ (S.rules_of service.now).cells }
    requires empty { sends.old ≡ [] }
    requires may_get { MayGet W.tells W.Link.tells W.Link.is_shut layout.now.cells
        layout.now.clients colour message }
    ensures allowed { OnOk result (AllByRecursion
        (MaySend (layout.now.cells + layout.now.clients + 1) 9 event_of
        (MayGet W.tells W.Link.tells W.Link.is_shut layout.now.cells layout.now.clients))
        sends.new) }
    ensures signed { OnOk result (AllByRecursion
        (λ send. IsSigned layout.now.cells colour send.1) sends.new) }
    ensures kept { OnOk result ((first : S.Cell)
        (received : List (Message W W.Link S.Request S.Reply))
        (sent : List (Colour × Message W W.Link S.Request S.Reply))
        → IsCell (S.rules_of service.now) W.Link.Link colour received sent first value.old
        → IsCell (S.rules_of service.now) W.Link.Link colour (received ++ message ∷ [])
        (sent ++ sends.new) first value.new) }
{
    let Message::Ask(from, request) = message else {
        return Ok(());
    };
    let cell = colour.0 - 1;
    let reply = service.on(alloc, cell, value, request)?;
    sends.send(layout.client(from), Message::Reply(cell, reply));
    Ok(())
}

/// Whether a message is for a connection.
fn is_for_client<W, L, Q, P>(message: &Message<W, L, Q, P>) -> bool
    ensures { result ≡ is_own message.now }
{
    match message {
        Message::Open(_) | Message::Wake | Message::Leave | Message::Reply(_, _) => true,
        Message::Poll(_) | Message::Accept(_) | Message::Wait(_) | Message::Ask(_, _) => false,
    }
}

/// A connection gets a message. What it does next, where it doesn't go on.
fn get<S: Service, W: World + Drop>(
    service: &S,
    layout: &Layout,
    colour: Colour,
    client: &mut Client<W::Link, S::Request, S::Reply>,
    message: Message<W, W::Link, S::Request, S::Reply>,
) -> Option<Turn<S::Request>>
    requires may_get { MayGet W.tells W.Link.tells W.Link.is_shut layout.now.cells
        layout.now.clients colour message }
    ensures gets { Gets (S.rules_of service.now) message (asks_of_step result)
        (shown_client client.old) (shown_client client.new) }
    ensures there { AllByRecursion (λ ask. ask.0 < (S.rules_of service.now).cells)
        (asks_of_step result) }
{
    match message {
        Message::Open(link) => client.open(link),
        Message::Wake => {}
        Message::Leave => client.leave(End::Fault),
        Message::Reply(cell, reply) => return client.hear(service, cell, reply),
        Message::Poll(_) | Message::Accept(_) | Message::Wait(_) | Message::Ask(_, _) => {
            return Some(Turn::Rests);
        }
    }
    None
}

/// A connection gets a message, and goes on where it can: what it does next.
fn act<S: Service, W: World + Drop>(
    service: &S,
    alloc: Global,
    layout: &Layout,
    colour: Colour,
    client: &mut Client<W::Link, S::Request, S::Reply>,
    message: Message<W, W::Link, S::Request, S::Reply>,
) -> Turn<S::Request>
    requires may_get { MayGet W.tells W.Link.tells W.Link.is_shut layout.now.cells
        layout.now.clients colour message }
    ensures gets { Gets (S.rules_of service.now) message (asks_of result)
        (shown_client client.old) (shown_client client.new) }
    ensures there { AllByRecursion (λ ask. ask.0 < (S.rules_of service.now).cells)
        (asks_of result) }
{
    match get::<S, W>(service, layout, colour, client, message) {
        Some(turn) => turn,
        None => client.go_on(service, alloc),
    }
}

/// A connection asks a cell, waits at the desk, or puts itself behind others.
fn send_turn<W: World + Drop, Q: Drop, P: Drop>(
    layout: &Layout,
    colour: Colour,
    turn: Turn<Q>,
    sends: &mut Sends<Message<W, W::Link, Q, P>>,
)
    requires empty { sends.old ≡ [] }
    requires own { IsClient layout.now.cells layout.now.clients colour }
    requires there { AllByRecursion (λ ask. ask.0 < layout.now.cells) (asks_of turn) }
    ensures allowed { AllByRecursion
        (MaySend (layout.now.cells + layout.now.clients + 1) 9 event_of
        (MayGet W.tells W.Link.tells W.Link.is_shut layout.now.cells layout.now.clients))
        sends.new }
    ensures signed { AllByRecursion (λ send. IsSigned layout.now.cells colour send.1) sends.new }
    ensures sent { requests_sent sends.new ≡ map (λ ask. (ask.0 + 1, ask.1)) (asks_of turn) }
{
    let own = colour.0 - layout.cells - 1;
    match turn {
        Turn::Asks(cell, request) => sends.send(layout.cell(cell), Message::Ask(own, request)),
        Turn::Waits => sends.send(DESK, Message::Wait(own)),
        Turn::GoesOn => sends.send(colour, Message::Wake),
        Turn::Rests => {}
    }
}

/// A connection gets a message, and goes on.
pub(crate) fn at_client<S: Service, W: World + Drop>(
    service: &S,
    alloc: Global,
    layout: &Layout,
    colour: Colour,
    client: &mut Client<W::Link, S::Request, S::Reply>,
    message: Message<W, W::Link, S::Request, S::Reply>,
    sends: &mut Sends<Message<W, W::Link, S::Request, S::Reply>>,
)
    requires cells { layout.now.cells ≡ (S.rules_of service.now).cells }
    requires empty { sends.old ≡ [] }
    requires may_get { MayGet W.tells W.Link.tells W.Link.is_shut layout.now.cells
        layout.now.clients colour message }
    ensures allowed { AllByRecursion
        (MaySend (layout.now.cells + layout.now.clients + 1) 9 event_of
        (MayGet W.tells W.Link.tells W.Link.is_shut layout.now.cells layout.now.clients))
        sends.new }
    ensures signed { AllByRecursion (λ send. IsSigned layout.now.cells colour send.1) sends.new }
    ensures kept { (received : List (Message W W.Link S.Request S.Reply))
        (sent : List (Colour × Message W W.Link S.Request S.Reply))
        → IsConnection (S.rules_of service.now) W.Link.Link colour received sent client.old
        → IsConnection (S.rules_of service.now) W.Link.Link colour (received ++ message ∷ [])
        (sent ++ sends.new) client.new }
{
    if is_for_client(&message) {
        let turn = act::<S, W>(service, alloc, layout, colour, client, message);
        send_turn::<W, S::Request, S::Reply>(layout, colour, turn, sends);
    }
}
