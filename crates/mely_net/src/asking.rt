//! What the desk does at its messages.
ghost use Rattle.std.specs.Prelude.{◌≡◌, ◌<◌, ◌≤◌, ◌+◌, [], length};
ghost use Rattle.std.specs.List.{AllByRecursion};
ghost use Rattle.mely_actor.specs.Sending.{MaySend};
ghost use Rattle.mely_net.specs.Messages.{Holds, IsQuiet, MayGet, event_of};

use crate::desk::{Desk, Named};
use crate::layout::{DESK, Layout};
use crate::message::{Held, Message};
use mely_actor::Sends;
use sws_link::{Accepted, Link, World};

/// A connection is told to go on or to end, if there is one of this number.
fn send_client<W: World + Drop, Q: Drop, P: Drop>(
    layout: &Layout,
    named: Named,
    sends: &mut Sends<Message<W, W::Link, Q, P>>,
)
    requires empty { sends.old ≡ [] }
    ensures allowed { AllByRecursion (MaySend (layout.now.cells + layout.now.clients + 1) 9 event_of
        (MayGet W.tells W.Link.tells W.Link.is_shut layout.now.cells layout.now.clients))
        sends.new }
    ensures quiet { AllByRecursion (λ send. IsQuiet send.1) sends.new }
    ensures few { length sends.new ≤ 1 }
{
    match named {
        Named::Ready(client) if client < layout.clients => {
            sends.send(layout.client(client), Message::Wake);
        }
        Named::Cut(client) if client < layout.clients => {
            sends.send(layout.client(client), Message::Leave);
        }
        _ => {}
    }
}

/// The desk asks the world who may go on, and then for the next link, asks again for those that
/// wait, or rests.
pub(crate) fn poll<W: World + Drop, Q: Drop, P: Drop>(
    desk: &mut Desk<W>,
    layout: &Layout,
    held: Held<W>,
    sends: &mut Sends<Message<W, W::Link, Q, P>>,
)
    requires empty { sends.old ≡ [] }
    requires holds { held.accepted < layout.now.clients
        → Holds W.tells layout.now.clients held }
    ensures allowed { AllByRecursion (MaySend (layout.now.cells + layout.now.clients + 1) 9 event_of
        (MayGet W.tells W.Link.tells W.Link.is_shut layout.now.cells layout.now.clients))
        sends.new }
    ensures quiet { AllByRecursion (λ send. IsQuiet send.1) sends.new }
{
    let Held {
        mut world,
        accepted,
    } = held;
    send_client::<W, Q, P>(layout, desk.ask(&mut world), sends);
    if accepted < layout.clients && !desk.is_broken {
        sends.send(DESK, Message::Accept(Held { world, accepted }));
    } else if !desk.waiting.is_empty() {
        sends.send(DESK, Message::Poll(Held { world, accepted }));
    } else {
        desk.resting = Some(world);
    }
}

/// The desk asks the world for the next link, which goes to the connection of its number.
pub(crate) fn accept<W: World + Drop, Q: Drop, P: Drop>(
    desk: &mut Desk<W>,
    layout: &Layout,
    held: Held<W>,
    sends: &mut Sends<Message<W, W::Link, Q, P>>,
)
    requires empty { sends.old ≡ [] }
    requires more { held.accepted < layout.now.clients }
    requires holds { Holds W.tells layout.now.clients held }
    ensures allowed { AllByRecursion (MaySend (layout.now.cells + layout.now.clients + 1) 9 event_of
        (MayGet W.tells W.Link.tells W.Link.is_shut layout.now.cells layout.now.clients))
        sends.new }
    ensures quiet { AllByRecursion (λ send. IsQuiet send.1) sends.new }
{
    let Held {
        mut world,
        accepted,
    } = held;
    let mut given = accepted;
    match world.accept() {
        Accepted::Link(link) => {
            sends.send(layout.client(accepted), Message::Open(link));
            given = accepted + 1;
        }
        Accepted::NotYet => {}
        Accepted::Failed => desk.is_broken = true,
    }
    let held = Held {
        world,
        accepted: given,
    };
    sends.send(DESK, Message::Poll(held));
}

/// A connection waits from now on. Where the world rests, it is woken.
pub(crate) fn wait<W: World + Drop, Q: Drop, P: Drop>(
    desk: &mut Desk<W>,
    layout: &Layout,
    client: u16,
    sends: &mut Sends<Message<W, W::Link, Q, P>>,
)
    requires empty { sends.old ≡ [] }
    ensures allowed { AllByRecursion (MaySend (layout.now.cells + layout.now.clients + 1) 9 event_of
        (MayGet W.tells W.Link.tells W.Link.is_shut layout.now.cells layout.now.clients))
        sends.new }
    ensures quiet { AllByRecursion (λ send. IsQuiet send.1) sends.new }
{
    if desk.waiting.push(client).is_err() {
        send_client::<W, Q, P>(layout, Named::Cut(client), sends);
    }
    if let Some(world) = desk.resting.take() {
        let held = Held {
            world,
            accepted: layout.clients,
        };
        sends.send(DESK, Message::Poll(held));
    }
}
