//! What the desk does at its messages.
ghost use Rattle.std.specs.Prelude.{◌≡◌, ◌<◌, ◌≤◌, ◌+◌, [], length};
ghost use Rattle.std.specs.List.{AllByRecursion};
ghost use Rattle.example_chat_room.specs.Messages.{Holds, IsQuiet, MayAll};
ghost use Rattle.example_chat_room.specs.Parts.{Asks, shown_desk};

use crate::acting::Chat;
use crate::desk::{Desk, Named};
use crate::message::{Held, Message};
use mely_actor::Sends;
use mely_event::Colour;
use sws_link::{Accepted, Link, World};

/// The colour that asks the world.
pub(crate) const DESK: Colour = Colour(0);

/// A client is told to go on or to leave, if there is one of this number.
fn send_client<W: World + Drop>(
    chat: &Chat<W>,
    named: Named,
    sends: &mut Sends<Message<W, W::Link>>,
)
    requires empty { sends.old ≡ [] }
    ensures fit { MayAll W.Link.Link W.tells (W.tells chat.now.world.value).coming chat.now.clients
        sends.new }
    ensures quiet { AllByRecursion (λ send. IsQuiet send.1) sends.new }
    ensures few { length sends.new ≤ 1 }
{
    match named {
        Named::Ready(client) if client < chat.clients => {
            sends.send(Colour(client + 2), Message::Wake);
        }
        Named::Cut(client) if client < chat.clients => {
            sends.send(Colour(client + 2), Message::Cut);
        }
        _ => {}
    }
}

/// The desk asks the world who may go on, and then for the next link, asks again for those that
/// wait, or rests.
pub(crate) fn poll<W: World + Drop>(
    chat: &Chat<W>,
    desk: &mut Desk<W>,
    held: Held<W>,
    sends: &mut Sends<Message<W, W::Link>>,
)
    requires empty { sends.old ≡ [] }
    requires holds { held.accepted < chat.now.clients
        → Holds W.tells (W.tells chat.now.world.value).coming chat.now.clients held }
    ensures fit { MayAll W.Link.Link W.tells (W.tells chat.now.world.value).coming chat.now.clients
        sends.new }
    ensures quiet { AllByRecursion (λ send. IsQuiet send.1) sends.new }
    ensures asks { Asks chat.now.clients 1 (shown_desk desk.old) (shown_desk desk.new) sends.new }
{
    let Held {
        mut world,
        accepted,
    } = held;
    desk.meet(accepted);
    send_client::<W>(chat, desk.ask(&mut world), sends);
    if accepted < chat.clients && !desk.is_broken {
        sends.send(DESK, Message::Accept(Held { world, accepted }));
    } else if !desk.waiting.is_empty() {
        sends.send(DESK, Message::Poll(Held { world, accepted }));
    } else {
        desk.resting = Some(world);
    }
}

/// The desk asks the world for the next link, which goes to the client of its number.
pub(crate) fn accept<W: World + Drop>(
    chat: &Chat<W>,
    desk: &mut Desk<W>,
    held: Held<W>,
    sends: &mut Sends<Message<W, W::Link>>,
)
    requires empty { sends.old ≡ [] }
    requires more { held.accepted < chat.now.clients }
    requires holds { Holds W.tells (W.tells chat.now.world.value).coming chat.now.clients held }
    ensures fit { MayAll W.Link.Link W.tells (W.tells chat.now.world.value).coming chat.now.clients
        sends.new }
    ensures quiet { AllByRecursion (λ send. IsQuiet send.1) sends.new }
    ensures asks { Asks chat.now.clients 1 (shown_desk desk.old) (shown_desk desk.new) sends.new }
{
    let Held {
        mut world,
        accepted,
    } = held;
    desk.meet(accepted);
    let mut given = accepted;
    match world.accept() {
        Accepted::Link(link) => {
            sends.send(Colour(accepted + 2), Message::Open(link));
            desk.give(accepted);
            given = accepted + 1;
        }
        Accepted::NotYet => {}
        Accepted::Failed => desk.is_broken = true,
    }
    let held = Held {
        world,
        accepted: given,
    };
    sends.send(DESK, Message::Poll(held));
}

/// A client waits from now on. Where the world rests, it is woken.
pub(crate) fn wait<W: World + Drop>(
    chat: &Chat<W>,
    desk: &mut Desk<W>,
    client: u16,
    sends: &mut Sends<Message<W, W::Link>>,
)
    requires empty { sends.old ≡ [] }
    ensures fit { MayAll W.Link.Link W.tells (W.tells chat.now.world.value).coming chat.now.clients
        sends.new }
    ensures quiet { AllByRecursion (λ send. IsQuiet send.1) sends.new }
    ensures asks { Asks chat.now.clients 0 (shown_desk desk.old) (shown_desk desk.new) sends.new }
{
    if desk.waiting.push(client).is_err() {
        send_client::<W>(chat, Named::Cut(client), sends);
    }
    if let Some(world) = desk.resting.take() {
        let held = Held {
            world,
            accepted: chat.clients,
        };
        sends.send(DESK, Message::Poll(held));
    }
}
