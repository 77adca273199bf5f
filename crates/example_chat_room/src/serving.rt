//! What the desk, the room and a client do at a message.
ghost use Rattle.std.specs.Prelude.{◌≡◌, ◌<◌, ◌≤◌, ◌+◌, ◌++◌, ◌∷◌, [], ℕ, List};
ghost use Rattle.std.specs.List.{AllByRecursion};
ghost use Rattle.mely_event.specs.declared.colour.Colour.{Colour};
ghost use Rattle.example_chat_room.specs.declared.message.Message.{Message};
ghost use Rattle.example_chat_room.specs.Clients.{shown_client};
ghost use Rattle.example_chat_room.specs.Messages.{IsOfClient, IsQuiet, IsSigned, MayAll, MayGet, asks_world, heard_by_sends, told_by_sends};
ghost use Rattle.example_chat_room.specs.Parts.{Asks, IsRoom, IsSeat, shown_desk};
ghost use Rattle.example_chat_room.specs.Shown.{all_said};
ghost use Rattle.example_chat_room.specs.Talks.{GoesOn, Says};

use crate::acting::Chat;
use crate::asking::{DESK, accept, poll, wait};
use crate::client::{Client, Turn};
use crate::desk::Desk;
use crate::line::Line;
use crate::message::Message;
use crate::room::Room;
use mely_actor::Sends;
use mely_event::Colour;
use sws_link::{Link, World};

/// The room's colour.
const ROOM: Colour = Colour(1);

/// The desk gets a message.
pub(crate) fn at_desk<W: World + Drop>(
    chat: &Chat<W>,
    colour: Colour,
    desk: &mut Desk<W>,
    message: Message<W, W::Link>,
    sends: &mut Sends<Message<W, W::Link>>,
)
    requires empty { sends.old ≡ [] }
    requires may_get { MayGet W.Link.Link W.tells (W.tells chat.now.world.value).coming
        chat.now.clients colour message }
    ensures fit { MayAll W.Link.Link W.tells (W.tells chat.now.world.value).coming chat.now.clients
        sends.new }
    ensures quiet { AllByRecursion (λ send. IsQuiet send.1) sends.new }
    ensures asks { Asks chat.now.clients (asks_world message) (shown_desk desk.old)
        (shown_desk desk.new) sends.new }
{
    match message {
        Message::Poll(held) => poll::<W>(chat, desk, held, sends),
        Message::Accept(held) => accept::<W>(chat, desk, held, sends),
        Message::Wait(client) => wait::<W>(chat, desk, client, sends),
        Message::Open(_) | Message::Wake | Message::Cut | Message::Say(_) | Message::Hear(_) => {}
    }
}

/// The room gets a message: it tells the first client a line, which has its place from now on.
pub(crate) fn at_room<W: World + Drop>(
    chat: &Chat<W>,
    colour: Colour,
    room: &mut Room,
    message: Message<W, W::Link>,
    sends: &mut Sends<Message<W, W::Link>>,
)
    requires empty { sends.old ≡ [] }
    requires may_get { MayGet W.Link.Link W.tells (W.tells chat.now.world.value).coming
        chat.now.clients colour message }
    ensures fit { MayAll W.Link.Link W.tells (W.tells chat.now.world.value).coming chat.now.clients
        sends.new }
    ensures signed { AllByRecursion (IsSigned colour) sends.new }
    ensures kept { (received : List (Message W W.Link))
        (sent : List (Colour × Message W W.Link))
        → IsRoom W.Link.Link (W.tells chat.now.world.value).coming chat.now.clients colour
        received sent room.old
        → IsRoom W.Link.Link (W.tells chat.now.world.value).coming chat.now.clients colour
        (received ++ message ∷ []) (sent ++ sends.new) room.new }
{
    let Message::Say(line) = message else {
        return;
    };
    room.lines = room.lines.wrapping_add(1);
    sends.send(Colour(2), Message::Hear(line));
}

/// A client goes on: its line goes to the room, or it waits, or its time has ended.
fn wake<W: World + Drop>(
    chat: &Chat<W>,
    colour: Colour,
    client: &mut Client<W::Link>,
    sends: &mut Sends<Message<W, W::Link>>,
)
    requires empty { sends.old ≡ [] }
    requires own { IsOfClient chat.now.clients colour }
    ensures fit { MayAll W.Link.Link W.tells (W.tells chat.now.world.value).coming chat.now.clients
        sends.new }
    ensures signed { AllByRecursion (IsSigned colour) sends.new }
    ensures says { Says (all_said (told_by_sends sends.new)) (shown_client client.old)
        (shown_client client.new) }
    ensures goes_on { GoesOn (shown_client client.old) (shown_client client.new) }
    ensures none { heard_by_sends sends.new ≡ [] }
{
    let from = colour.0 - 2;
    match client.go_on() {
        Turn::Says(text) => sends.send(ROOM, Message::Say(Line { from, text })),
        Turn::Waits => sends.send(DESK, Message::Wait(from)),
        Turn::Gone => {}
    }
}

/// A client passes a line on to the next one, and the last one has who said it go on.
fn pass_on<W: World + Drop>(
    chat: &Chat<W>,
    colour: Colour,
    line: Line,
    sends: &mut Sends<Message<W, W::Link>>,
)
    requires empty { sends.old ≡ [] }
    requires own { IsOfClient chat.now.clients colour }
    requires known { line.from < chat.now.clients }
    ensures fit { MayAll W.Link.Link W.tells (W.tells chat.now.world.value).coming chat.now.clients
        sends.new }
    ensures signed { AllByRecursion (IsSigned colour) sends.new }
    ensures passed { colour.0 + 1 < chat.now.clients + 2
        → heard_by_sends sends.new ≡ line ∷ [] }
    ensures none { told_by_sends sends.new ≡ [] }
{
    if colour.0 + 1 < chat.clients + 2 {
        sends.send(Colour(colour.0 + 1), Message::Hear(line));
    } else {
        sends.send(Colour(line.from + 2), Message::Wake);
    }
}

/// A client gets a message: it comes, goes on, is to leave, or hears a line.
pub(crate) fn at_client<W: World + Drop>(
    chat: &Chat<W>,
    colour: Colour,
    client: &mut Client<W::Link>,
    message: Message<W, W::Link>,
    sends: &mut Sends<Message<W, W::Link>>,
)
    requires empty { sends.old ≡ [] }
    requires may_get { MayGet W.Link.Link W.tells (W.tells chat.now.world.value).coming
        chat.now.clients colour message }
    ensures fit { MayAll W.Link.Link W.tells (W.tells chat.now.world.value).coming chat.now.clients
        sends.new }
    ensures signed { AllByRecursion (IsSigned colour) sends.new }
    ensures kept { (received : List (Message W W.Link))
        (sent : List (Colour × Message W W.Link))
        → IsSeat W.Link.Link (W.tells chat.now.world.value).coming chat.now.clients colour
        received sent client.old
        → IsSeat W.Link.Link (W.tells chat.now.world.value).coming chat.now.clients colour
        (received ++ message ∷ []) (sent ++ sends.new) client.new }
{
    match message {
        Message::Open(link) => {
            client.open(link);
            sends.send(colour, Message::Wake);
        }
        Message::Wake => wake::<W>(chat, colour, client, sends),
        Message::Cut => client.cut(),
        Message::Hear(line) => {
            client.hear(colour.0 - 2, &line);
            pass_on::<W>(chat, colour, line, sends);
        }
        Message::Poll(_) | Message::Accept(_) | Message::Wait(_) | Message::Say(_) => {}
    }
}
