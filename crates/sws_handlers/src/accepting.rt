//! What is done on colour 1: the next link.
ghost use Rattle.std.specs.Prelude.{◌≡◌, ◌<◌, ◌≤◌, ◌∷◌, ◌++◌, [], length, IfSome};
ghost use Rattle.sws_handlers.specs.Handling.{RunsAccept, RunsAccepting, poll_put, open_put};
ghost use Rattle.sws_handlers.specs.Polling.{MayAccept};
ghost use Rattle.sws_handlers.specs.Tasks.{task_of};
ghost use Rattle.sws_link.specs.Limits.{conn_limit};

use crate::load::{Load, WorldLoad};
use crate::task::Task;
use mely_event::{Colour, Event};
use mely_worker::Outs;
use sws_conn::Handler;
use sws_link::{Accepted, Link, World};

/// Asks the world for the next link. The world goes on to a poll, which is told whether more links
/// are to come, and the link to the connection of its number.
pub(crate) fn accept<W: World + Drop>(
    total: u16,
    mut held: WorldLoad<W>,
    outs: &mut Outs<Load<W, W::Link>>,
)
    requires empty { outs.old ≡ [] }
    requires more { (W.tells held.world).accepted < (W.tells held.world).total }
    requires few { held.accepted < total }
    requires small { total ≤ conn_limit }
    ensures runs { RunsAccept W.World W.Link.Link total held outs.new }
{
    match held.world.accept() {
        Accepted::Link(link) => {
            let conn = held.accepted;
            held.accepted += 1;
            let arg = if held.accepted == total { 1 } else { 0 };
            put_poll(arg, held, outs);
            put_open(conn, link, outs);
        }
        Accepted::NotYet => put_poll(0, held, outs),
        Accepted::Failed => put_poll(2, held, outs),
    }
}

/// The world goes on to a poll.
fn put_poll<W: Drop, L: Drop>(arg: u16, held: WorldLoad<W>, outs: &mut Outs<Load<W, L>>)
    requires { outs.old ≡ [] }
    ensures { outs.new ≡ poll_put arg held ∷ [] }
{
    outs.put(Colour(0), Task::Poll.event(arg), Some(Load::World(held)));
}

/// The link goes to the connection of its number.
fn put_open<W: Drop, L: Drop>(conn: u16, link: L, outs: &mut Outs<Load<W, L>>)
    requires room { length outs.old < 2 }
    requires small { conn < 65534 }
    ensures { outs.new ≡ outs.old ++ open_put conn link ∷ [] }
{
    outs.put(
        Colour(conn + 2),
        Task::Step(Handler::Open).event(conn),
        Some(Load::Link(link)),
    );
}

/// What is done on colour 1 with an event that fits there: an accept.
pub(crate) fn run_accepting<W: World + Drop>(
    total: u16,
    event: Event,
    load: Option<Load<W, W::Link>>,
    outs: &mut Outs<Load<W, W::Link>>,
)
    requires empty { outs.old ≡ [] }
    requires more { IfSome load (MayAccept W.tells total) }
    requires small { total ≤ conn_limit }
    ensures runs { RunsAccepting W.World W.Link.Link total (task_of event.handler) load outs.new }
{
    match (Task::of_number(event.handler), load) {
        (Some(Task::Accept), Some(Load::World(held))) => accept(total, held, outs),
        _ => {}
    }
}
