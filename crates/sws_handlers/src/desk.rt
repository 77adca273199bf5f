//! What is done on colour 0: asking the world, and waiting.
ghost use Rattle.std.specs.Prelude.{◌≡◌, ◌<◌, ◌≤◌, ◌++◌, [], Option, length, map, IfSome, Some};
ghost use Rattle.sws_handlers.specs.Handling.{Asks, is_to_ask, step_put, onward, rest_of, RunsPoll, RunsWait, RunsDesk};
ghost use Rattle.sws_handlers.specs.Tasks.{task_of};
ghost use Rattle.mely_worker.specs.Outs.{in_place};
ghost use Rattle.sws_handlers.specs.Polling.{LetsGo, asked_as, PollsOnce};
ghost use Rattle.sws_link.specs.Limits.{conn_limit};

use crate::load::{Load, WorldLoad};
use crate::place::Desk;
use crate::task::Task;
use crate::waiting::Waiting;
use mely_event::{Colour, Event};
use mely_worker::Outs;
use sws_conn::Handler;
use sws_link::{Polled, World};

/// Asks the world which of those that wait may be ready, unless it has failed or there is nobody to
/// ask for. Who is ready is taken off those that wait.
fn ask<W: World>(
    world: &mut W,
    waiting: &mut Waiting,
    last: &mut bool,
    failed: &mut bool,
) -> Option<u16>
    ensures asks { Asks W.World (is_to_ask waiting.old.items last.old failed.old)
        world.old waiting.old.items last.old failed.old
        world.new (asked_as waiting.new.items last.new failed.new result) }
    ensures room { waiting.new.total ≡ waiting.old.total }
    ensures known { IfSome result (λ conn. conn < waiting.old.total) }
{
    if *failed || (*last && waiting.is_empty()) {
        return None;
    }
    match world.poll(waiting.conns()) {
        Polled::Ready(conn) => {
            waiting.take(conn);
            Some(conn)
        }
        Polled::Quiet => None,
        Polled::Failed => {
            *failed = true;
            *last = true;
            None
        }
    }
}

/// Lets the first of those that wait go, where the world has failed.
fn let_go(failed: bool, waiting: &mut Waiting) -> Option<u16>
    ensures first { LetsGo failed waiting.old.items result waiting.new.items }
    ensures room { waiting.new.total ≡ waiting.old.total }
    ensures known { IfSome result (λ conn. conn < waiting.old.total) }
{
    if failed { waiting.take_first() } else { None }
}

/// Asks the world, and answers who is resumed: who is ready, or where the world has failed the
/// first of those that wait.
fn poll_once<W: World>(
    world: &mut W,
    waiting: &mut Waiting,
    last: &mut bool,
    failed: &mut bool,
) -> Option<u16>
    ensures polls { PollsOnce W.World world.old waiting.old.items last.old failed.old result
        world.new waiting.new.items last.new failed.new }
    ensures room { waiting.new.total ≡ waiting.old.total }
    ensures known { IfSome result (λ conn. conn < waiting.old.total) }
{
    match ask(world, waiting, last, failed) {
        Some(conn) => Some(conn),
        None => let_go(*failed, waiting),
    }
}

/// Asks for the connection to do its step again.
fn put_resume<W, L: Drop>(resumed: Option<u16>, outs: &mut Outs<Load<W, L>>)
where
    W: Drop,
    requires room { length outs.old < 2 }
    requires small { IfSome resumed (λ conn. conn < 65534) }
    ensures { outs.new ≡ outs.old ++ map (λ i. step_put i Handler.Resume) (in_place resumed) }
{
    if let Some(conn) = resumed {
        outs.put(
            Colour(conn + 2),
            Task::Step(Handler::Resume).event(conn),
            None,
        );
    }
}

/// What is done with the world at a poll: who is ready is resumed, and the world goes on or rests.
pub(crate) fn poll<W: World + Drop>(
    desk: &mut Desk<W>,
    arg: u16,
    mut held: WorldLoad<W>,
    outs: &mut Outs<Load<W, W::Link>>,
)
    requires empty { outs.old ≡ [] }
    requires few { desk.old.waiting.total ≤ conn_limit }
    ensures runs { RunsPoll W.World desk.old arg held desk.new outs.new }
    ensures room { desk.new.waiting.total ≡ desk.old.waiting.total }
{
    desk.last = desk.last || arg != 0;
    held.failed = held.failed || arg == 2;
    let resumed = poll_once(
        &mut held.world,
        &mut desk.waiting,
        &mut desk.last,
        &mut held.failed,
    );
    put_resume(resumed, outs);
    go_on(desk, held, outs);
}

/// The world goes on to the next accept, or to another poll for those that wait; where
/// neither is to be, it rests.
fn go_on<W: Drop, L: Drop>(desk: &mut Desk<W>, held: WorldLoad<W>, outs: &mut Outs<Load<W, L>>)
    requires room { length outs.old < 2 }
    ensures puts { outs.new ≡ outs.old ++ onward desk.old.last desk.old.waiting.items held }
    ensures waiting { desk.new.waiting ≡ desk.old.waiting }
    ensures last { desk.new.last ≡ desk.old.last }
    ensures resting { desk.new.resting
        ≡ rest_of desk.old.last desk.old.waiting.items held desk.old.resting }
{
    if !desk.last {
        outs.put(Colour(1), Task::Accept.event(0), Some(Load::World(held)));
    } else if !desk.waiting.is_empty() {
        outs.put(Colour(0), Task::Poll.event(1), Some(Load::World(held)));
    } else {
        desk.resting = Some(held);
    }
}

/// A connection waits from now on. Where the world rests, it is woken.
pub(crate) fn wait<W: Drop, L: Drop>(desk: &mut Desk<W>, conn: u16, outs: &mut Outs<Load<W, L>>)
    requires empty { outs.old ≡ [] }
    requires known { conn < desk.old.waiting.total }
    ensures runs { RunsWait desk.old conn desk.new outs.new }
    ensures room { desk.new.waiting.total ≡ desk.old.waiting.total }
{
    desk.waiting.enter(conn);
    if let Some(held) = desk.resting.take() {
        outs.put(Colour(0), Task::Poll.event(1), Some(Load::World(held)));
    }
}

/// What is done on colour 0 with an event that fits there: a poll or a wait.
pub(crate) fn run_desk<W: World + Drop>(
    desk: &mut Desk<W>,
    event: Event,
    load: Option<Load<W, W::Link>>,
    outs: &mut Outs<Load<W, W::Link>>,
)
    requires empty { outs.old ≡ [] }
    requires few { desk.old.waiting.total ≤ conn_limit }
    requires known { task_of event.handler ≡ Some Task.Wait
        → event.arg < desk.old.waiting.total }
    ensures runs { RunsDesk W.World desk.old (task_of event.handler) event.arg
        load desk.new outs.new }
    ensures room { desk.new.waiting.total ≡ desk.old.waiting.total }
{
    match (Task::of_number(event.handler), load) {
        (Some(Task::Poll), Some(Load::World(held))) => poll(desk, event.arg, held, outs),
        (Some(Task::Wait), None) => wait(desk, event.arg, outs),
        _ => {}
    }
}
