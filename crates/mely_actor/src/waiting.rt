//! What waits on a colour to be sent.
ghost use Rattle.std.specs.Prelude.{◌≡◌, ◌<◌, ◌≤◌, ◌+◌, ◌++◌, [], OnErr, OnOk, drop, false, if◌then◌else◌, length, take};
ghost use Rattle.mely_worker.specs.Outs.{in_place};
ghost use Rattle.mely_actor.specs.Loads.{IsPut, as_puts};
ghost use Rattle.mely_actor.specs.Waiting.{are_many, turn_is_put, turning};

use crate::actor::Actor;
use crate::load::{Load, TURN};
use crate::sends::Sends;
use mely_event::{Colour, Memory};
use mely_worker::Outs;
use std::collections::VecDeque;

/// Registers what a message sends behind all that waits, and leaves what is too much. Where nothing
/// waits and no more than two are sent it takes no memory.
///
/// # Errors
///
/// There was no memory: nothing is registered.
pub(crate) fn send_all<A: Actor>(
    waiting: &mut VecDeque<(Colour, A::Message)>,
    sends: Sends<A::Message>,
    colour: Colour,
    outs: &mut Outs<Load<A::Message>>,
) -> Result<(), Memory>
    requires { outs.old ≡ [] }
    ensures sent { OnOk result (IsPut A.event_of colour (turning false waiting.old.items)
        (turn_is_put false waiting.old.items (waiting.old.items ++ sends))
        (waiting.old.items ++ sends) waiting.new.items outs.new) }
    ensures none { OnErr result (outs.new ≡ []) }
    ensures few { length outs.new ≤ 2 }
{
    let busy = !waiting.is_empty();
    if !busy && sends.are_few() {
        let (first, second, _) = sends.into_parts();
        send_one::<A>(first, outs);
        send_one::<A>(second, outs);
        return Ok(());
    }
    add_all(waiting, sends)?;
    send_some::<A>(waiting, busy, colour, outs);
    Ok(())
}

/// Adds what is sent to what waits.
///
/// # Errors
///
/// There was no memory.
fn add_all<M: Drop>(waiting: &mut VecDeque<(Colour, M)>, sends: Sends<M>) -> Result<(), Memory>
    ensures { OnOk result (waiting.new.items ≡ waiting.old.items ++ sends) }
{
    let (first, second, mut more) = sends.into_parts();
    add_one(waiting, first)?;
    add_one(waiting, second)?;
    waiting.append(&mut more)?;
    Ok(())
}

/// Adds a message, where there is one.
///
/// # Errors
///
/// There was no memory.
fn add_one<M: Drop>(
    waiting: &mut VecDeque<(Colour, M)>,
    send: Option<(Colour, M)>,
) -> Result<(), Memory>
    ensures { OnOk result (waiting.new.items ≡ waiting.old.items ++ in_place send) }
{
    if let Some(send) = send {
        waiting.push_back(send)?;
    }
    Ok(())
}

/// Registers what there is room for of what waits. Where a turn is registered already something is
/// left for it; else a turn is put where something is left.
pub(crate) fn send_some<A: Actor>(
    waiting: &mut VecDeque<(Colour, A::Message)>,
    busy: bool,
    colour: Colour,
    outs: &mut Outs<Load<A::Message>>,
)
    requires { outs.old ≡ [] }
    ensures some { IsPut A.event_of colour busy (if busy then false else are_many waiting.old.items)
        waiting.old.items waiting.new.items outs.new }
    ensures few { length outs.new ≤ 2 }
{
    let many = waiting.len() > 2;
    if many || !busy {
        send_first::<A>(waiting, outs);
    }
    if many && !busy {
        outs.put(colour, TURN, None);
    } else if many || !busy || waiting.len() == 2 {
        send_first::<A>(waiting, outs);
    }
}

/// Registers the first of what waits, where there is one.
fn send_first<A: Actor>(
    waiting: &mut VecDeque<(Colour, A::Message)>,
    outs: &mut Outs<Load<A::Message>>,
)
    requires { length outs.old < 2 }
    ensures puts { outs.new ≡ outs.old ++ as_puts A.event_of (take 1 waiting.old.items) }
    ensures left { waiting.new.items ≡ drop 1 waiting.old.items }
    ensures few { length outs.new ≤ length outs.old + 1 }
{
    let first = waiting.pop_front();
    send_one::<A>(first, outs);
}

/// Registers a message, where there is one.
fn send_one<A: Actor>(send: Option<(Colour, A::Message)>, outs: &mut Outs<Load<A::Message>>)
    requires { length outs.old < 2 }
    ensures puts { outs.new ≡ outs.old ++ as_puts A.event_of (in_place send) }
    ensures few { length outs.new ≤ length outs.old + 1 }
{
    if let Some((colour, message)) = send {
        let event = A::event(&message);
        outs.put(colour, event, Some(Load::Message(message)));
    }
}
