//! What is still under way at the end of a run is handed out.
ghost use Rattle.std.specs.Prelude.{◌≡◌, ◌∷◌, [], map, flat_map};
ghost use Rattle.mely_tally.specs.Tallies.{carried_by};
ghost use Rattle.sws_handlers.specs.Handing.{HandsOut, place_link};

use crate::ended::Served;
use crate::left::Left;
use crate::load::Load;
use mely_event::{Colour, Event};

/// Gives a link to the connection of this number, where there is one without a link.
fn give_link<L: Drop>(link: L, conn: u16, served: &mut Vec<Served<L>>)
    ensures { served.new.items ≡ place_link link conn served.old.items }
{
    let place = usize::from(conn);
    if place < served.len() {
        let one = &mut served[place];
        if one.link.is_none() {
            one.link = Some(link);
        }
    }
}

/// Keeps what an event carries that was never run.
fn keep_load<W: Drop, L: Drop>(event: Event, load: Option<Load<W, L>>, left: &mut Left<W, L>)
    ensures { HandsOut ((event, load) ∷ []) left.old left.new }
{
    match load {
        Some(Load::World(held)) => left.world = Some(held),
        Some(Load::Link(link)) => give_link(link, event.arg, &mut left.served),
        Some(Load::Line(_)) => {}
        None => {}
    }
}

/// Keeps what the events of one colour carry that are queued.
fn keep_loads<W: Drop, L: Drop>(events: Vec<(Event, Option<Load<W, L>>)>, left: &mut Left<W, L>)
    ensures { HandsOut events.items left.old left.new }
{
    for (event, load) in events {
        keep_load(event, load, left);
    }
}

/// Keeps what all events carry that are queued.
pub(crate) fn keep_queued<W: Drop, L: Drop>(
    queued: Vec<Vec<(Event, Option<Load<W, L>>)>>,
    left: &mut Left<W, L>,
)
    ensures { HandsOut (flat_map (λ events. events) (map (λ events. events.items) queued.items))
        left.old left.new }
{
    for events in queued {
        keep_loads(events, left);
    }
}

/// Keeps what the events carry that were refused for memory.
pub(crate) fn keep_lost<W: Drop, L: Drop>(
    lost: Vec<(Colour, Event, Option<Load<W, L>>)>,
    left: &mut Left<W, L>,
)
    ensures { HandsOut (carried_by lost.items) left.old left.new }
{
    for (_colour, event, load) in lost {
        keep_load(event, load, left);
    }
}
