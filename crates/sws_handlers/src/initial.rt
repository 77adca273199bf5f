//! What a run starts with: the states of all colours, and the first event.
ghost use Rattle.std.specs.Prelude.{◌≡◌, ◌≤◌, ◌+◌, IfOk};
ghost use Rattle.sws_handlers.specs.Initial.{IsInitialPlaceOver, AreInitialPlacesOver, first_poll};
ghost use Rattle.sws_handlers.specs.Counting.{colours_over};
ghost use Rattle.sws_link.specs.Limits.{conn_limit};

use crate::logging::KeptLines;
use crate::place::{Desk, Place, Role, Seat};
use crate::task::Task;
use crate::waiting::Waiting;
use mely_event::{Colour, Event};
use mely_log::Log;
use std::alloc::Global;
use std::snapshot::Snapshot;
use sws_conn::{Next, Talk};
use sws_link::{Link, Memory, World};

/// The initial state of a colour.
fn initial_place<W: World + Drop, T: Talk<W::Link> + Drop>(
    alloc: Global,
    hall: T::Hall,
    world: &W,
    number: u16,
    total: u16,
) -> Result<Place<W, T>, Memory>
    requires few { total ≤ conn_limit }
    requires total { (W.tells world.now).total ≡ total }
    requires within { number ≤ total + 2 }
    ensures { IfOk result (λ place.
        IsInitialPlaceOver T.Talk world.now (T.contents_of hall) total number place) }
{
    let role = match number {
        0 => Role::Polling(Desk {
            waiting: Waiting::new(alloc, total)?,
            last: false,
            resting: None,
        }),
        1 => Role::Accepting,
        _ if number == total + 2 => Role::Logging,
        _ => Role::Talking(Seat {
            talk: T::make(alloc, hall)?,
            next: Next::Open,
            answered: 0,
            stray: None,
        }),
    };
    let role = Box::new(alloc, role)?;
    Ok(Place {
        colour: Colour(number),
        trail: Log::new(),
        lines: KeptLines::new(alloc),
        hall,
        first: Snapshot::of(world),
        role,
    })
}

/// How many colours there are: for polling, for accepting and for each link, and with the access
/// log one more.
pub fn colour_count(total: u16, log: bool) -> u16
    requires { total ≤ conn_limit }
    ensures { result ≡ colours_over total log }
{
    if log { total + 3 } else { total + 2 }
}

/// The initial states of all colours, in ascending order: colours 0 and 1, and
/// one for each connection, and with the access log one more.
pub fn initial_places<W: World + Drop, T: Talk<W::Link> + Drop>(
    alloc: Global,
    hall: T::Hall,
    world: &W,
    total: u16,
    log: bool,
) -> Result<Vec<Place<W, T>>, Memory>
    requires few { total ≤ conn_limit }
    requires total { (W.tells world.now).total ≡ total }
    ensures { IfOk result (λ places.
        AreInitialPlacesOver T.Talk world.now (T.contents_of hall) total (colours_over total log)
        places.items) }
{
    let colours = colour_count(total, log);
    let mut places = Vec::with_capacity(alloc, colours as usize)?;
    for number in 0..colours {
        places.push_reserved(initial_place(alloc, hall, world, number, total)?);
    }
    Ok(places)
}

/// The event that begins a run: a poll, which is told whether links are to come.
pub fn first_event(total: u16) -> Event
    ensures { result ≡ first_poll total }
{
    Task::Poll.event(if total == 0 { 1 } else { 0 })
}
