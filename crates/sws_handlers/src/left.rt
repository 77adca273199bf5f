//! What the states of a run leave.
ghost use Rattle.std.specs.Prelude.{◌≡◌, ◌≤◌, ◌+◌, ◌∷◌, [], length, vec_len, vec_capacity};
ghost use Rattle.std.specs.List.{AllByRecursion};
ghost use Rattle.sws_handlers.specs.RunLeaves.{ShowsSeat, StateTells, talkers};
ghost use Rattle.sws_handlers.specs.LeftKept.{KeepsStates};

use crate::ended::Served;
use crate::laws::a_state_tells_what_was_served;
use crate::load::WorldLoad;
use crate::logging::KeptLines;
use crate::place::{Desk, Place, Role, Seat};
use mely_event::Event;
use mely_log::Log;
use sws_conn::Talk;
use sws_link::{Link, World};

/// What is found of a run: the world, the connections, the trails, and the lines of the log.
#[derive(Drop)]
pub(crate) struct Left<W, L> {
    pub(crate) world: Option<WorldLoad<W>>,
    pub(crate) served: Vec<Served<L>>,
    pub(crate) trails: Vec<Log<Event>>,
    pub(crate) log: KeptLines,
}

/// What has become of a connection; its talk is given up.
fn served_by<L: Link, T: Talk<L>>(seat: Seat<T>) -> Served<L>
    ensures { ShowsSeat T.Talk seat result }
{
    let Seat {
        talk,
        next: _,
        answered,
        stray,
    } = seat;
    let end = talk.end();
    let read = talk.read();
    let written = talk.written();
    talk.pending();
    Served {
        link: talk.into_link(),
        end,
        read,
        written,
        answered,
        stray,
    }
}

/// Keeps what a state has: its trail, and a world that rests there, a connection, or the lines of
/// the log.
fn keep_state<W: World + Drop, T: Talk<W::Link> + Drop>(
    place: Place<W, T>,
    left: &mut Left<W, W::Link>,
)
    requires served { vec_len left.old.served + length (talkers (place ∷ []))
        ≤ vec_capacity left.old.served }
    requires trails { vec_len left.old.trails + 1 ≤ vec_capacity left.old.trails }
    ensures keeps { KeepsStates T.Talk (place ∷ []) left.old left.new }
    ensures tells { StateTells W.World W.Link.Link T.Talk place }
{
    a_state_tells_what_was_served(&place);
    let Place {
        colour: _,
        trail,
        lines,
        hall: _,
        first: _,
        role,
    } = place;
    left.trails.push_reserved(trail);
    match Box::into_inner(role) {
        Role::Polling(desk) => {
            let Desk {
                waiting: _,
                last: _,
                resting,
            } = desk;
            match resting {
                Some(held) => left.world = Some(held),
                None => {}
            }
        }
        Role::Accepting => {}
        Role::Talking(seat) => left.served.push_reserved(served_by(seat)),
        Role::Logging => left.log = lines,
    }
}

/// Keeps what all states have, in the order of the colours.
pub(crate) fn keep_states<W: World + Drop, T: Talk<W::Link> + Drop>(
    states: Vec<Place<W, T>>,
    left: &mut Left<W, W::Link>,
)
    requires served { vec_len left.old.served + length (talkers states.items)
        ≤ vec_capacity left.old.served }
    requires trails { vec_len left.old.trails + length states.items ≤ vec_capacity left.old.trails }
    ensures keeps { KeepsStates T.Talk states.items left.old left.new }
    ensures tell { AllByRecursion (StateTells W.World W.Link.Link T.Talk) states.items }
{
    for place in states {
        keep_state(place, left);
    }
}
