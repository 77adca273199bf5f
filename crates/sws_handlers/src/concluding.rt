//! How a run is concluded.
ghost use Rattle.std.specs.Prelude.{◌≡◌, ◌≤◌, ◌+◌, length, option_map};
ghost use Rattle.std.specs.List.{AllByRecursion};
ghost use Rattle.sws_handlers.specs.EndRoom.{HasEndRoom};
ghost use Rattle.sws_handlers.specs.RunLeaves.{StateTells, talkers};
ghost use Rattle.sws_handlers.specs.Conclusion.{IsConcluded, accepted_of, failed_of, ran_all as ran_all_of};

use crate::ended::{EndRoom, Ended};
use crate::handing::{keep_lost, keep_queued};
use crate::judging::judge;
use crate::left::{Left, keep_states};
use crate::load::{Load, WorldLoad};
use crate::place::Place;
use mely_event::{Colour, Event};
use mely_weave::{Drained, WeaveParts};
use sws_conn::Talk;
use sws_link::{Link, World};

/// Whether the weave was drained, and nothing was refused for memory.
fn ran_all<P>(drained: Drained, lost: &[(Colour, Event, Option<P>)]) -> bool
    ensures { result ≡ ran_all_of drained lost.now }
{
    match drained {
        Drained::Empty => lost.is_empty(),
        Drained::Memory => false,
    }
}

/// The world that was found, how many links it gave, and whether it failed.
fn split_world<W: Drop>(found: Option<WorldLoad<W>>) -> (Option<W>, u16, bool)
    ensures world { result.0 ≡ option_map (λ held. held.world) found }
    ensures accepted { result.1 ≡ accepted_of found }
    ensures failed { result.2 ≡ failed_of found }
{
    match found {
        Some(held) => (Some(held.world), held.accepted, held.failed),
        None => (None, 0, false),
    }
}

/// What a run leaves, of the parts of its weave, whose workers were all driven to their
/// rest. It takes no memory.
///
/// The verdict is [`Memory`](crate::Verdict::Memory) exactly where memory was refused: the weave
/// wasn't drained, a registration was refused, a line of the log was lost, or a link met want of
/// memory. With the log, the lines of each connection that was to be served are numbered too, or the
/// connection counts as lost.
pub fn conclude<W: World + Drop, T: Talk<W::Link> + Drop>(
    room: EndRoom<W::Link>,
    total: u16,
    parts: WeaveParts<Place<W, T>, Load<W, W::Link>>,
    drained: Drained,
    log: bool,
) -> Ended<W>
    requires room { HasEndRoom total room }
    requires states { length parts.states.items ≤ total + 3 }
    requires seats { length (talkers parts.states.items) ≤ total }
    ensures concluded { IsConcluded T.Talk total log drained parts result }
    ensures tell { AllByRecursion (StateTells W.World W.Link.Link T.Talk) parts.states.items }
{
    let ran = ran_all(drained, &parts.lost);
    let WeaveParts {
        histories,
        states,
        queued,
        lost,
    } = parts;
    let EndRoom {
        served,
        trails,
        no_line,
        mut turns,
    } = room;
    let mut left = Left {
        world: None,
        served,
        trails,
        log: no_line,
    };
    keep_states(states, &mut left);
    keep_queued(queued, &mut left);
    keep_lost(lost, &mut left);
    let Left {
        world,
        served,
        trails,
        log: kept,
    } = left;
    let (lines, line_lost) = kept.into_kept();
    let (world, accepted, failed) = split_world(world);
    let verdict = judge(
        log,
        &lines,
        &mut turns,
        ran && !line_lost,
        total,
        world.is_some(),
        accepted,
        failed,
        &served,
    );
    Ended {
        verdict,
        world,
        accepted,
        failed,
        served,
        histories,
        trails,
        log: lines,
    }
}
