//! One call on the shard behind a lock.
ghost use Rattle.std.specs.Prelude.{◌≡◌, ◌<◌, ℕ, []};
ghost use Rattle.mely_history.specs.Legal.{MayRegister};
ghost use Rattle.mely_history.specs.Owing.{IsOwed};
ghost use Rattle.mely_history.specs.Setup.{shape_of};
ghost use Rattle.mely_lock.specs.Words.{initial_value, front};
ghost use Rattle.mely_note.specs.Notes.{entries_of};
ghost use Rattle.mely_kept.specs.Passing.{MayEnter, HasLeft};
ghost use Rattle.mely_kept.specs.Frames.{shard_frame, given_at, IsColourOf};
ghost use Rattle.mely_kept.specs.Calls.{RegistersAt, TakesAt, FinishesAt, StealsAt, LooksAt, IsDrainedAs, IsSeen};

use crate::kept_shard::KeptShard;
use mely_event::{Colour, Event, Fits, Kept, Memory, Unregistered};
use mely_history::{After, NoSteal, NoTake, Registered, Stolen};
use mely_lock::{Pass, Ticketed};
use mely_note::Stamp;
use mely_queue::Turn;
use std::sync::Wait;

/// Registers an event behind the others of its colour.
pub fn register_at<S: Fits<P>, P, R: Wait>(
    rt: &R,
    lock: &Ticketed<KeptShard<S, P>>,
    pass: &mut Pass<KeptShard<S, P>>,
    known: &Stamp,
    colour: Colour,
    event: Event,
    load: Option<P>,
) -> Result<Registered, Unregistered<P>>
    requires pass { MayEnter (shard_frame S.frame_of) lock.now pass.old }
    requires own { IsColourOf (shard_frame S.frame_of (initial_value lock.now)) colour }
    requires may { MayRegister (initial_value lock.now).has.setup colour event }
    requires fit { S.fits_under (S.frame_of (initial_value lock.now).sample) colour event load }
    ensures pass { HasLeft (shard_frame S.frame_of) lock.now pass.old pass.new }
    ensures seen { IsSeen (initial_value lock.now).has.setup pass.old.number known.now.number
        (front pass.old) (front pass.new)
        (RegistersAt (initial_value lock.now).has.setup pass.old.number colour event load result) }
{
    lock.call(
        rt,
        pass,
        load,
        |shard, load, by| shard.register(colour, event, load, by, known),
    )
}

/// Moves the state of a colour and its first events out.
pub fn take_at<S: Fits<P>, P, R: Wait>(
    rt: &R,
    lock: &Ticketed<KeptShard<S, P>>,
    pass: &mut Pass<KeptShard<S, P>>,
    known: &Stamp,
    colour: Colour,
) -> Result<Turn<S, P>, NoTake>
    requires pass { MayEnter (shard_frame S.frame_of) lock.now pass.old }
    requires own { IsColourOf (shard_frame S.frame_of (initial_value lock.now)) colour }
    ensures pass { HasLeft (shard_frame S.frame_of) lock.now pass.old pass.new }
    ensures seen { IsSeen (initial_value lock.now).has.setup pass.old.number known.now.number
        (front pass.old) (front pass.new)
        (TakesAt S.Trail S.fits_under (initial_value lock.now).has.setup
        (S.frame_of (initial_value lock.now).sample)
        (given_at (shard_frame S.frame_of (initial_value lock.now)) colour)
        pass.old.number colour result) }
{
    lock.call(
        rt,
        pass,
        colour,
        |shard, colour, core| shard.take(colour, core, known),
    )
}

/// Takes the state of a turn home.
pub fn finish_at<S: Fits<P> + Drop, P: Drop, R: Wait>(
    rt: &R,
    lock: &Ticketed<KeptShard<S, P>>,
    pass: &mut Pass<KeptShard<S, P>>,
    known: &Stamp,
    turn: Turn<S, P>,
) -> After
    requires pass { MayEnter (shard_frame S.frame_of) lock.now pass.old }
    requires own { IsColourOf (shard_frame S.frame_of (initial_value lock.now)) turn.colour }
    requires spent { turn.events ≡ [] }
    requires owed { IsOwed pass.old.number (entries_of (front pass.old))
        turn.colour turn.core turn.count (S.trail_of turn.state) }
    requires coloured { S.colour_of turn.state ≡ turn.colour }
    requires framed { S.frame_of turn.state ≡ S.frame_of (initial_value lock.now).sample }
    ensures pass { HasLeft (shard_frame S.frame_of) lock.now pass.old pass.new }
    ensures seen { IsSeen (initial_value lock.now).has.setup pass.old.number known.now.number
        (front pass.old) (front pass.new)
        (FinishesAt (initial_value lock.now).has.setup pass.old.number turn result) }
{
    lock.call(rt, pass, turn, |shard, turn, _| shard.finish(turn, known))
}

/// Moves a colour with all that is queued to the core of the pass.
pub fn steal_at<S: Fits<P>, P, R: Wait>(
    rt: &R,
    lock: &Ticketed<KeptShard<S, P>>,
    pass: &mut Pass<KeptShard<S, P>>,
    known: &Stamp,
    colour: Colour,
) -> Result<Stolen, NoSteal>
    requires pass { MayEnter (shard_frame S.frame_of) lock.now pass.old }
    requires own { IsColourOf (shard_frame S.frame_of (initial_value lock.now)) colour }
    requires core { pass.old.number < (shape_of (initial_value lock.now).has.setup).cores }
    ensures pass { HasLeft (shard_frame S.frame_of) lock.now pass.old pass.new }
    ensures seen { IsSeen (initial_value lock.now).has.setup pass.old.number known.now.number
        (front pass.old) (front pass.new)
        (StealsAt (initial_value lock.now).has.setup pass.old.number colour result) }
{
    lock.call(
        rt,
        pass,
        colour,
        |shard, colour, to| shard.steal(colour, to, known),
    )
}

/// Makes room for this many entries.
pub fn reserve_at<S: Fits<P>, P, R: Wait>(
    rt: &R,
    lock: &Ticketed<KeptShard<S, P>>,
    pass: &mut Pass<KeptShard<S, P>>,
    entries: usize,
) -> Result<(), Memory>
    requires pass { MayEnter (shard_frame S.frame_of) lock.now pass.old }
    ensures pass { HasLeft (shard_frame S.frame_of) lock.now pass.old pass.new }
    ensures seen { (known : ℕ) → IsSeen (initial_value lock.now).has.setup pass.old.number known
        (front pass.old) (front pass.new)
        LooksAt }
{
    lock.call(
        rt,
        pass,
        entries,
        |shard, entries, _| shard.reserve(entries),
    )
}

/// Looks whether no colour of the shard runs and nothing is queued.
pub fn look_at<S: Fits<P>, P, R: Wait>(
    rt: &R,
    lock: &Ticketed<KeptShard<S, P>>,
    pass: &mut Pass<KeptShard<S, P>>,
) -> bool
    requires pass { MayEnter (shard_frame S.frame_of) lock.now pass.old }
    ensures pass { HasLeft (shard_frame S.frame_of) lock.now pass.old pass.new }
    ensures seen { (known : ℕ) → IsSeen (initial_value lock.now).has.setup pass.old.number known
        (front pass.old) (front pass.new)
        LooksAt }
    ensures drained { IsDrainedAs result (entries_of (front pass.new)) }
{
    lock.call(rt, pass, (), |shard, _, _| shard.is_drained())
}
