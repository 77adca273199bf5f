//! Laws, for contracts alone: what a state keeps, what it tells of its connection, and what the
//! handlers make of a scripted world.
ghost use Rattle.std.specs.Prelude.{◌≡◌, ℕ, Bool, List};
ghost use Rattle.sws_handlers.specs.declared.place.Role.TheVariants.{Talking};
ghost use Rattle.sws_handlers.specs.Invariant.{IsConsistent};
ghost use Rattle.sws_handlers.specs.Served.{SeatServes};
ghost use Rattle.sws_steps.specs.Logs.{Step};
ghost use Rattle.sws_handlers.specs.PathStates.{TellsPaths, FollowsPaths, StaysSpoilt};

use crate::place::Place;
use sws_conn::Talk;
use sws_link::{Link, World};

/// The law of a connection's state, for contracts alone: its type keeps that the connection is what
/// the events of its trail have made of it, so its link is the one of its number, what was written
/// begins the responses, an end has its cause, and where no event was stray the trail is a front of
/// the path. A call does nothing.
pub fn a_state_tells_what_was_served<W: World, T: Talk<W::Link>>(place: &Place<W, T>)
    ensures { (seat : _) → place.now.role ≡ Talking seat
        → SeatServes W.World W.Link.Link T.Talk place.now seat }
{
    T::a_run_serves();
    let _role = &place.role;
}

/// The law of a scripted world, for contracts alone. There the handlers are a function of what is
/// left of the connections' paths, with the log or without it: each leaves and puts what the paths
/// say, unless its connection met want of memory, which then stays so. A call does nothing.
pub fn the_handlers_follow_the_paths<W: World, T: Talk<W::Link>>()
    ensures follows { (hall : T.Contents) (first : W) (log : Bool) (paths : List (List Step))
        (total : ℕ) → TellsPaths W.World W.Link.Link T.Talk hall first paths
        → FollowsPaths W.World W.Link.Link T.Talk hall first log paths total }
    ensures spoilt { (total : ℕ) → StaysSpoilt W.World W.Link.Link T.Talk total }
{
    T::a_run_serves();
}

/// The law of what the type of a state keeps, for contracts alone, whoever has run it. A call does
/// nothing.
pub fn a_state_is_consistent<W: World, T: Talk<W::Link>>(place: &Place<W, T>)
    ensures { IsConsistent W.World W.Link.Link T.Talk place.now }
{
    let _role = &place.role;
}
