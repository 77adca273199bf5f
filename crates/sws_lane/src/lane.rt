//! A lane, and how its generations are served.
ghost use Rattle.std.specs.Prelude.{◌≡◌, Some};
ghost use Rattle.sws_lane.specs.Totals.{no_totals};

use crate::keeper::Keeper;
use crate::totals::Totals;
use mely_history::Shape;
use sws_link::World;

/// How each generation of a lane is served.
#[derive(Clone, Copy, Debug)]
pub struct Terms {
    /// The port at which the world is opened.
    pub port: u16,

    /// How many connections a generation has at most, 1 to 1,024.
    pub connections: u16,
    pub shape: Shape,

    /// Whether connections tell the lines of an access log.
    pub log: bool,
}

/// A world, who keeps the lane going, and what has come of the generations that were served over
/// the world.
#[derive(Drop)]
pub struct Lane<W: World, K: Keeper> {
    /// The world, unless a generation has lost it.
    pub world: Option<W>,
    pub keeper: K,
    pub totals: Totals,
}

impl<W: World, K: Keeper> Lane<W, K> {
    /// A lane over this world, of which nothing was served.
    pub fn new(world: W, keeper: K) -> Lane<W, K>
        ensures world { result.world ≡ Some world }
        ensures keeper { result.keeper ≡ keeper }
        ensures nothing { result.totals ≡ no_totals }
    {
        Lane {
            world: Some(world),
            keeper,
            totals: Totals::new(),
        }
    }
}
