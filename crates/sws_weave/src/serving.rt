//! The server over a weave, by its own connections.
ghost use Rattle.std.specs.Prelude.{◌≡◌};
ghost use Rattle.std.specs.List.{AllByRecursion};
ghost use Rattle.sws_weave.specs.Begins.{IsScheduleOf, IsShapedFor};
ghost use Rattle.sws_weave.specs.Scripted.{IsScheduled};
ghost use Rattle.sws_weave.specs.ServerLeaves.{ServerLeaves};

use crate::laws::each_path_opens_once;
use crate::steps::talk_steps;
use mely_history::Shape;
use std::alloc::Global;
use std::sync::Wait;
use sws_conn::{Conn, Talk};
use sws_handlers::Ended;
use sws_link::{Link, World};
use sws_site::Site;

/// Serves all links of a world out of a site, over a weave: the schedule's steps of each core, and
/// then rounds of one step a core until nothing is left. The histories are listed or not, as is
/// asked.
///
/// Where the world's links answer by scripts, the histories at
/// [`Verdict::Ok`](sws_handlers::Verdict::Ok) are those of the definition of a run, and no others.
pub fn serve_steps<'s, R: Wait, W: World + Drop>(
    rt: &R,
    alloc: Global,
    site: &'s Site,
    shape: &Shape,
    world: W,
    schedule: &[(u16, u32)],
    log: bool,
    listed: bool,
) -> Ended<W>
    requires shape { IsShapedFor W.World shape.now world log }
    requires schedule { IsScheduleOf shape.now.cores schedule.now }
    ensures leaves { ServerLeaves W.World W.Link.Link ⟦<Conn<'s, W::Link> as Talk<W::Link>>⟧ shape.now
        site.now world log result }
    ensures scheduled { IsScheduled W.World site.now shape.now world log schedule.now result }
    ensures listed { AllByRecursion (λ history. history.listed ≡ listed)
        result.histories.items }
{
    site.limits();
    each_path_opens_once();
    talk_steps::<R, W, Conn<'s, W::Link>>(rt, alloc, site, shape, world, schedule, log, listed)
}
