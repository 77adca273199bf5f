//! One generation of a lane.
ghost use Rattle.std.specs.Prelude.{◌≡◌, false, None, Some};
ghost use Rattle.sws_weave.specs.Begins.{IsShapedFor};
ghost use Rattle.sws_lane.specs.Generations.{IsRun, LeavesBy};
ghost use Rattle.sws_lane.specs.Keepers.{report_of};
ghost use Rattle.sws_lane.specs.Terms.{AreTerms};
ghost use Rattle.sws_lane.specs.Totals.{AddsUp, no_totals, one_generation};

use crate::keeper::Told;
use crate::lane::Terms;
use crate::totals::Totals;
use mely_worker::OpenGate;
use std::alloc::Global;
use std::sync::Wait;
use std::thread::Threads;
use sws_access::{AccessConn, Clerk, Lent, Telling};
use sws_burst::{Bursts, LoggedBursts};
use sws_conn::{Conn, Talk};
use sws_engine::{Ended, talk_all};
use sws_link::{Opened, World};
use sws_site::Site;

/// A connection by which a lane with the log serves: it tells its lines to a clerk, and its events
/// end with their first line.
pub type ToldConn<'s, L, C> = LoggedBursts<Telling<AccessConn<'s, L>, C>, L>;

/// What has come of a generation's run, and what it leaves of its world.
fn told_of<W: World + Drop>(ended: Ended<W>) -> (Option<W>, Told)
    ensures world { result.0 ≡ ended.world }
    ensures opened { result.1.opened ≡ Opened.Ready }
    ensures verdict { result.1.verdict ≡ Some ended.verdict }
    ensures counted { AddsUp one_generation ended.served.items result.1.totals }
{
    let Ended {
        verdict,
        world,
        accepted: _,
        failed: _,
        served,
        histories: _,
        trails: _,
        log: _,
    } = ended;
    let mut totals = Totals::of_one();
    totals.count_all(&served);
    let told = Told {
        opened: Opened::Ready,
        verdict: Some(verdict),
        totals,
    };
    (world, told)
}

/// A generation that was not opened, since the world answered so.
fn unopened<W: World + Drop>(world: W, opened: Opened) -> (Option<W>, Told)
    ensures world { result.0 ≡ Some world }
    ensures opened { result.1.opened ≡ opened }
    ensures unjudged { result.1.verdict ≡ None }
    ensures nothing { result.1.totals ≡ no_totals }
{
    let told = Told {
        opened,
        verdict: None,
        totals: Totals::new(),
    };
    (Some(world), told)
}

/// Serves the connections of a world that is open out of the site. It need not return.
///
/// Each event of a connection is a burst of its steps. With the log a burst ends with its first
/// line, and a connection tells its lines to a clerk of this desk; the run itself keeps none.
fn run_opened<R: Threads + Wait + Sync, W: World + Drop + Send, C: Clerk<W::Link> + Drop + Send>(
    rt: &R,
    alloc: Global,
    terms: &Terms,
    desk: C::Desk,
    site: &Site,
    world: W,
) -> Ended<W>
where
    W::Link: Send,
    C::Desk: Send,
    requires { IsShapedFor W.World terms.now.shape world false }
    ensures { IsRun W.World W.Link.Link
        ⟦<ToldConn<'static, W::Link, C> as Talk<W::Link>>⟧
        ⟦<Bursts<Conn<'static, W::Link>> as Talk<W::Link>>⟧ terms.now site.now world result }
{
    if terms.log {
        talk_all::<R, W, ToldConn<'_, W::Link, C>, OpenGate>(
            rt,
            alloc,
            Lent { hall: site, desk },
            &terms.shape,
            world,
            &OpenGate,
            false,
            false,
        )
    } else {
        talk_all::<R, W, Bursts<Conn<'_, W::Link>>, OpenGate>(
            rt,
            alloc,
            site,
            &terms.shape,
            world,
            &OpenGate,
            false,
            false,
        )
    }
}

/// Opens the world and serves its connections out of the site. It need not return.
pub fn serve_generation<
    R: Threads + Wait + Sync,
    W: World + Drop + Send,
    C: Clerk<W::Link> + Drop + Send,
>(rt: &R, alloc: Global, terms: &Terms, desk: C::Desk, site: &Site, world: W) -> (Option<W>, Told)
where
    W::Link: Send,
    C::Desk: Send,
    requires { AreTerms terms.now }
    ensures { LeavesBy W.World W.Link.Link
        ⟦<ToldConn<'static, W::Link, C> as Talk<W::Link>>⟧
        ⟦<Bursts<Conn<'static, W::Link>> as Talk<W::Link>>⟧ terms.now site.now world result.0
        (report_of result.1) }
{
    let mut world = world;
    match world.open(terms.port, terms.connections) {
        Opened::Ready => {}
        Opened::Failed => return unopened(world, Opened::Failed),
        Opened::Memory => return unopened(world, Opened::Memory),
    }
    told_of(run_opened::<R, W, C>(rt, alloc, terms, desk, site, world))
}
