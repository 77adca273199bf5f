//! Who keeps a lane going.
ghost use Rattle.std.specs.Prelude.{◌≡◌, List, Option};
ghost use Rattle.sws_lane.specs.Keepers.{Heard, IsCalled, KeeperCall, asked, report_of};
ghost use Rattle.sws_site.specs.Site.{SiteState};

use crate::totals::Totals;
use sws_engine::Verdict;
use sws_link::Opened;
use sws_site::Site;

/// How a generation has ended.
#[derive(Drop)]
pub struct Told {
    /// How the world has answered when it was opened. Unless it was ready, nothing was served.
    pub opened: Opened,

    /// How the run was judged, where there was one.
    pub verdict: Option<Verdict>,

    /// What has come of its connections.
    pub totals: Totals,
}

/// Says whether a further generation is to begin, and over which site, and hears how each ended.
///
/// It tells contracts its site, and where it remembers them the calls that were made of it.
pub trait Keeper {
    /// The site of the generation that began last.
    ghost site_of: { Self → SiteState };

    /// The calls of [`begin`](Keeper::begin) and [`end`](Keeper::end) so far, in order, where they
    /// are known.
    ghost calls_of: { Self → Option (List KeeperCall) };

    /// Whether a further generation is to begin; then its site is there. It may wait before it
    /// answers.
    fn begin(&mut self) -> bool
        ensures { IsCalled calls_of self.old (asked result (site_of self.new)) self.new };

    /// The site of the generation that began last.
    fn site(&self) -> &Site
        ensures { result.now ≡ site_of self.now };

    /// The generation that began last has ended so.
    fn end(&mut self, told: Told)
        ensures { IsCalled calls_of self.old (Heard (report_of told)) self.new };
}
