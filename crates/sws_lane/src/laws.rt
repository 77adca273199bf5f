//! A law, for contracts alone: the events of a connection whose log is kept.
ghost use Rattle.std.specs.Prelude.{List, map};
ghost use Rattle.sws_link.specs.Scripts.{Script};
ghost use Rattle.sws_site.specs.Site.{SiteState};
ghost use Rattle.sws_site.specs.Limits.{IsWithinLimits};
ghost use Rattle.sws_conn.specs.Logs.{steps_of};
ghost use Rattle.sws_burst.specs.LoggedBursts.{events_of};
ghost use Rattle.sws_weave.specs.Openings.{AreOpened};

use sws_weave::each_path_opens_once;

/// The events of each script, by bursts that keep a log, begin with the opening and have no other.
/// So the histories of a generation with one worker and a log, over a world whose links answer by
/// scripts, are those of the definition of a run on these events. A call does nothing.
pub fn logged_bursts_open_once()
    ensures { (site : SiteState) (scripts : List Script) → IsWithinLimits site.files
        → AreOpened (map events_of (map (steps_of site) scripts)) }
{
    each_path_opens_once();
}
