//! Laws, for contracts alone: the paths of scripts, and runs of the definition that were worked out.
ghost use Rattle.std.specs.Prelude.{List, map};
ghost use Rattle.sws_link.specs.Scripts.{Script};
ghost use Rattle.sws_site.specs.Site.{SiteState};
ghost use Rattle.sws_site.specs.Limits.{IsWithinLimits};
ghost use Rattle.sws_conn.specs.Logs.{steps_of};
ghost use Rattle.sws_weave.specs.Openings.{AreOpened};
ghost use Rattle.sws_weave.specs.ServerRows.{WorkedSchedules};

/// The path of each script begins with the opening and has no other. A call does nothing.
pub fn each_path_opens_once()
    ensures { (site : SiteState) (scripts : List Script) → IsWithinLimits site.files
        → AreOpened (map (steps_of site) scripts) }
{}

/// Three schedules of two cores, one of them with the log, write by the definition of a run the
/// histories that were worked out apart from it, whatever the site is. A call does nothing.
pub fn worked_schedules_hold()
    ensures { (site : SiteState) → IsWithinLimits site.files → WorkedSchedules site }
{}
