//! What holds of all replays.
ghost use Rattle.std.specs.Prelude.{◌≡◌, ℕ, Bool, true, List};
ghost use Rattle.mely_history.specs.declared.shape.Shape.{Shape};
ghost use Rattle.sws_script.specs.declared.input.Input.{Input};
ghost use Rattle.sws_script.specs.declared.input.ScriptConn.{ScriptConn};
ghost use Rattle.sws_site.specs.Site.{SiteState};
ghost use Rattle.sws_replay.specs.Accepted.{EndsAccepted};
ghost use Rattle.sws_replay.specs.Expected.{Expected, by_http};
ghost use Rattle.sws_replay.specs.Replays.{IsReplay, IsScheduledReplay};

/// A schedule has one text, with the log and without: over one site, shape and input no two texts
/// are a scheduled replay's. A call does nothing.
pub fn a_schedule_has_one_text()
    ensures { (site : SiteState) (shape : Shape) (input : Input) (log : Bool) (one other : List ℕ)
        → IsScheduledReplay site shape input log one → IsScheduledReplay site shape input log other
        → one ≡ other }
{}

/// What a replay writes ends, where it has a journal, in one that a checker of journals accepts: it
/// is that of a legal and drained run of the same shape, with as many connections, and with the log
/// or without it. The one premise is that it has fewer lines than a checker reads, 4,294,967,294 at
/// most. A call does nothing.
pub fn a_replays_journal_is_accepted()
    ensures replayed { (expected : Expected) (shape : Shape) (conns : List ScriptConn) (log : Bool)
        (text : List ℕ) → IsReplay expected shape conns log true text
        → EndsAccepted expected shape conns log text }
    ensures scheduled { (site : SiteState) (shape : Shape) (input : Input) (log : Bool)
        (text : List ℕ) → IsScheduledReplay site shape input log text
        → EndsAccepted (by_http site) shape input.conns log text }
{}
