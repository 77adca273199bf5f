//! What holds of the path of a scripted connection, and of the events that a connection runs.
ghost use Rattle.std.specs.Prelude.{◌≡◌, ℕ, false, List, map, Option, Some, [], ◌∷◌, ◌++◌};
ghost use Rattle.sws_link.specs.Contents.{IsPrefix};
ghost use Rattle.sws_link.specs.Links.{IsInitialLink};
ghost use Rattle.sws_link.specs.Scripts.{Script, wait};
ghost use Rattle.sws_site.specs.Site.{SiteState};
ghost use Rattle.sws_site.specs.Limits.{IsWithinLimits};
ghost use Rattle.sws_steps.specs.declared.End.{End as EndValue};
ghost use Rattle.sws_steps.specs.declared.Next.{Next as NextValue};
ghost use Rattle.sws_steps.specs.Step.{going_to, Steps};
ghost use Rattle.sws_steps.specs.Sound.{core_before_open, IsReadyTo, IsSound};
ghost use Rattle.sws_steps.specs.Outcome.{UnlessMemory};
ghost use Rattle.sws_steps.specs.declared.Handler.{Handler};
ghost use Rattle.sws_steps.specs.Path.{Scripted, IsPathFrom, event_of, scripted_step, rest_of_path, known_path, known_rest, TakesOff};
ghost use Rattle.sws_steps.specs.Run.{conn_at_open, HasRun, EndsRun};
ghost use Rattle.sws_conn.specs.Http.{http};
ghost use Rattle.sws_conn.specs.Conn.{ConnState};
ghost use Rattle.sws_conn.specs.Path.{path_of};
ghost use Rattle.sws_log.specs.declared.line.LogLine.{LogLine};
ghost use Rattle.sws_conn.specs.Logs.{log_of, steps_of, HasGiven, IsLogWithin, IsLogPrefix, NumbersFrom};

use sws_link::Link;

/// A connection has one path, and `path_of` is it, for each site that can be loaded. It begins with
/// the opening and ends with the close. Where a connection stands as it may, the rest of the path
/// begins with the event of the pending step, and what follows is the rest of the path after that
/// step. `pause` is an example: a link that is not ready once, and then at its end.
pub fn a_path_is_of_steps()
    ensures is { (site : SiteState) (script : Script) → IsWithinLimits site.files
        → IsPathFrom http (record { standing = core_before_open site; script = script })
        (path_of site script) }
    ensures alone { (from : Scripted SiteState) (one other : List Handler)
        → IsPathFrom http from one → IsPathFrom http from other → one ≡ other }
    ensures open { (site : SiteState) (script : Script) → path_of site script ≡ Handler.Open
        ∷ rest_of_path http (going_to (core_before_open site) NextValue.Read) script }
    ensures close { (site : SiteState) (script : Script) → IsWithinLimits site.files
        → (before : List Handler) × (path_of site script ≡ before ++ Handler.Close ∷ []) }
    ensures pause { (site : SiteState) (step cut : Option ℕ) → IsWithinLimits site.files
        → path_of site (record { items = wait 1 ∷ []; step = step; cut = cut })
        ≡ Handler.Open ∷ Handler.Read ∷ Handler.Resume ∷ Handler.Parse ∷ Handler.Close ∷ [] }
    ensures step { (c : Scripted SiteState) → IsWithinLimits c.standing.hall.files
        → IsReadyTo http c.standing.pending c.standing
        → rest_of_path http c.standing c.script
        ≡ event_of c.standing
        ++ rest_of_path http (scripted_step http c).standing (scripted_step http c).script }
{}

/// A run of a connection, from `Conn::open` on and over all calls of `Conn::step`, each of which
/// runs the event of the pending step. At every moment the connection is sound, and the events so
/// far, with the opening, are a front of the path; at its end it has served the link, which is then
/// shut, and the events are the whole path. The path is that of a link that told its answers to
/// come, unless memory ran out.
pub fn a_run_serves_its_link<L: Link>()
    ensures start { (site : SiteState) (first : L) → IsWithinLimits site.files
        → IsInitialLink (L.tells first) → L.is_shut first ≡ false
        → HasRun http L.Link site first [] (conn_at_open site first) }
    ensures goes_on { (site : SiteState) (first : L) (trail : List Handler) (event : Handler)
        (before after : ConnState L)
        → HasRun http L.Link site first trail before → event_of before.standing ≡ event ∷ []
        → Steps http L.Link before after
        → HasRun http L.Link site first (trail ++ event ∷ []) after }
    ensures sound { (site : SiteState) (first : L) (trail : List Handler) (conn : ConnState L)
        → HasRun http L.Link site first trail conn → IsSound http L.Link conn }
    ensures path { (site : SiteState) (first : L) (trail : List Handler) (conn : ConnState L)
        → HasRun http L.Link site first trail conn
        → UnlessMemory conn.standing.end
        (TakesOff (Handler.Open ∷ trail) (known_path http site (L.tells first))
        (known_rest http L.Link conn)) }
    ensures ends { (site : SiteState) (first : L) (trail : List Handler) (conn : ConnState L)
        (now : L) (end : EndValue)
        → HasRun http L.Link site first trail conn → conn.standing.pending ≡ NextValue.Nothing
        → conn.link ≡ Some now → conn.standing.end ≡ Some end
        → EndsRun http L.Link site first trail now end }
{}

/// The log of a connection, as its steps give it: a line at each write that ends an answer.
///
/// The lines of a run are numbered from 1, and where the link told its input they are those of the
/// first answers to it, as many as have been written whole: a function of the site, the input and
/// how many bytes were written. More input brings more lines behind the first ones. The steps of a
/// scripted connection, each with whether it gives a line, are those of its path.
pub fn a_run_gives_its_log<L: Link>()
    ensures gives { (site : SiteState) (first : L) (conn : ℕ) (trail : List Handler)
        (now : ConnState L) → HasRun http L.Link site first trail now
        → (lines : List LogLine) × HasGiven L.Link site first conn trail now lines }
    ensures log { (site : SiteState) (first : L) (conn : ℕ) (trail : List Handler)
        (now : ConnState L) (lines : List LogLine)
        → HasGiven L.Link site first conn trail now lines
        → IsLogWithin (log_of site conn) (L.tells first) now.standing.written lines }
    ensures numbers { (site : SiteState) (first : L) (conn : ℕ) (trail : List Handler)
        (now : ConnState L) (lines : List LogLine)
        → HasGiven L.Link site first conn trail now lines → NumbersFrom conn 1 lines }
    ensures grows { (site : SiteState) (conn : ℕ) (front bytes : List ℕ) → IsPrefix front bytes
        → IsLogPrefix (log_of site conn front) (log_of site conn bytes) }
    ensures steps { (site : SiteState) (script : Script)
        → map (λ step. step.handler) (steps_of site script) ≡ path_of site script }
{}
