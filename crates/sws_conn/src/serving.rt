//! A whole connection, run to its end in one call.
ghost use Rattle.std.specs.Prelude.{◌≡◌, true, false, None, IfOk, IfErr};
ghost use Rattle.sws_link.specs.Counts.{Rose};
ghost use Rattle.sws_link.specs.Links.{IsInitialLink};
ghost use Rattle.sws_steps.specs.Step.{wait_limit};
ghost use Rattle.sws_steps.specs.Run.{HasEnded};
ghost use Rattle.sws_conn.specs.Http.{http};
ghost use Rattle.sws_conn.specs.Serving.{EndsAs, Serves, RoseBy, KeepsBy};

use crate::End;
use crate::http::Conn;
use std::alloc::Global;
use sws_link::Link;
use sws_site::Site;

/// Runs a connection to its end, and gives the link back, which is then shut, with that.
///
/// The run is one step after another from the opening to the close, so all that is said of a run
/// holds of it: a read follows only where all was answered, and `Idle` means that the link was not
/// ready 30 times in succession.
///
/// What was written begins the responses to the bytes that were taken; where the end is `Done` it
/// is the responses to the whole input. A link that tells its answers to come gets exactly what its
/// script says, and ends so, unless it found no memory in a write. `Fault` comes only where the
/// link's count of faults rose, and `Idle` only where it was not ready 30 times more, or that count
/// is full. `Done` comes only where the input has ended, as many bytes were taken as the site lets
/// count or an answer closes, and at a fault of reading all that was taken has been answered.
///
/// Where the room for the connection was refused, the link comes back as it was.
pub fn serve_one<L: Link + Drop>(alloc: Global, site: &Site, link: L) -> Result<(L, End), L>
    requires initial { IsInitialLink (L.tells link) }
    requires not_shut { L.is_shut link ≡ false }
    ensures ran { IfOk result (λ served. HasEnded http L.Link site.now link served.0 served.1) }
    ensures scripted { IfOk result (λ served.
        EndsAs site.now (L.tells link) (L.tells served.0) served.1) }
    ensures serves { IfOk result (λ served.
        Serves site.now (L.tells link) (L.tells served.0) served.1) }
    ensures shut { IfOk result (λ served. L.is_shut served.0 ≡ true) }
    ensures fault { IfOk result (λ served. served.1 ≡ End.Fault
        → Rose (L.faults link) (L.faults served.0)) }
    ensures idle { IfOk result (λ served. served.1 ≡ End.Idle
        → RoseBy wait_limit (L.waits link) (L.waits served.0)) }
    ensures kept { IfOk result (λ served. L.since link None link
        → KeepsBy L.Link site.now link served.0 served.1) }
    ensures refused { IfErr result (λ back. back ≡ link) }
{
    let mut conn = match Conn::new(alloc, site) {
        Ok(conn) => conn,
        Err(_) => return Err(link),
    };
    match conn.open(link) {
        Ok(_) => {}
        Err(link) => return Err(link),
    }
    'steps: loop {
        if let Some(end) = conn.end() {
            return match conn.into_link() {
                Some(link) => Ok((link, end)),
                None => unreachable!(),
            };
        }
        conn.step();
    }
}
