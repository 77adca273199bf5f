//! A script run by talks of a hall, with what is written of it.
ghost use Rattle.std.specs.Prelude.{◌≡◌, ◌≤◌, true, None, length};
ghost use Rattle.mely_history.specs.Setup.{first_out_of_range};
ghost use Rattle.sws_link.specs.Counts.{HasCause};
ghost use Rattle.sws_script.specs.Inputs.{IsInput};
ghost use Rattle.sws_replay.specs.Expected.{by_http, of_talk};
ghost use Rattle.sws_replay.specs.OfInput.{AreOfInput};
ghost use Rattle.sws_replay.specs.Replays.{IsReplay, IsScheduledReplay, WritesOne, result_of};
ghost use Rattle.sws_handlers.specs.Counting.{colours_over};
ghost use Rattle.sws_link.specs.Limits.{conn_limit};

use crate::fault::RunFault;
use crate::running::{run_steps, run_talks};
use crate::writing::write_run;
use mely_history::Shape;
use std::alloc::Global;
use std::sync::Wait;
use std::thread::Threads;
use sws_conn::{Conn, Talk};
use sws_link::{MemLink, Put, Sink};
use sws_script::{Input, ScriptConn};
use sws_site::Site;

/// Serves the connections of a script out of a site, with a thread for each of several workers, and
/// writes their transcript; where they are asked for, the lines of the access log behind it, and
/// the journal of the shards' histories behind these. It need not return.
///
/// The transcript is the one-core transcript, whatever the shape is and however the threads run.
/// The log has a line for each answer that was written whole. The lines of one connection stand in
/// the order of its answers; those of all stand in the order in which their events of the log's
/// colour were run, as the journal tells it.
///
/// # Errors
///
/// - `Write` only where the sink failed in this call. Without it the sink's count of
///   faults stands as it was.
/// - `Memory` where an allocation was refused.
pub fn replay<'s, R: Threads + Wait + Sync, O: Sink>(
    rt: &R,
    alloc: Global,
    site: &'s Site,
    shape: &Shape,
    conns: &[ScriptConn],
    journal: bool,
    log: bool,
    out: &mut O,
) -> Result<(), RunFault>
    requires shape { first_out_of_range shape.now (colours_over (length conns.now) log) 1 ≡ None }
    requires few { length conns.now ≤ conn_limit }
    requires conns { AreOfInput conns.now }
    ensures writes { WritesOne (IsReplay (by_http site.now) shape.now conns.now log journal)
        (O.written out.old) (O.written out.new) result }
    ensures cause { HasCause (O.faults out.old) (O.faults out.new) (result ≡ Err RunFault.Write) }
{
    replay_talks::<R, Conn<'s, MemLink>, O>(rt, alloc, site, shape, conns, journal, log, out)
}

/// Serves the connections of a script by talks of one hall, as [`replay`] does by HTTP out of a
/// site, and writes what that writes. It need not return.
///
/// # Errors
///
/// - `Write` only where the sink failed in this call. Without it the sink's count of
///   faults stands as it was.
/// - `Memory` where an allocation was refused.
pub fn replay_talks<R: Threads + Wait + Sync, T: Talk<MemLink> + Drop + Send, O: Sink>(
    rt: &R,
    alloc: Global,
    hall: T::Hall,
    shape: &Shape,
    conns: &[ScriptConn],
    journal: bool,
    log: bool,
    out: &mut O,
) -> Result<(), RunFault>
where
    T::Hall: Send,
    requires shape { first_out_of_range shape.now (colours_over (length conns.now) log) 1 ≡ None }
    requires few { length conns.now ≤ conn_limit }
    requires conns { AreOfInput conns.now }
    ensures writes { WritesOne
        (IsReplay (of_talk T.Talk (T.contents_of hall)) shape.now conns.now log journal)
        (O.written out.old) (O.written out.new) result }
    ensures cause { HasCause (O.faults out.old) (O.faults out.new) (result ≡ Err RunFault.Write) }
{
    let ended = run_talks::<R, T>(rt, alloc, hall, shape, conns, log, journal)?;
    fault_of(write_run(alloc, out, ended, journal))
}

/// Serves the connections of an input out of a site on one thread, by its schedule, and writes
/// their transcript, the lines of the access log where that is asked for, and the journal of the
/// shards' histories. It need not return.
///
/// The schedule leaves no choice: there is one text that may be written (see
/// [`a_schedule_has_one_text`]).
///
/// [`a_schedule_has_one_text`]: crate::laws::a_schedule_has_one_text
///
/// # Errors
///
/// - `Write` only where the sink failed in this call. Without it the sink's count of
///   faults stands as it was.
/// - `Memory` where an allocation was refused.
pub fn replay_by_schedule<R: Wait, O: Sink>(
    rt: &R,
    alloc: Global,
    site: &Site,
    shape: &Shape,
    input: &Input,
    log: bool,
    out: &mut O,
) -> Result<(), RunFault>
    requires shape { first_out_of_range shape.now (colours_over (length input.now.conns) log) 1
        ≡ None }
    requires few { length input.now.conns ≤ conn_limit }
    requires input { IsInput true shape.now.cores input.now }
    ensures writes { WritesOne (IsScheduledReplay site.now shape.now input.now log)
        (O.written out.old) (O.written out.new) result }
    ensures cause { HasCause (O.faults out.old) (O.faults out.new) (result ≡ Err RunFault.Write) }
{
    let conns = input.conns.as_slice();
    let steps = input.steps.as_slice();
    let ended = run_steps(rt, alloc, site, shape, conns, steps, log, true)?;
    fault_of(write_run(alloc, out, ended, true))
}

/// How a replay ends by its last write.
fn fault_of(put: Put) -> Result<(), RunFault>
    ensures { result ≡ result_of put }
{
    match put {
        Put::Done => Ok(()),
        Put::Failed => Err(RunFault::Write),
        Put::Memory => Err(RunFault::Memory),
    }
}
