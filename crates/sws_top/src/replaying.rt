//! The command `replay`: a script, run in memory.
ghost use Rattle.std.specs.Prelude.{◌≡◌, ◌≤◌, true, length};
ghost use Rattle.sws_replay.specs.Expected.{of_talk};
ghost use Rattle.sws_link.specs.Limits.{conn_limit};
ghost use Rattle.sws_script.specs.Inputs.{IsInput};
ghost use Rattle.sws_top.specs.Faults.{fault_of};
ghost use Rattle.sws_top.specs.Hands.{hands};
ghost use Rattle.sws_top.specs.RanReplay.{RanReplay, RunsSchedule, RunsScript};
ghost use Rattle.sws_top.specs.Ranges.{IsDate, IsRunShape};

use crate::faults::{TopFault, run_fault};
use crate::scripts::read_input;
use crate::sites::open_site;
use mely_history::Shape;
use std::sync::Wait;
use std::thread::Threads;
use sws_conn::{Conn, Talk};
use sws_link::{Folder, MemLink, Sink, Source};
use sws_replay::{replay_by_schedule, replay_talks};
use sws_site::Site;

/// How a script is run, and what is written of it.
#[derive(Clone, Copy, Debug)]
pub struct Replaying {
    pub shape: Shape,
    /// Whether the run's histories are written too.
    pub journal: bool,
    /// Whether a schedule stands before the script, by which it is run.
    pub schedule: bool,
    /// Whether the access log is kept and written too.
    pub log: bool,
}

/// Runs `replay`: on the site of the folder, the script that the source gives.
pub fn replay_source<T: AllocGlobal + Threads + Wait + Sync, F: Folder, R: Source, O: Sink>(
    rt: &T,
    path: &str,
    date: Option<u64>,
    how: &Replaying,
    folder: &mut F,
    source: &mut R,
    out: &mut O,
) -> Result<(), TopFault>
    requires date { IsDate date }
    requires shape { IsRunShape how.now.shape }
    ensures { RanReplay F.Folder R.Source O.Sink (hands folder.old source.old out.old)
        (hands folder.new source.new out.new) (fault_of result)
        path.now how.now.shape date how.now.journal how.now.schedule how.now.log }
{
    let site = match open_site(rt.alloc(), path, date, folder) {
        Ok(site) => site,
        Err(fault) => return Err(fault),
    };
    if how.schedule {
        return replay_schedule(rt, &site, &how.shape, how.log, source, out);
    }
    replay_script::<T, Conn<'_, MemLink>, R, O>(
        rt,
        &site,
        &how.shape,
        how.journal,
        how.log,
        source,
        out,
    )
}

/// Reads the source as a script, runs it by talks of one hall, and writes its text.
pub fn replay_script<
    T: AllocGlobal + Threads + Wait + Sync,
    K: Talk<MemLink> + Drop + Send,
    R: Source,
    O: Sink,
>(
    rt: &T,
    hall: K::Hall,
    shape: &Shape,
    journal: bool,
    log: bool,
    source: &mut R,
    out: &mut O,
) -> Result<(), TopFault>
where
    K::Hall: Send,
    requires { IsRunShape shape.now }
    ensures { RunsScript R.Source O.Sink source.old source.new out.old out.new (fault_of result)
        (of_talk K.Talk (K.contents_of hall)) shape.now log journal }
{
    let alloc = rt.alloc();
    let input = match read_input(alloc, source, false, shape.cores) {
        Ok(input) => input,
        Err(fault) => return Err(fault),
    };
    let conns = input.conns.as_slice();
    match replay_talks::<T, K, O>(rt, alloc, hall, shape, conns, journal, log, out) {
        Ok(()) => Ok(()),
        Err(fault) => Err(run_fault(fault)),
    }
}

/// Reads the source as a schedule and a script, runs this by HTTP out of a site as that says, and
/// writes its text.
fn replay_schedule<T: AllocGlobal + Wait, R: Source, O: Sink>(
    rt: &T,
    site: &Site,
    shape: &Shape,
    log: bool,
    source: &mut R,
    out: &mut O,
) -> Result<(), TopFault>
    requires { IsRunShape shape.now }
    ensures { RunsSchedule R.Source O.Sink source.old source.new out.old out.new (fault_of result)
        site.now shape.now log }
{
    let alloc = rt.alloc();
    let input = match read_input(alloc, source, true, shape.cores) {
        Ok(input) => input,
        Err(fault) => return Err(fault),
    };
    match replay_by_schedule(rt, alloc, site, shape, &input, log, out) {
        Ok(()) => Ok(()),
        Err(fault) => Err(run_fault(fault)),
    }
}
