//! A script run by talks of a hall, by threads or by a schedule.
ghost use Rattle.std.specs.Prelude.{◌≡◌, ◌≤◌, ◌<◌, ◌^◌, All, None, IfOk, IfErr, MatchResult, length, map, sum_by};
ghost use Rattle.mely_history.specs.Setup.{first_out_of_range};
ghost use Rattle.sws_handlers.specs.Counting.{colours_over};
ghost use Rattle.sws_weave.specs.ServerRun.{IsServerRun};
ghost use Rattle.sws_link.specs.MemWorlds.{mem_world_tells};
ghost use Rattle.sws_script.specs.Scripted.{script_of, told_of};
ghost use Rattle.sws_replay.specs.Expected.{by_http, of_talk};
ghost use Rattle.sws_replay.specs.OfInput.{AreOfInput};
ghost use Rattle.sws_replay.specs.Runs.{AreListedAs, HasLostNothing, RunsWell, histories_of};
ghost use Rattle.sws_link.specs.Limits.{conn_limit};

use crate::fault::RunFault;
use mely_history::Shape;
use mely_worker::OpenGate;
use std::alloc::Global;
use std::sync::Wait;
use std::thread::Threads;
use sws_conn::{Conn, Talk};
use sws_engine::{Ended, Verdict, serve_steps, talk_all};
use sws_link::{MemLink, MemWorld};
use sws_script::{ScriptConn, script_world};
use sws_site::Site;

/// Serves the connections of a script out of a site, with a thread for each of several workers, and
/// gives what the run leaves, with the access log and with histories that are listed where these
/// are asked for. It need not return.
///
/// However the threads run, each connection is served as if it were alone.
///
/// # Errors
///
/// `Memory` where an allocation was refused. There is no other.
pub fn run_script<'s, R: Threads + Wait + Sync>(
    rt: &R,
    alloc: Global,
    site: &'s Site,
    shape: &Shape,
    conns: &[ScriptConn],
    log: bool,
    listed: bool,
) -> Result<Ended<MemWorld>, RunFault>
    requires shape { first_out_of_range shape.now (colours_over (length conns.now) log) 1 ≡ None }
    requires few { length conns.now ≤ conn_limit }
    requires conns { AreOfInput conns.now }
    ensures ran { IfOk result (λ ended. RunsWell (by_http site.now) shape.now conns.now log ended) }
    ensures listed { IfOk result (AreListedAs listed) }
    ensures refused { IfErr result (λ fault. fault ≡ RunFault.Memory) }
{
    run_talks::<R, Conn<'s, MemLink>>(rt, alloc, site, shape, conns, log, listed)
}

/// Serves the connections of a script by talks of one hall, with a thread for each of several
/// workers, and gives what the run leaves, with the access log and with histories that are listed
/// where these are asked for. It need not return.
///
/// However the threads run, each connection is served as if it were alone.
///
/// # Errors
///
/// `Memory` where an allocation was refused. There is no other.
pub fn run_talks<R: Threads + Wait + Sync, T: Talk<MemLink> + Drop + Send>(
    rt: &R,
    alloc: Global,
    hall: T::Hall,
    shape: &Shape,
    conns: &[ScriptConn],
    log: bool,
    listed: bool,
) -> Result<Ended<MemWorld>, RunFault>
where
    T::Hall: Send,
    requires shape { first_out_of_range shape.now (colours_over (length conns.now) log) 1 ≡ None }
    requires few { length conns.now ≤ conn_limit }
    requires conns { AreOfInput conns.now }
    ensures ran { IfOk result (λ ended.
        RunsWell (of_talk T.Talk (T.contents_of hall)) shape.now conns.now log ended) }
    ensures listed { IfOk result (AreListedAs listed) }
    ensures refused { IfErr result (λ fault. fault ≡ RunFault.Memory) }
{
    let world = make_world(alloc, conns)?;
    given(talk_all::<R, MemWorld, T, OpenGate>(
        rt, alloc, hall, shape, world, &OpenGate, log, listed,
    ))
}

/// What a run gives that has lost nothing: all that it leaves, where it went well.
///
/// # Errors
///
/// `Memory` exactly where the run has ended for want of it.
fn given(ended: Ended<MemWorld>) -> Result<Ended<MemWorld>, RunFault>
    requires { HasLostNothing ended.verdict }
    ensures { MatchResult result (λ given. (given ≡ ended) × (ended.verdict ≡ Verdict.Ok))
        (λ fault. (fault ≡ RunFault.Memory) × (ended.verdict ≡ Verdict.Memory)) }
{
    match ended.verdict {
        Verdict::Ok => Ok(ended),
        Verdict::Memory => Err(RunFault::Memory),
        Verdict::World | Verdict::Apart { .. } => unreachable!(),
    }
}

/// Serves the connections of a script out of a site on one thread: the schedule's steps of each
/// core, and then rounds of one step a core until nothing is left; with the access log and with
/// histories that are listed where these are asked for. It need not return.
///
/// # Errors
///
/// `Memory` where an allocation was refused. There is no other.
pub fn run_steps<R: Wait>(
    rt: &R,
    alloc: Global,
    site: &Site,
    shape: &Shape,
    conns: &[ScriptConn],
    schedule: &[(u16, u32)],
    log: bool,
    listed: bool,
) -> Result<Ended<MemWorld>, RunFault>
    requires shape { first_out_of_range shape.now (colours_over (length conns.now) log) 1 ≡ None }
    requires few { length conns.now ≤ conn_limit }
    requires conns { AreOfInput conns.now }
    requires cores { All (λ part. part.0 < shape.now.cores) schedule.now }
    requires count { sum_by (λ part. part.1) schedule.now < 2 ^ 64 }
    ensures ran { IfOk result (λ ended. RunsWell (by_http site.now) shape.now conns.now log ended) }
    ensures scheduled { IfOk result (λ ended.
        IsServerRun shape.now log site.now (map script_of conns.now) schedule.now
        (histories_of ended)) }
    ensures listed { IfOk result (AreListedAs listed) }
    ensures refused { IfErr result (λ fault. fault ≡ RunFault.Memory) }
{
    let world = make_world(alloc, conns)?;
    given(serve_steps(rt, alloc, site, shape, world, schedule, log, listed))
}

/// The world of the connections.
fn make_world(alloc: Global, conns: &[ScriptConn]) -> Result<MemWorld, RunFault>
    requires few { length conns.now ≤ conn_limit }
    requires conns { AreOfInput conns.now }
    ensures tells { IfOk result (λ world. mem_world_tells world ≡ told_of conns.now) }
    ensures refused { IfErr result (λ fault. fault ≡ RunFault.Memory) }
{
    match script_world(alloc, conns) {
        Ok(world) => Ok(world),
        Err(_) => Err(RunFault::Memory),
    }
}
