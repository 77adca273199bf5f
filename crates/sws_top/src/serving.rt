//! The command `serve`: connections from outside.
ghost use Rattle.std.specs.Prelude.{◌≡◌, ◌<◌, ◌≤◌, ◌^◌, ◌++◌, IfOk, sum_by};
ghost use Rattle.sws_link.specs.Contents.{Puts};
ghost use Rattle.sws_link.specs.Counts.{HasCause};
ghost use Rattle.sws_log.specs.Lines.{log_text};
ghost use Rattle.sws_steps.specs.Protocol.{most_input, most_output};
ghost use Rattle.sws_top.specs.Faults.{put_fault_of, status_of};
ghost use Rattle.sws_top.specs.RanServe.{ends_of, summary_of, CanSumUp, EndsBy, IsServeEnd, RanServe};
ghost use Rattle.sws_top.specs.Ranges.{IsBetween, IsDate, IsRunShape};
ghost use Rattle.sws_link.specs.Limits.{conn_limit};

use crate::faults::TopFault;
use crate::outcomes::Outcome;
use crate::sites::open_site;
use mely_history::Shape;
use mely_worker::OpenGate;
use std::alloc::{AllocError, Global};
use std::sync::Wait;
use std::thread::Threads;
use sws_conn::{Conn, End, Talk};
use sws_engine::{Served, Verdict, talk_all};
use sws_link::{Folder, Link, Opened, Put, Sink, World};
use sws_log::{LogLine, write_log};
use sws_report::write_summary;

/// Where connections come in, and how they are served.
#[derive(Clone, Copy, Debug)]
pub struct Serving {
    /// 1 to 65,535.
    pub port: u16,
    /// How many connections are served, 1 to 1,024.
    pub connections: u16,
    pub shape: Shape,
    /// Whether the access log is kept and written too.
    pub log: bool,
}

/// Runs `serve`: on the site of the folder, the connections that the world gives.
pub fn serve<T: AllocGlobal + Threads + Wait + Sync, F: Folder, W: World + Drop + Send, O: Sink>(
    rt: &T,
    path: &str,
    date: Option<u64>,
    how: &Serving,
    folder: &mut F,
    world: W,
    out: &mut O,
) -> Outcome<W>
where
    W::Link: Send,
    requires date { IsDate date }
    requires shape { IsRunShape how.now.shape }
    requires connections { IsBetween 1 conn_limit how.now.connections }
    ensures status { result.status ≡ status_of result.fault }
    ensures ran { RanServe F.Folder W.World W.Link.Link O.Sink
        ⟦<Conn<'static, W::Link> as Talk<W::Link>>⟧
        folder.old folder.new out.old out.new world result
        path.now how.now.port how.now.connections how.now.shape date how.now.log }
{
    match open_site(rt.alloc(), path, date, folder) {
        Ok(site) => serve_hall::<T, W, Conn<'_, W::Link>, O>(rt, &site, how, world, out),
        Err(fault) => Outcome::without_run(world, Err(fault)),
    }
}

/// No connection counts so much that the sums of a run don't fit 64 bits, for contracts alone. A
/// call does nothing.
fn little_counts<L: Link, T: Talk<L>>()
    ensures input { (hall : T.Contents) → T.input_limit hall ≤ most_input }
    ensures output { (hall : T.Contents) → T.output_limit hall < most_output }
{}

/// Serves the connections that the world gives by talks of one hall, and writes the lines of the
/// log where that is kept, and their summary.
pub fn serve_hall<
    T: AllocGlobal + Threads + Wait + Sync,
    W: World + Drop + Send,
    K: Talk<W::Link> + Drop + Send,
    O: Sink,
>(rt: &T, hall: K::Hall, how: &Serving, world: W, out: &mut O) -> Outcome<W>
where
    W::Link: Send,
    K::Hall: Send,
    requires shape { IsRunShape how.now.shape }
    requires connections { IsBetween 1 conn_limit how.now.connections }
    ensures status { result.status ≡ status_of result.fault }
    ensures served { IsServeEnd W.World W.Link.Link O.Sink K.Talk
        out.old out.new world result how.now.port how.now.connections how.now.shape how.now.log
        (K.contents_of hall) }
{
    let mut world = world;
    little_counts::<W::Link, K>();
    match world.open(how.port, how.connections) {
        Opened::Ready => {}
        Opened::Failed => return Outcome::without_run(world, Err(TopFault::WorldFault)),
        Opened::Memory => return Outcome::without_run(world, Err(TopFault::Memory)),
    }
    let alloc = rt.alloc();
    let ended = talk_all::<T, W, K, OpenGate>(
        rt, alloc, hall, &how.shape, world, &OpenGate, how.log, false,
    );
    let fault = write_end(alloc, ended.verdict, &ended.log, &ended.served, out);
    Outcome::of_run(ended, fault)
}

/// The fault of a run by its verdict; where all was served, the lines of its log are written, of
/// which there are none without it, and the summary.
fn write_end<L, O: Sink>(
    alloc: Global,
    verdict: Verdict,
    lines: &[LogLine],
    served: &[Served<L>],
    out: &mut O,
) -> Option<TopFault>
    requires { verdict ≡ Verdict.Ok → CanSumUp served.now }
    ensures { EndsBy O.Sink out.old out.new result lines.now served.now verdict }
{
    match verdict {
        Verdict::Ok => put_fault(write_all(alloc, lines, served, out)),
        Verdict::World => Some(TopFault::WorldFault),
        Verdict::Apart { conn } => Some(TopFault::Apart { conn }),
        Verdict::Memory => Some(TopFault::Memory),
    }
}

/// Writes the lines of a log, and the summary of connections, each of which has ended.
fn write_all<L, O: Sink>(alloc: Global, lines: &[LogLine], served: &[Served<L>], out: &mut O) -> Put
    requires { CanSumUp served.now }
    ensures text { Puts (O.written out.old) (O.written out.new) result
        (log_text lines.now ++ summary_of served.now) }
    ensures cause { HasCause (O.faults out.old) (O.faults out.new) (result ≡ Put.Failed) }
{
    match write_log(alloc, out, lines) {
        Put::Done => sum_up(alloc, served, out),
        stopped => stopped,
    }
}

/// Writes the summary of connections, each of which has ended.
fn sum_up<L, O: Sink>(alloc: Global, served: &[Served<L>], out: &mut O) -> Put
    requires { CanSumUp served.now }
    ensures text { Puts (O.written out.old) (O.written out.new) result (summary_of served.now) }
    ensures cause { HasCause (O.faults out.old) (O.faults out.new) (result ≡ Put.Failed) }
{
    match ends(alloc, served) {
        Ok(ends) => write_summary(alloc, out, &ends, read_of(served), written_of(served)),
        Err(_) => Put::Memory,
    }
}

/// How many bytes were read in all.
fn read_of<L>(served: &[Served<L>]) -> u64
    requires { sum_by (λ s. s.read) served.now < 2 ^ 64 }
    ensures { result ≡ sum_by (λ s. s.read) served.now }
{
    served.iter().map(|s| s.read).sum()
}

/// How many bytes were written in all.
fn written_of<L>(served: &[Served<L>]) -> u64
    requires { sum_by (λ s. s.written) served.now < 2 ^ 64 }
    ensures { result ≡ sum_by (λ s. s.written) served.now }
{
    served.iter().map(|s| s.written).sum()
}

/// How the connections ended.
fn ends<L>(alloc: Global, served: &[Served<L>]) -> Result<Vec<End>, AllocError>
    ensures { IfOk result (λ ends. ends.items ≡ ends_of served.now) }
{
    served.iter().filter_map(|s| s.end).collect(alloc)
}

/// The fault of a run by its last write.
fn put_fault(put: Put) -> Option<TopFault>
    ensures { result ≡ put_fault_of put }
{
    match put {
        Put::Done => None,
        Put::Failed => Some(TopFault::WriteFault),
        Put::Memory => Some(TopFault::Memory),
    }
}
