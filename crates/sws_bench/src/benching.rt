//! A bench, from its two numbers to its summary.
ghost use Rattle.std.specs.Prelude.{◌≡◌, ◌≤◌, ◌<◌, ◌+◌, ◌^◌, All, Err, IfOk, IsSome, None, Some, map, sum_by};
ghost use Rattle.mely_history.specs.Setup.{first_out_of_range};
ghost use Rattle.sws_link.specs.Counts.{HasCause};
ghost use Rattle.sws_replay.specs.Replays.{WritesOne};
ghost use Rattle.sws_bench.specs.BenchScript.{bench_bytes};
ghost use Rattle.sws_bench.specs.BenchSummary.{bench_ends, bench_written, bench_summary};
ghost use Rattle.sws_link.specs.Limits.{conn_limit};

use crate::script::generate;
use crate::site::bench_site;
use mely_history::Shape;
use std::alloc::{AllocError, Global};
use std::sync::Wait;
use std::thread::Threads;
use sws_conn::End;
use sws_engine::Served;
use sws_link::{MemLink, Memory, Put, Sink};
use sws_replay::{RunFault, run_script};
use sws_report::write_summary;

/// What has become of the connections of a bench.
#[derive(Drop)]
struct Tally {
    /// How each of them ended.
    ends: Vec<End>,
    /// How many bytes their links gave in all.
    read: u64,
    /// How many bytes were written to them in all.
    written: u64,
}

/// Serves so many connections, whose requests the number draws, out of sixteen files, with a thread
/// for each of several workers, and writes the summary. It need not return.
///
/// The summary is the same for every shape. There are at most 1,024 connections.
///
/// # Errors
///
/// `Write` only where the sink failed, and `Memory` where an allocation was refused. Nothing is
/// written before the run has ended.
pub fn bench<R: Threads + Wait + Sync, O: Sink>(
    rt: &R,
    alloc: Global,
    connections: u16,
    number: u32,
    shape: &Shape,
    out: &mut O,
) -> Result<(), RunFault>
    requires few { connections ≤ conn_limit }
    requires shape { first_out_of_range shape.now (connections + 2) 1 ≡ None }
    ensures writes { WritesOne (λ text. text ≡ bench_summary number connections)
        (O.written out.old) (O.written out.new) result }
    ensures cause { HasCause (O.faults out.old) (O.faults out.new) (result ≡ Err RunFault.Write) }
{
    let Ok(tally) = run_bench(rt, alloc, connections, number, shape) else {
        return Err(RunFault::Memory);
    };
    match write_summary(alloc, out, &tally.ends, tally.read, tally.written) {
        Put::Done => Ok(()),
        Put::Failed => Err(RunFault::Write),
        Put::Memory => Err(RunFault::Memory),
    }
}

/// Serves the connections of a bench.
fn run_bench<R: Threads + Wait + Sync>(
    rt: &R,
    alloc: Global,
    connections: u16,
    number: u32,
    shape: &Shape,
) -> Result<Tally, Memory>
    requires few { connections ≤ conn_limit }
    requires shape { first_out_of_range shape.now (connections + 2) 1 ≡ None }
    ensures ends { IfOk result (λ tally. tally.ends.items ≡ bench_ends number connections) }
    ensures read { IfOk result (λ tally. tally.read ≡ bench_bytes number connections) }
    ensures written { IfOk result (λ tally. tally.written ≡ bench_written number connections) }
{
    let site = bench_site(alloc)?;
    let conns = generate(alloc, connections, number)?;
    match run_script(rt, alloc, &site, shape, &conns, false, false) {
        Ok(ended) => tally_of(alloc, &ended.served),
        Err(_) => Err(Memory),
    }
}

/// What has become of connections, each of which has ended.
fn tally_of(alloc: Global, served: &[Served<MemLink>]) -> Result<Tally, Memory>
    requires ended { All (λ conn. IsSome conn.end) served.now }
    requires few_read { sum_by (λ conn. conn.read) served.now < 2 ^ 64 }
    requires few_written { sum_by (λ conn. conn.written) served.now < 2 ^ 64 }
    ensures ends { IfOk result (λ tally. map (λ end. Some end) tally.ends.items
        ≡ map (λ conn. conn.end) served.now) }
    ensures read { IfOk result (λ tally. tally.read ≡ sum_by (λ conn. conn.read) served.now) }
    ensures written { IfOk result (λ tally.
        tally.written ≡ sum_by (λ conn. conn.written) served.now) }
{
    Ok(Tally {
        ends: ends_of(alloc, served)?,
        read: read_of(served),
        written: written_of(served),
    })
}

/// How connections ended, each of which did.
fn ends_of(alloc: Global, served: &[Served<MemLink>]) -> Result<Vec<End>, AllocError>
    requires { All (λ conn. IsSome conn.end) served.now }
    ensures { IfOk result (λ ends. map (λ end. Some end) ends.items
        ≡ map (λ conn. conn.end) served.now) }
{
    let mut ends = Vec::new(alloc);
    for conn in served {
        let Some(end) = conn.end else { unreachable!() };
        ends.push(end)?;
    }
    Ok(ends)
}

/// How many bytes connections took of their links in all.
fn read_of(served: &[Served<MemLink>]) -> u64
    requires { sum_by (λ conn. conn.read) served.now < 2 ^ 64 }
    ensures { result ≡ sum_by (λ conn. conn.read) served.now }
{
    let mut read = 0;
    for conn in served {
        read += conn.read;
    }
    read
}

/// How many bytes were written to connections in all.
fn written_of(served: &[Served<MemLink>]) -> u64
    requires { sum_by (λ conn. conn.written) served.now < 2 ^ 64 }
    ensures { result ≡ sum_by (λ conn. conn.written) served.now }
{
    let mut written = 0;
    for conn in served {
        written += conn.written;
    }
    written
}
