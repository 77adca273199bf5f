//! The command `bench`: a generated site and script, run in memory.
ghost use Rattle.sws_top.specs.Faults.{fault_of};
ghost use Rattle.sws_top.specs.RanBench.{RanBench};
ghost use Rattle.sws_top.specs.Ranges.{IsBetween, IsRunShape};
ghost use Rattle.sws_link.specs.Limits.{conn_limit};

use crate::faults::{TopFault, run_fault};
use mely_history::Shape;
use std::sync::Wait;
use std::thread::Threads;
use sws_bench::bench;
use sws_link::Sink;

/// Runs `bench`: so many connections, generated from this number.
pub fn bench_shape<T: AllocGlobal + Threads + Wait + Sync, O: Sink>(
    rt: &T,
    connections: u16,
    number: u32,
    shape: &Shape,
    out: &mut O,
) -> Result<(), TopFault>
    requires connections { IsBetween 1 conn_limit connections }
    requires shape { IsRunShape shape.now }
    ensures { RanBench O.Sink out.old out.new (fault_of result) connections number }
{
    match bench(rt, rt.alloc(), connections, number, shape, out) {
        Ok(()) => Ok(()),
        Err(fault) => Err(run_fault(fault)),
    }
}
