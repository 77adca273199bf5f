//! The command `check`: a printed journal, checked.
ghost use Rattle.std.specs.Prelude.{◌≡◌, ◌≤◌};
ghost use Rattle.sws_replay.specs.Accepted.{IsServerSetup};
ghost use Rattle.sws_top.specs.Faults.{fault_of};
ghost use Rattle.sws_top.specs.RanCheck.{RanCheck};
ghost use Rattle.sws_top.specs.Ranges.{IsRunShape};
ghost use Rattle.sws_link.specs.Limits.{conn_limit};

use crate::checked::write_report;
use crate::faults::{TopFault, check_fault};
use mely_check::check_journal;
use mely_history::{Setup, Shape};
use std::alloc::Global;
use sws_engine::handler_table;
use sws_link::{Sink, Source};

/// Runs `check`: on the journal that the source gives, of a run with so many connections, with the
/// log or without it.
pub fn check<R: Source, O: Sink>(
    alloc: Global,
    connections: u16,
    log: bool,
    shape: &Shape,
    source: &mut R,
    out: &mut O,
) -> Result<(), TopFault>
    requires connections { connections ≤ conn_limit }
    requires shape { IsRunShape shape.now }
    ensures { RanCheck R.Source O.Sink source.old source.new out.old out.new (fault_of result)
        connections log shape.now }
{
    let setup = server_setup(connections, log, shape);
    match check_journal(alloc, &setup, source) {
        Ok(report) => write_report(alloc, &report, out),
        Err(fault) => Err(check_fault(fault)),
    }
}

/// The setup of the server's runs with so many connections, with the log or without it.
fn server_setup(connections: u16, log: bool, shape: &Shape) -> Setup
    requires connections { connections ≤ conn_limit }
    requires shape { IsRunShape shape.now }
    ensures { IsServerSetup connections log shape.now result }
{
    let colours = u32::from(connections) + 2 + u32::from(log);
    match Setup::new(shape, colours, handler_table(), 1) {
        Ok(setup) => setup,
        Err(_) => unreachable!(),
    }
}
