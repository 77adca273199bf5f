//! The command `answer`: one connection, from the bytes of its input to the bytes of its responses.
ghost use Rattle.std.specs.Prelude.{◌≡◌, ◌≢◌, false, Some};
ghost use Rattle.sws_link.specs.Counts.{HasCause};
ghost use Rattle.sws_top.specs.Answered.{AnswersFrom, AnswersInput};
ghost use Rattle.sws_top.specs.Faults.{fault_of, fault_at_end, EndsAnswering};
ghost use Rattle.sws_top.specs.Hands.{hands};
ghost use Rattle.sws_top.specs.RanAnswer.{RanAnswer};
ghost use Rattle.sws_top.specs.Ranges.{IsDate};

use crate::duplex_link::DuplexLink;
use crate::faults::TopFault;
use crate::sites::open_site;
use std::alloc::Global;
use std::snapshot::Snapshot;
use sws_conn::{End, serve_one};
use sws_link::{Folder, Sink, Source};
use sws_site::Site;

/// Runs `answer`: on the site of the folder, the connection whose input the source gives.
pub fn answer<F: Folder, R: Source, O: Sink>(
    alloc: Global,
    path: &str,
    date: Option<u64>,
    folder: &mut F,
    source: &mut R,
    out: &mut O,
) -> Result<(), TopFault>
    requires { IsDate date }
    ensures { RanAnswer F.Folder R.Source O.Sink (hands folder.old source.old out.old)
        (hands folder.new source.new out.new) (fault_of result) path.now date }
{
    let site = open_site(alloc, path, date, folder)?;
    answer_input(alloc, &site, source, out)
}

/// Runs the connection whose input the source gives, and whose responses the sink takes.
///
/// All responses to what was read before the source failed are written.
fn answer_input<R: Source, O: Sink>(
    alloc: Global,
    site: &Site,
    source: &mut R,
    out: &mut O,
) -> Result<(), TopFault>
    ensures { AnswersInput R.Source O.Sink site.now
        source.old source.new out.old out.new (fault_of result) }
{
    let first_source = Snapshot::of(&*source);
    let first_out = Snapshot::of(&*out);
    let link = serve(
        alloc,
        site,
        DuplexLink::new(source, out, &first_source, &first_out),
    );
    match link.fault {
        None => Ok(()),
        Some(fault) => Err(fault),
    }
}

/// Runs the connection over the link, which then has the fault by which the run has ended.
fn serve<'f, 'p, R: Source, O: Sink>(
    alloc: Global,
    site: &Site,
    link: DuplexLink<'f, 'p, R, O>,
) -> DuplexLink<'f, 'p, R, O>
    requires source { link.first_source.now.value ≡ link.source.now }
    requires out { link.first_out.now.value ≡ link.out.now }
    requires not_shut { link.shut ≡ false }
    ensures same_source { result.source.ghost_name ≡ link.entry.source.ghost_name }
    ensures same_out { result.out.ghost_name ≡ link.entry.out.ghost_name }
    ensures answered { AnswersFrom site.now
        (R.left link.entry.source.now) (R.left result.source.now)
        (O.written link.entry.out.now) (O.written result.out.now) result.fault }
    ensures ends { EndsAnswering result.fault }
    ensures read_cause { HasCause (R.faults link.entry.source.now) (R.faults result.source.now)
        (result.fault ≡ Some TopFault.ReadFault) }
    ensures write_cause { HasCause (O.faults link.entry.out.now) (O.faults result.out.now)
        (result.fault ≡ Some TopFault.WriteFault) }
{
    match serve_one(alloc, site, link) {
        Ok((link, end)) => {
            let fault = fault_at(end, link.fault);
            link.with_fault(fault)
        }
        Err(link) => link.with_fault(Some(TopFault::Memory)),
    }
}

/// The fault by which a run has ended, by the end of its connection and the
/// fault that the link kept.
fn fault_at(end: End, kept: Option<TopFault>) -> Option<TopFault>
    requires { end ≢ End.Idle }
    ensures { result ≡ fault_at_end end kept }
{
    match end {
        End::Done => None,
        End::Fault => kept,
        End::Memory => Some(TopFault::Memory),
        End::Idle => unreachable!(),
    }
}
