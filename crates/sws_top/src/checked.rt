//! The text of a journal that is accepted: how many entries it has, and what each core did.
ghost use Rattle.std.specs.Prelude.{◌≡◌, ◌++◌, OnOk, IfOk};
ghost use Rattle.sws_link.specs.Contents.{Puts};
ghost use Rattle.sws_link.specs.Counts.{HasCause};
ghost use Rattle.sws_text.specs.Numbers.{space_number};
ghost use Rattle.sws_top.specs.Checked.{accepted_line, core_line, core_lines, report_text};
ghost use Rattle.sws_top.specs.Faults.{fault_of};
ghost use Rattle.sws_top.specs.Texts.{WritesText};

use crate::faults::TopFault;
use itoa::Buffer;
use mely_check::{CoreReport, Report};
use std::alloc::{AllocError, Global};
use sws_link::{Put, Sink};

/// Writes what a journal says that is accepted.
pub fn write_report<O: Sink>(alloc: Global, report: &Report, out: &mut O) -> Result<(), TopFault>
    ensures { WritesText O.Sink out.old out.new (fault_of result)
        (λ text. text ≡ report_text report.now) }
{
    match put_report(alloc, report, out) {
        Put::Done => Ok(()),
        Put::Failed => Err(TopFault::WriteFault),
        Put::Memory => Err(TopFault::Memory),
    }
}

/// Hands the text of a report to the sink.
fn put_report<O: Sink>(alloc: Global, report: &Report, out: &mut O) -> Put
    ensures text { Puts (O.written out.old) (O.written out.new) result (report_text report.now) }
    ensures cause { HasCause (O.faults out.old) (O.faults out.new) (result ≡ Put.Failed) }
{
    match make_text(alloc, report) {
        Ok(text) => out.write_all(&text),
        Err(_) => Put::Memory,
    }
}

/// The text of a report.
fn make_text(alloc: Global, report: &Report) -> Result<Vec<u8>, AllocError>
    ensures { IfOk result (λ text. text.items ≡ report_text report.now) }
{
    let mut text = Vec::new(alloc);
    push_counted(&mut text, b"accepted", report.entries)?;
    text.push(b'\n')?;
    push_cores(&mut text, &report.cores)?;
    Ok(text)
}

/// Adds the lines of the cores.
fn push_cores(text: &mut Vec<u8>, reports: &[CoreReport]) -> Result<(), AllocError>
    ensures { OnOk result (text.new.items ≡ text.old.items ++ core_lines 0 reports.now) }
{
    for (core, report) in reports.iter().enumerate() {
        push_core(text, core as u64, report)?;
    }
    Ok(())
}

/// Adds the line of a core.
fn push_core(text: &mut Vec<u8>, core: u64, report: &CoreReport) -> Result<(), AllocError>
    ensures { OnOk result (text.new.items ≡ text.old.items ++ core_line core report.now) }
{
    push_counted(text, b"core", core)?;
    push_counted(text, b" ran", report.ran)?;
    push_counted(text, b" in", report.stolen_in)?;
    push_counted(text, b" out", report.stolen_out)?;
    text.push(b'\n')?;
    Ok(())
}

/// Adds a word and a number.
fn push_counted(text: &mut Vec<u8>, word: &[u8], number: u64) -> Result<(), AllocError>
    ensures { OnOk result (text.new.items ≡ text.old.items ++ (word.now ++ space_number number)) }
{
    text.extend_from_slice(word)?;
    text.push(b' ')?;
    text.extend_from_slice(Buffer::new().format(number).as_bytes())?;
    Ok(())
}
