//! The summary of connections.
ghost use Rattle.std.specs.Prelude.{◌≡◌, ◌≢◌, ◌++◌, IfOk, OnOk};
ghost use Rattle.std.specs.List.{count_by, AllByRecursion};
ghost use Rattle.sws_steps.specs.declared.End.TheVariants as how;
ghost use Rattle.sws_link.specs.declared.Put.TheVariants as put;
ghost use Rattle.sws_link.specs.Counts.{HasCause};
ghost use Rattle.sws_link.specs.Contents.{Puts};
ghost use Rattle.sws_text.specs.Numbers.{space_number};
ghost use Rattle.sws_report.specs.Summary.{is_done, is_idle, is_fault, ends_line, bytes_line, summary};

use std::alloc::{AllocError, Global};
use sws_conn::End;
use sws_link::{Put, Sink};
use sws_text::push_spaced;

/// Writes how many connections ended in each way, and how many bytes were read and written in all.
///
/// None of them has ended for want of memory.
pub fn write_summary<O: Sink>(
    alloc: Global,
    sink: &mut O,
    ends: &[End],
    read: u64,
    written: u64,
) -> Put
    requires { AllByRecursion (λ end. end ≢ how.Memory) ends.now }
    ensures text { Puts (O.written sink.old) (O.written sink.new) result
        (summary ends.now read written) }
    ensures cause { HasCause (O.faults sink.old) (O.faults sink.new) (result ≡ put.Failed) }
{
    match make_summary(alloc, ends, read, written) {
        Ok(text) => sink.write_all(&text),
        Err(_) => Put::Memory,
    }
}

/// The text of the summary, made whole before any of it is written.
fn make_summary(alloc: Global, ends: &[End], read: u64, written: u64) -> Result<Vec<u8>, AllocError>
    ensures { IfOk result (λ text. text.items ≡ summary ends.now read written) }
{
    let mut text = Vec::new(alloc);
    push_ends(&mut text, ends)?;
    push_bytes(&mut text, read, written)?;
    Ok(text)
}

/// Adds how many connections there are, and how many of them ended in each way.
fn push_ends(text: &mut Vec<u8>, ends: &[End]) -> Result<(), AllocError>
    ensures { OnOk result (text.new.items ≡ text.old.items ++ ends_line ends.now) }
{
    push_counted(text, b"connections", ends.len() as u64)?;
    push_counted(text, b" done", done(ends) as u64)?;
    push_counted(text, b" idle", idle(ends) as u64)?;
    push_counted(text, b" fault", faults(ends) as u64)?;
    text.push(b'\n')?;
    Ok(())
}

/// Adds how many bytes were read and written.
fn push_bytes(text: &mut Vec<u8>, read: u64, written: u64) -> Result<(), AllocError>
    ensures { OnOk result (text.new.items ≡ text.old.items ++ bytes_line read written) }
{
    push_counted(text, b"read", read)?;
    push_counted(text, b" written", written)?;
    text.push(b'\n')?;
    Ok(())
}

/// Adds a word and a number.
fn push_counted(text: &mut Vec<u8>, word: &[u8], number: u64) -> Result<(), AllocError>
    ensures { OnOk result (text.new.items ≡ text.old.items ++ (word.now ++ space_number number)) }
{
    text.extend_from_slice(word)?;
    push_spaced(text, number)?;
    Ok(())
}

/// How many connections were answered to their end.
fn done(ends: &[End]) -> usize
    ensures { result ≡ count_by is_done ends.now }
{
    ends.iter().filter(|end| matches!(end, End::Done)).count()
}

/// How many ended since their link was not ready too often in succession.
fn idle(ends: &[End]) -> usize
    ensures { result ≡ count_by is_idle ends.now }
{
    ends.iter().filter(|end| matches!(end, End::Idle)).count()
}

/// How many ended since their link failed.
fn faults(ends: &[End]) -> usize
    ensures { result ≡ count_by is_fault ends.now }
{
    ends.iter().filter(|end| matches!(end, End::Fault)).count()
}
