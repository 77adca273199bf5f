//! What is written of a run.
ghost use Rattle.std.specs.Prelude.{◌≡◌, ◌≤◌, ◌++◌, true, IfOk, length, map};
ghost use Rattle.std.specs.List.{AllByRecursion};
ghost use Rattle.mely_check.specs.Journals.{IsFitHistory};
ghost use Rattle.sws_link.specs.declared.Put.TheVariants as put;
ghost use Rattle.sws_link.specs.Contents.{Puts};
ghost use Rattle.sws_link.specs.Counts.{HasCause};
ghost use Rattle.sws_log.specs.Lines.{log_text};
ghost use Rattle.sws_report.specs.Transcript.{transcript, conn_text};
ghost use Rattle.sws_replay.specs.Runs.{AreListedAs, histories_of};
ghost use Rattle.sws_replay.specs.Showing.{IsShowable, journal_part, shown_of};
ghost use Rattle.sws_link.specs.Limits.{conn_limit};

use crate::fitting::journal_fits;
use mely_history::{Entry, History};
use std::alloc::{AllocError, Global};
use sws_engine::{Ended, Served};
use sws_link::{MemLink, MemWorld, Put, Sink};
use sws_log::{LogLine, write_log};
use sws_report::{write_conn, write_journal};

/// Writes the transcript of the connections of a run, behind it the lines of its log, of which
/// there are none without one, and then the journal of its histories, which are listed, where that
/// is asked for.
pub fn write_run<O: Sink>(alloc: Global, out: &mut O, ended: Ended<MemWorld>, journal: bool) -> Put
    requires few { length ended.served.items ≤ conn_limit }
    requires showable { AllByRecursion IsShowable ended.served.items }
    requires listed { AreListedAs journal ended }
    ensures text { Puts (O.written out.old) (O.written out.new) result
        (transcript (map shown_of ended.served.items)
        ++ (log_text ended.log.items ++ journal_part journal (histories_of ended))) }
    ensures fit { journal ≡ true → AllByRecursion IsFitHistory (histories_of ended) }
    ensures cause { HasCause (O.faults out.old) (O.faults out.new) (result ≡ put.Failed) }
{
    let Ended {
        verdict: _,
        world: _,
        accepted: _,
        failed: _,
        served,
        histories,
        trails: _,
        log,
    } = ended;
    journal_fits(&histories, journal);
    match lists_of(alloc, histories, journal) {
        Ok(lists) => write_parts(alloc, out, &served, &log, &lists, journal),
        Err(_) => Put::Memory,
    }
}

/// Writes the transcript of connections, the lines of a log, and then the journal of histories where
/// that is asked for.
fn write_parts<O: Sink>(
    alloc: Global,
    out: &mut O,
    served: &[Served<MemLink>],
    lines: &[LogLine],
    histories: &[Vec<Entry>],
    journal: bool,
) -> Put
    requires few { length served.now ≤ conn_limit }
    requires showable { AllByRecursion IsShowable served.now }
    ensures text { Puts (O.written out.old) (O.written out.new) result
        (transcript (map shown_of served.now) ++ (log_text lines.now
        ++ journal_part journal (map (λ history. history.items) histories.now))) }
    ensures cause { HasCause (O.faults out.old) (O.faults out.new) (result ≡ put.Failed) }
{
    match write_transcript(alloc, out, served) {
        Put::Done => write_behind(alloc, out, lines, histories, journal),
        stopped => stopped,
    }
}

/// The entries of each history, where they are listed, and else none.
///
/// # Errors
///
/// There was no memory.
fn lists_of(
    alloc: Global,
    histories: Vec<History>,
    listed: bool,
) -> Result<Vec<Vec<Entry>>, AllocError>
    requires { AllByRecursion (λ history. history.listed ≡ listed) histories.items }
    ensures { IfOk result (λ lists. listed ≡ true → map (λ list. list.items) lists.items
        ≡ map (λ history. history.items) histories.items) }
{
    let mut lists = Vec::new(alloc);
    if listed {
        lists.reserve(histories.len())?;
        for history in histories {
            match history.into_entries() {
                Some(entries) => lists.push_reserved(entries),
                None => unreachable!(),
            }
        }
    }
    Ok(lists)
}

/// Writes the lines of a log, and then the journal of histories where that is asked for.
fn write_behind<O: Sink>(
    alloc: Global,
    out: &mut O,
    lines: &[LogLine],
    histories: &[Vec<Entry>],
    journal: bool,
) -> Put
    ensures text { Puts (O.written out.old) (O.written out.new) result (log_text lines.now
        ++ journal_part journal (map (λ history. history.items) histories.now)) }
    ensures cause { HasCause (O.faults out.old) (O.faults out.new) (result ≡ put.Failed) }
{
    match write_log(alloc, out, lines) {
        Put::Done => write_journal_part(alloc, out, histories, journal),
        stopped => stopped,
    }
}

/// Writes the journal of histories where that is asked for.
fn write_journal_part<O: Sink>(
    alloc: Global,
    out: &mut O,
    histories: &[Vec<Entry>],
    journal: bool,
) -> Put
    ensures text { Puts (O.written out.old) (O.written out.new) result
        (journal_part journal (map (λ history. history.items) histories.now)) }
    ensures cause { HasCause (O.faults out.old) (O.faults out.new) (result ≡ put.Failed) }
{
    if journal {
        write_journal(alloc, out, histories)
    } else {
        Put::Done
    }
}

/// Writes the transcript of connections, each of which has ended with its link.
fn write_transcript<O: Sink>(alloc: Global, out: &mut O, served: &[Served<MemLink>]) -> Put
    requires few { length served.now ≤ conn_limit }
    requires showable { AllByRecursion IsShowable served.now }
    ensures text { Puts (O.written out.old) (O.written out.new) result
        (transcript (map shown_of served.now)) }
    ensures cause { HasCause (O.faults out.old) (O.faults out.new) (result ≡ put.Failed) }
{
    let mut number: u16 = 0;
    for conn in served {
        match write_served(alloc, out, number, conn) {
            Put::Done => {}
            stopped => return stopped,
        }
        number += 1;
    }
    Put::Done
}

/// Writes the transcript of a connection.
fn write_served<O: Sink>(alloc: Global, out: &mut O, number: u16, served: &Served<MemLink>) -> Put
    requires { IsShowable served.now }
    ensures text { Puts (O.written out.old) (O.written out.new) result
        (conn_text number (shown_of served.now).0 (shown_of served.now).1) }
    ensures cause { HasCause (O.faults out.old) (O.faults out.new) (result ≡ put.Failed) }
{
    let Some(link) = &served.link else {
        unreachable!()
    };
    let Some(end) = served.end else {
        unreachable!()
    };
    write_conn(alloc, out, number, end, link.written())
}
