//! `measure check CONNECTIONS WORKERS SHARDS BATCH COST [TURNS] < JOURNAL`:
//! checking a printed journal.
//!
//! The file is read as the journal of a run of the server with so many connections, and it prints
//! how many entries that has, and what each core ran and stole; or it says what is wrong, and ends
//! with a status of its own for each fault. Where TURNS is given it reads nothing: it makes a legal
//! history of three times as many entries, and judges that as it lies in memory. It is the smallest
//! program that uses the checker, and what that is measured by.

mod input;
mod judging;
mod setups;

use input::Input;
use mely_check::{CheckFault, Report, check_journal};
use mely_history::Setup;
use std::io;
use std::process::ExitCode;

/// The setup of the words, and the number of turns where one is given.
fn read_words(words: &[String]) -> Option<(Setup, Option<u32>)> {
    let mut words = words.iter();
    let mut numbers = [0; 5];
    for number in numbers.iter_mut() {
        *number = words.next()?.as_str().parse::<u32>().ok()?;
    }
    let turns = match words.next() {
        Some(word) => Some(word.as_str().parse::<u32>().ok()?),
        None => None,
    };
    match words.next() {
        Some(_) => None,
        None => Some((setups::setup(numbers)?, turns)),
    }
}

/// Prints what a journal says.
fn print(rt: &HostRuntime, report: &Report) -> io::Result<()> {
    println!(rt; "accepted {}", report.entries)?;
    for (core, sums) in report.cores.iter().enumerate() {
        let (ran, stolen_in, stolen_out) = (sums.ran, sums.stolen_in, sums.stolen_out);
        println!(rt; "core {core} ran {ran} in {stolen_in} out {stolen_out}")?;
    }
    Ok(())
}

/// Judges a history of so many turns, and prints what was found.
fn judge(rt: &HostRuntime, setup: &Setup, turns: u32) -> io::Result<ExitCode> {
    match judging::judge_turns(rt.alloc(), setup, turns) {
        Ok((entries, is_legal)) => {
            println!(rt;
                "judged {entries} entries: {}",
                if is_legal { "legal" } else { "not legal" }
            )?;
            Ok(ExitCode::SUCCESS)
        }
        Err(_) => Ok(ExitCode::from(7)),
    }
}

/// Prints the usage, and answers the status.
fn usage(rt: &HostRuntime) -> io::Result<ExitCode> {
    eprintln!(rt; "usage: measure check CONNECTIONS WORKERS SHARDS BATCH COST [TURNS] < JOURNAL")?;
    Ok(ExitCode::from(2))
}

/// Runs the part by its words.
pub fn run(rt: &HostRuntime, words: &[String]) -> io::Result<ExitCode> {
    match read_words(words) {
        Some((setup, Some(turns))) => judge(rt, &setup, turns),
        Some((setup, None)) => check(rt, &setup),
        None => usage(rt),
    }
}

/// Makes the small run, over a journal on standard input.
pub fn run_small(rt: &HostRuntime) -> io::Result<ExitCode> {
    match setups::setup([1, 2, 1, 2, 5]) {
        Some(setup) => check(rt, &setup),
        None => usage(rt),
    }
}

/// Checks the journal on standard input, and prints what it says.
fn check(rt: &HostRuntime, setup: &Setup) -> io::Result<ExitCode> {
    let mut input = Input::new(rt.reader());
    match check_journal(rt.alloc(), setup, &mut input) {
        Ok(report) => {
            print(rt, &report)?;
            Ok(ExitCode::SUCCESS)
        }
        Err(fault) => {
            eprintln!(rt; "measure check: {fault:?}")?;
            Ok(ExitCode::from(match fault {
                CheckFault::Read => 4,
                CheckFault::Memory => 7,
                CheckFault::BadJournal { .. } => 10,
                CheckFault::NotLegal { .. } => 11,
                CheckFault::NotDrained { .. } => 12,
            }))
        }
    }
}
