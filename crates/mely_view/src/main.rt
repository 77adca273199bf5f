//! `mely_view --connections N [--workers N] [--shards N] [--batch N] [--group N] [--cost N] [--log]
//! < JOURNAL > RUN.svg`: the picture of a run of the server.
//!
//! The words are those of `sws check`, and a journal that `check` refuses is refused here with its
//! line and its status. A history of more than 4,096 entries is drawn in buckets.
#![tactic(auto)]

use mely_check::CheckFault;
use mely_history::Setup;
use mely_picture::{DrawFault, draw_journal};
use std::alloc::Global;
use std::io::ErrorKind;
use std::process::ExitCode;
use std::{env, io};
use sws_engine::handler_table;
use sws_files::{Output, StdSink, StdSource};
use sws_words::{Order, WordFault, read_words};

const USAGE: u8 = 2;

const READ: u8 = 4;

const WRITE: u8 = 5;

const MEMORY: u8 = 7;

const BAD_JOURNAL: u8 = 10;

const NOT_LEGAL: u8 = 11;

const NOT_DRAINED: u8 = 12;

/// The words behind the program's name, as those of the command `check`.
fn words(rt: &HostRuntime) -> Result<Vec<String>, WordFault> {
    let args = match env::args(rt) {
        Ok(args) => args,
        Err(error) if error.kind() == ErrorKind::OutOfMemory => return Err(WordFault::Memory),
        Err(_) => return Err(WordFault::Usage),
    };
    let mut words = Vec::new(rt.alloc());
    let Ok(check) = String::from_str(rt.alloc(), "check") else {
        return Err(WordFault::Memory);
    };
    if words.push(check).is_err() {
        return Err(WordFault::Memory);
    }
    for word in args.skip(1) {
        if words.push(word).is_err() {
            return Err(WordFault::Memory);
        }
    }
    Ok(words)
}

/// The setup of the run that the words tell of.
fn setup_of(alloc: Global, words: &[String]) -> Result<Setup, WordFault> {
    match read_words(alloc, words) {
        Ok(
            Order::Check {
                connections,
                shape,
                log,
            },
        ) => {
            let colours = u32::from(connections) + 2 + u32::from(log);
            match Setup::new(&shape, colours, handler_table(), 1) {
                Ok(setup) => Ok(setup),
                Err(_) => Err(WordFault::Usage),
            }
        }
        Ok(_) => Err(WordFault::Usage),
        Err(fault) => Err(fault),
    }
}

/// The status that the program ends with.
fn status_of(fault: DrawFault) -> u8 {
    match fault {
        DrawFault::Check(CheckFault::Read) => READ,
        DrawFault::Check(CheckFault::Memory) => MEMORY,
        DrawFault::Check(CheckFault::BadJournal { .. }) => BAD_JOURNAL,
        DrawFault::Check(CheckFault::NotLegal { .. }) => NOT_LEGAL,
        DrawFault::Check(CheckFault::NotDrained { .. }) => NOT_DRAINED,
        DrawFault::Write => WRITE,
    }
}

/// Draws the journal on standard input, and answers why that isn't done, if it isn't.
fn draw(rt: &HostRuntime, setup: &Setup) -> Option<DrawFault> {
    let Ok(output) = Output::new(rt.alloc(), io::writer(rt)) else {
        return Some(DrawFault::Check(CheckFault::Memory));
    };
    let mut source = StdSource::new(rt.reader(), &output);
    let mut sink = StdSink::new(&output);
    let drawn = draw_journal(rt.alloc(), setup, &mut source, &mut sink);
    match drawn {
        Ok(()) if sink.finish() => None,
        Ok(()) => Some(DrawFault::Write),
        Err(fault) => Some(fault),
    }
}

fn main(rt: HostRuntime) -> ExitCode {
    let setup = match words(&rt) {
        Ok(words) => setup_of(rt.alloc(), &words),
        Err(fault) => Err(fault),
    };
    match setup {
        Ok(setup) => match draw(&rt, &setup) {
            None => ExitCode::SUCCESS,
            Some(fault) => {
                let _ = eprintln!(&rt; "mely_view: {fault}");
                ExitCode::from(status_of(fault))
            }
        },
        Err(fault) => {
            let _ = eprintln!(&rt; "mely_view: {fault}");
            ExitCode::from(match fault {
                WordFault::Usage => USAGE,
                WordFault::Memory => MEMORY,
            })
        }
    }
}
