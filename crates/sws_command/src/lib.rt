//! The command `sws` on the machine: its words, its folder, standard input and output, a port, and
//! what it says of a fault.
//!
//! A program whose `main` is [`command`] is the command. `sws_main` is the one that users have;
//! others beside it run it on data of their own, since a program has one stored run.
//!
//! ```usage
//! sws answer FOLDER [--date SECONDS]
//!     the responses to standard input, out of the files below a folder
//! sws replay FOLDER [..] [--journal] [--schedule]
//!     the connections of a script on standard input, and what each is sent
//! sws serve FOLDER --port P --connections N [..]
//!     so many connections to a TCP port, and then a summary
//! sws bench N NUMBER [..]
//!     so many connections of a generated script, and then a summary
//! sws check --connections N [..]
//!     the journal of a run on standard input, and what is wrong with it
//! sws gopher FOLDER --host H --port P [..] [--connections N | --journal]
//!     the same folder by Gopher: a script on standard input, or so many connections to the port
//! ```
#![tactic(auto)]

mod announced;
mod ending;

use crate::announced::{Announced, line_of};
use crate::ending::{run_to_end, say, status_at_last};
use std::io::ErrorKind;
use std::process::ExitCode;
use std::sync::Wait;
use std::thread::Threads;
use std::{env, io};
use sws_files::{FileFolder, Output, StdSink, StdSource};
use sws_net::TcpWorld;
use sws_top::TopFault;
use sws_words::{WordFault, read_words};

/// Runs the command on the machine, with threads of the second handle, which is the same runtime:
/// only where a program begins does it have threads to give. The fault of a run is said on standard
/// error, in a line, and the status is the run's.
pub fn command<T: AllocGlobal + Threads + Wait + Sync>(rt: &HostRuntime, threads: &T) -> ExitCode {
    let fault = match words(rt) {
        Ok(words) => fault_of(rt, threads, &words),
        Err(fault) => Some(fault),
    };
    if let Some(fault) = fault {
        // Nobody is left to hear of an error.
        let _ = say(&mut rt.stderr(), fault);
    }
    ExitCode::from(status_at_last(fault))
}

/// The words behind the program's name. A word that is not UTF-8 is part of no command line.
fn words(rt: &HostRuntime) -> Result<Vec<String>, TopFault> {
    let args = match env::args(rt) {
        Ok(args) => args,
        Err(error) if error.kind() == ErrorKind::OutOfMemory => return Err(TopFault::Memory),
        Err(_) => return Err(TopFault::Usage),
    };
    let mut words = Vec::new(rt.alloc());
    for word in args.skip(1) {
        if words.push(word).is_err() {
            return Err(TopFault::Memory);
        }
    }
    Ok(words)
}

/// Runs the command of these words, those behind the program's name, on the machine's files,
/// streams and sockets, and answers its fault, if it has one. Nothing is said on standard error but
/// the line of `serve`, and of `gopher` with connections.
///
/// The words are read here for that line alone; `sws` reads them again.
pub fn fault_of<T: AllocGlobal + Threads + Wait + Sync>(
    rt: &HostRuntime,
    threads: &T,
    words: &[String],
) -> Option<TopFault> {
    let line = match read_words(rt.alloc(), words) {
        Ok(order) => line_of(rt.alloc(), &order),
        Err(WordFault::Usage) => return Some(TopFault::Usage),
        Err(WordFault::Memory) => return Some(TopFault::Memory),
    };
    let Ok(output) = Output::new(rt.alloc(), io::writer(rt)) else {
        return Some(TopFault::Memory);
    };
    let Ok(sockets) = TcpWorld::new(rt) else {
        return Some(TopFault::Memory);
    };
    let world = Announced::new(rt, sockets, line);
    let mut folder = FileFolder::new(rt);
    let mut source = StdSource::new(rt.reader(), &output);
    let mut sink = StdSink::new(&output);
    run_to_end(threads, words, &mut folder, &mut source, world, &mut sink)
}
