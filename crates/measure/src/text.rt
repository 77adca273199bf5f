//! `measure text script|transcript < FILE`: reading a script, or printing a transcript.
//!
//! With `script` the file is read as a script, and it prints how many connections that has and
//! how many items in all. With `transcript` the file is what was written to a
//! connection, and it prints the transcript. It is the smallest program that uses these texts,
//! and what they are measured by.

mod out;
mod texts;

use out::Out;
use std::io;
use std::io::Read;
use std::process::ExitCode;
use sws_link::Put;

/// The script of the small run. It stands here since a program has one standard input, and the
/// small run of `measure check` reads it.
const SCRIPT: &[u8] = b"sws-script 1\nconn\nsend GET / HTTP/1.1~Host: x~~\npause 2\nsend more\n\
conn\nstep 7\nfill 10\n";

/// What is done with the file.
#[derive(Clone, Copy)]
enum Order {
    Script,
    Transcript,
}

/// The order of the words.
fn read_words(words: &[String]) -> Option<Order> {
    let mut words = words.iter();
    let order = match words.next()?.as_str() {
        "script" => Order::Script,
        "transcript" => Order::Transcript,
        _ => return None,
    };
    match words.next() {
        Some(_) => None,
        None => Some(order),
    }
}

/// Runs the part by its words.
pub fn run(rt: &HostRuntime, words: &[String]) -> io::Result<ExitCode> {
    let Some(order) = read_words(words) else {
        eprintln!(rt; "usage: measure text script|transcript < FILE")?;
        return Ok(ExitCode::from(2));
    };
    let mut bytes = Vec::new(rt.alloc());
    rt.reader().read_to_end(&mut bytes)?;
    match order {
        Order::Script => count(rt, &bytes),
        Order::Transcript => {
            let mut out = Out::new(io::writer(rt));
            match texts::transcript(rt.alloc(), &mut out, &bytes) {
                Put::Done => Ok(ExitCode::SUCCESS),
                _ => Ok(ExitCode::from(5)),
            }
        }
    }
}

/// Makes the small run.
pub fn run_small(rt: &HostRuntime) -> io::Result<ExitCode> {
    count(rt, SCRIPT)
}

/// Prints how many connections and items a script has.
fn count(rt: &HostRuntime, script: &[u8]) -> io::Result<ExitCode> {
    match texts::count(rt.alloc(), script) {
        Ok((conns, items)) => {
            println!(rt; "{conns} connections, {items} items")?;
            Ok(ExitCode::SUCCESS)
        }
        Err(_) => {
            eprintln!(rt; "measure text: no script")?;
            Ok(ExitCode::from(3))
        }
    }
}
