//! `measure conn KIND ROUNDS PIECE`: connections over links in memory, one after another.
//!
//! Each link gives 64 heads of a browser, in pieces of PIECE bytes, or in one piece where that is
//! 0. KIND is `serve`, where a connection over it is run to its end, or `make`, where it is only
//! made. It prints how many bytes were written. What serving takes beyond making is what a
//! connection is measured by.

mod rounds;

use std::io;
use std::process::ExitCode;

/// Whether the kind of this name serves the links.
fn is_serving(word: &str) -> Option<bool> {
    match word {
        "serve" => Some(true),
        "make" => Some(false),
        _ => None,
    }
}

/// Whether the links are served, how many there are, and the size of a piece.
fn order(words: &[String]) -> Option<(bool, u32, usize)> {
    let mut words = words.iter();
    let is_served = is_serving(words.next()?.as_str())?;
    let rounds = words.next()?.as_str().parse::<u32>().ok()?;
    let piece = words.next()?.as_str().parse::<usize>().ok()?;
    Some((is_served, rounds, piece))
}

/// Runs the part by its words.
pub fn run(rt: &HostRuntime, words: &[String]) -> io::Result<ExitCode> {
    let Some((is_served, rounds, piece)) = order(words) else {
        eprintln!(rt; "usage: measure conn serve|make ROUNDS PIECE")?;
        return Ok(ExitCode::from(2));
    };
    run_rounds(rt, is_served, rounds, piece)
}

/// Makes the small run.
pub fn run_small(rt: &HostRuntime) -> io::Result<ExitCode> {
    run_rounds(rt, true, 2, 7)
}

/// Makes so many rounds, and prints how many bytes were written.
fn run_rounds(
    rt: &HostRuntime,
    is_served: bool,
    rounds: u32,
    piece: usize,
) -> io::Result<ExitCode> {
    match rounds::run(rt.alloc(), is_served, rounds, piece) {
        Some(written) => {
            println!(rt; "{written} bytes were written")?;
            Ok(ExitCode::SUCCESS)
        }
        None => {
            eprintln!(rt; "measure conn: no memory")?;
            Ok(ExitCode::from(7))
        }
    }
}
