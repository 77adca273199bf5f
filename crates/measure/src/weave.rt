//! `measure weave COLOURS PASSES`: events that are passed on at random, over a weave of four cores.
//!
//! It registers one event on each of so many colours. The handler of an event draws a colour and
//! registers an event there, until an event was passed on so often. The cores make a step in turn
//! until all events were run, and it prints how many steps that were. It is the smallest program
//! that uses a weave, and what a weave is measured by.

mod hops;
mod steps;

use std::io;
use std::process::ExitCode;
use std::sync::Wait;

/// How many colours there are, and how often an event is passed on, by the first two words; `None`
/// where they aren't such numbers.
fn numbers(words: &[String]) -> Option<(u16, u16)> {
    let mut words = words.iter();
    let colours = words.next()?.as_str().parse::<u16>().ok()?;
    let passes = words.next()?.as_str().parse::<u16>().ok()?;
    Some((colours, passes))
}

/// Runs the part by its words, with the right to wait of the second handle.
pub fn run<T: Wait>(rt: &HostRuntime, waits: &T, words: &[String]) -> io::Result<ExitCode> {
    let Some((colours, passes)) = numbers(words) else {
        eprintln!(rt; "usage: measure weave COLOURS PASSES")?;
        return Ok(ExitCode::from(2));
    };
    pass_on(rt, waits, colours, passes)
}

/// Makes the small run.
pub fn run_small<T: Wait>(rt: &HostRuntime, waits: &T) -> io::Result<ExitCode> {
    pass_on(rt, waits, 64, 20)
}

/// Passes events on, and prints how many steps that took.
fn pass_on<T: Wait>(
    rt: &HostRuntime,
    waits: &T,
    colours: u16,
    passes: u16,
) -> io::Result<ExitCode> {
    match steps::run(waits, rt.alloc(), colours, passes) {
        Some((made, ran)) => {
            println!(rt; "{made} steps ran {ran} events")?;
            Ok(ExitCode::SUCCESS)
        }
        None => {
            eprintln!(rt; "measure weave: no memory, or no colour")?;
            Ok(ExitCode::from(7))
        }
    }
}
