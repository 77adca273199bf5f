//! `measure shard EVENTS BATCH`: an event loop on one core, over one shard.
//!
//! It registers so many events on 1,024 colours in turn. Then it takes each colour that is ready,
//! up to BATCH events of it, runs an empty handler on them and finishes, until nothing is queued,
//! and prints how many events were run. It is the smallest program that uses a shard, and what
//! the cost of a shard is measured by.

mod event_loop;

use std::io;
use std::process::ExitCode;

/// How many events are run, and the batch, by the first two words; `None` where
/// they aren't such numbers.
fn numbers(words: &[String]) -> Option<(u32, u16)> {
    let mut words = words.iter();
    let events = words.next()?.as_str().parse::<u32>().ok()?;
    let batch = words.next()?.as_str().parse::<u16>().ok()?;
    Some((events, batch))
}

/// Runs the part by its words.
pub fn run(rt: &HostRuntime, words: &[String]) -> io::Result<ExitCode> {
    let Some((events, batch)) = numbers(words) else {
        eprintln!(rt; "usage: measure shard EVENTS BATCH")?;
        return Ok(ExitCode::from(2));
    };
    run_events(rt, events, batch)
}

/// Makes the small run.
pub fn run_small(rt: &HostRuntime) -> io::Result<ExitCode> {
    run_events(rt, 10_000, 10)
}

/// Runs so many events, and prints how many were run.
fn run_events(rt: &HostRuntime, events: u32, batch: u16) -> io::Result<ExitCode> {
    match event_loop::run(rt.alloc(), events, batch) {
        Some(ran) => {
            println!(rt; "{ran} events were run")?;
            Ok(ExitCode::SUCCESS)
        }
        None => {
            eprintln!(rt; "measure shard: no memory, or a batch that is not 1 to 1000")?;
            Ok(ExitCode::from(7))
        }
    }
}
