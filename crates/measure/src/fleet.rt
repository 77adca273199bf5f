//! `measure fleet WORKERS SHARDS COLOURS PASSES ROUNDS BATCH [stay]`: events that are passed on, over
//! a fleet with a thread for each worker.
//!
//! It registers one event on each of so many colours. The handler of an event computes so many
//! rounds, draws a colour and registers an event there, until an event was passed on so often; with
//! the word `stay` it registers it on its own colour, as a handler of a connection does. The
//! workers take up to BATCH events of a colour at a time, and end once all were run. It prints how
//! many handlers ran, which are as many in whatever order. Where the workers gave up before all were
//! run, as where the machine refuses a thread, it says so, and its status is 1. It makes the calls of
//! a fleet itself, which `run_app` makes for an app, and is what a fleet is measured by.

mod crew;

use crew::Order;
use std::io;
use std::process::ExitCode;
use std::sync::Wait;
use std::thread::Threads;

/// The six numbers of the words, and the word behind them.
fn order(words: &[String]) -> Option<Order> {
    let mut words = words.iter();
    Some(Order {
        workers: words.next()?.as_str().parse::<u16>().ok()?,
        shards: words.next()?.as_str().parse::<u16>().ok()?,
        colours: words.next()?.as_str().parse::<u16>().ok()?,
        passes: words.next()?.as_str().parse::<u16>().ok()?,
        rounds: words.next()?.as_str().parse::<u32>().ok()?,
        batch: words.next()?.as_str().parse::<u16>().ok()?,
        stays: match words.next() {
            Some(word) if word.as_str() == "stay" => true,
            Some(_) => return None,
            None => false,
        },
    })
}

/// Runs the part by its words, with threads of the second handle.
pub fn run<T: Threads + Wait + Sync>(
    rt: &HostRuntime,
    threads: &T,
    words: &[String],
) -> io::Result<ExitCode> {
    let Some(order) = order(words) else {
        eprintln!(rt; "usage: measure fleet WORKERS SHARDS COLOURS PASSES ROUNDS BATCH [stay]")?;
        return Ok(ExitCode::from(2));
    };
    run_order(rt, threads, &order)
}

/// Makes the small run.
pub fn run_small<T: Threads + Wait + Sync>(rt: &HostRuntime, threads: &T) -> io::Result<ExitCode> {
    let order = Order {
        workers: 4,
        shards: 8,
        colours: 64,
        passes: 20,
        rounds: 100,
        batch: 10,
        stays: false,
    };
    run_order(rt, threads, &order)
}

/// Runs it, and prints how many handlers ran.
fn run_order<T: Threads + Wait + Sync>(
    rt: &HostRuntime,
    threads: &T,
    order: &Order,
) -> io::Result<ExitCode> {
    match crew::run(threads, rt.alloc(), order) {
        Some(ran) => {
            let events = ran.events;
            println!(rt; "{events} events ran")?;
            if ran.is_quiet {
                return Ok(ExitCode::SUCCESS);
            }
            eprintln!(rt; "measure fleet: the workers gave up")?;
            Ok(ExitCode::from(1))
        }
        None => {
            eprintln!(rt; "measure fleet: no memory, or a number out of its range")?;
            Ok(ExitCode::from(7))
        }
    }
}
