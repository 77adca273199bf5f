//! `measure kv WORKERS MESSAGES ROUNDS`: clients that put and get, over a map that is spread
//! over colours.
//!
//! Each of 64 clients sends so many messages, one after another, to 64 buckets: every other one a
//! put, and each of another key. A bucket computes so many rounds for each. It prints how many
//! messages were received, which are as many in whatever order. It is what `example_store` is measured
//! by: a message carries its key and its value, and a bucket keeps a `HashMap`.

mod asking;
mod message;

use asking::{Order, Slot};
use std::io;
use std::process::ExitCode;
use std::sync::Wait;
use std::thread::Threads;

/// The three numbers of the words.
fn order(words: &[String]) -> Option<Order> {
    let mut words = words.iter();
    let workers = words.next()?.as_str().parse::<u16>().ok()?;
    let messages = words.next()?.as_str().parse::<u16>().ok()?;
    let rounds = words.next()?.as_str().parse::<u32>().ok()?;
    Some(Order {
        workers,
        messages,
        rounds,
    })
}

/// Runs the part by its words, with threads of the second handle.
pub fn run<T: Threads + Wait + Sync>(
    rt: &HostRuntime,
    threads: &T,
    words: &[String],
) -> io::Result<ExitCode> {
    let Some(order) = order(words) else {
        eprintln!(rt; "usage: measure kv WORKERS MESSAGES ROUNDS, of at most 8 workers")?;
        return Ok(ExitCode::from(2));
    };
    ask_all(rt, threads, &order)
}

/// Makes the small run.
pub fn run_small<T: Threads + Wait + Sync>(rt: &HostRuntime, threads: &T) -> io::Result<ExitCode> {
    let order = Order {
        workers: 2,
        messages: 100,
        rounds: 10,
    };
    ask_all(rt, threads, &order)
}

/// Has all clients ask, and prints how many messages were received.
fn ask_all<T: Threads + Wait + Sync>(
    rt: &HostRuntime,
    threads: &T,
    order: &Order,
) -> io::Result<ExitCode> {
    if order.workers == 0 || order.workers > 8 {
        eprintln!(rt; "measure kv: from 1 to 8 workers")?;
        return Ok(ExitCode::from(2));
    }
    match asking::run(threads, rt.alloc(), order) {
        Ok(slots) => print(rt, &slots),
        Err(_) => {
            eprintln!(rt; "measure kv: no memory")?;
            Ok(ExitCode::from(7))
        }
    }
}

/// Prints how many messages were received, and what was computed for them.
fn print(rt: &HostRuntime, slots: &[Slot]) -> io::Result<ExitCode> {
    let mut received = 0u64;
    let mut found = 0u64;
    let mut sum = 0u32;
    for slot in slots {
        received = received.saturating_add(slot.received);
        found = found.saturating_add(slot.found);
        sum = sum.wrapping_add(slot.sum);
    }
    println!(rt; "{received} messages received, sum {sum}")?;
    if found > received {
        eprintln!(rt; "measure kv: more was found than was asked for")?;
        return Ok(ExitCode::from(1));
    }
    Ok(ExitCode::SUCCESS)
}
