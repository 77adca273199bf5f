//! `measure engine KIND CONNECTIONS REQUESTS WORKERS SHARDS`: connections over links in
//! memory, served by the runtime.
//!
//! Each of so many links gives so many heads of a browser in one piece, and all are served by so
//! many workers over so many shards. KIND is `steps`, where one thread makes a step of each worker
//! in turn, or `threads`, where each worker has a thread of its own. It prints how many bytes were
//! written. It is the smallest program that uses the engine, and what an event of it is measured
//! by, beside `measure conn`, which serves the same heads without a runtime.

mod serving;

use serving::{Kind, Order};
use std::io;
use std::process::ExitCode;
use std::sync::Wait;
use std::thread::Threads;

/// How the command line says that the workers run.
fn kind_of(word: &str) -> Option<Kind> {
    match word {
        "steps" => Some(Kind::Steps),
        "threads" => Some(Kind::Threads),
        _ => None,
    }
}

/// The kind and the four numbers of the words.
fn order(words: &[String]) -> Option<Order> {
    let mut words = words.iter();
    Some(Order {
        kind: kind_of(words.next()?.as_str())?,
        connections: words.next()?.as_str().parse::<u16>().ok()?,
        requests: words.next()?.as_str().parse::<u16>().ok()?,
        workers: words.next()?.as_str().parse::<u16>().ok()?,
        shards: words.next()?.as_str().parse::<u16>().ok()?,
    })
}

/// Runs the part by its words, with threads of the second handle.
pub fn run<T: Threads + Wait + Sync>(
    rt: &HostRuntime,
    threads: &T,
    words: &[String],
) -> io::Result<ExitCode> {
    let Some(order) = order(words) else {
        eprintln!(rt; "usage: measure engine steps|threads CONNECTIONS REQUESTS WORKERS SHARDS")?;
        return Ok(ExitCode::from(2));
    };
    serve(rt, threads, &order)
}

/// Makes the small run.
pub fn run_small<T: Threads + Wait + Sync>(rt: &HostRuntime, threads: &T) -> io::Result<ExitCode> {
    let order = Order {
        kind: Kind::Threads,
        connections: 4,
        requests: 3,
        workers: 2,
        shards: 2,
    };
    serve(rt, threads, &order)
}

/// Serves the connections, and prints how many bytes were written.
fn serve<T: Threads + Wait + Sync>(
    rt: &HostRuntime,
    threads: &T,
    order: &Order,
) -> io::Result<ExitCode> {
    match serving::run(threads, rt.alloc(), order) {
        Some(written) => {
            println!(rt; "{written} bytes were written")?;
            Ok(ExitCode::SUCCESS)
        }
        None => {
            eprintln!(rt; "measure engine: no memory, or a number out of its range")?;
            Ok(ExitCode::from(7))
        }
    }
}
