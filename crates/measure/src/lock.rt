//! `measure lock KIND THREADS COUNT`: threads that go into one lock and out again, so many times each.
//!
//! KIND is `ticketed`, for the lock that is entered with a pass, `shard`, for that lock round a
//! shard of a fleet, or `mutex`, for std's. It is what the cost of a lock is measured by.
ghost use Rattle.std.specs.Prelude.{◌<◌, IfSome};

mod turns;

use std::io;
use std::process::ExitCode;
use std::sync::Wait;
use std::thread::Threads;

/// Which lock.
#[derive(Clone, Copy)]
enum Kind {
    Ticketed,
    Shard,
    Mutex,
}

/// The lock of this name.
fn kind_of(word: &str) -> Option<Kind> {
    match word {
        "ticketed" => Some(Kind::Ticketed),
        "shard" => Some(Kind::Shard),
        "mutex" => Some(Kind::Mutex),
        _ => None,
    }
}

/// Which lock, how many threads, and how often each goes in.
fn order(words: &[String]) -> Option<(Kind, u16, u64)>
    ensures { IfSome result (λ order. 0 < order.1) }
{
    let mut words = words.iter();
    let kind = kind_of(words.next()?.as_str())?;
    let threads = words.next()?.as_str().parse::<u16>().ok()?;
    let count = words.next()?.as_str().parse::<u64>().ok()?;
    if threads == 0 {
        return None;
    }
    Some((kind, threads, count))
}

/// Runs the part by its words, with threads of the second handle.
pub fn run<T: AllocGlobal + Threads + Wait + Sync>(
    rt: &HostRuntime,
    threads: &T,
    words: &[String],
) -> io::Result<ExitCode> {
    let Some((kind, count, turns)) = order(words) else {
        eprintln!(rt;
            "usage: measure lock ticketed|shard|mutex THREADS COUNT, with at least one thread"
        )?;
        return Ok(ExitCode::from(2));
    };
    go_through(rt, threads, kind, count, turns)
}

/// Makes the small run.
pub fn run_small<T: AllocGlobal + Threads + Wait + Sync>(
    rt: &HostRuntime,
    threads: &T,
) -> io::Result<ExitCode> {
    go_through(rt, threads, Kind::Ticketed, 4, 1000)
}

/// Has so many threads go into the lock, so many times each, and prints that they did.
fn go_through<T: AllocGlobal + Threads + Wait + Sync>(
    rt: &HostRuntime,
    threads: &T,
    kind: Kind,
    count: u16,
    turns: u64,
) -> io::Result<ExitCode>
    requires { 0 < count }
{
    let went = match kind {
        Kind::Ticketed => turns::through_ticketed(threads, count, turns),
        Kind::Shard => turns::through_shard(threads, count, turns),
        Kind::Mutex => turns::through_mutex(threads, count, turns),
    };
    if went.is_err() {
        return Ok(ExitCode::from(7));
    }
    println!(rt; "{count} threads went in {turns} times each")?;
    Ok(ExitCode::SUCCESS)
}
