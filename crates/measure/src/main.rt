//! `measure [PART WORD..]`: the smallest programs that use a layer each, by which that layer is
//! measured.
//!
//! PART is one of `shard`, `lock`, `chain`, `weave`, `fleet`, `conn`, `engine`, `net`, `text`,
//! `check` and `kv`. What its words are, and what it does, says the module of that name. Without
//! words each part but `net` makes a small run in turn, up to the first that fails: this is the
//! program's stored run.
#![tactic(auto)]

mod browser;
mod chain;
mod check;
mod conn;
mod engine;
mod fleet;
mod kv;
mod lock;
mod net;
mod part;
mod shard;
mod text;
mod weave;

use part::{PARTS, Part};
use std::process::ExitCode;
use std::sync::Wait;
use std::thread::Threads;
use std::{env, io};

/// The words behind the program's name; nothing where one isn't UTF-8, or for want of memory.
fn words(rt: &HostRuntime) -> Option<Vec<String>> {
    let args = env::args(rt).ok()?;
    let mut words = Vec::new(rt.alloc());
    for word in args.skip(1) {
        words.push(word).ok()?;
    }
    Some(words)
}

/// Prints the usage, and answers the status.
fn usage(rt: &HostRuntime) -> io::Result<ExitCode> {
    eprintln!(rt;
        "usage: measure [shard|lock|chain|weave|fleet|conn|engine|net|text|check|kv WORD..]"
    )?;
    Ok(ExitCode::from(2))
}

/// The small runs of all parts, up to the first that fails.
fn run_small<T: AllocGlobal + Threads + Wait + Sync>(
    rt: &HostRuntime,
    threads: &T,
) -> io::Result<ExitCode> {
    for part in &PARTS {
        let status = part.run_small(rt, threads)?;
        if status != ExitCode::SUCCESS {
            return Ok(status);
        }
    }
    Ok(ExitCode::SUCCESS)
}

fn main(rt: HostRuntime) -> io::Result<ExitCode> {
    let Some(words) = words(&rt) else {
        return usage(&rt);
    };
    let Some((first, rest)) = words.as_slice().split_first() else {
        return run_small(&rt, &rt);
    };
    match Part::of(first.as_str()) {
        Some(part) => part.run(&rt, &rt, rest),
        None => usage(&rt),
    }
}
