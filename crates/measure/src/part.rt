//! The parts of the program, by the words of the command line.

use crate::{chain, check, conn, engine, fleet, kv, lock, net, shard, text, weave};
use std::io;
use std::process::ExitCode;
use std::sync::Wait;
use std::thread::Threads;

/// What is measured.
#[derive(Clone, Copy)]
pub enum Part {
    /// An event loop on one core.
    Shard,

    /// Threads that go into one lock.
    Lock,

    /// Calls on one chain.
    Chain,

    /// Steps of a weave.
    Weave,

    /// A fleet with a thread for each worker.
    Fleet,

    /// Connections over links in memory.
    Conn,

    /// The same on the runtime.
    Engine,

    /// Connections over TCP without the runtime.
    Net,

    /// Scripts and transcripts.
    Text,

    /// A printed journal.
    Check,

    /// A map that is spread over colours.
    Kv,
}

/// All parts, in the order of their small runs.
pub static PARTS: [Part; 11] = [
    Part::Shard,
    Part::Lock,
    Part::Chain,
    Part::Weave,
    Part::Fleet,
    Part::Conn,
    Part::Engine,
    Part::Net,
    Part::Text,
    Part::Check,
    Part::Kv,
];

impl Part {
    /// The part of this name.
    pub fn of(word: &str) -> Option<Part> {
        match word {
            "shard" => Some(Part::Shard),
            "lock" => Some(Part::Lock),
            "chain" => Some(Part::Chain),
            "weave" => Some(Part::Weave),
            "fleet" => Some(Part::Fleet),
            "conn" => Some(Part::Conn),
            "engine" => Some(Part::Engine),
            "net" => Some(Part::Net),
            "text" => Some(Part::Text),
            "check" => Some(Part::Check),
            "kv" => Some(Part::Kv),
            _ => None,
        }
    }

    /// Runs the part by its words, with threads of the second handle, which is the same runtime:
    /// only where a program begins does it have threads to give.
    pub fn run<T: AllocGlobal + Threads + Wait + Sync>(
        self,
        rt: &HostRuntime,
        threads: &T,
        words: &[String],
    ) -> io::Result<ExitCode> {
        match self {
            Part::Shard => shard::run(rt, words),
            Part::Lock => lock::run(rt, threads, words),
            Part::Chain => chain::run(rt, words),
            Part::Weave => weave::run(rt, threads, words),
            Part::Fleet => fleet::run(rt, threads, words),
            Part::Conn => conn::run(rt, words),
            Part::Engine => engine::run(rt, threads, words),
            Part::Net => net::run(rt, threads, words),
            Part::Text => text::run(rt, words),
            Part::Check => check::run(rt, words),
            Part::Kv => kv::run(rt, threads, words),
        }
    }

    /// A run of the part that takes less than a second. `Net` has none: it waits for clients.
    pub fn run_small<T: AllocGlobal + Threads + Wait + Sync>(
        self,
        rt: &HostRuntime,
        threads: &T,
    ) -> io::Result<ExitCode> {
        match self {
            Part::Shard => shard::run_small(rt),
            Part::Lock => lock::run_small(rt, threads),
            Part::Chain => chain::run_small(rt),
            Part::Weave => weave::run_small(rt, threads),
            Part::Fleet => fleet::run_small(rt, threads),
            Part::Conn => conn::run_small(rt),
            Part::Engine => engine::run_small(rt, threads),
            Part::Net => Ok(ExitCode::SUCCESS),
            Part::Text => text::run_small(rt),
            Part::Check => check::run_small(rt),
            Part::Kv => kv::run_small(rt, threads),
        }
    }
}
