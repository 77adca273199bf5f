//! The program, from its words to its status.
use crate::serving::{Served, serve_folder};
use std::alloc::{AllocError, Global};
use std::env;
use std::io::ErrorKind;
use std::process::ExitCode;
use std::rt::Clock;
use std::sync::Wait;
use std::thread::{self, Threads};
use sws_outbox::{Outbox, write_out};
use swsd_words::{Order, WordsFault, read_order};

/// Runs the program on the machine, with threads of the second handle, which is the same runtime:
/// only where a program begins does it have threads to give. What is said of a fault goes to
/// standard error, and the totals to standard output.
pub fn command<T: AllocGlobal + Threads + Wait + Sync + Clock>(
    rt: &HostRuntime,
    threads: &T,
) -> ExitCode {
    ExitCode::from(run(rt, threads))
}

/// The words, the program's name first.
fn words(rt: &HostRuntime) -> Result<Vec<String>, WordsFault> {
    match env::args(rt) {
        Ok(args) => Ok(args.collect(rt.alloc())?),
        Err(error) if matches!(error.kind(), ErrorKind::OutOfMemory) => Err(WordsFault::Memory),
        Err(_) => Err(WordsFault::NotText),
    }
}

/// How many processors the machine has for this program.
fn processors<T: Threads>(threads: &T) -> usize {
    match thread::available_parallelism(threads) {
        Ok(count) => count.get(),
        Err(_) => 1,
    }
}

/// Runs the program, and answers its status.
fn run<T: AllocGlobal + Threads + Wait + Sync + Clock>(rt: &HostRuntime, threads: &T) -> u8 {
    let order = match words(rt) {
        Ok(words) => read_order(rt.alloc(), &words, processors(threads)),
        Err(fault) => Err(fault),
    };
    let order = match order {
        Ok(order) => order,
        Err(fault) => return refuse(rt, &fault),
    };
    let outbox = Outbox::new(rt.alloc());
    let ((), status) = thread::join(
        threads,
        || write_out(threads, &outbox),
        || {
            let status = serve(rt, threads, order, &outbox);
            outbox.end(threads);
            status
        },
    );
    status
}

/// Serves the folder of the order, leaves what is to be said of that in the outbox, and answers the
/// status.
fn serve<T: AllocGlobal + Threads + Wait + Sync + Clock>(
    rt: &HostRuntime,
    threads: &T,
    order: Order,
    outbox: &Outbox,
) -> u8 {
    match serve_folder(rt, threads, order, outbox) {
        Ok(served) => end(threads, &served, outbox),
        Err(fault) => {
            match format!(in outbox.alloc(); "swsd: {fault}\n") {
                Ok(line) => {
                    outbox.tell(threads, line.as_bytes());
                }
                Err(_) => outbox.lose_message(threads),
            }
            fault.status()
        }
    }
}

/// Says why the words are no order, and answers the status: 0 where help or version was asked for.
fn refuse(rt: &HostRuntime, fault: &WordsFault) -> u8 {
    match fault {
        WordsFault::Told(error) => {
            let _ = error.print(rt);
            if error.use_stderr() { 2 } else { 0 }
        }
        WordsFault::Memory => {
            let _ = eprint!(rt; "{fault}");
            7
        }
        WordsFault::Listen(_)
        | WordsFault::ManyAddresses(_)
        | WordsFault::Front(_)
        | WordsFault::Proxy(_)
        | WordsFault::HeaderParts(_)
        | WordsFault::Header(_, _)
        | WordsFault::AgeParts(_)
        | WordsFault::Age(_, _)
        | WordsFault::TypeParts(_)
        | WordsFault::Type(_, _) => {
            let _ = eprint!(rt; "{fault}");
            2
        }
        WordsFault::NotText => {
            let _ = eprint!(rt; "{fault}");
            2
        }
    }
}

/// How many connections were refused, where they are counted.
fn refused_text(alloc: Global, refused: Option<u64>) -> Result<String, AllocError> {
    match refused {
        Some(count) => format!(in alloc; " refused {count}"),
        None => Ok(String::new(alloc)),
    }
}

/// The totals as text.
fn totals_text(alloc: Global, served: &Served) -> Result<String, AllocError> {
    let totals = &served.totals;
    let refused = refused_text(alloc, served.refused)?;
    format!(in alloc;
        "generations {} connections {} done {} idle {} fault {}{refused}\nread {} written {}\n",
        totals.generations,
        totals.connections,
        totals.done,
        totals.idle,
        totals.fault,
        totals.read,
        totals.written
    )
}

/// Leaves the totals for standard output, and answers the status.
fn end<T: Wait>(threads: &T, served: &Served, outbox: &Outbox) -> u8 {
    match totals_text(outbox.alloc(), served) {
        Ok(text) => {
            outbox.print(threads, text.as_bytes(), 2);
        }
        Err(_) => outbox.lose_lines(threads, 2),
    }
    served.fault.unwrap_or(0)
}
