//! `example_redis PORT CLIENTS [WORKERS] [--file PATH] [--stop-file PATH]`: a store of values under
//! keys that speaks the protocol of Redis, so that its clients can be clients of this.
//!
//! It listens on 127.0.0.1, says where, and takes so many connections in all, up to 1,024; when all
//! of them have ended it says how many failed, and ends. Once the last has come, nobody takes
//! further ones, and who moves less than 240 bytes a second for five seconds is cut, as by `swsd`.
//! At SHUTDOWN, and once the stop file is there, it takes nobody either, and cuts after five seconds
//! whoever is still there.
//! Without words it takes standard input for what one client sends, and writes what that client is
//! told: so a file of requests can be tried without a network.
//!
//! It knows PING, ECHO, GET, SET (with NX, XX, GET, EX, PX, EXAT, PXAT and KEEPTTL), SETNX, SETEX,
//! PSETEX, GETSET, DEL, EXISTS, MGET, MSET, INCR, DECR, INCRBY, DECRBY, APPEND, STRLEN, EXPIRE,
//! PEXPIRE, EXPIREAT, PEXPIREAT, TTL, PTTL, PERSIST, DBSIZE, KEYS, FLUSHALL, INFO, COMMAND (which
//! lists none), SHUTDOWN and QUIT, as arrays of bulk strings or as lines. A key has 1,024 bytes at most, a
//! value 65,536, a request 262,144 and 1,024 words. With a file it begins with what that has, and is
//! written there when it ends.
//!
//! It is an example of a service, to copy: `frame.rt` says where a request ends, `asking.rt` what
//! it asks and of which cell, `value.rt` what becomes of the value of a key, `life.rt` how long it is
//! there, `reply.rt` how a reply is written, `glob.rt` which keys a pattern matches, and `store.rt`
//! puts these together. A key is in the cell of its hash, so all processors serve keys at once, and
//! no handler takes a lock. Each request tells its cells the time, and a value whose deadline has
//! come isn't there.
//!
//! The statuses are 2 for wrong words, 4 for a file that is torn or damaged, 5 for one that can't be
//! read or written, 6 where nobody can listen at the port or the network failed,
//! and 7 for want of memory.
#![tactic(auto)]

mod asking;
mod frame;
mod glob;
mod heard;
mod keeping;
mod laws;
mod life;
mod limits;
mod number;
mod outside;
mod over_bytes;
mod over_tcp;
mod reply;
mod request;
mod saved;
mod several;
mod store;
mod value;
mod verb;
mod words;

use over_bytes::serve_bytes;
use over_tcp::{Fault, serve_tcp};
use saved::Unsaved;
use std::io;
use std::io::{Read, Write};
use std::process::ExitCode;
use std::sync::Wait;
use std::thread::Threads;
use words::{Listening, Words, read_words};

/// Serves what standard input has. Threads are of the second handle, which is the same runtime.
fn serve_input<R: Threads + Wait + Sync>(rt: &HostRuntime, threads: &R) -> io::Result<ExitCode> {
    let mut bytes = Vec::new(rt.alloc());
    rt.reader().read_to_end(&mut bytes)?;
    match serve_bytes(threads, rt.alloc(), bytes) {
        Ok(told) => {
            io::writer(rt).write_all(told.as_slice())?;
            Ok(ExitCode::SUCCESS)
        }
        Err(_) => {
            eprintln!(rt; "example_redis: no memory")?;
            Ok(ExitCode::from(7))
        }
    }
}

/// The path of the file.
fn file_of(words: &Listening) -> &str {
    match &words.file {
        Some(path) => path.as_str(),
        None => "no file",
    }
}

/// Says why a file isn't a store.
fn tell_unsaved(rt: &HostRuntime, words: &Listening, unsaved: Unsaved) -> io::Result<()> {
    let path = file_of(words);
    match unsaved {
        Unsaved::Torn(place) => eprintln!(rt; "example_redis: {path} is torn behind byte {place}"),
        Unsaved::Damaged(place) => {
            eprintln!(rt; "example_redis: {path} is damaged behind byte {place}")
        }
        Unsaved::Memory => eprintln!(rt; "example_redis: no memory"),
    }
}

/// The status of a file that isn't a store.
fn unsaved_status(unsaved: Unsaved) -> u8 {
    match unsaved {
        Unsaved::Torn(_) | Unsaved::Damaged(_) => 4,
        Unsaved::Memory => 7,
    }
}

fn main(rt: HostRuntime) -> io::Result<ExitCode> {
    let words = match read_words(&rt) {
        Words::Port(words) => words,
        Words::Input => return serve_input(&rt, &rt),
        Words::Wrong => {
            eprintln!(rt;
                "usage: example_redis PORT CLIENTS [WORKERS] [--file PATH] [--stop-file PATH]"
            )?;
            eprintln!(rt; "       example_redis < REQUESTS")?;
            eprintln!(rt; "CLIENTS is from 1 to 1024, WORKERS from 1 to 64; PORT 0 is any port")?;
            return Ok(ExitCode::from(2));
        }
    };
    match serve_tcp(&rt, &rt, &words) {
        Ok(()) => Ok(ExitCode::SUCCESS),
        Err(Fault::Listen(error)) => {
            eprintln!(rt;
                "example_redis: can't listen at port {}: {error}",
                words.port
            )?;
            Ok(ExitCode::from(6))
        }
        Err(Fault::Unsaved(unsaved)) => {
            tell_unsaved(&rt, &words, unsaved)?;
            Ok(ExitCode::from(unsaved_status(unsaved)))
        }
        Err(Fault::File(error)) => {
            eprintln!(rt; "example_redis: {}: {error}", file_of(&words))?;
            Ok(ExitCode::from(5))
        }
        Err(Fault::Network) => {
            eprintln!(rt; "example_redis: the network failed")?;
            Ok(ExitCode::from(6))
        }
        Err(Fault::Memory) => {
            eprintln!(rt; "example_redis: no memory")?;
            Ok(ExitCode::from(7))
        }
    }
}
