//! `example_chat_server PORT CLIENTS [WORKERS]`: a room over TCP in which so many clients talk.
//!
//! It listens on 127.0.0.1, says where, and takes so many connections in all. Each line that a
//! client says is sent to every other client that is there, as `N: text`, where `N` is the number
//! of who said it, by the order in which they came. All see the lines in one order. A line has 512
//! bytes at most, and 64 KiB at most may be on their way to a client: who says or takes more is
//! dropped. When all clients have left, the program says how each of them did, and ends.
//!
//! It is an example of colours with sockets: a colour for each client, one for the room, and one
//! that asks the machine; no handler takes a lock. The statuses are 2 for wrong words, 6 where
//! nobody can listen at the port or the network failed, and 7 for want of memory.
#![tactic(auto)]

mod serving;
mod words;

use serving::{Fault, serve};
use std::io;
use std::process::ExitCode;
use words::read_words;

fn main(rt: HostRuntime) -> io::Result<ExitCode> {
    let Some(words) = read_words(&rt) else {
        eprintln!(rt; "usage: example_chat_server PORT CLIENTS [WORKERS]")?;
        eprintln!(rt; "CLIENTS is from 1 to 1024, and WORKERS from 1 to 64; PORT 0 is any port")?;
        return Ok(ExitCode::from(2));
    };
    match serve(&rt, &rt, &words) {
        Ok(()) => Ok(ExitCode::SUCCESS),
        Err(Fault::Listen(error)) => {
            eprintln!(rt;
                "example_chat_server: can't listen at port {}: {error}",
                words.port
            )?;
            Ok(ExitCode::from(6))
        }
        Err(Fault::Network) => {
            eprintln!(rt; "example_chat_server: the network failed")?;
            Ok(ExitCode::from(6))
        }
        Err(Fault::Memory) => {
            eprintln!(rt; "example_chat_server: no memory")?;
            Ok(ExitCode::from(7))
        }
    }
}
